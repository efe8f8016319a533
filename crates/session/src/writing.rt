//! The writing half of a session.
ghost use Rattle.std.specs.Prelude.{◌≡◌, ◌≤◌, ◌⊎◌, ℕ, Err, Some};
ghost use Rattle.line_io.specs.Counts.{CountRose};
ghost use Rattle.turn_lock.specs.Pass.{IsPassOf};
ghost use Rattle.campaign_law.specs.Law.{IsOpening};
ghost use Rattle.session.specs.Begun.{IsAtStart, IsWritten};
ghost use Rattle.session.specs.Written.{HasWritten};
ghost use Rattle.session.specs.Safely.{WritesSafely};
ghost use Rattle.session.specs.Sent.{Sends, Exchanges, Drops};

use crate::Table;
use crate::exchange::{Exchange, Found};
use crate::hold::Hold;
use crate::leaving::Leaving;
use crate::pace::Pace;
use crate::pen::{Ends, Pen, Step};
use crate::start::Start;
use line_io::Outlet;
use names::LineText;
use std::marker::Brand;
use std::sync::{Mutex, Wait};
use turn_lock::{Hall, Pass};

/// How the writing half ended.
#[derive(Clone, Copy, Debug, PartialEq, Eq)]
pub(crate) enum Wrote {
    /// Its passes no longer held the seat.
    All,
    /// They no longer held it, and the session was cut.
    Cut,
    /// Want of memory.
    Memory,
    /// The output failed, and counted it.
    WriteFault,
}

/// Writes the lines that wait for the session, until its passes no longer hold its seat.
pub(crate) fn write_half<S: Start, R: Wait, O: Outlet>(
    rt: &R,
    hall: &Hall<Table>,
    hold: &Hold,
    pace: &Pace,
    pen: &Mutex<Pen<'_, S, O>>,
)
    requires hall { hall.now ≡ S.begun.hall }
    requires hold { hold.now ≡ S.begun.hold }
{
    for _ in rt.forever() {
        match write_locked(rt, hall, hold, pace, pen) {
            Step::More => {}
            Step::Idle(seen) => rest(rt, hall, pace, seen),
            Step::Over(_) => return,
        }
    }
    unreachable!()
}

// Takes a break, and then naps or waits for an act.
fn rest<R: Wait>(rt: &R, hall: &Hall<Table>, pace: &Pace, seen: u64) {
    pace.take_break(rt);
    if !pace.nap(rt) {
        hall.wait_act(rt, seen);
    }
}

// Writes what waits, once the reading half doesn't.
fn write_locked<S: Start, R: Wait, O: Outlet>(
    rt: &R,
    hall: &Hall<Table>,
    hold: &Hold,
    pace: &Pace,
    pen: &Mutex<Pen<'_, S, O>>,
) -> Step
    requires hall { hall.now ≡ S.begun.hall }
    requires hold { hold.now ≡ S.begun.hold }
{
    pen.lock(rt).write_all(rt, hall, hold, pace)
}

/// Writes what waits for a session whose lines aren't read, until its passes no longer hold its seat.
pub(crate) fn write_alone<R: Wait, O: Outlet>(
    rt: &R,
    hall: &Hall<Table>,
    pass: &mut Pass<Table>,
    hold: &Hold,
    output: &mut O,
) -> Wrote
    requires hall { IsPassOf hall.now pass.old }
    requires opening { IsOpening hall.now.origin }
    ensures hall { IsPassOf hall.now pass.new }
    ensures written { HasWritten hall.now.origin hold.now pass.old pass.new result (O.written output.old) (O.written output.new) }
    ensures safe { WritesSafely (O.safe output.new) hall.now.origin hold.now pass.old pass.new
        (O.written output.old) (O.written output.new) }
    ensures count { O.faults_of output.old ≤ O.faults_of output.new }
    ensures write_fault { result ≡ Wrote.WriteFault → CountRose (O.faults_of output.old) (O.faults_of output.new) }
{
    let side = Side {
        pass,
        output,
        wrote: Wrote::All,
    };
    let side = write_begun::<Brand, R, O>(rt, hall, hold, side);
    let Side {
        pass: _,
        output: _,
        wrote,
    } = side;
    wrote
}

// The ends of a session, and how its writing ended, once it is over.
struct Side<'a, O> {
    pass: &'a mut Pass<Table>,
    output: &'a mut O,
    wrote: Wrote,
}

// So where it is told what it began with.
fn write_begun<'a, S: Start, R: Wait, O: Outlet>(
    rt: &R,
    hall: &Hall<Table>,
    hold: &Hold,
    side: Side<'a, O>,
) -> Side<'a, O>
    requires hall { hall.now ≡ S.begun.hall }
    requires hold { hold.now ≡ S.begun.hold }
    requires names { (side.pass.ghost_name ≡ S.begun.pass_name) × (side.output.ghost_name ≡ S.begun.output_name) }
    requires start { IsAtStart S.begun side.pass.now (O.written side.output.now) (O.faults_of side.output.now) }
    ensures same_pass { result.pass.ghost_name ≡ side.entry.pass.ghost_name }
    ensures same_output { result.output.ghost_name ≡ side.entry.output.ghost_name }
    ensures written { IsWritten S.begun (O.safe result.output.now) result.pass.now (Some result.wrote)
        (O.written result.output.now) (O.faults_of result.output.now) }
{
    let Side {
        pass,
        output,
        wrote: _,
    } = side;
    let mut pen: Pen<'a, S, O> = Pen::new(rt, hall, hold, Ends { pass, output });
    let wrote = pen.write_to_end(rt, hall, hold, &Pace::new(0));
    let Ends { pass, output } = pen.into_ends();
    Side {
        pass,
        output,
        wrote,
    }
}

/// One turn: how many lines were written, and those that wait then. The length is that of the history, and the last number is what
/// `wait_act` takes. Nobody waits for a Taken, so it wakes nobody.
pub(crate) fn exchange<R: Wait>(
    rt: &R,
    hall: &Hall<Table>,
    pass: &mut Pass<Table>,
    hold: &Hold,
    pace: &Pace,
    count: u64,
    news: bool,
) -> (Found, u64, u64)
    requires { IsPassOf hall.now pass.old }
    ensures hall { IsPassOf hall.now pass.new }
    ensures turn { Exchanges hall.now.origin hold.now count result.0 result.1 pass.old pass.new }
{
    let mut turn = Exchange::of(hold.copy(), count, news);
    let seen = hall.act_quietly(rt, pass, &mut turn);
    let Exchange {
        hold: _,
        found,
        length,
        count: _,
        news: _,
        entered: _,
    } = turn;
    pace.found(length);
    (found, length, seen)
}

/// One turn, the last, in which the session leaves the seat and its waiting lines are dropped.
pub(crate) fn leave<R: Wait>(
    rt: &R,
    hall: &Hall<Table>,
    pass: &mut Pass<Table>,
    hold: &Hold,
    pace: &Pace,
)
    requires { IsPassOf hall.now pass.old }
    ensures hall { IsPassOf hall.now pass.new }
    ensures turn { Drops hall.now.origin hold.now pass.old pass.new }
{
    let mut turn = Leaving {
        hold: hold.copy(),
        drop: true,
        entered: false,
        cut: false,
    };
    hall.act(rt, pass, &mut turn);
    pace.end();
}

/// So many further lines in one piece, which a history of this length has, and then how many were written in all.
pub(crate) fn send<R: Wait, O: Outlet>(
    rt: &R,
    text: &LineText,
    count: u64,
    lines: u64,
    length: u64,
    output: &mut O,
) -> Result<u64, Wrote>
    ensures sends { Sends result text.now count lines (O.written output.old) (O.written output.new) }
    ensures safe { (O.written output.new ≡ O.written output.old) ⊎ O.safe output.new length }
    ensures still { (n : ℕ) → O.safe output.old n → O.safe output.new n }
    ensures count { O.faults_of output.old ≤ O.faults_of output.new }
    ensures write_fault { result ≡ Err Wrote.WriteFault → CountRose (O.faults_of output.old) (O.faults_of output.new) }
{
    let Some(next) = count.checked_add(lines) else {
        return Err(Wrote::Memory);
    };
    match output.tell(rt, text.bytes(), length) {
        Ok(()) => Ok(next),
        Err(_) => Err(Wrote::WriteFault),
    }
}
