//! Both halves of a session, side by side.
ghost use Rattle.std.specs.Prelude.{◌≡◌, ◌≤◌, Some};
ghost use Rattle.line_io.specs.Counts.{CountRose};
ghost use Rattle.line_io.specs.Reader.{bytes_to_come};
ghost use Rattle.turn_lock.specs.Pass.{IsPassOf};
ghost use Rattle.campaign_law.specs.Law.{IsOpening};
ghost use Rattle.session.specs.Begun.{IsAtStart, IsWritten};
ghost use Rattle.session.specs.Inputs.{IsReaderOf, Stops};
ghost use Rattle.session.specs.declared.hearing.ReadEnd.TheVariants.{Stopped};
ghost use Rattle.session.specs.Heard.{HasHeard};
ghost use Rattle.session.specs.Written.{HasWritten};
ghost use Rattle.session.specs.Safely.{WritesSafely};

use crate::Table;
use crate::attended::Attended;
use crate::hearing::{ReadEnd, read_half};
use crate::hold::Hold;
use crate::input::Stop;
use crate::pace::Pace;
use crate::pen::{Ends, Pen};
use crate::start::Start;
use crate::writing::{Wrote, write_half};
use line_io::{LineReader, Outlet, Source};
use std::alloc::Global;
use std::marker::Brand;
use std::sync::{Mutex, Wait};
use std::thread::{Threads, join_mut};
use turn_lock::{Hall, Pass};

// The ends of a session and its input, and how its halves ended, once they are over.
struct Sides<'a, I, O> {
    writing: &'a mut Pass<Table>,
    output: &'a mut O,
    input: &'a mut I,
    read: (ReadEnd, bool),
    wrote: Wrote,
}

/// The two halves of an accepted session, each by its own pass and in a thread of its own.
pub(crate) fn run_halves<R: Threads + Wait + Sync, I: Source + Send, O: Outlet + Send>(
    rt: &R,
    alloc: Global,
    hall: &Hall<Table>,
    reading: &mut Pass<Table>,
    writing: &mut Pass<Table>,
    hold: &Hold,
    lines: &mut LineReader,
    input: &mut I,
    output: &mut O,
) -> ((ReadEnd, bool), Wrote)
    requires reading { IsPassOf hall.now reading.old }
    requires writing { IsPassOf hall.now writing.old }
    requires opening { IsOpening hall.now.origin }
    requires lines { IsReaderOf lines.old (I.left input.old) }
    ensures reading { IsPassOf hall.now reading.new }
    ensures writing { IsPassOf hall.now writing.new }
    ensures lines { IsReaderOf lines.new (I.left input.new) }
    ensures heard { HasHeard hall.now.origin hold.now reading.old reading.new result.0.0 result.0.1
        (bytes_to_come lines.old (I.left input.old)) (bytes_to_come lines.new (I.left input.new)) }
    ensures stops { (stop : Stop) → result.0.0 ≡ Stopped stop → Stops stop lines.new (I.left input.new) }
    ensures written { HasWritten hall.now.origin hold.now writing.old writing.new result.1 (O.written output.old) (O.written output.new) }
    ensures safe { WritesSafely (O.safe output.new) hall.now.origin hold.now writing.old writing.new
        (O.written output.old) (O.written output.new) }
    ensures input_count { I.faults_of input.old ≤ I.faults_of input.new }
    ensures read_fault { result.0.0 ≡ Stopped Stop.ReadFault → CountRose (I.faults_of input.old) (I.faults_of input.new) }
    ensures output_count { O.faults_of output.old ≤ O.faults_of output.new }
    ensures write_fault { result.1 ≡ Wrote.WriteFault → CountRose (O.faults_of output.old) (O.faults_of output.new) }
{
    let sides = Sides {
        writing,
        output,
        input,
        read: (ReadEnd::Bye, false),
        wrote: Wrote::All,
    };
    let sides = run_begun::<Brand, R, I, O>(rt, alloc, hall, reading, hold, lines, sides);
    let Sides {
        writing: _,
        output: _,
        input: _,
        read,
        wrote,
    } = sides;
    (read, wrote)
}

// Both halves, where it is told what they began with.
fn run_begun<
    'a,
    S: Start + Send + Sync,
    R: Threads + Wait + Sync,
    I: Source + Send,
    O: Outlet + Send,
>(
    rt: &R,
    alloc: Global,
    hall: &Hall<Table>,
    reading: &mut Pass<Table>,
    hold: &Hold,
    lines: &mut LineReader,
    sides: Sides<'a, I, O>,
) -> Sides<'a, I, O>
    requires hall { hall.now ≡ S.begun.hall }
    requires hold { hold.now ≡ S.begun.hold }
    requires names { (sides.writing.ghost_name ≡ S.begun.pass_name) × (sides.output.ghost_name ≡ S.begun.output_name) }
    requires input { sides.input.ghost_name ≡ S.begun.input_name }
    requires start { IsAtStart S.begun sides.writing.now (O.written sides.output.now) (O.faults_of sides.output.now) }
    requires opening { IsOpening hall.now.origin }
    requires reading { IsPassOf hall.now reading.old }
    requires lines { IsReaderOf lines.old (I.left sides.input.now) }
    ensures same_pass { result.writing.ghost_name ≡ sides.entry.writing.ghost_name }
    ensures same_output { result.output.ghost_name ≡ sides.entry.output.ghost_name }
    ensures same_input { result.input.ghost_name ≡ sides.entry.input.ghost_name }
    ensures reading { IsPassOf hall.now reading.new }
    ensures lines { IsReaderOf lines.new (I.left result.input.now) }
    ensures heard { HasHeard hall.now.origin hold.now reading.old reading.new result.read.0 result.read.1
        (bytes_to_come lines.old (I.left sides.entry.input.now)) (bytes_to_come lines.new (I.left result.input.now)) }
    ensures stops { (stop : Stop) → result.read.0 ≡ Stopped stop → Stops stop lines.new (I.left result.input.now) }
    ensures written { IsWritten S.begun (O.safe result.output.now) result.writing.now (Some result.wrote)
        (O.written result.output.now) (O.faults_of result.output.now) }
    ensures input_count { I.faults_of sides.entry.input.now ≤ I.faults_of result.input.now }
    ensures read_fault { result.read.0 ≡ Stopped Stop.ReadFault
        → CountRose (I.faults_of sides.entry.input.now) (I.faults_of result.input.now) }
{
    let Sides {
        writing,
        output,
        input,
        read: _,
        wrote: _,
    } = sides;
    let ends = Ends {
        pass: writing,
        output,
    };
    let pace = Pace::new(hold.place.saturating_add(1));
    let pen: Mutex<Pen<'a, S, O>> = Mutex::new(Pen::new(rt, hall, hold, ends));
    let (input, read) = side_by_side(rt, alloc, hall, reading, hold, &pace, &pen, lines, input);
    let mut pen = pen.into_inner();
    let wrote = pen.write_to_end(rt, hall, hold, &pace);
    let Ends {
        pass: writing,
        output,
    } = pen.into_ends();
    Sides {
        writing,
        output,
        input,
        read,
        wrote,
    }
}

// The threads of the halves.
fn side_by_side<
    'a,
    S: Start + Send + Sync,
    R: Threads + Wait + Sync,
    I: Source + Send,
    O: Outlet + Send,
>(
    rt: &R,
    alloc: Global,
    hall: &Hall<Table>,
    reading: &mut Pass<Table>,
    hold: &Hold,
    pace: &Pace,
    pen: &Mutex<Pen<'a, S, O>>,
    lines: &mut LineReader,
    input: &'a mut I,
) -> (&'a mut I, (ReadEnd, bool))
    requires hall { hall.now ≡ S.begun.hall }
    requires hold { hold.now ≡ S.begun.hold }
    requires name { input.ghost_name ≡ S.begun.input_name }
    requires reading { IsPassOf hall.now reading.old }
    requires opening { IsOpening hall.now.origin }
    requires lines { IsReaderOf lines.old (I.left input.now) }
    ensures name { result.0.ghost_name ≡ input.entry.ghost_name }
    ensures reading { IsPassOf hall.now reading.new }
    ensures lines { IsReaderOf lines.new (I.left result.0.now) }
    ensures heard { HasHeard hall.now.origin hold.now reading.old reading.new result.1.0 result.1.1
        (bytes_to_come lines.old (I.left input.old)) (bytes_to_come lines.new (I.left result.0.now)) }
    ensures stops { (stop : Stop) → result.1.0 ≡ Stopped stop → Stops stop lines.new (I.left result.0.now) }
    ensures count { I.faults_of input.old ≤ I.faults_of result.0.now }
    ensures read_fault { result.1.0 ≡ Stopped Stop.ReadFault → CountRose (I.faults_of input.old) (I.faults_of result.0.now) }
{
    let mut attended = Attended::new(rt, hall, hold, pace, pen, input);

    // Where no second thread can be made, the second one is run first: the lines are read and entered, and what waits is written
    // before each read. The other way round it would wait for ever for lines that nobody reads.
    let (_, read) = join_mut(
        rt,
        &mut || write_half(rt, hall, hold, pace, pen),
        &mut || read_half(rt, alloc, hall, reading, hold, pace, lines, &mut attended),
    );
    let Attended {
        rt: _,
        hall: _,
        hold: _,
        pace: _,
        pen: _,
        input,
    } = attended;
    (input, read)
}
