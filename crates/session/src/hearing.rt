//! The reading half of a session.
ghost use Rattle.std.specs.Prelude.{◌≡◌, ◌≤◌, true, false};
ghost use Rattle.line_io.specs.Counts.{CountRose};
ghost use Rattle.line_io.specs.Reader.{bytes_to_come};
ghost use Rattle.turn_lock.specs.Pass.{IsPassOf};
ghost use Rattle.campaign_law.specs.Law.{IsOpening};
ghost use Rattle.session.specs.Inputs.{IsReaderOf, Stops};
ghost use Rattle.session.specs.declared.hearing.ReadEnd.TheVariants.{Stopped};
ghost use Rattle.session.specs.Heard.{HasHeard, stopped as stopped_lem};
ghost use Rattle.session.specs.Ends.{wants_memory};
ghost use Rattle.session.specs.Turned.{SpeaksIn, Leaves};

use crate::Table;
use crate::hold::Hold;
use crate::input::{Stop, next_line, read_on};
use crate::leaving::Leaving;
use crate::pace::Pace;
use crate::speaking::{Said, Speaking};
use entry_outcomes::ReadLine;
use line_io::{LineReader, Source};
use names::LineText;
use std::alloc::Global;
use std::sync::Wait;
use turn_lock::{Hall, Pass};

/// How the reading of an input ended.
#[derive(Clone, Copy, Debug, PartialEq, Eq)]
pub(crate) enum ReadEnd {
    /// A bye was entered.
    Bye,
    /// The seat's last line was entered.
    Spent,
    /// The session was cut.
    Cut,
    /// No further line was read.
    Stopped(Stop),
}

impl ReadEnd {
    /// Whether the reading ended for want of memory.
    pub(crate) fn is_memory(self) -> bool
        ensures { result ≡ wants_memory self }
    {
        matches!(self, ReadEnd::Stopped(Stop::Memory))
    }
}

/// Enters the lines of the input, each in a turn of its own and no further ahead of the writing half than the pace lets it, until
/// the session ends or the input does. Where the session was cut it ends. Where its passes no longer hold the seat as Joined for
/// another cause, it reads on to the end and enters nothing more; the second part of the answer tells that.
pub(crate) fn read_half<R: Wait, I: Source>(
    rt: &R,
    alloc: Global,
    hall: &Hall<Table>,
    pass: &mut Pass<Table>,
    hold: &Hold,
    pace: &Pace,
    reader: &mut LineReader,
    input: &mut I,
) -> (ReadEnd, bool)
    requires hall { IsPassOf hall.now pass.old }
    requires opening { IsOpening hall.now.origin }
    requires reader { IsReaderOf reader.old (I.left input.old) }
    ensures hall { IsPassOf hall.now pass.new }
    ensures reader { IsReaderOf reader.new (I.left input.new) }
    ensures heard { HasHeard hall.now.origin hold.now pass.old pass.new result.0 result.1 (bytes_to_come reader.old (I.left input.old))
        (bytes_to_come reader.new (I.left input.new)) }
    ensures stops { (stop : Stop) → result.0 ≡ Stopped stop → Stops stop reader.new (I.left input.new) }
    ensures count { I.faults_of input.old ≤ I.faults_of input.new }
    ensures read_fault { result.0 ≡ Stopped Stop.ReadFault → CountRose (I.faults_of input.old) (I.faults_of input.new) }
{
    for _ in rt.forever() {
        let line = match next_line(reader, input) {
            Ok(line) => line,
            Err(stop) => {
                let cut = leave(rt, hall, pass, hold);
                return (stopped(stop, cut), false);
            }
        };
        pace.wait(rt);
        match speak(rt, alloc, hall, pass, hold, pace, line) {
            Said::Goes => {}
            Said::Bye => return (ReadEnd::Bye, false),
            Said::Spent => return (ReadEnd::Spent, false),
            Said::Cut => return (ReadEnd::Cut, false),
            Said::Gone => return (ReadEnd::Stopped(read_on(rt, reader, input)), true),
            Said::Memory => {
                leave(rt, hall, pass, hold);
                return (ReadEnd::Stopped(Stop::Memory), false);
            }
        }
    }
    unreachable!()
}

// How the reading ended where no further line was read, and the session was cut or not. Want of memory is told first.
fn stopped(stop: Stop, cut: bool) -> ReadEnd
    ensures { result ≡ stopped_lem cut stop }
{
    if cut && !stop.is_memory() {
        return ReadEnd::Cut;
    }
    ReadEnd::Stopped(stop)
}

// One turn: the line, which is read before it, is entered, where the passes hold the seat as Joined.
fn speak<R: Wait>(
    rt: &R,
    alloc: Global,
    hall: &Hall<Table>,
    pass: &mut Pass<Table>,
    hold: &Hold,
    pace: &Pace,
    line: LineText,
) -> Said
    requires { IsPassOf hall.now pass.old }
    ensures hall { IsPassOf hall.now pass.new }
    ensures turn { SpeaksIn hall.now.origin hold.now line result pass.old pass.new }
{
    let ahead = ReadLine::of(alloc, line.bytes(), hold.seat.number() == 0);
    let mut turn = Speaking {
        hold: hold.copy(),
        line: Some(line),
        ahead,
        said: Said::Gone,
        length: 0,
        queued: 0,
        turn: None,
    };
    hall.act(rt, pass, &mut turn);
    pace.entered(turn.length, turn.queued);
    turn.said
}

// One turn, after which the seat's lines aren't read any more. Whether the session was cut.
fn leave<R: Wait>(rt: &R, hall: &Hall<Table>, pass: &mut Pass<Table>, hold: &Hold) -> bool
    requires { IsPassOf hall.now pass.old }
    ensures hall { IsPassOf hall.now pass.new }
    ensures turn { Leaves hall.now.origin hold.now result pass.old pass.new }
{
    let mut turn = Leaving {
        hold: hold.copy(),
        drop: false,
        entered: false,
        cut: false,
    };
    hall.act(rt, pass, &mut turn);
    turn.cut
}
