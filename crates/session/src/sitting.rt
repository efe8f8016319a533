//! A session that read a hello.
ghost use Rattle.std.specs.Prelude.{◌≡◌, ◌≤◌, ◌⊎◌, ℕ, []};
ghost use Rattle.line_io.specs.Counts.{CountRose};
ghost use Rattle.line_io.specs.Reader.{bytes_to_come};
ghost use Rattle.turn_lock.specs.Pass.{IsPassOf};
ghost use Rattle.campaign_law.specs.Law.{IsOpening};
ghost use Rattle.session.specs.Inputs.{IsReaderOf};
ghost use Rattle.session.specs.Ends.{WroteLine, ended_by as ended_by_lem, ended_at};
ghost use Rattle.session.specs.Own.{Grew};
ghost use Rattle.session.specs.Sat.{HasSat};
ghost use Rattle.session.specs.JoinTurn.{TakesSeat};
ghost use Rattle.session.specs.Safely.{SaysSafely};

use crate::Table;
use crate::halves::run_halves;
use crate::hearing::ReadEnd;
use crate::hold::Hold;
use crate::input::Stop;
use crate::joining::{Joined, Joining};
use crate::writing::{Wrote, write_alone};
use line_io::{LineReader, Outlet, Source};
use names::{LineText, SeatNo};
use seats::JoinRefusal;
use std::alloc::Global;
use std::sync::Wait;
use std::thread::Threads;
use turn_lock::{Hall, Pass};

/// How a session ended: the first of these whose cause holds, in the order Refused, WriteFault, Memory, Cut, ReadFault,
/// TooLong, Spent, Left.
#[derive(Clone, Copy, Debug, PartialEq, Eq)]
pub enum Ended {
    /// A bye was entered, or the input was read to its end.
    Left,
    /// The Join was refused for this cause; NoHello where the first line was no hello.
    Refused(JoinRefusal),
    /// 4,097 bytes came without LF.
    TooLong,
    /// The session's Join or a line of it was the seat's last.
    Spent,
    /// The seat was cut while the session's passes held it as Joined: too much waited for it.
    Cut,
    /// The input failed, and counted it.
    ReadFault,
    /// The output failed, and counted it.
    WriteFault,
    /// Want of memory.
    Memory,
}

/// Joins by the hello, and then runs both halves.
pub(crate) fn sit<R: Threads + Wait + Sync, I: Source + Send, O: Outlet + Send>(
    rt: &R,
    alloc: Global,
    hall: &Hall<Table>,
    reader: &mut Pass<Table>,
    writer: &mut Pass<Table>,
    seat: SeatNo,
    key: LineText,
    lines: &mut LineReader,
    input: &mut I,
    output: &mut O,
) -> Ended
    requires reader { IsPassOf hall.now reader.old }
    requires writer { IsPassOf hall.now writer.old }
    requires opening { IsOpening hall.now.origin }
    requires lines { IsReaderOf lines.old (I.left input.old) }
    ensures reader { IsPassOf hall.now reader.new }
    ensures writer { IsPassOf hall.now writer.new }
    ensures lines { IsReaderOf lines.new (I.left input.new) }
    ensures grew { Grew reader.old reader.new × Grew writer.old writer.new }
    ensures sat { HasSat hall.now.origin seat key reader.old reader.new writer.old writer.new (bytes_to_come lines.old (I.left input.old))
        lines.new (I.left input.new) (O.written output.old) (O.written output.new) (O.faults_of output.old)
        (O.faults_of output.new) result }
    ensures safe { SaysSafely (O.safe output.new) hall.now.origin reader.old reader.new writer.old writer.new
        (O.written output.old) (O.written output.new) }
    ensures input_count { I.faults_of input.old ≤ I.faults_of input.new }
    ensures read_fault { result ≡ Ended.ReadFault → CountRose (I.faults_of input.old) (I.faults_of input.new) }
    ensures output_count { O.faults_of output.old ≤ O.faults_of output.new }
    ensures write_fault { result ≡ Ended.WriteFault → CountRose (O.faults_of output.old) (O.faults_of output.new) }
{
    let number = writer.number();
    let place = match join(rt, hall, reader, seat, key, number) {
        Joined::Memory => return Ended::Memory,
        Joined::Refused {
            refusal,
            line,
            length,
        } => {
            write_line(rt, &line, length, output);
            return Ended::Refused(refusal);
        }
        Joined::Seated { place, reads: true } => place,
        Joined::Seated {
            place,
            reads: false,
        } => {
            let hold = Hold {
                seat,
                place,
                reader: reader.number(),
                writer: number,
            };
            let wrote = write_alone(rt, hall, writer, &hold, output);
            return ended_by(ReadEnd::Spent, wrote);
        }
    };
    let hold = Hold {
        seat,
        place,
        reader: reader.number(),
        writer: number,
    };
    let ((read, _), wrote) = run_halves(
        rt, alloc, hall, reader, writer, &hold, lines, input, output,
    );
    ended_by(read, wrote)
}

// One turn, in which the session joins.
fn join<R: Wait>(
    rt: &R,
    hall: &Hall<Table>,
    pass: &mut Pass<Table>,
    seat: SeatNo,
    key: LineText,
    writer: u64,
) -> Joined
    requires { IsPassOf hall.now pass.old }
    ensures hall { IsPassOf hall.now pass.new }
    ensures turn { TakesSeat hall.now.origin seat key writer result pass.old pass.new }
{
    let reader = pass.number();
    let mut turn = Joining {
        seat,
        key: Some(key),
        reader,
        writer,
        entered: false,
        joined: Joined::Memory,
    };
    hall.act(rt, pass, &mut turn);
    let Joining {
        seat: _,
        key: _,
        reader: _,
        writer: _,
        entered: _,
        joined,
    } = turn;
    joined
}

/// Writes the line and its LF, as far as the output takes them. They tell of the first `length` entries.
pub(crate) fn write_line<R: Wait, O: Outlet>(rt: &R, line: &LineText, length: u64, output: &mut O)
    ensures wrote { WroteLine line.now (O.written output.old) (O.written output.new) (O.faults_of output.old) (O.faults_of output.new) }
    ensures count { O.faults_of output.old ≤ O.faults_of output.new }
    ensures safe { (O.written output.new ≡ O.written output.old) ⊎ O.safe output.new length }
{
    match output.tell(rt, line.bytes(), length) {
        Ok(()) => end_line(rt, length, output),
        Err(_) => {}
    }
}

fn end_line<R: Wait, O: Outlet>(rt: &R, length: u64, output: &mut O)
    ensures wrote { WroteLine [] (O.written output.old) (O.written output.new) (O.faults_of output.old) (O.faults_of output.new) }
    ensures count { O.faults_of output.old ≤ O.faults_of output.new }
    ensures safe { (O.written output.new ≡ O.written output.old) ⊎ O.safe output.new length }
    ensures still { (n : ℕ) → O.safe output.old n → O.safe output.new n }
{
    match output.tell(rt, b"\n", length) {
        Ok(()) => {}
        Err(_) => {}
    }
}

/// How a session ended whose reading stopped so.
pub(crate) fn stopped(stop: Stop) -> Ended
    ensures { result ≡ ended_at stop }
{
    match stop {
        Stop::End => Ended::Left,
        Stop::TooLong => Ended::TooLong,
        Stop::ReadFault => Ended::ReadFault,
        Stop::Memory => Ended::Memory,
    }
}

fn ended_by(read: ReadEnd, wrote: Wrote) -> Ended
    ensures { result ≡ ended_by_lem read wrote }
{
    match wrote {
        Wrote::WriteFault => Ended::WriteFault,
        Wrote::Memory => Ended::Memory,
        Wrote::Cut => {
            if read.is_memory() {
                Ended::Memory
            } else {
                Ended::Cut
            }
        }
        Wrote::All => match read {
            ReadEnd::Bye => Ended::Left,
            ReadEnd::Spent => Ended::Spent,
            ReadEnd::Cut => Ended::Cut,
            ReadEnd::Stopped(stop) => stopped(stop),
        },
    }
}
