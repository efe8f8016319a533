//! The first line of a session, which is to be a hello.
ghost use Rattle.std.specs.Prelude.{◌≡◌, ◌≤◌, Ok, Some};
ghost use Rattle.line_io.specs.Counts.{CountRose};
ghost use Rattle.line_io.specs.Reader.{bytes_to_come};
ghost use Rattle.session.specs.Inputs.{IsReaderOf, Stops};
ghost use Rattle.campaign_law.specs.Hellos.{hello_part};
ghost use Rattle.session.specs.Hellos.{hello_in, Greets, Begins};
ghost use Rattle.session.specs.declared.first_line.FirstLine.TheVariants.{Missing};

use crate::input::{Stop, next_line};
use command_json::{Command, LineFault, read_line};
use line_io::{LineReader, Source};
use names::{LineText, SeatNo, Text};
use std::alloc::Global;

/// What the first line of an input is.
#[derive(Drop)]
pub(crate) enum FirstLine {
    /// A hello, by which the session joins.
    Hello { seat: SeatNo, key: LineText },
    /// Another line.
    Other,
    /// No line was read, or memory was wanting to read what it is.
    Missing(Stop),
}

/// Reads the first line.
pub(crate) fn read_first<I: Source>(
    alloc: Global,
    reader: &mut LineReader,
    input: &mut I,
) -> FirstLine
    requires { IsReaderOf reader.old (I.left input.old) }
    ensures reader { IsReaderOf reader.new (I.left input.new) }
    ensures begins { Begins result (bytes_to_come reader.old (I.left input.old)) (bytes_to_come reader.new (I.left input.new)) }
    ensures stops { (stop : Stop) → result ≡ Missing stop → Stops stop reader.new (I.left input.new) }
    ensures count { I.faults_of input.old ≤ I.faults_of input.new }
    ensures read_fault { result ≡ Missing Stop.ReadFault → CountRose (I.faults_of input.old) (I.faults_of input.new) }
{
    match next_line(reader, input) {
        Ok(line) => greeting(alloc, &line),
        Err(stop) => FirstLine::Missing(stop),
    }
}

// What the line is.
fn greeting(alloc: Global, line: &LineText) -> FirstLine
    ensures { Greets (hello_in line.now) result }
{
    match read_line(alloc, line.bytes(), false) {
        Ok(command) => hello(alloc, &command),
        Err(LineFault::Memory) => FirstLine::Missing(Stop::Memory),
        Err(_) => FirstLine::Other,
    }
}

fn hello(alloc: Global, command: &Command) -> FirstLine
    ensures { Greets (hello_part (Ok command.now)) result }
{
    match command {
        Command::Hello { seat, key } => hello_by(alloc, *seat, key),
        _ => FirstLine::Other,
    }
}

fn hello_by(alloc: Global, seat: SeatNo, key: &Text) -> FirstLine
    ensures { Greets (Some (seat, key.now)) result }
{
    match LineText::copy(alloc, key.text().as_bytes()) {
        Ok(key) => FirstLine::Hello { seat, key },
        Err(_) => FirstLine::Missing(Stop::Memory),
    }
}
