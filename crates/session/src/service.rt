//! One session, from its first line on.
ghost use Rattle.std.specs.Prelude.{◌≡◌, ◌≤◌, ◌⊎◌};
ghost use Rattle.line_io.specs.Counts.{CountRose};
ghost use Rattle.turn_lock.specs.Pass.{IsPassOf};
ghost use Rattle.campaign_law.specs.Law.{IsOpening};
ghost use Rattle.session.specs.Own.{Grew};
ghost use Rattle.session.specs.Session.{HasServed, TellsNoHello};
ghost use Rattle.session.specs.Safely.{SaysSafely};

use crate::Table;
use crate::first_line::{FirstLine, read_first};
use crate::input::LINE_BYTES;
use crate::sitting::{Ended, sit, stopped, write_line};
use campaign_core::no_hello_line;
use line_io::{LineReader, Outlet, Source};
use seats::JoinRefusal;
use std::alloc::Global;
use std::sync::Wait;
use std::thread::Threads;
use turn_lock::{Hall, Pass};

/// A session's passes as they are given back, and how it ended.
#[derive(Drop)]
pub struct Sat {
    pub reader: Pass<Table>,
    pub writer: Pass<Table>,
    pub ended: Ended,
}

/// Serves one session over an input and an output.
///
/// The first line is to be a hello. Then the session enters a Join of its seat and key, with the numbers of its two passes, and,
/// once that is accepted, runs a reading half and a writing half side by side. Lines have at most 4,096 bytes.
pub fn serve_session<R: Threads + Wait + Sync, I: Source + Send, O: Outlet + Send>(
    rt: &R,
    alloc: Global,
    hall: &Hall<Table>,
    reader: Pass<Table>,
    writer: Pass<Table>,
    input: &mut I,
    output: &mut O,
) -> Sat
    requires reader { IsPassOf hall.now reader }
    requires writer { IsPassOf hall.now writer }
    requires opening { IsOpening hall.now.origin }
    ensures reader { IsPassOf hall.now result.reader }
    ensures writer { IsPassOf hall.now result.writer }

    // Each keeps its number, and its front begins with what it was.
    ensures grew { Grew reader result.reader × Grew writer result.writer }

    // What it entered and wrote, and why it ended so.
    ensures served { HasServed hall.now.origin reader result.reader writer result.writer (I.left input.old) (I.left input.new)
        (O.written output.old) (O.written output.new) (O.faults_of output.old) (O.faults_of output.new) result.ended }

    // And what it wrote tells of no entry that isn't safe.
    ensures safe { SaysSafely (O.safe output.new) hall.now.origin reader result.reader writer result.writer
        (O.written output.old) (O.written output.new) }
    ensures input_count { I.faults_of input.old ≤ I.faults_of input.new }
    ensures read_fault { result.ended ≡ Ended.ReadFault → CountRose (I.faults_of input.old) (I.faults_of input.new) }
    ensures output_count { O.faults_of output.old ≤ O.faults_of output.new }
    ensures write_fault { result.ended ≡ Ended.WriteFault → CountRose (O.faults_of output.old) (O.faults_of output.new) }
{
    let mut reader = reader;
    let mut writer = writer;
    let ended = serve(rt, alloc, hall, &mut reader, &mut writer, input, output);
    Sat {
        reader,
        writer,
        ended,
    }
}

fn serve<R: Threads + Wait + Sync, I: Source + Send, O: Outlet + Send>(
    rt: &R,
    alloc: Global,
    hall: &Hall<Table>,
    reader: &mut Pass<Table>,
    writer: &mut Pass<Table>,
    input: &mut I,
    output: &mut O,
) -> Ended
    requires reader { IsPassOf hall.now reader.old }
    requires writer { IsPassOf hall.now writer.old }
    requires opening { IsOpening hall.now.origin }
    ensures reader { IsPassOf hall.now reader.new }
    ensures writer { IsPassOf hall.now writer.new }
    ensures grew { Grew reader.old reader.new × Grew writer.old writer.new }
    ensures served { HasServed hall.now.origin reader.old reader.new writer.old writer.new (I.left input.old) (I.left input.new)
        (O.written output.old) (O.written output.new) (O.faults_of output.old) (O.faults_of output.new) result }
    ensures safe { SaysSafely (O.safe output.new) hall.now.origin reader.old reader.new writer.old writer.new
        (O.written output.old) (O.written output.new) }
    ensures input_count { I.faults_of input.old ≤ I.faults_of input.new }
    ensures read_fault { result ≡ Ended.ReadFault → CountRose (I.faults_of input.old) (I.faults_of input.new) }
    ensures output_count { O.faults_of output.old ≤ O.faults_of output.new }
    ensures write_fault { result ≡ Ended.WriteFault → CountRose (O.faults_of output.old) (O.faults_of output.new) }
{
    let Ok(mut lines) = LineReader::new(alloc, LINE_BYTES) else {
        return Ended::Memory;
    };
    match read_first(alloc, &mut lines, input) {
        FirstLine::Hello { seat, key } => sit(
            rt, alloc, hall, reader, writer, seat, key, &mut lines, input, output,
        ),
        FirstLine::Other => no_hello(rt, alloc, output),
        FirstLine::Missing(stop) => stopped(stop),
    }
}

// Tells who writes another line first. The line tells of no entry.
fn no_hello<R: Wait, O: Outlet>(rt: &R, alloc: Global, output: &mut O) -> Ended
    ensures tells { TellsNoHello (O.written output.old) (O.written output.new) (O.faults_of output.old) (O.faults_of output.new) result }
    ensures count { O.faults_of output.old ≤ O.faults_of output.new }
    ensures safe { (O.written output.new ≡ O.written output.old) ⊎ O.safe output.new 0 }
{
    match no_hello_line(alloc) {
        Ok(line) => {
            write_line(rt, &line, 0, output);
            Ended::Refused(JoinRefusal::NoHello)
        }
        Err(_) => Ended::Memory,
    }
}
