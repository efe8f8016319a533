//! The lines of an input.
ghost use Rattle.std.specs.Prelude.{◌≡◌, ◌≤◌, ◌∷◌, [], IfOk, IfErr, Err};
ghost use Rattle.line_io.specs.Counts.{CountRose};
ghost use Rattle.line_io.specs.Reader.{bytes_to_come};
ghost use Rattle.session.specs.Inputs.{IsReaderOf, IsShort, CameFirst, CamePast, StopsBefore, Stops, is_memory as is_memory_lem};

use line_io::{LineReader, NextLine, Source};
use names::LineText;
use std::sync::Wait;

/// The greatest number of bytes of a session's line.
pub(crate) const LINE_BYTES: u32 = 4_096;

/// Why no further line of an input is read.
#[derive(Clone, Copy, Debug, PartialEq, Eq)]
pub(crate) enum Stop {
    /// The input was read to its end.
    End,
    /// One byte more than a line may have came without LF.
    TooLong,
    /// The input failed, and counted it.
    ReadFault,
    /// Want of memory.
    Memory,
}

impl Stop {
    pub(crate) fn is_memory(self) -> bool
        ensures { result ≡ is_memory_lem self }
    {
        matches!(self, Stop::Memory)
    }
}

/// The next line of the input.
pub(crate) fn next_line<I: Source>(reader: &mut LineReader, input: &mut I) -> Result<LineText, Stop>
    requires { IsReaderOf reader.old (I.left input.old) }
    ensures reader { IsReaderOf reader.new (I.left input.new) }
    ensures line { IfOk result (λ line. CameFirst (line ∷ []) (bytes_to_come reader.old (I.left input.old))
        (bytes_to_come reader.new (I.left input.new))) }
    ensures short { IfOk result IsShort }
    ensures past { CamePast [] (bytes_to_come reader.old (I.left input.old)) (bytes_to_come reader.new (I.left input.new)) }
    ensures stop { IfErr result (λ stop. StopsBefore stop (bytes_to_come reader.old (I.left input.old))
        (bytes_to_come reader.new (I.left input.new)) × Stops stop reader.new (I.left input.new)) }
    ensures count { I.faults_of input.old ≤ I.faults_of input.new }
    ensures read_fault { result ≡ Err Stop.ReadFault → CountRose (I.faults_of input.old) (I.faults_of input.new) }
{
    match reader.next(input) {
        NextLine::Line(line) => Ok(line),
        NextLine::End => Err(Stop::End),
        NextLine::TooLong => Err(Stop::TooLong),
        NextLine::ReadFault => Err(Stop::ReadFault),
        NextLine::Memory => Err(Stop::Memory),
    }
}

/// Reads the input to its end, or until it stops.
#[tactic(auto, using(crate::proofs::LinesInHand::past_none, crate::proofs::LinesInHand::past_more))]
pub(crate) fn read_on<R: Wait, I: Source>(rt: &R, reader: &mut LineReader, input: &mut I) -> Stop
    requires { IsReaderOf reader.old (I.left input.old) }
    ensures reader { IsReaderOf reader.new (I.left input.new) }
    ensures stop { Stops result reader.new (I.left input.new) }
    ensures past { CamePast [] (bytes_to_come reader.old (I.left input.old)) (bytes_to_come reader.new (I.left input.new)) }
    ensures count { I.faults_of input.old ≤ I.faults_of input.new }
    ensures read_fault { result ≡ Stop.ReadFault → CountRose (I.faults_of input.old) (I.faults_of input.new) }
{
    for _ in rt.forever() {
        match next_line(reader, input) {
            Ok(_) => {}
            Err(stop) => return stop,
        }
    }
    unreachable!()
}
