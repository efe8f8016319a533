//! A line that a job prints.
ghost use Rattle.std.specs.Prelude.{◌≡◌, ◌≤◌};
ghost use Rattle.line_io.specs.Counts.{CountRose};
ghost use Rattle.tabletop.specs.Printing.{PrintsAnswer, PrintsLine};

use crate::endings::Ended;
use line_io::{Sink, write_whole};

/// Prints the line, with its end, and says how that ended the run.
pub(crate) fn print_line<O: Sink>(line: &[u8], out: &mut O) -> Ended
    ensures printed { PrintsLine result line.now (O.written out.old) (O.written out.new) }
    ensures done { result ≡ Ended.ReadFault → ⊥ }
    ensures write_fault { result ≡ Ended.WriteFault → CountRose (O.faults_of out.old) (O.faults_of out.new) }
    ensures out_count { O.faults_of out.old ≤ O.faults_of out.new }
{
    match write_whole(out, line) {
        Ok(()) => Ended::Done,
        Err(_) => Ended::WriteFault,
    }
}

/// Prints the line of an answer, with its end, and says how that ended the run: whether the answer tells of a difference.
pub(crate) fn print_answer<O: Sink>(line: &[u8], differs: bool, out: &mut O) -> Ended
    ensures printed { PrintsAnswer differs result line.now (O.written out.old) (O.written out.new) }
    ensures no_read_fault { result ≡ Ended.ReadFault → ⊥ }
    ensures write_fault { result ≡ Ended.WriteFault → CountRose (O.faults_of out.old) (O.faults_of out.new) }
    ensures out_count { O.faults_of out.old ≤ O.faults_of out.new }
{
    match write_whole(out, line) {
        Ok(()) if differs => Ended::Differs,
        Ok(()) => Ended::Done,
        Err(_) => Ended::WriteFault,
    }
}
