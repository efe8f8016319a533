//! What is printed of the connections.
ghost use Rattle.std.specs.Prelude.{◌≡◌, ◌≤◌, true, false};
ghost use Rattle.line_io.specs.Counts.{CountRose};
ghost use Rattle.session.specs.declared.sitting.Ended.TheVariants as ends;
ghost use Rattle.serving.specs.Fates.{PrintsMore, text_of as text_of_lem, name_of, line_of};

use crate::guests::Word;
use itoa::Buffer;
use line_io::{Sink, write_whole};
use seats::JoinRefusal;
use session::Ended;

/// The word that is told of a connection.
pub(crate) fn text_of(word: Word) -> &'static str
    ensures { result.now ≡ text_of_lem word }
{
    match word {
        Word::Busy => "busy",
        Word::Ended(Ended::Left) => "Left",
        Word::Ended(Ended::Refused(refusal)) => text_of_refusal(refusal),
        Word::Ended(Ended::TooLong) => "TooLong",
        Word::Ended(Ended::Spent) => "Spent",
        Word::Ended(Ended::Cut) => "Cut",
        Word::Ended(Ended::ReadFault) => "ReadFault",
        Word::Ended(Ended::WriteFault) => "WriteFault",
        Word::Ended(Ended::Memory) => "Memory",
    }
}

fn text_of_refusal(refusal: JoinRefusal) -> &'static str
    ensures { result.now ≡ name_of (ends.Refused refusal) }
{
    match refusal {
        JoinRefusal::BadKey => "Refused BadKey",
        JoinRefusal::SeatTaken => "Refused SeatTaken",
        JoinRefusal::Spent => "Refused Spent",
        JoinRefusal::NoHello => "Refused NoHello",
    }
}

/// More bytes, where all were printed before.
pub(crate) fn print_more<O: Sink>(out: &mut O, printed: bool, bytes: &[u8]) -> bool
    ensures prints { PrintsMore printed result bytes.now (O.written out.old) (O.written out.new) }
    ensures count { O.faults_of out.old ≤ O.faults_of out.new }
    ensures failed { printed ≡ true → result ≡ false → CountRose (O.faults_of out.old) (O.faults_of out.new) }
{
    if !printed {
        return false;
    }
    match write_whole(out, bytes) {
        Ok(()) => true,
        Err(_) => false,
    }
}

/// The line of a connection, where all lines before it were printed. Whether it was printed whole.
pub(crate) fn print_line<O: Sink>(out: &mut O, printed: bool, number: u32, word: Word) -> bool
    ensures prints { PrintsMore printed result (line_of number word) (O.written out.old) (O.written out.new) }
    ensures count { O.faults_of out.old ≤ O.faults_of out.new }
    ensures failed { printed ≡ true → result ≡ false → CountRose (O.faults_of out.old) (O.faults_of out.new) }
{
    let mut buffer = Buffer::new();
    let printed = print_more(out, printed, buffer.format(number).as_bytes());
    let printed = print_more(out, printed, b" ");
    let printed = print_more(out, printed, text_of(word).as_bytes());
    print_more(out, printed, b"\n")
}
