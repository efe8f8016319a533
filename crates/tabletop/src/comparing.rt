//! `compare FILE SCRIPT FILE SCRIPT SEAT`: whether a player may know the same of two histories.
ghost use Rattle.std.specs.Prelude.{◌≡◌, ◌≤◌};
ghost use Rattle.line_io.specs.Counts.{CountRose};
ghost use Rattle.tabletop.specs.Answered.{CompareEnds, agreement_differs, agreement_line};
ghost use Rattle.tabletop.specs.Ends.{CompareFilesEnd, PairEnds};
ghost use Rattle.tabletop.specs.Printing.{PrintsAnswer};

use crate::answers::{seat_of, unanswered};
use crate::endings::Ended;
use crate::files::fetch_pair;
use crate::printing::print_answer;
use line_io::{Desk, Sink};
use names::LineText;
use std::alloc::Global;
use transcript_check::{Agreement, compare};

/// All but the last line.
pub(crate) fn compare_files<D: Desk, O: Sink>(
    alloc: Global,
    file: &str,
    script: &str,
    file2: &str,
    script2: &str,
    seat: u8,
    desk: &mut D,
    out: &mut O,
) -> Ended
    requires { seat ≤ 32 }
    ensures ends { CompareFilesEnd (CountRose (D.faults_of desk.old) (D.faults_of desk.new)) result
        (D.text_of desk.old file.now) (D.text_of desk.old script.now) (D.text_of desk.old file2.now) (D.text_of desk.old script2.now)
        seat (O.written out.old) (O.written out.new) }
    ensures read_fault { result ≡ Ended.ReadFault → CountRose (D.faults_of desk.old) (D.faults_of desk.new) }
    ensures write_fault { result ≡ Ended.WriteFault → CountRose (O.faults_of out.old) (O.faults_of out.new) }
    ensures out_count { O.faults_of out.old ≤ O.faults_of out.new }
{
    match fetch_pair(desk, file, script) {
        Ok((text, lines)) => {
            compare_with_files(alloc, &text, &lines, file2, script2, seat, desk, out)
        }
        Err(ended) => ended,
    }
}

// The first campaign and its script with those of two files.
fn compare_with_files<D: Desk, O: Sink>(
    alloc: Global,
    text: &LineText,
    lines: &LineText,
    file2: &str,
    script2: &str,
    seat: u8,
    desk: &mut D,
    out: &mut O,
) -> Ended
    requires { seat ≤ 32 }
    ensures ends { PairEnds (CountRose (D.faults_of desk.old) (D.faults_of desk.new))
        (λ text2 lines2. CompareEnds result text.now lines.now text2 lines2 seat (O.written out.old) (O.written out.new))
        result (D.text_of desk.old file2.now) (D.text_of desk.old script2.now) (O.written out.old) (O.written out.new) }
    ensures read_fault { result ≡ Ended.ReadFault → CountRose (D.faults_of desk.old) (D.faults_of desk.new) }
    ensures write_fault { result ≡ Ended.WriteFault → CountRose (O.faults_of out.old) (O.faults_of out.new) }
    ensures out_count { O.faults_of out.old ≤ O.faults_of out.new }
    ensures desk_count { D.faults_of desk.old ≤ D.faults_of desk.new }
{
    match fetch_pair(desk, file2, script2) {
        Ok((text2, lines2)) => compare_texts(alloc, text, lines, &text2, &lines2, seat, out),
        Err(ended) => ended,
    }
}

fn compare_texts<O: Sink>(
    alloc: Global,
    text: &LineText,
    lines: &LineText,
    text2: &LineText,
    lines2: &LineText,
    seat: u8,
    out: &mut O,
) -> Ended
    requires { seat ≤ 32 }
    ensures ends { CompareEnds result text.now lines.now text2.now lines2.now seat (O.written out.old) (O.written out.new) }
    ensures no_read_fault { result ≡ Ended.ReadFault → ⊥ }
    ensures write_fault { result ≡ Ended.WriteFault → CountRose (O.faults_of out.old) (O.faults_of out.new) }
    ensures out_count { O.faults_of out.old ≤ O.faults_of out.new }
{
    match compare(
        alloc,
        text.bytes(),
        lines.bytes(),
        text2.bytes(),
        lines2.bytes(),
        seat_of(seat),
    ) {
        Ok(agreement) => print_agreement(alloc, agreement, out),
        Err(fault) => unanswered(fault),
    }
}

fn print_agreement<O: Sink>(alloc: Global, agreement: Agreement, out: &mut O) -> Ended
    ensures printed { PrintsAnswer (agreement_differs agreement) result (agreement_line agreement) (O.written out.old) (O.written out.new) }
    ensures no_read_fault { result ≡ Ended.ReadFault → ⊥ }
    ensures write_fault { result ≡ Ended.WriteFault → CountRose (O.faults_of out.old) (O.faults_of out.new) }
    ensures out_count { O.faults_of out.old ≤ O.faults_of out.new }
{
    match agreement {
        Agreement::Agree => print_answer(b"agree\n", false, out),
        Agreement::OpeningDiffers => print_answer(b"openings differ\n", true, out),
        Agreement::TraceDiffers { item } => {
            match format!(in alloc; "traces differ at item {item}\n") {
                Ok(line) => print_answer(line.as_bytes(), true, out),
                Err(_) => Ended::Memory,
            }
        }
    }
}
