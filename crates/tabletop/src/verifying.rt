//! `verify FILE SCRIPT SEAT TRANSCRIPT`: whether the transcript is what the player machine prints.
ghost use Rattle.std.specs.Prelude.{◌≡◌, ◌≤◌};
ghost use Rattle.line_io.specs.Counts.{CountRose};
ghost use Rattle.tabletop.specs.Answered.{VerifyEnds, verdict_differs, verdict_line};
ghost use Rattle.tabletop.specs.Ends.{FileEnds, VerifyFilesEnd};
ghost use Rattle.tabletop.specs.Printing.{PrintsAnswer};

use crate::answers::{seat_of, unanswered};
use crate::endings::Ended;
use crate::files::{fetch, fetch_pair};
use crate::printing::print_answer;
use line_io::{Desk, Sink};
use names::LineText;
use std::alloc::Global;
use transcript_check::{Verdict, check_transcript};

/// All but the last line.
pub(crate) fn verify_files<D: Desk, O: Sink>(
    alloc: Global,
    file: &str,
    script: &str,
    seat: u8,
    transcript: &str,
    desk: &mut D,
    out: &mut O,
) -> Ended
    requires player { 1 ≤ seat }
    requires seat { seat ≤ 32 }
    ensures ends { VerifyFilesEnd (CountRose (D.faults_of desk.old) (D.faults_of desk.new)) result
        (D.text_of desk.old file.now) (D.text_of desk.old script.now) seat (D.text_of desk.old transcript.now)
        (O.written out.old) (O.written out.new) }
    ensures read_fault { result ≡ Ended.ReadFault → CountRose (D.faults_of desk.old) (D.faults_of desk.new) }
    ensures write_fault { result ≡ Ended.WriteFault → CountRose (O.faults_of out.old) (O.faults_of out.new) }
    ensures out_count { O.faults_of out.old ≤ O.faults_of out.new }
{
    match fetch_pair(desk, file, script) {
        Ok((text, lines)) => verify_file(alloc, &text, &lines, seat, transcript, desk, out),
        Err(ended) => ended,
    }
}

// The transcript of a file.
fn verify_file<D: Desk, O: Sink>(
    alloc: Global,
    text: &LineText,
    lines: &LineText,
    seat: u8,
    transcript: &str,
    desk: &mut D,
    out: &mut O,
) -> Ended
    requires player { 1 ≤ seat }
    requires seat { seat ≤ 32 }
    ensures ends { FileEnds (CountRose (D.faults_of desk.old) (D.faults_of desk.new))
        (λ told. VerifyEnds result text.now lines.now seat told (O.written out.old) (O.written out.new))
        result (D.text_of desk.old transcript.now) (O.written out.old) (O.written out.new) }
    ensures read_fault { result ≡ Ended.ReadFault → CountRose (D.faults_of desk.old) (D.faults_of desk.new) }
    ensures write_fault { result ≡ Ended.WriteFault → CountRose (O.faults_of out.old) (O.faults_of out.new) }
    ensures out_count { O.faults_of out.old ≤ O.faults_of out.new }
    ensures desk_count { D.faults_of desk.old ≤ D.faults_of desk.new }
{
    match fetch(desk, transcript) {
        Ok(told) => verify(alloc, text, lines, seat, &told, out),
        Err(ended) => ended,
    }
}

fn verify<O: Sink>(
    alloc: Global,
    text: &LineText,
    lines: &LineText,
    seat: u8,
    told: &LineText,
    out: &mut O,
) -> Ended
    requires player { 1 ≤ seat }
    requires seat { seat ≤ 32 }
    ensures ends { VerifyEnds result text.now lines.now seat told.now (O.written out.old) (O.written out.new) }
    ensures no_read_fault { result ≡ Ended.ReadFault → ⊥ }
    ensures write_fault { result ≡ Ended.WriteFault → CountRose (O.faults_of out.old) (O.faults_of out.new) }
    ensures out_count { O.faults_of out.old ≤ O.faults_of out.new }
{
    match check_transcript(
        alloc,
        text.bytes(),
        lines.bytes(),
        seat_of(seat),
        told.bytes(),
    ) {
        Ok(verdict) => print_verdict(alloc, verdict, out),
        Err(fault) => unanswered(fault),
    }
}

fn print_verdict<O: Sink>(alloc: Global, verdict: Verdict, out: &mut O) -> Ended
    ensures printed { PrintsAnswer (verdict_differs verdict) result (verdict_line verdict) (O.written out.old) (O.written out.new) }
    ensures no_read_fault { result ≡ Ended.ReadFault → ⊥ }
    ensures write_fault { result ≡ Ended.WriteFault → CountRose (O.faults_of out.old) (O.faults_of out.new) }
    ensures out_count { O.faults_of out.old ≤ O.faults_of out.new }
{
    match verdict {
        Verdict::Equal => print_answer(b"equal\n", false, out),
        Verdict::Differs { at } => match format!(in alloc; "differs at {at}\n") {
            Ok(line) => print_answer(line.as_bytes(), true, out),
            Err(_) => Ended::Memory,
        },
    }
}
