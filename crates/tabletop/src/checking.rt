//! `check FILE`: what the campaign of the file has, or its first breach.
ghost use Rattle.std.specs.Prelude.{◌≡◌, ◌≤◌, string_bytes, IfOk};
ghost use Rattle.line_io.specs.Counts.{CountRose};
ghost use Rattle.tabletop.specs.Ends.{CheckEnds, FileEnds};
ghost use Rattle.tabletop.specs.Printing.{PrintsLine};
ghost use Rattle.tabletop.specs.Counts.{count_line as count_line_lem};

use crate::endings::Ended;
use crate::files::not_fetched;
use crate::printing::print_line;
use campaign_file::{FileFault, read_campaign};
use line_io::{Desk, Sink};
use names::{LineText, Memory};
use std::alloc::Global;
use world::World;

/// All but the last line.
pub(crate) fn check_file<D: Desk, O: Sink>(
    alloc: Global,
    file: &str,
    desk: &mut D,
    out: &mut O,
) -> Ended
    ensures ends { FileEnds (CountRose (D.faults_of desk.old) (D.faults_of desk.new))
        (λ text. CheckEnds result text (O.written out.old) (O.written out.new))
        result (D.text_of desk.old file.now) (O.written out.old) (O.written out.new) }
    ensures read_fault { result ≡ Ended.ReadFault → CountRose (D.faults_of desk.old) (D.faults_of desk.new) }
    ensures write_fault { result ≡ Ended.WriteFault → CountRose (O.faults_of out.old) (O.faults_of out.new) }
    ensures out_count { O.faults_of out.old ≤ O.faults_of out.new }
{
    match desk.fetch(file) {
        Ok(text) => check_text(alloc, &text, out),
        Err(fault) => not_fetched(fault),
    }
}

fn check_text<O: Sink>(alloc: Global, text: &LineText, out: &mut O) -> Ended
    ensures ends { CheckEnds result text.now (O.written out.old) (O.written out.new) }
    ensures write_fault { result ≡ Ended.WriteFault → CountRose (O.faults_of out.old) (O.faults_of out.new) }
    ensures out_count { O.faults_of out.old ≤ O.faults_of out.new }
{
    match read_campaign(alloc, text.bytes()) {
        Ok(world) => print_counts(alloc, &world, out),
        Err(FileFault::Bad(breach)) => Ended::BadCampaign(breach),
        Err(FileFault::Memory) => Ended::Memory,
    }
}

fn print_counts<O: Sink>(alloc: Global, world: &World, out: &mut O) -> Ended
    ensures ends { PrintsLine result (count_line_lem world.now) (O.written out.old) (O.written out.new) }
    ensures write_fault { result ≡ Ended.WriteFault → CountRose (O.faults_of out.old) (O.faults_of out.new) }
    ensures out_count { O.faults_of out.old ≤ O.faults_of out.new }
{
    match count_line(alloc, world) {
        Ok(line) => print_line(line.as_bytes(), out),
        Err(_) => Ended::Memory,
    }
}

fn count_line(alloc: Global, world: &World) -> Result<String, Memory>
    ensures { IfOk result (λ line. string_bytes line ≡ count_line_lem world.now) }
{
    let seats = world.seat_count();
    let maps = world.maps().len();
    let tokens = world.tokens().len();
    match format!(in alloc; "ok: {seats} seats, {maps} maps, {tokens} tokens\n") {
        Ok(line) => Ok(line),
        Err(_) => Err(Memory),
    }
}
