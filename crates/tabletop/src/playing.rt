//! `play FILE [--end]`: the script is played on the campaign of the file, and the campaign may be written at the end.
ghost use Rattle.std.specs.Prelude.{◌≡◌, ◌≤◌, ◌⊎◌, ◌++◌, ◌∷◌, [], IfOk};
ghost use Rattle.campaign_writing.specs.Canonical.{canonical};
ghost use Rattle.campaign_law.specs.Law.{world_of};
ghost use Rattle.campaign_law.specs.Worlds.{opened_of};
ghost use Rattle.line_io.specs.Counts.{CountRose};
ghost use Rattle.tabletop.specs.Ends.{FileEnds, FollowsPlay, PlayEnds};
ghost use Rattle.tabletop.specs.Printing.{PrintsLine};

use crate::endings::Ended;
use crate::files::not_fetched;
use crate::printing::print_line;
use campaign_core::{Campaign, OpenFault};
use line_io::{Desk, Sink, Source};
use names::{LineText, Memory};
use script_play::{Played, play};
use sight_sweep::SweepEye;
use std::alloc::Global;
use topology::Eye;

/// All but the last line.
pub(crate) fn play_file<D: Desk, S: Source, O: Sink>(
    alloc: Global,
    file: &str,
    end: bool,
    desk: &mut D,
    script: &mut S,
    out: &mut O,
) -> Ended
    ensures ends { FileEnds (CountRose (D.faults_of desk.old) (D.faults_of desk.new))
        (λ text. PlayEnds (CountRose (S.faults_of script.old) (S.faults_of script.new)) end result text (S.left script.old)
        (S.left script.new) (O.written out.old) (O.written out.new))
        result (D.text_of desk.old file.now) (O.written out.old) (O.written out.new) }
    ensures read_fault { result ≡ Ended.ReadFault → CountRose (D.faults_of desk.old) (D.faults_of desk.new)
        ⊎ CountRose (S.faults_of script.old) (S.faults_of script.new) }
    ensures write_fault { result ≡ Ended.WriteFault → CountRose (O.faults_of out.old) (O.faults_of out.new) }
    ensures out_count { O.faults_of out.old ≤ O.faults_of out.new }
{
    match desk.fetch(file) {
        Ok(text) => play_text(alloc, &text, end, script, out),
        Err(fault) => not_fetched(fault),
    }
}

// On the campaign of this text.
fn play_text<S: Source, O: Sink>(
    alloc: Global,
    text: &LineText,
    end: bool,
    script: &mut S,
    out: &mut O,
) -> Ended
    ensures ends { PlayEnds (CountRose (S.faults_of script.old) (S.faults_of script.new)) end result text.now (S.left script.old)
        (S.left script.new) (O.written out.old) (O.written out.new) }
    ensures read_fault { result ≡ Ended.ReadFault → CountRose (S.faults_of script.old) (S.faults_of script.new) }
    ensures write_fault { result ≡ Ended.WriteFault → CountRose (O.faults_of out.old) (O.faults_of out.new) }
    ensures out_count { O.faults_of out.old ≤ O.faults_of out.new }
{
    match Campaign::open(alloc, text.bytes(), SweepEye::new(alloc)) {
        Ok(mut campaign) => {
            let played = play(alloc, &mut campaign, script, out);
            let ended = after_play(alloc, played, end, &campaign, out);
            // In a call, so that its steps aren't this function's.
            drop(campaign);
            ended
        }
        Err(OpenFault::Bad(breach)) => Ended::BadCampaign(breach),
        Err(OpenFault::Memory) => Ended::Memory,
    }
}

// How the script ended the run. Where the campaign is to be written at the end, a script that was played to its end does that.
fn after_play<E: Eye, O: Sink>(
    alloc: Global,
    played: Played,
    end: bool,
    campaign: &Campaign<E>,
    out: &mut O,
) -> Ended
    ensures follows { FollowsPlay played end result (canonical (opened_of (world_of campaign.now)) ++ 10 ∷ []) (O.written out.old)
        (O.written out.new) }
    ensures read_fault { result ≡ Ended.ReadFault → played ≡ Played.ReadFault }
    ensures write_fault { result ≡ Ended.WriteFault → (played ≡ Played.WriteFault) ⊎ CountRose (O.faults_of out.old) (O.faults_of out.new) }
    ensures out_count { O.faults_of out.old ≤ O.faults_of out.new }
{
    match played {
        Played::Done if end => print_end(alloc, campaign, out),
        Played::Done => Ended::Done,
        Played::ReadFault => Ended::ReadFault,
        Played::WriteFault => Ended::WriteFault,
        Played::BadLine(number) => Ended::BadLine(number),
        Played::TooLarge => Ended::TooLarge,
        Played::Memory => Ended::Memory,
    }
}

pub(crate) fn print_end<E: Eye, O: Sink>(
    alloc: Global,
    campaign: &Campaign<E>,
    out: &mut O,
) -> Ended
    ensures printed { PrintsLine result (canonical (opened_of (world_of campaign.now)) ++ 10 ∷ []) (O.written out.old) (O.written out.new) }
    ensures done { result ≡ Ended.ReadFault → ⊥ }
    ensures write_fault { result ≡ Ended.WriteFault → CountRose (O.faults_of out.old) (O.faults_of out.new) }
    ensures out_count { O.faults_of out.old ≤ O.faults_of out.new }
{
    match end_line(alloc, campaign) {
        Ok(line) => print_line(&line, out),
        Err(_) => Ended::Memory,
    }
}

// The campaign text of the campaign as it is now, with its line's end.
fn end_line<E: Eye>(alloc: Global, campaign: &Campaign<E>) -> Result<Vec<u8>, Memory>
    ensures { IfOk result (λ line. line.items ≡ canonical (opened_of (world_of campaign.now)) ++ 10 ∷ []) }
{
    let text = campaign.dump()?;
    let mut line = Vec::new(alloc);
    if line.extend_from_slice(text.bytes()).is_err() || line.push(b'\n').is_err() {
        return Err(Memory);
    }
    Ok(line)
}
