//! `drill N LINES`: a drill is made and played, and what came of it is counted.
ghost use Rattle.std.specs.Prelude.{◌≡◌, ◌≤◌, ℕ, string_bytes, IfOk};
ghost use Rattle.campaign_core.specs.Totals.{seen_total};
ghost use Rattle.campaign_law.specs.Law.{world_of};
ghost use Rattle.drill.specs.Script.{drill_script};
ghost use Rattle.line_io.specs.Counts.{CountRose};
ghost use Rattle.script_play.specs.Counting.{Adds, no_tally};
ghost use Rattle.script_play.specs.Played.{GoesOn, HasEntered, entries_since};
ghost use Rattle.script_play.specs.Script.{NothingWaits, done, script_of};
ghost use Rattle.tabletop.specs.Printing.{PrintsLine};
ghost use Rattle.tabletop.specs.Drilled.{Counts, DrillEnds, Drills, Opens, drill_origin, counts_found as counts_found_lem, counts_sent as counts_sent_lem, summary_line as summary_line_lem};

use crate::endings::Ended;
use crate::printing::print_line;
use crate::quiet::{NoOutput, ScriptText};
use campaign_core::{Campaign, OpenFault};
use drill::make_drill;
use line_io::Sink;
use names::{LineText, Memory};
use script_play::{Played, Tally, play_counted};
use sight_sweep::SweepEye;
use std::alloc::Global;
use topology::Eye;

/// What was counted of a drill that was played.
#[derive(Clone, Copy, Debug, PartialEq, Eq)]
pub(crate) struct Summary {
    /// The drill's number.
    pub(crate) number: u32,
    /// What was counted of its script.
    pub(crate) tally: Tally,
    /// The cells that players see at the end, each player's counted.
    pub(crate) seen: u64,
    /// How often the eye looked.
    pub(crate) looks: u64,
    /// How many pairs of a wall and a cell it compared.
    pub(crate) tested: u64,
}

/// All but the last line.
pub(crate) fn drill<O: Sink>(alloc: Global, number: u32, lines: u32, out: &mut O) -> Ended
    requires least { 5 ≤ lines }
    requires most { lines ≤ 10000 }
    ensures ends { DrillEnds result number lines (O.written out.old) (O.written out.new) }
    ensures no_read_fault { result ≡ Ended.ReadFault → ⊥ }
    ensures write_fault { result ≡ Ended.WriteFault → CountRose (O.faults_of out.old) (O.faults_of out.new) }
    ensures out_count { O.faults_of out.old ≤ O.faults_of out.new }
{
    match summary_of(alloc, number, lines, SweepEye::new(alloc)) {
        Ok(summary) => print_summary(alloc, &summary, out),
        Err(Memory) => Ended::Memory,
    }
}

/// Makes and plays a drill with an eye that hasn't looked yet.
pub(crate) fn summary_of<E: Eye + Drop>(
    alloc: Global,
    number: u32,
    lines: u32,
    eye: E,
) -> Result<Summary, Memory>
    requires least { 5 ≤ lines }
    requires most { lines ≤ 10000 }
    requires eye { E.looks_made eye ≡ 0 }
    ensures { IfOk result (λ summary. Drills number lines summary) }
{
    let (mut campaign, script) = open_drill(alloc, number, lines, eye)?;
    let summary = play_drill(alloc, number, &mut campaign, script);
    // In a call, so that its steps aren't this function's.
    drop(campaign);
    summary
}

// The campaign that the drill opens, and its script, which is played to its end there.
fn open_drill<E: Eye + Drop>(
    alloc: Global,
    number: u32,
    lines: u32,
    eye: E,
) -> Result<(Campaign<E>, LineText), Memory>
    requires least { 5 ≤ lines }
    requires most { lines ≤ 10000 }
    requires eye { E.looks_made eye ≡ 0 }
    ensures campaign { IfOk result (λ drill. Opens (drill_origin number) drill.0) }
    ensures script { IfOk result (λ drill. drill.1 ≡ drill_script number lines) }
    ensures done { IfOk result (λ drill. (script_of (drill_origin number) drill.1).ending ≡ done) }
{
    let (text, script) = make_drill(alloc, number, lines)?;
    match Campaign::open(alloc, text.bytes(), eye) {
        Ok(campaign) => Ok((campaign, script)),
        Err(OpenFault::Bad(_)) => unreachable!(),
        Err(OpenFault::Memory) => Err(Memory),
    }
}

// Plays a script on a campaign that was just opened, where it is played to its end, and counts what came of it.
fn play_drill<E: Eye + Drop>(
    alloc: Global,
    number: u32,
    campaign: &mut Campaign<E>,
    script: LineText,
) -> Result<Summary, Memory>
    requires opens { Opens campaign.old.origin campaign.old }
    requires done { (script_of campaign.old.origin script).ending ≡ done }
    ensures number { IfOk result (λ summary. summary.number ≡ number) }
    ensures counts { IfOk result (λ summary. Counts campaign.old.origin script summary) }
{
    let (played, tally) = play_script(alloc, campaign, script);
    match played {
        Played::Done => counted(number, campaign, tally),
        Played::Memory => Err(Memory),
        Played::BadLine(_) | Played::TooLarge | Played::ReadFault | Played::WriteFault => {
            unreachable!()
        }
    }
}

// Plays a script that is in memory and is played to its end, and keeps none of what is sent, so that neither fails.
fn play_script<E: Eye + Drop>(
    alloc: Global,
    campaign: &mut Campaign<E>,
    script: LineText,
) -> (Played, Tally)
    requires ready { NothingWaits (world_of campaign.old) }
    requires done { (script_of (world_of campaign.old) script).ending ≡ done }
    ensures campaign { GoesOn campaign.old campaign.new }
    ensures entered { HasEntered result.0 (script_of (world_of campaign.old) script) (entries_since campaign.old campaign.new) }
    ensures counted { result.0 ≡ Played.Done → Adds no_tally result.1 campaign.old campaign.new }
    ensures no_bad_line { (number : ℕ) → result.0 ≡ Played.BadLine number → ⊥ }
    ensures no_too_large { result.0 ≡ Played.TooLarge → ⊥ }
    ensures no_read_fault { result.0 ≡ Played.ReadFault → ⊥ }
    ensures no_write_fault { result.0 ≡ Played.WriteFault → ⊥ }
{
    let mut text = ScriptText::new(script);
    let mut out = NoOutput;
    play_counted(alloc, campaign, &mut text, &mut out)
}

fn counted<E: Eye + Drop>(
    number: u32,
    campaign: &Campaign<E>,
    tally: Tally,
) -> Result<Summary, Memory>
    ensures number { IfOk result (λ summary. summary.number ≡ number) }
    ensures tally { IfOk result (λ summary. summary.tally ≡ tally) }
    ensures seen { IfOk result (λ summary. summary.seen ≡ seen_total (world_of campaign.now).scene) }
    ensures looks { IfOk result (λ summary. summary.looks ≡ campaign.now.looks) }
{
    match campaign.seen_total() {
        Ok(seen) => Ok(Summary {
            number,
            tally,
            seen,
            looks: campaign.looks(),
            tested: campaign.tested(),
        }),
        Err(_) => Err(Memory),
    }
}

fn print_summary<O: Sink>(alloc: Global, summary: &Summary, out: &mut O) -> Ended
    ensures printed { PrintsLine result (summary_line_lem summary.now) (O.written out.old) (O.written out.new) }
    ensures no_read_fault { result ≡ Ended.ReadFault → ⊥ }
    ensures write_fault { result ≡ Ended.WriteFault → CountRose (O.faults_of out.old) (O.faults_of out.new) }
    ensures out_count { O.faults_of out.old ≤ O.faults_of out.new }
{
    match summary_line(alloc, summary) {
        Ok(line) => print_line(line.as_bytes(), out),
        Err(_) => Ended::Memory,
    }
}

fn summary_line(alloc: Global, summary: &Summary) -> Result<String, Memory>
    ensures { IfOk result (λ line. string_bytes line ≡ summary_line_lem summary.now) }
{
    let sent = counts_sent(alloc, summary)?;
    let found = counts_found(alloc, summary)?;
    match format!(in alloc; "{sent}{found}\n") {
        Ok(line) => Ok(line),
        Err(_) => Err(Memory),
    }
}

// The line's front: the drill, its lines and what they sent.
fn counts_sent(alloc: Global, summary: &Summary) -> Result<String, Memory>
    ensures { IfOk result (λ text. string_bytes text ≡ counts_sent_lem summary.now) }
{
    let number = summary.number;
    let Tally {
        lines,
        refused,
        sent,
        ..
    } = summary.tally;
    Ok(format!(in alloc; "drill {number}: lines {lines}, refused {refused}, sent {sent}")?)
}

// The rest of it: the bytes, and what players see, how it was found.
fn counts_found(alloc: Global, summary: &Summary) -> Result<String, Memory>
    ensures { IfOk result (λ text. string_bytes text ≡ counts_found_lem summary.now) }
{
    let Summary {
        tally: Tally { bytes, .. },
        seen,
        looks,
        tested,
        ..
    } = *summary;
    Ok(format!(in alloc; ", bytes {bytes}, seen {seen}, looks {looks}, tested {tested}")?)
}
