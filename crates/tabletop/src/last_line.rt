//! The last line of a run.
ghost use Rattle.std.specs.Prelude.{◌≡◌, ◌≤◌, ◌⊎◌, string_bytes, IfOk};
ghost use Rattle.std.specs.Io.KnownBytes.{append_known};
ghost use Rattle.line_io.specs.Counts.{CountRose};
ghost use Rattle.script_play.specs.Sending.{WroteFront};
ghost use Rattle.tabletop.specs.Endings.{last_line, HasOwnLine};
ghost use Rattle.tabletop.specs.Ends.{IsToldAs};

use crate::endings::{Ended, fixed_line, rule_word};
use campaign_json::BadCampaign;
use line_io::{Sink, write_whole};
use names::Memory;
use std::alloc::Global;

/// Prints why the run ended. Where no memory is left for a line of its own, it ends so.
pub(crate) fn print_last_line<O: Sink>(alloc: Global, ended: Ended, out: &mut O) -> Ended
    ensures ended { IsToldAs ended result }
    ensures line { (O.written out.new ≡ append_known (O.written out.old) (last_line result))
        ⊎ (CountRose (O.faults_of out.old) (O.faults_of out.new) × WroteFront (O.written out.old) (last_line result) (O.written out.new)) }
    ensures count { O.faults_of out.old ≤ O.faults_of out.new }
{
    match &ended {
        Ended::BadLine(number) => {
            let line = bad_line(alloc, *number);
            print_own(line, ended, out)
        }
        Ended::BadCampaign(bad) => {
            let line = bad_campaign(alloc, bad);
            print_own(line, ended, out)
        }
        _ => {
            print(fixed_line(&ended).as_bytes(), out);
            ended
        }
    }
}

// Prints the line of this ending, or that there was no memory for it.
fn print_own<O: Sink>(line: Result<String, Memory>, ended: Ended, out: &mut O) -> Ended
    requires line { IfOk line (λ line. string_bytes line ≡ last_line ended) }
    requires own { HasOwnLine ended }
    ensures ended { IsToldAs ended result }
    ensures line { (O.written out.new ≡ append_known (O.written out.old) (last_line result))
        ⊎ (CountRose (O.faults_of out.old) (O.faults_of out.new) × WroteFront (O.written out.old) (last_line result) (O.written out.new)) }
    ensures count { O.faults_of out.old ≤ O.faults_of out.new }
{
    match line {
        Ok(line) => {
            print(line.as_bytes(), out);
            ended
        }
        Err(_) => {
            print(fixed_line(&Ended::Memory).as_bytes(), out);
            Ended::Memory
        }
    }
}

fn bad_line(alloc: Global, number: u64) -> Result<String, Memory>
    ensures { IfOk result (λ line. string_bytes line ≡ last_line (Ended.BadLine number)) }
{
    match format!(in alloc; "tabletop: bad script line {number}\n") {
        Ok(line) => Ok(line),
        Err(_) => Err(Memory),
    }
}

fn bad_campaign(alloc: Global, bad: &BadCampaign) -> Result<String, Memory>
    ensures { IfOk result (λ line. string_bytes line ≡ last_line (Ended.BadCampaign bad.now)) }
{
    let path = bad.path.text();
    let rule = rule_word(bad.rule);
    Ok(format!(in alloc; "tabletop: bad campaign at {path}: {rule}\n")?)
}

// A fault leaves a front of the line.
pub(crate) fn print<O: Sink>(line: &[u8], out: &mut O)
    ensures line { (O.written out.new ≡ append_known (O.written out.old) line.now)
        ⊎ (CountRose (O.faults_of out.old) (O.faults_of out.new) × WroteFront (O.written out.old) line.now (O.written out.new)) }
    ensures count { O.faults_of out.old ≤ O.faults_of out.new }
{
    let _ = write_whole(out, line);
}
