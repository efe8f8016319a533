//! The campaign's text at the end.
ghost use Rattle.std.specs.Prelude.{◌≡◌, ◌≤◌, ◌++◌, ◌∷◌, [], false, IfOk};
ghost use mathlib.Core.List.{IsPrefix};
ghost use Rattle.line_io.specs.Counts.{CountRose};
ghost use Rattle.turn_lock.specs.Pass.{IsPassOf};
ghost use Rattle.serving.specs.Fates.{IsPrinted};
ghost use Rattle.serving.specs.Endings.{IsDumpOf, PrintsEnd, PrintsText};

use crate::printing::print_more;
use crate::serving_hall::Served;
use line_io::Sink;
use names::{LineText, Memory};
use session::Table;
use std::sync::Wait;
use turn_lock::{Hall, Job, Object, Pass};

/// A campaign's text, and how long its history was then.
#[derive(Drop)]
pub struct Dump {
    pub text: LineText,
    pub length: u64,
}

/// The turn that keeps the campaign's text as it is then. It enters nothing.
#[derive(Drop)]
struct Dumping {
    kept: Result<Dump, Memory>,
}

impl Job<Table> for Dumping {
    ghost entries = { λ before after. [] };

    ghost ran = { λ origin before found after left. (left ≡ found) × IfOk after.kept (IsDumpOf origin left) };

    fn run(&mut self, campaign: &mut Table) {
        self.kept = dumped(campaign);
    }
}

fn dumped(campaign: &Table) -> Result<Dump, Memory>
    ensures { IfOk result (IsDumpOf campaign.now.origin campaign.now.history) }
{
    Ok(Dump {
        text: campaign.dump()?,
        length: campaign.length(),
    })
}

/// The campaign's text as one more turn finds it, which enters nothing.
pub fn dump_now<R: Wait>(rt: &R, hall: &Hall<Table>, pass: &mut Pass<Table>) -> Result<Dump, Memory>
    requires { IsPassOf hall.now pass.old }
    ensures hall { IsPassOf hall.now pass.new }
    ensures front { IsPrefix pass.old.front pass.new.front }
    ensures own { pass.new.own ≡ pass.old.own }
    ensures dump { IfOk result (IsDumpOf hall.now.origin pass.new.front) }
{
    let mut turn = Dumping { kept: Err(Memory) };
    hall.act_quietly(rt, pass, &mut turn);
    let Dumping { kept } = turn;
    kept
}

/// Prints the campaign's text and LF, as it is after one more turn.
pub(crate) fn print_end<R: Wait, O: Sink>(
    rt: &R,
    hall: &Hall<Table>,
    mut pass: Pass<Table>,
    out: &mut O,
) -> Served
    requires { IsPassOf hall.now pass }
    ensures prints { PrintsEnd result hall.now.origin pass (O.written out.old) (O.written out.new) }
    ensures count { O.faults_of out.old ≤ O.faults_of out.new }
    ensures write_fault { result ≡ Served.WriteFault → CountRose (O.faults_of out.old) (O.faults_of out.new) }
{
    match dump_now(rt, hall, &mut pass) {
        Ok(dump) => print_text(&dump.text, out),
        Err(_) => Served::Memory,
    }
}

/// Prints the text and LF: `Done`, or `WriteFault` where a call of the output failed.
pub fn print_text<O: Sink>(text: &LineText, out: &mut O) -> Served
    ensures prints { PrintsText result text.now (O.written out.old) (O.written out.new) }
    ensures count { O.faults_of out.old ≤ O.faults_of out.new }
    ensures write_fault { result ≡ Served.WriteFault → CountRose (O.faults_of out.old) (O.faults_of out.new) }
{
    if print_whole(text, out) {
        Served::Done
    } else {
        Served::WriteFault
    }
}

// Whether all was printed.
fn print_whole<O: Sink>(text: &LineText, out: &mut O) -> bool
    ensures prints { IsPrinted result (text.now ++ 10 ∷ []) (O.written out.old) (O.written out.new) }
    ensures count { O.faults_of out.old ≤ O.faults_of out.new }
    ensures failed { result ≡ false → CountRose (O.faults_of out.old) (O.faults_of out.new) }
{
    let printed = print_more(out, true, text.bytes());
    print_more(out, printed, b"\n")
}
