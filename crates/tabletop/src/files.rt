//! Files that are fetched.
ghost use Rattle.std.specs.Prelude.{◌≡◌, ◌≤◌, ℕ, List, IfOk, IfErr};
ghost use Rattle.line_io.specs.Counts.{CountRose};
ghost use Rattle.tabletop.specs.Ends.{NotFetched, unfetched};
ghost use Rattle.tabletop.specs.Fetches.{IsFetched, OneNotFetched};

use crate::endings::Ended;
use line_io::{Desk, DeskFault};
use names::LineText;

/// As what a file that wasn't fetched ends the run.
pub(crate) fn not_fetched(fault: DeskFault) -> Ended
    ensures { result ≡ unfetched fault }
{
    match fault {
        DeskFault::Failed => Ended::ReadFault,
        DeskFault::TooLarge => Ended::TooLarge,
        DeskFault::Memory => Ended::Memory,
    }
}

/// The text of the file, or as what its want ends the run.
pub(crate) fn fetch<D: Desk>(desk: &mut D, name: &str) -> Result<LineText, Ended>
    ensures fetched { IfOk result (IsFetched (D.text_of desk.old name.now)) }
    ensures unfetched { IfErr result (λ ended. NotFetched (CountRose (D.faults_of desk.old) (D.faults_of desk.new)) ended
        (D.text_of desk.old name.now)) }
    ensures count { D.faults_of desk.old ≤ D.faults_of desk.new }
    ensures texts { (other : List ℕ) → D.text_of desk.new other ≡ D.text_of desk.old other }
{
    match desk.fetch(name) {
        Ok(text) => Ok(text),
        Err(fault) => Err(not_fetched(fault)),
    }
}

/// The texts of a campaign's file and of a script's, which are fetched in this order.
pub(crate) fn fetch_pair<D: Desk>(
    desk: &mut D,
    file: &str,
    script: &str,
) -> Result<(LineText, LineText), Ended>
    ensures fetched { IfOk result (λ pair. IsFetched (D.text_of desk.old file.now) pair.0
        × IsFetched (D.text_of desk.old script.now) pair.1) }
    ensures unfetched { IfErr result (λ ended. OneNotFetched (CountRose (D.faults_of desk.old) (D.faults_of desk.new)) ended
        (D.text_of desk.old file.now) (D.text_of desk.old script.now)) }
    ensures count { D.faults_of desk.old ≤ D.faults_of desk.new }
    ensures texts { (other : List ℕ) → D.text_of desk.new other ≡ D.text_of desk.old other }
{
    let text = fetch(desk, file)?;
    let lines = fetch(desk, script)?;
    Ok((text, lines))
}
