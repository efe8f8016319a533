//! An entry is prepared, logged and committed, and only then its lines go out.
ghost use Rattle.std.specs.Prelude.{◌≡◌, ◌≤◌, ◌+◌, ◌^◌, ◌++◌, ◌∷◌, [], length, IfOk, IfErr, OnOk, OnErr};
ghost use Rattle.std.specs.List.{AllByRecursion};
ghost use Rattle.line_io.specs.Counts.{CountRose};
ghost use Rattle.campaign_law.specs.Law.{IsOpening, answer_after, world_of};
ghost use Rattle.crash_log.specs.Entries.{entry_bytes};
ghost use Rattle.crash_log.specs.Log.{IsDisks};
ghost use Rattle.script_play.specs.Script.{NothingWaits, takens, with_takens};
ghost use Rattle.script_play.specs.Played.{GoesOn, HasWritten, IsPrefix, IsOfLine, IsCutShort, entries_since};
ghost use Rattle.log_play.specs.Kept.{HasNoRoom, KeepsLog};
ghost use Rattle.log_play.specs.Logged.{as_played, logged, IsLogStop};

use crate::logged::{Logged, logged_by};
use campaign_core::Campaign;
use campaign_law::{Answer, Entry};
use crash_log::{Disk, Journal, LogFault, append};
use line_io::Sink;
use script_play::{Tally, send_all};
use std::alloc::Global;
use topology::Eye;

/// Logs a line's entry, writes what it sends, and takes the lines that wait then.
pub(crate) fn enter_with_takens<O: Sink, E: Eye + Drop, K: Disk>(
    alloc: Global,
    campaign: &mut Campaign<E>,
    disk: &mut K,
    journal: &mut Journal,
    entry: Entry,
    out: &mut O,
) -> Result<(), Logged>
    requires opening { IsOpening campaign.old.origin }
    requires line { IsOfLine (world_of campaign.old) entry }
    requires quiet { NothingWaits (world_of campaign.old) }
    requires journal { K.tells → IsDisks K.seen K.may_leave disk.old journal.old }

    ensures campaign { GoesOn campaign.old campaign.new }
    ensures entered { OnOk result (entries_since campaign.old campaign.new ≡ with_takens (world_of campaign.old) entry) }
    ensures stopped { OnErr result (IsPrefix (entries_since campaign.old campaign.new) (with_takens (world_of campaign.old) entry)) }
    ensures written { HasWritten (as_played (logged result)) (world_of campaign.old) (entries_since campaign.old campaign.new)
        (O.written out.old) (O.written out.new) }
    ensures waits { OnOk result (NothingWaits (world_of campaign.new)) }
    ensures log { K.tells → KeepsLog K.seen K.may_leave K.moment K.left_since (logged result)
        (entries_since campaign.old campaign.new) (with_takens (world_of campaign.old) entry) disk.old disk.new journal.old journal.new }
    ensures stop { IfErr result (λ stop. IsCutShort (as_played stop)) }
    ensures full { logged result ≡ Logged.Full → HasNoRoom journal.new (entries_since campaign.old campaign.new)
        (with_takens (world_of campaign.old) entry) }
    ensures out_count { O.faults_of out.old ≤ O.faults_of out.new }
    ensures write_fault { logged result ≡ Logged.WriteFault → CountRose (O.faults_of out.old) (O.faults_of out.new) }
    ensures disk_count { K.faults_of disk.old ≤ K.faults_of disk.new }
    ensures disk_fault { logged result ≡ Logged.DiskFault → CountRose (K.faults_of disk.old) (K.faults_of disk.new) }
{
    match enter(alloc, campaign, disk, journal, entry, out) {
        Ok(due) => log_all(alloc, campaign, disk, journal, due),
        Err(stop) => Err(stop),
    }
}

// Logs a line's entry, and then writes what it sends. The answer has the Takens that are due then.
fn enter<O: Sink, E: Eye + Drop, K: Disk>(
    alloc: Global,
    campaign: &mut Campaign<E>,
    disk: &mut K,
    journal: &mut Journal,
    entry: Entry,
    out: &mut O,
) -> Result<Vec<Entry>, Logged>
    requires opening { IsOpening campaign.old.origin }
    requires line { IsOfLine (world_of campaign.old) entry }
    requires quiet { NothingWaits (world_of campaign.old) }
    requires journal { K.tells → IsDisks K.seen K.may_leave disk.old journal.old }

    ensures campaign { GoesOn campaign.old campaign.new }
    ensures entered { OnOk result (entries_since campaign.old campaign.new ≡ entry ∷ []) }
    ensures stopped { OnErr result (IsPrefix (entries_since campaign.old campaign.new) (entry ∷ [])) }
    ensures due { IfOk result (λ due. due.items ≡ takens (world_of campaign.new)) }
    ensures written { HasWritten (as_played (logged result)) (world_of campaign.old) (entries_since campaign.old campaign.new)
        (O.written out.old) (O.written out.new) }
    ensures log { K.tells → KeepsLog K.seen K.may_leave K.moment K.left_since (logged result)
        (entries_since campaign.old campaign.new) (entry ∷ []) disk.old disk.new journal.old journal.new }
    ensures stop { IfErr result (λ stop. IsCutShort (as_played stop)) }
    ensures full { logged result ≡ Logged.Full → HasNoRoom journal.new (entries_since campaign.old campaign.new) (entry ∷ []) }
    ensures out_count { O.faults_of out.old ≤ O.faults_of out.new }
    ensures write_fault { logged result ≡ Logged.WriteFault → CountRose (O.faults_of out.old) (O.faults_of out.new) }
    ensures disk_count { K.faults_of disk.old ≤ K.faults_of disk.new }
    ensures disk_fault { logged result ≡ Logged.DiskFault → CountRose (K.faults_of disk.old) (K.faults_of disk.new) }
{
    let acting = entry.seat();
    match log_entry(alloc, campaign, disk, journal, entry) {
        Ok(answer) => {
            let mut tally = Tally::new();
            match send_all(alloc, campaign, acting, &answer.line, out, &mut tally) {
                Ok(due) => Ok(due),
                Err(stop) => Err(logged_by(stop)),
            }
        }
        Err(stop) => Err(stop),
    }
}

/// Logs entries one after the other: each is prepared, put behind the log, and then committed. After a stop the history has the
/// first of them. `DiskFault`, `Full` and `Memory` alone stop it.
pub fn log_all<E: Eye + Drop, K: Disk>(
    alloc: Global,
    campaign: &mut Campaign<E>,
    disk: &mut K,
    journal: &mut Journal,
    entries: Vec<Entry>,
) -> Result<(), Logged>
    requires short { AllByRecursion (λ e. length (entry_bytes e) ≤ 4098) entries.items }
    requires journal { K.tells → IsDisks K.seen K.may_leave disk.old journal.old }
    ensures campaign { GoesOn campaign.old campaign.new }
    ensures entered { OnOk result (entries_since campaign.old campaign.new ≡ entries.items) }
    ensures stopped { OnErr result (IsPrefix (entries_since campaign.old campaign.new) entries.items) }
    ensures log { K.tells → KeepsLog K.seen K.may_leave K.moment K.left_since (logged result)
        (entries_since campaign.old campaign.new) entries.items disk.old disk.new journal.old journal.new }
    ensures stop { IfErr result IsLogStop }
    ensures full { logged result ≡ Logged.Full → HasNoRoom journal.new (entries_since campaign.old campaign.new) entries.items }
    ensures disk_count { K.faults_of disk.old ≤ K.faults_of disk.new }
    ensures disk_fault { logged result ≡ Logged.DiskFault → CountRose (K.faults_of disk.old) (K.faults_of disk.new) }
{
    for entry in entries {
        match log_entry(alloc, campaign, disk, journal, entry) {
            Ok(_) => {}
            Err(stop) => return Err(stop),
        }
    }
    Ok(())
}

// Prepares the entry, puts it behind the log, and commits it. At an error the history is as it was.
fn log_entry<E: Eye + Drop, K: Disk>(
    alloc: Global,
    campaign: &mut Campaign<E>,
    disk: &mut K,
    journal: &mut Journal,
    entry: Entry,
) -> Result<Answer, Logged>
    requires short { length (entry_bytes entry) ≤ 4098 }
    requires journal { K.tells → IsDisks K.seen K.may_leave disk.old journal.old }
    ensures origin { campaign.new.origin ≡ campaign.old.origin }
    ensures history { OnOk result (campaign.new.history ≡ campaign.old.history ++ entry ∷ []) }
    ensures unchanged { OnErr result (campaign.new.history ≡ campaign.old.history) }
    ensures answer { IfOk result (λ a. a ≡ answer_after campaign.old entry) }
    ensures log { K.tells → KeepsLog K.seen K.may_leave K.moment K.left_since (logged result)
        (entries_since campaign.old campaign.new) (entry ∷ []) disk.old disk.new journal.old journal.new }
    ensures stop { IfErr result IsLogStop }
    ensures full { logged result ≡ Logged.Full → 2 ^ 30 ≤ journal.new + 5 + length (entry_bytes entry) }
    ensures disk_count { K.faults_of disk.old ≤ K.faults_of disk.new }
    ensures disk_fault { logged result ≡ Logged.DiskFault → CountRose (K.faults_of disk.old) (K.faults_of disk.new) }
{
    if campaign.prepare(entry).is_err() {
        return Err(Logged::Memory);
    }
    let Some(staged) = campaign.staged() else {
        unreachable!();
    };
    match append(alloc, disk, journal, staged) {
        Ok(()) => Ok(campaign.commit()),
        Err(LogFault::DiskFault) => Err(Logged::DiskFault),
        Err(LogFault::Full) => Err(Logged::Full),
        Err(LogFault::Memory) => Err(Logged::Memory),
        Err(LogFault::BadLog { .. }) => unreachable!(),
    }
}
