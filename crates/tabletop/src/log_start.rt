//! The log of a run as it starts: it is made or recovered, its entries are entered again, and who was there has left.
ghost use Rattle.std.specs.Prelude.{◌≡◌, ◌≤◌, ◌<◌, ◌++◌, ◌∷◌, [], length, IfOk, IfErr, IsErrOf, OnOk, OnErr};
ghost use Rattle.line_io.specs.Counts.{CountRose};
ghost use Rattle.campaign_law.specs.World.{seat_at};
ghost use Rattle.campaign_law.specs.Law.{world_of};
ghost use Rattle.crash_log.specs.Disk.{LeavesOnly};
ghost use Rattle.crash_log.specs.Log.{HoldsLog};
ghost use Rattle.crash_log.specs.Reading.{OnlyRead};
ghost use Rattle.tabletop.specs.Logged.{Begins, HasNoLog, leave_of, leaves};

use crate::endings::Ended;
use crate::log_end::LogEnded;
use campaign_core::Campaign;
use campaign_law::Entry;
use crash_log::{Disk, Journal, LogFault, Recovered, create, recover};
use line_io::Failed;
use names::{LineText, Memory, SeatNo};
use std::alloc::Global;
use topology::Eye;

/// The log of this name, for the campaign of this text: made where the file is empty, else recovered. The answer has its entries,
/// and its journal.
pub(crate) fn open_log<K: Disk>(
    alloc: Global,
    log: &str,
    text: &LineText,
    disk: &mut K,
) -> Result<(Vec<Entry>, Journal), LogEnded>
    requires short { length text.now ≤ 16777216 }
    ensures begins { K.tells → IfOk result (λ r. Begins K.seen K.may_leave K.moment K.left_since text.now r.0.items disk.old disk.new r.1) }
    ensures none { IfErr result (λ ended. HasNoLog K.tells ended text.now (K.seen disk.old)) }
    ensures count { K.faults_of disk.old ≤ K.faults_of disk.new }
    ensures failed { IsErrOf result LogEnded.DiskFault → CountRose (K.faults_of disk.old) (K.faults_of disk.new) }
{
    match open_length(log, disk) {
        Ok(0) => make_log(alloc, text, disk),
        Ok(_) => recover_log(alloc, text, disk),
        Err(_) => Err(LogEnded::DiskFault),
    }
}

// Opens the file of this name. The answer is its length.
fn open_length<K: Disk>(log: &str, disk: &mut K) -> Result<u64, Failed>
    ensures length { K.tells → IfOk result (λ n. n ≡ length (K.seen disk.old)) }
    ensures read { K.tells → OnlyRead K.seen K.may_leave K.moment K.left_since disk.old disk.new }
    ensures count { K.faults_of disk.old ≤ K.faults_of disk.new }
    ensures failed { OnErr result (CountRose (K.faults_of disk.old) (K.faults_of disk.new)) }
{
    disk.open(log)?;
    disk.length()
}

// A log of this text on an empty disk.
fn make_log<K: Disk>(
    alloc: Global,
    text: &LineText,
    disk: &mut K,
) -> Result<(Vec<Entry>, Journal), LogEnded>
    requires empty { K.tells → K.seen disk.old ≡ [] }
    requires short { length text.now ≤ 16777216 }
    ensures made { K.tells → IfOk result (λ r. HoldsLog K.seen K.may_leave disk.new r.1 text.now []) }
    ensures entries { IfOk result (λ r. r.0.items ≡ []) }
    ensures fault { IfErr result (λ ended. ended ≡ LogEnded.DiskFault) }
    ensures count { K.faults_of disk.old ≤ K.faults_of disk.new }
    ensures failed { OnErr result (CountRose (K.faults_of disk.old) (K.faults_of disk.new)) }
{
    match create(disk, text.bytes()) {
        Ok(journal) => Ok((Vec::new(alloc), journal)),
        Err(LogFault::DiskFault) => Err(LogEnded::DiskFault),
        Err(LogFault::BadLog { .. } | LogFault::Full | LogFault::Memory) => unreachable!(),
    }
}

// The log that is there. It has to be one of this text.
fn recover_log<K: Disk>(
    alloc: Global,
    text: &LineText,
    disk: &mut K,
) -> Result<(Vec<Entry>, Journal), LogEnded>
    requires there { K.tells → K.seen disk.old ≡ [] → ⊥ }
    ensures found { K.tells → IfOk result (λ r. HoldsLog K.seen K.may_leave disk.new r.1 text.now r.0.items) }
    ensures same { K.tells → K.seen disk.new ≡ K.seen disk.old }
    ensures any_moment { K.tells → LeavesOnly K.moment K.left_since disk.old disk.new (K.may_leave disk.old) }
    ensures none { IfErr result (λ ended. HasNoLog K.tells ended text.now (K.seen disk.old)) }
    ensures count { K.faults_of disk.old ≤ K.faults_of disk.new }
    ensures failed { IsErrOf result LogEnded.DiskFault → CountRose (K.faults_of disk.old) (K.faults_of disk.new) }
{
    match recover(alloc, disk) {
        Ok(found) => of_text(text, found),
        Err(LogFault::DiskFault) => Err(LogEnded::DiskFault),
        Err(LogFault::BadLog { at }) => Err(LogEnded::BadLog(at)),
        Err(LogFault::Memory) => Err(LogEnded::Plain(Ended::Memory)),
        Err(LogFault::Full) => unreachable!(),
    }
}

// What was recovered, where it has this text.
fn of_text(text: &LineText, found: Recovered) -> Result<(Vec<Entry>, Journal), LogEnded>
    ensures text { OnOk result (found.text ≡ text.now) }
    ensures found { IfOk result (λ r. (r.0.items ≡ found.entries) × (r.1 ≡ found.journal)) }
    ensures other { IfErr result (λ ended. ended ≡ LogEnded.OtherCampaign) }
    ensures differs { OnErr result (found.text ≡ text.now → ⊥) }
{
    if found.text.bytes() != text.bytes() {
        return Err(LogEnded::OtherCampaign);
    }
    let Recovered {
        entries,
        journal,
        ..
    } = found;
    Ok((entries.list, journal))
}

/// Enters these entries one after the other. They were in a log, and go into none.
pub(crate) fn enter_again<E: Eye + Drop>(
    campaign: &mut Campaign<E>,
    entries: Vec<Entry>,
) -> Result<(), Memory>
    ensures origin { campaign.new.origin ≡ campaign.old.origin }
    ensures entered { OnOk result (campaign.new.history ≡ campaign.old.history ++ entries.items) }
{
    for entry in entries {
        match campaign.step(entry) {
            Ok(_) => {}
            Err(_) => return Err(Memory),
        }
    }
    Ok(())
}

/// A Leave that drops its lines for each seat that isn't Free, in ascending order of seats.
pub(crate) fn leaves_due<E: Eye + Drop>(
    alloc: Global,
    campaign: &Campaign<E>,
) -> Result<Vec<Entry>, Memory>
    ensures { IfOk result (λ entries. entries.items ≡ leaves (world_of campaign.now)) }
{
    let seats = campaign.seat_count();
    let mut entries = Vec::new(alloc);
    for number in 0..seats {
        add_leave(campaign, number, &mut entries)?;
    }
    Ok(entries)
}

// The Leave of the seat of this number, unless it is Free.
fn add_leave<E: Eye + Drop>(
    campaign: &Campaign<E>,
    number: u8,
    entries: &mut Vec<Entry>,
) -> Result<(), Memory>
    requires there { number < length campaign.now.origin.seats }
    requires known { number ≤ 32 }
    ensures { OnOk result (entries.new.items ≡ entries.old.items ++ leave_of number (seat_at (world_of campaign.now) number)) }
{
    let Some(seat) = SeatNo::new(number) else {
        unreachable!();
    };
    if campaign.state(seat).is_free() {
        return Ok(());
    }
    put(entries, Entry::Leave { seat, drop: true })?;
    Ok(())
}

fn put(entries: &mut Vec<Entry>, entry: Entry) -> Result<(), Memory>
    ensures { OnOk result (entries.new.items ≡ entries.old.items ++ entry ∷ []) }
{
    match entries.push(entry) {
        Ok(()) => Ok(()),
        Err(_) => Err(Memory),
    }
}
