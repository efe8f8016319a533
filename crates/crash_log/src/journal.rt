//! A log on a disk: it is made, and entries are put behind it. An entry's gate is opened once the entry is safe.
ghost use Rattle.std.specs.Prelude.{◌≡◌, ◌≤◌, ◌<◌, ◌+◌, ◌^◌, ◌∷◌, [], length, All, IfOk, IfErr, IsOk, OnOk, OnErr, IsErrOf};
ghost use Rattle.std.specs.List.{flat_map};
ghost use Rattle.line_io.specs.Counts.{CountRose};
ghost use Rattle.crash_log.specs.Entries.{entry_bytes, IsShort};
ghost use Rattle.crash_log.specs.Log.{HoldsLog, IsDisks, head_bytes, record_bytes};
ghost use Rattle.crash_log.specs.Faults.{IsAppendFault, IsCreateFault};
ghost use Rattle.crash_log.specs.Runs.{Acknowledges, LeavesNoneOrAll};

use crate::disk::Disk;
use crate::entry_bytes::{gate_behind, sealed};
use crate::faults::LogFault;
use campaign_law::Entry;
use line_io::Failed;
use std::alloc::Global;
use std::marker::Model;
use std::slice;

/// What a log begins with.
pub(crate) const MARK: [u8; 6] = *b"TTLOG1";

/// The most bytes of a campaign's text.
pub const TEXT_BYTES: u32 = 16_777_216;

/// Every gate of a log lies before this place.
pub const GATE_LIMIT: u64 = 1_073_741_824;

/// Where a log's closed gate stands.
#[derive(Drop)]
pub struct Journal {
    end: u64,
}

// Contracts see the place.
impl Model for Journal {
    ghost use Rattle.std.specs.Prelude.{ℕ, ◌<◌, ◌^◌};

    ghost Value = { ℕ };

    ghost view = { λ j. j.end };

    ghost invariant = { λ j. j.end < 2 ^ 30 };
}

impl Journal {
    pub(crate) fn at(end: u64) -> Journal
        requires { end < 2 ^ 30 }
        ensures { result ≡ end }
    {
        Journal { end }
    }

    /// The place of the closed gate.
    pub fn end(&self) -> u64
        ensures value { result ≡ self.now }
        ensures bound { result < 2 ^ 30 }
    {
        self.end
    }
}

/// Makes a log of this text without entries on an empty disk. `DiskFault` only where the disk's count rose. A crash within the call, or a
/// fault, may leave a file that is no log, and is to be removed then.
pub fn create<K: Disk>(disk: &mut K, text: &[u8]) -> Result<Journal, LogFault>
    requires empty { K.tells → K.seen disk.old ≡ [] }
    requires short { length text.now ≤ TEXT_BYTES }
    ensures ok { K.tells → IfOk result (λ journal. HoldsLog K.seen K.may_leave disk.new journal text.now []) }
    ensures fault { IfErr result IsCreateFault }
    ensures count { K.faults_of disk.old ≤ K.faults_of disk.new }
    ensures failed { IsErrOf result LogFault.DiskFault
        → CountRose (K.faults_of disk.old) (K.faults_of disk.new) }
{
    let size = text.len() as u32;
    let end = 10 + text.len() as u64;
    write_head(disk, text, size)?;
    disk.write_at(end, &[0])?;
    disk.sync()?;
    Ok(Journal::at(end))
}

// Writes what stands before the first gate.
fn write_head<K: Disk>(disk: &mut K, text: &[u8], size: u32) -> Result<(), Failed>
    requires empty { K.tells → K.seen disk.old ≡ [] }
    requires size { size ≡ length text.now }
    ensures written { K.tells → OnOk result (K.seen disk.new ≡ head_bytes text.now) }
    ensures count { K.faults_of disk.old ≤ K.faults_of disk.new }
    ensures failed { OnErr result (CountRose (K.faults_of disk.old) (K.faults_of disk.new)) }
{
    disk.write_at(0, &MARK)?;
    disk.write_at(6, &size.to_be_bytes())?;
    disk.write_at(10, text)
}

/// Puts an entry behind the log. At Ok it is acknowledged: from then on each crash leaves a log that has it.
///
/// `Full` exactly where the new gate's place isn't below `GATE_LIMIT`; `Memory` where memory is wanting: both change nothing. `DiskFault`
/// only where the disk's count rose; the log has to be recovered then before it goes on.
pub fn append<K: Disk>(
    alloc: Global,
    disk: &mut K,
    journal: &mut Journal,
    entry: &Entry,
) -> Result<(), LogFault>
    requires journal { K.tells → IsDisks K.seen K.may_leave disk.old journal.old }
    requires short { length (entry_bytes entry.now) ≤ 4098 }
    ensures acknowledged { K.tells
        → Acknowledges K.seen K.may_leave disk.old journal.old disk.new journal.new (entry.now ∷ []) result }

    // A crash at any moment of the call leaves the log from before it, with the entry or without.
    ensures any_moment { K.tells
        → LeavesNoneOrAll K.seen K.may_leave K.moment K.left_since disk.old journal.old disk.new (entry.now ∷ []) }

    ensures full { IsErrOf result LogFault.Full
        → 2 ^ 30 ≤ journal.old + 5 + length (entry_bytes entry.now) }
    ensures is_full { 2 ^ 30 ≤ journal.old + 5 + length (entry_bytes entry.now)
        → IsErrOf result LogFault.Full }
    ensures unchanged { IsErrOf result LogFault.Full → disk.new ≡ disk.old }
    ensures unchanged_memory { IsErrOf result LogFault.Memory → disk.new ≡ disk.old }
    ensures end { OnErr result (journal.new ≡ journal.old) }
    ensures fault { IfErr result IsAppendFault }
    ensures count { K.faults_of disk.old ≤ K.faults_of disk.new }
    ensures failed { IsErrOf result LogFault.DiskFault
        → CountRose (K.faults_of disk.old) (K.faults_of disk.new) }
{
    append_all(alloc, disk, journal, slice::from_ref(entry))
}

/// Puts a group of entries behind the log with two syncs, as `append` puts one. At Ok all of them are acknowledged. A crash leaves
/// all of the group or none of it, and so does a fault. An empty group changes nothing.
///
/// `Full` exactly where the place of the gate behind the group isn't below `GATE_LIMIT`; a smaller group may fit.
pub fn append_all<K: Disk>(
    alloc: Global,
    disk: &mut K,
    journal: &mut Journal,
    entries: &[Entry],
) -> Result<(), LogFault>
    requires journal { K.tells → IsDisks K.seen K.may_leave disk.old journal.old }
    requires short { All IsShort entries.now }
    ensures acknowledged { K.tells
        → Acknowledges K.seen K.may_leave disk.old journal.old disk.new journal.new entries.now result }

    // A crash at any moment of the call leaves the log from before it, with all of the group or with none of it.
    ensures any_moment { K.tells
        → LeavesNoneOrAll K.seen K.may_leave K.moment K.left_since disk.old journal.old disk.new entries.now }

    ensures none { entries.now ≡ [] → IsOk result }
    ensures unchanged_none { entries.now ≡ [] → disk.new ≡ disk.old }
    ensures full { IsErrOf result LogFault.Full
        → 2 ^ 30 ≤ journal.old + length (flat_map record_bytes entries.now) }
    ensures is_full { 2 ^ 30 ≤ journal.old + length (flat_map record_bytes entries.now)
        → IsErrOf result LogFault.Full }
    ensures unchanged { IsErrOf result LogFault.Full → disk.new ≡ disk.old }
    ensures unchanged_memory { IsErrOf result LogFault.Memory → disk.new ≡ disk.old }
    ensures end { OnErr result (journal.new ≡ journal.old) }
    ensures fault { IfErr result IsAppendFault }
    ensures count { K.faults_of disk.old ≤ K.faults_of disk.new }
    ensures failed { IsErrOf result LogFault.DiskFault
        → CountRose (K.faults_of disk.old) (K.faults_of disk.new) }
{
    let gate = journal.end();
    if entries.is_empty() {
        return Ok(());
    }
    let Some(next) = gate_behind(gate, entries) else {
        return Err(LogFault::Full);
    };
    let group = sealed(alloc, entries)?;

    // The records have to be safe before the first of their gates is opened; the others are open already.
    disk.write_at(gate + 1, &group[1..])?;
    disk.sync()?;
    disk.write_at(gate, &[1])?;
    disk.sync()?;
    *journal = Journal::at(next);
    Ok(())
}
