//! What a crash left is read: the text, and the entries whose gates are open.
ghost use Rattle.std.specs.Prelude.{◌≡◌, ◌≤◌, ◌<◌, ◌+◌, ◌^◌, ℕ, List, ◌++◌, ◌∷◌, [], ◌↔◌, length, take, drop, codes, IfOk, IfErr, IfSome, IsErr, IsErrOf, IsTrue, None, OnOk, MatchOption};
ghost use Rattle.line_io.specs.Counts.{CountRose};
ghost use Rattle.crash_log.specs.Disk.{LeavesOnly};
ghost use Rattle.crash_log.specs.Entries.{entry_bytes, InRange};
ghost use Rattle.crash_log.specs.Log.{HoldsLog, IsBadAt, IsLog, open_part};
ghost use Rattle.crash_log.specs.Faults.{IsBadFault, IsRecoverFault};
ghost use Rattle.crash_log.specs.Reading.{OnlyRead, HasHead, IsShut, OpensSize, HasRecord, IsHeadFault, IsEntryFault, IsWantOrFault, IsGateFault, IsRecordsFault};

use crate::disk::Disk;
use crate::entry_bytes::{ENTRY_BYTES, four, read_entry};
use crate::faults::LogFault;
use crate::journal::{GATE_LIMIT, Journal, TEXT_BYTES};
use campaign_law::Entry;
use names::{LineText, Memory};
use std::alloc::Global;
use std::marker::Model;

/// Entries, in order. Contracts see a list.
#[derive(Drop)]
pub struct Entries {
    /// The entries, the first of them first.
    pub list: Vec<Entry>,
}

impl Model for Entries {
    ghost use Rattle.std.specs.Prelude.{List};
    ghost use Rattle.campaign_law.specs.declared.entry.Entry.{Entry};

    ghost Value = { List Entry };

    ghost view = { λ e. e.list.items };
}

/// What a log was recovered to.
#[derive(Drop)]
pub struct Recovered {
    /// The campaign's text.
    pub text: LineText,
    /// All entries of the log.
    pub entries: Entries,
    /// With it further entries are put behind them.
    pub journal: Journal,
}

/// Syncs the disk, and reads its log. `BadLog` exactly where the file is no log: at 0 where it doesn't begin with a head, else at its
/// first gate that is missing, lies at `GATE_LIMIT` or behind it, or opens a bad record. It may crash too, at any moment.
pub fn recover<K: Disk>(alloc: Global, disk: &mut K) -> Result<Recovered, LogFault>
    ensures found { K.tells → IfOk result (λ r. HoldsLog K.seen K.may_leave disk.new r.journal r.text r.entries) }
    ensures bad { K.tells → IfErr result (IsBadFault (K.seen disk.old)) }
    ensures bad_is_told { K.tells → (place : ℕ) → IsBadAt (K.seen disk.old) place → IsErr result }
    ensures same { K.tells → K.seen disk.new ≡ K.seen disk.old }

    // A crash at any moment of the call leaves what one before it may have left.
    ensures any_moment { K.tells → LeavesOnly K.moment K.left_since disk.old disk.new (K.may_leave disk.old) }

    ensures fault { IfErr result IsRecoverFault }
    ensures count { K.faults_of disk.old ≤ K.faults_of disk.new }
    ensures failed { IsErrOf result LogFault.DiskFault
        → CountRose (K.faults_of disk.old) (K.faults_of disk.new) }
{
    disk.sync()?;
    let text = read_head(alloc, disk)?;
    let (list, end) = read_records(alloc, disk, text.bytes())?;
    let entries = Entries { list };
    Ok(Recovered {
        text,
        entries,
        journal: Journal::at(end),
    })
}

// The text.
fn read_head<K: Disk>(alloc: Global, disk: &mut K) -> Result<LineText, LogFault>
    ensures found { K.tells → IfOk result (λ text. HasHead (K.seen disk.old) text) }
    ensures short { IfOk result (λ text. length text ≤ 16777216) }
    ensures bad { K.tells → IfErr result (IsHeadFault (K.seen disk.old)) }
    ensures read { K.tells → OnlyRead K.seen K.may_leave K.moment K.left_since disk.old disk.new }
    ensures fault { IfErr result IsRecoverFault }
    ensures count { K.faults_of disk.old ≤ K.faults_of disk.new }
    ensures failed { IsErrOf result LogFault.DiskFault
        → CountRose (K.faults_of disk.old) (K.faults_of disk.new) }
{
    let mut piece = [0; 10];
    let count = disk.read_at(0, &mut piece)?;
    if count < 10 {
        return Err(LogFault::BadLog { at: 0 });
    }
    if !has_mark(&piece) {
        return Err(LogFault::BadLog { at: 0 });
    }
    let size = four(&piece[6..]);
    if size > TEXT_BYTES {
        return Err(LogFault::BadLog { at: 0 });
    }
    match read_piece(alloc, disk, 10, size as usize)? {
        Some(text) => Ok(text),
        None => Err(LogFault::BadLog { at: 0 }),
    }
}

// So many bytes from this place on; none, where fewer are there.
fn read_piece<K: Disk>(
    alloc: Global,
    disk: &mut K,
    at: u64,
    size: usize,
) -> Result<Option<LineText>, LogFault>
    ensures size { IfOk result (λ r. IfSome r (λ bytes. length bytes ≡ size)) }
    ensures found { K.tells → IfOk result (λ r. IfSome r (λ bytes. bytes ≡ take size (drop at (K.seen disk.old)))) }
    ensures short { K.tells → IfOk result (λ r. r ≡ None → length (drop at (K.seen disk.old)) < size) }
    ensures not_bad { IfErr result IsWantOrFault }
    ensures read { K.tells → OnlyRead K.seen K.may_leave K.moment K.left_since disk.old disk.new }
    ensures fault { IfErr result IsRecoverFault }
    ensures count { K.faults_of disk.old ≤ K.faults_of disk.new }
    ensures failed { IsErrOf result LogFault.DiskFault
        → CountRose (K.faults_of disk.old) (K.faults_of disk.new) }
{
    let mut bytes = zeros(alloc, size)?;
    let count = disk.read_at(at, &mut bytes)?;
    if count < size {
        return Ok(None);
    }
    Ok(Some(LineText::new(bytes)))
}

fn has_mark(piece: &[u8]) -> bool
    ensures { IsTrue result ↔ (take 6 piece.now ≡ codes "TTLOG1") }
{
    matches!(piece, [b'T', b'T', b'L', b'O', b'G', b'1', ..])
}

fn zeros(alloc: Global, count: usize) -> Result<Vec<u8>, Memory>
    ensures { IfOk result (λ v. length v.items ≡ count) }
{
    let mut bytes = Vec::new(alloc);
    match bytes.resize(count, 0) {
        Ok(()) => Ok(bytes),
        Err(_) => Err(Memory),
    }
}

// The records behind the head of this text, and the place of the closed gate behind them.
fn read_records<K: Disk>(
    alloc: Global,
    disk: &mut K,
    text: &[u8],
) -> Result<(Vec<Entry>, u64), LogFault>
    requires short { length text.now ≤ 16777216 }
    requires head { K.tells → HasHead (K.seen disk.old) text.now }
    ensures found { K.tells → IfOk result (λ r. IsLog text.now r.0.items (K.seen disk.old)
        × (r.1 ≡ length (open_part text.now r.0.items))) }
    ensures place { IfOk result (λ r. r.1 < 2 ^ 30) }
    ensures bad { K.tells → IfErr result (IsRecordsFault (K.seen disk.old)) }
    ensures read { K.tells → OnlyRead K.seen K.may_leave K.moment K.left_since disk.old disk.new }
    ensures fault { IfErr result IsRecoverFault }
    ensures count { K.faults_of disk.old ≤ K.faults_of disk.new }
    ensures failed { IsErrOf result LogFault.DiskFault
        → CountRose (K.faults_of disk.old) (K.faults_of disk.new) }
{
    let mut gate = 10 + text.len() as u64;
    let mut entries = Vec::new(alloc);
    'records: loop {
        if gate >= GATE_LIMIT {
            return Err(LogFault::BadLog { at: gate });
        }
        match read_record(alloc, disk, gate)? {
            None => return Ok((entries, gate)),
            Some((entry, next)) => {
                pushed(&mut entries, entry)?;
                gate = next;
            }
        }
    }
}

fn pushed(entries: &mut Vec<Entry>, entry: Entry) -> Result<(), Memory>
    ensures { OnOk result (entries.new.items ≡ entries.old.items ++ entry ∷ []) }
{
    match entries.push(entry) {
        Ok(()) => Ok(()),
        Err(_) => Err(Memory),
    }
}

// The entry behind this gate, and the place of the next gate; none, where the gate is closed.
fn read_record<K: Disk>(
    alloc: Global,
    disk: &mut K,
    gate: u64,
) -> Result<Option<(Entry, u64)>, LogFault>
    requires place { gate < 2 ^ 30 }
    requires within { K.tells → gate ≤ length (K.seen disk.old) }
    ensures shut { K.tells → IfOk result (λ r. MatchOption r (IsShut (drop gate (K.seen disk.old)))
        (λ p. HasRecord (drop gate (K.seen disk.old)) p.0)) }
    ensures next { K.tells → IfOk result (λ r. IfSome r (λ p. p.1 ≡ gate + 5 + length (entry_bytes p.0))) }
    ensures on { IfOk result (λ r. IfSome r (λ p. (gate < p.1) × (p.1 ≤ gate + 4103))) }
    ensures bad { K.tells → IfErr result (IsGateFault gate (drop gate (K.seen disk.old))) }
    ensures read { K.tells → OnlyRead K.seen K.may_leave K.moment K.left_since disk.old disk.new }
    ensures fault { IfErr result IsRecoverFault }
    ensures count { K.faults_of disk.old ≤ K.faults_of disk.new }
    ensures failed { IsErrOf result LogFault.DiskFault
        → CountRose (K.faults_of disk.old) (K.faults_of disk.new) }
{
    match open_gate(disk, gate)? {
        None => Ok(None),
        Some(size) => {
            let entry = entry_at(alloc, disk, gate, size)?;
            Ok(Some((entry, gate + 5 + size as u64)))
        }
    }
}

// The size of the entry behind this gate; none, where the gate is closed.
fn open_gate<K: Disk>(disk: &mut K, gate: u64) -> Result<Option<usize>, LogFault>
    requires within { K.tells → gate ≤ length (K.seen disk.old) }
    ensures size { IfOk result (λ size. IfSome size (λ n. (2 ≤ n) × (n ≤ 4098))) }
    ensures shut { K.tells → IfOk result (λ size. MatchOption size (IsShut (drop gate (K.seen disk.old)))
        (λ n. OpensSize (drop gate (K.seen disk.old)) n)) }
    ensures bad { K.tells → IfErr result (IsGateFault gate (drop gate (K.seen disk.old))) }
    ensures read { K.tells → OnlyRead K.seen K.may_leave K.moment K.left_since disk.old disk.new }
    ensures fault { IfErr result IsRecoverFault }
    ensures count { K.faults_of disk.old ≤ K.faults_of disk.new }
    ensures failed { IsErrOf result LogFault.DiskFault
        → CountRose (K.faults_of disk.old) (K.faults_of disk.new) }
{
    let mut piece = [0; 5];
    let count = disk.read_at(gate, &mut piece)?;
    if count == 0 {
        return Err(LogFault::BadLog { at: gate });
    }
    if piece[0] != 1 {
        return Ok(None);
    }
    if count < 5 {
        return Err(LogFault::BadLog { at: gate });
    }
    let size = four(&piece[1..]) as usize;
    if size < 2 || size > ENTRY_BYTES {
        return Err(LogFault::BadLog { at: gate });
    }
    Ok(Some(size))
}

// The entry of this size behind the gate.
fn entry_at<K: Disk>(alloc: Global, disk: &mut K, gate: u64, size: usize) -> Result<Entry, LogFault>
    requires place { gate < 2 ^ 30 }
    requires size { size ≤ 4098 }
    requires within { K.tells → gate ≤ length (K.seen disk.old) }
    requires opens { K.tells → OpensSize (drop gate (K.seen disk.old)) size }
    ensures found { K.tells → IfOk result (λ e. HasRecord (drop gate (K.seen disk.old)) e) }
    ensures size { K.tells → IfOk result (λ e. length (entry_bytes e) ≡ size) }
    ensures bad { K.tells → IfErr result (IsGateFault gate (drop gate (K.seen disk.old))) }
    ensures read { K.tells → OnlyRead K.seen K.may_leave K.moment K.left_since disk.old disk.new }
    ensures fault { IfErr result IsRecoverFault }
    ensures count { K.faults_of disk.old ≤ K.faults_of disk.new }
    ensures failed { IsErrOf result LogFault.DiskFault
        → CountRose (K.faults_of disk.old) (K.faults_of disk.new) }
{
    let Some(bytes) = read_piece(alloc, disk, gate + 5, size)? else {
        return Err(LogFault::BadLog { at: gate });
    };
    match entry_in(alloc, gate, bytes.bytes()) {
        Ok(entry) => Ok(entry),
        Err(fault) => Err(fault),
    }
}

// The entry of these bytes behind the gate.
fn entry_in(alloc: Global, gate: u64, bytes: &[u8]) -> Result<Entry, LogFault>
    ensures found { IfOk result (λ e. (entry_bytes e ≡ bytes.now) × InRange e) }
    ensures bad { IfErr result (IsEntryFault gate bytes.now) }
{
    match read_entry(alloc, bytes) {
        Ok(Some(entry)) => Ok(entry),
        Ok(None) => Err(LogFault::BadLog { at: gate }),
        Err(_) => Err(LogFault::Memory),
    }
}
