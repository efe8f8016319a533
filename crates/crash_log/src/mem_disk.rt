//! A disk in memory, which stops where it is told to, and tells what a crash leaves.
ghost use Rattle.std.specs.Prelude.{◌≡◌, ◌≤◌, ◌-◌, ◌↔◌, ◌++◌, ◌∷◌, [], ℕ, List, min, length, take, drop, false, IfOk, OnOk, OnErr, IsTrue, is_err};
ghost use Rattle.line_io.specs.Counts.{CountRose};
ghost use Rattle.crash_log.specs.declared.calls.Call.TheVariants.{Asked, Wrote, Synced};
ghost use Rattle.crash_log.specs.Disk.{Holds, Torn, Follows, Only, NoMore};
ghost use Rattle.crash_log.specs.Memory.{HasCalled, IsDue, IsImage, IsLeftAs, LeftSince, Passes, after_call, after_calls, settled, counts_now, current, only_now, overlaid, seen_may_stay, state_of};

use crate::calls::Call;
use crate::disk::Disk;
use crate::faults::counted;
use line_io::Failed;
use names::{LineText, Memory};
use std::alloc::{AllocError, Global};
use std::marker::Model;

/// A disk in memory. It keeps what it held at first and each call that it did.
#[derive(Drop)]
pub struct MemDisk {
    alloc: Global,
    start: LineText,
    changed: Option<LineText>,
    calls: Vec<Call>,
    failing: Vec<u64>,
    stop: Option<u64>,
    made: u64,
    faults: u64,
}

impl Model for MemDisk {
    ghost use Rattle.std.specs.Prelude.{◌≡◌};
    ghost use Rattle.crash_log.specs.Memory.{MemoryDisk, after_calls, current, settled};

    ghost Value = { MemoryDisk };

    ghost view = { λ d. record {
      start = d.start;
      calls = d.calls.items;
      failing = d.failing.items;
      stop = d.stop;
      made = d.made;
      faults = d.faults;
    } };

    ghost invariant = { λ d. current d.start d.changed ≡ (after_calls d.calls.items (settled d.start)).seen };
}

impl MemDisk {
    /// A disk that holds these bytes, as after a sync. The calls that may fail are numbered from 0 on; those in `fail` fail, and
    /// all from `stop` on, and so does one for whose record memory is wanting. A call that fails does nothing, and is counted.
    pub fn new(alloc: Global, bytes: LineText, fail: Vec<u64>, stop: Option<u64>) -> MemDisk
        ensures { result ≡ record { start = bytes; calls = []; failing = fail.items; stop = stop; made = 0; faults = 0 } }
    {
        MemDisk {
            alloc,
            start: bytes,
            changed: None,
            calls: Vec::new(alloc),
            failing: fail,
            stop,
            made: 0,
            faults: 0,
        }
    }

    /// How many calls that may fail were made.
    pub fn calls(&self) -> u64
        ensures { result ≡ self.now.made }
    {
        self.made
    }

    /// What a crash now leaves, with all bytes that were written since the last sync or with none of them.
    pub fn leave(&self, unsynced: bool) -> Result<LineText, Memory>
        ensures image { IfOk result (λ bytes. IsImage (state_of self.now) bytes) }
        ensures all { IfOk result (λ bytes. IsTrue unsynced → bytes ≡ (state_of self.now).seen) }
        ensures none { IfOk result (λ bytes. unsynced ≡ false → bytes ≡ (state_of self.now).synced) }
    {
        if unsynced {
            return LineText::copy(self.alloc, current_bytes(&self.start, &self.changed));
        }
        match synced(self.alloc, self.start.bytes(), &self.calls) {
            Ok(bytes) => Ok(bytes),
            Err(_) => Err(Memory),
        }
    }
}

// What a read gives.
fn current_bytes<'a>(start: &'a LineText, changed: &'a Option<LineText>) -> &'a [u8]
    ensures { result.now ≡ current start.now changed.now }
{
    match changed {
        Some(bytes) => bytes.bytes(),
        None => start.bytes(),
    }
}

// What the last sync made sure of.
fn synced(alloc: Global, start: &[u8], calls: &[Call]) -> Result<LineText, AllocError>
    ensures { IfOk result (λ bytes. bytes ≡ (after_calls calls.now (settled start.now)).synced) }
{
    let mut seen = Vec::from_slice(alloc, start)?;
    let mut safe = Vec::from_slice(alloc, start)?;
    for call in calls {
        replay(alloc, call, &mut seen, &mut safe)?;
    }
    Ok(LineText::new(safe))
}

// Does the call on what a read gives and on what is safe.
fn replay(
    alloc: Global,
    call: &Call,
    seen: &mut Vec<u8>,
    safe: &mut Vec<u8>,
) -> Result<(), AllocError>
    ensures seen { OnOk result ((ranges : List (ℕ × ℕ)) → seen.new.items
        ≡ (after_call call.now (record { seen = seen.old.items; synced = safe.old.items; pending = ranges })).seen) }
    ensures safe { OnOk result ((ranges : List (ℕ × ℕ)) → safe.new.items
        ≡ (after_call call.now (record { seen = seen.old.items; synced = safe.old.items; pending = ranges })).synced) }
{
    match call {
        Call::Asked => Ok(()),
        Call::Wrote { at, bytes } => {
            let next = overlay(alloc, seen, *at as usize, bytes.bytes())?;
            *seen = next;
            Ok(())
        }
        Call::Synced => {
            let copy = Vec::from_slice(alloc, seen)?;
            *safe = copy;
            Ok(())
        }
    }
}

// The bytes with these at that place, or behind them where they end before it.
fn overlay(alloc: Global, old: &[u8], at: usize, bytes: &[u8]) -> Result<Vec<u8>, AllocError>
    ensures { IfOk result (λ next. next.items ≡ overlaid old.now at bytes.now) }
{
    let mut next = old[..at.min(old.len())].to_vec(alloc)?;
    next.extend_from_slice(bytes)?;
    if at < old.len() && bytes.len() < old.len() - at {
        next.extend_from_slice(&old[at + bytes.len()..])?;
    }
    Ok(next)
}

// Whether the call of this number is to fail.
fn is_due(failing: &[u64], stop: Option<u64>, number: u64) -> bool
    ensures { IsTrue result ↔ IsDue failing.now stop number }
{
    let stopped = match stop {
        Some(first) => number >= first,
        None => false,
    };
    stopped || failing.contains(&number)
}

// Writes unless the call is to fail, and keeps a record of it. At an error nothing is changed.
fn write_unless(
    due: bool,
    alloc: Global,
    start: &LineText,
    changed: &mut Option<LineText>,
    calls: &mut Vec<Call>,
    at: u64,
    bytes: &[u8],
) -> Result<(), Failed>
    ensures due { OnOk result (due ≡ false) }
    ensures ok { OnOk result (current start.now changed.new ≡ overlaid (current start.now changed.old) at bytes.now) }
    ensures calls { OnOk result (calls.new.items ≡ calls.old.items ++ Wrote at bytes.now ∷ []) }
    ensures err { OnErr result (changed.new ≡ changed.old) }
    ensures calls_err { OnErr result (calls.new.items ≡ calls.old.items) }
{
    if due {
        return Err(Failed);
    }
    let Ok(next) = overlay(alloc, current_bytes(start, changed), at as usize, bytes) else {
        return Err(Failed);
    };
    let Ok(copy) = LineText::copy(alloc, bytes) else {
        return Err(Failed);
    };
    if calls.push(Call::Wrote { at, bytes: copy }).is_err() {
        return Err(Failed);
    }
    *changed = Some(LineText::new(next));
    Ok(())
}

// Keeps a record of a call that changes nothing, unless it is to fail.
fn ask_unless(due: bool, calls: &mut Vec<Call>) -> Result<(), Failed>
    ensures due { OnOk result (due ≡ false) }
    ensures ok { OnOk result (calls.new.items ≡ calls.old.items ++ Asked ∷ []) }
    ensures err { OnErr result (calls.new.items ≡ calls.old.items) }
{
    if due {
        return Err(Failed);
    }
    match calls.push(Call::Asked) {
        Ok(()) => Ok(()),
        Err(_) => Err(Failed),
    }
}

// Keeps a record of a sync, unless it is to fail.
fn sync_unless(due: bool, calls: &mut Vec<Call>) -> Result<(), Failed>
    ensures due { OnOk result (due ≡ false) }
    ensures ok { OnOk result (calls.new.items ≡ calls.old.items ++ Synced ∷ []) }
    ensures err { OnErr result (calls.new.items ≡ calls.old.items) }
{
    if due {
        return Err(Failed);
    }
    match calls.push(Call::Synced) {
        Ok(()) => Ok(()),
        Err(_) => Err(Failed),
    }
}

// Fills the piece's front with what stands at the place.
fn fill(current: &[u8], at: u64, piece: &mut [u8]) -> usize
    ensures bound { result ≤ length piece.new }
    ensures given { result ≡ min (length piece.old) (length current.now - at) }
    ensures bytes { take result piece.new ≡ take result (drop at current.now) }
{
    let length = current.len() as u64;
    if at >= length {
        return 0;
    }
    let left = &current[at as usize..];
    let count = piece.len().min(left.len());
    piece[..count].copy_from_slice(&left[..count]);
    count
}

impl Disk for MemDisk {
    ghost tells = { Unit {0} };

    ghost seen = { λ d. (state_of d).seen };

    ghost may_leave = { λ d c. IsImage (state_of d) c };

    ghost moment = { λ d. length d.calls };

    ghost left_since = { λ d t c. LeftSince d t c };

    ghost faults_of = { λ d. d.faults };

    ghost seen_may_stay = { λ d. seen_may_stay d };

    ghost counts_now = { λ d t c le image. counts_now d t c le image };

    ghost only_now = { λ d c left. only_now d c left };

    fn open(&mut self, _name: &str) -> Result<(), Failed>
        ensures stays { IsLeftAs self.old self.new }
        ensures time { Passes self.old self.new }
        ensures count { self.old.faults ≤ self.new.faults }
        ensures failed { OnErr result (CountRose self.old.faults self.new.faults) }
        ensures called { HasCalled self.old self.new (is_err result) }
    {
        let due = is_due(&self.failing, self.stop, self.made);
        self.made = counted(self.made);
        match ask_unless(due, &mut self.calls) {
            Ok(()) => Ok(()),
            Err(_) => {
                self.faults = counted(self.faults);
                Err(Failed)
            }
        }
    }

    fn length(&mut self) -> Result<u64, Failed>
        ensures value { IfOk result (λ n. n ≡ length (state_of self.old).seen) }
        ensures stays { IsLeftAs self.old self.new }
        ensures time { Passes self.old self.new }
        ensures count { self.old.faults ≤ self.new.faults }
        ensures failed { OnErr result (CountRose self.old.faults self.new.faults) }
        ensures called { HasCalled self.old self.new (is_err result) }
    {
        let due = is_due(&self.failing, self.stop, self.made);
        self.made = counted(self.made);
        match ask_unless(due, &mut self.calls) {
            Ok(()) => Ok(current_bytes(&self.start, &self.changed).len() as u64),
            Err(_) => {
                self.faults = counted(self.faults);
                Err(Failed)
            }
        }
    }

    fn read_at(&mut self, at: u64, piece: &mut [u8]) -> Result<usize, Failed>
        ensures bound { IfOk result (λ n. n ≤ length piece.new) }
        ensures given { IfOk result (λ n. n ≡ min (length piece.old) (length (state_of self.old).seen - at)) }
        ensures bytes { IfOk result (λ n. take n piece.new ≡ take n (drop at (state_of self.old).seen)) }
        ensures stays { IsLeftAs self.old self.new }
        ensures time { Passes self.old self.new }
        ensures count { self.old.faults ≤ self.new.faults }
        ensures failed { OnErr result (CountRose self.old.faults self.new.faults) }
        ensures called { HasCalled self.old self.new (is_err result) }
    {
        let due = is_due(&self.failing, self.stop, self.made);
        self.made = counted(self.made);
        match ask_unless(due, &mut self.calls) {
            Ok(()) => Ok(fill(current_bytes(&self.start, &self.changed), at, piece)),
            Err(_) => {
                self.faults = counted(self.faults);
                Err(Failed)
            }
        }
    }

    fn write_at(&mut self, at: u64, bytes: &[u8]) -> Result<(), Failed>
        requires { at ≤ length (state_of self.old).seen }
        ensures written { OnOk result (Holds (state_of self.old).seen at bytes.now (state_of self.new).seen) }
        ensures crash { Follows (Torn at (length bytes.now)) (IsImage (state_of self.old)) (IsImage (state_of self.new)) }
        ensures time { Passes self.old self.new }
        ensures count { self.old.faults ≤ self.new.faults }
        ensures failed { OnErr result (CountRose self.old.faults self.new.faults) }
        ensures called { HasCalled self.old self.new (is_err result) }
    {
        let due = is_due(&self.failing, self.stop, self.made);
        self.made = counted(self.made);
        match write_unless(
            due,
            self.alloc,
            &self.start,
            &mut self.changed,
            &mut self.calls,
            at,
            bytes,
        ) {
            Ok(()) => Ok(()),
            Err(_) => {
                self.faults = counted(self.faults);
                Err(Failed)
            }
        }
    }

    fn sync(&mut self) -> Result<(), Failed>
        ensures durable { OnOk result (Only (state_of self.new).seen (IsImage (state_of self.new))) }
        ensures same { (state_of self.new).seen ≡ (state_of self.old).seen }
        ensures crash { NoMore (IsImage (state_of self.new)) (IsImage (state_of self.old)) }
        ensures time { Passes self.old self.new }
        ensures count { self.old.faults ≤ self.new.faults }
        ensures failed { OnErr result (CountRose self.old.faults self.new.faults) }
        ensures called { HasCalled self.old self.new (is_err result) }
    {
        let due = is_due(&self.failing, self.stop, self.made);
        self.made = counted(self.made);
        match sync_unless(due, &mut self.calls) {
            Ok(()) => Ok(()),
            Err(_) => {
                self.faults = counted(self.faults);
                Err(Failed)
            }
        }
    }

    fn faults(&self) -> u64 {
        self.faults
    }

    fn now(&self) -> u64 {
        self.calls.len() as u64
    }
}
