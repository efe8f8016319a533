//! The turn that copies what a log lacks.
ghost use Rattle.std.specs.Prelude.{◌≡◌, ◌<◌, ◌≤◌, ◌++◌, ◌∷◌, [], Some, length, slice_get, IfOk, OnOk};
ghost use mathlib.Core.List.{IsPrefix};
ghost use Rattle.turn_lock.specs.Pass.{IsPassOf};
ghost use Rattle.evening_log.specs.Keeping.{IsGroup};

use campaign_law::Entry;
use crash_log::{Entries, LogFault, is_short};
use names::Memory;
use std::alloc::Global;
use std::sync::Wait;
use turn_lock::{Hall, Job, Object, Pass};

// At most so many entries are copied in one turn, and put behind the log as one group.
const GROUP_ENTRIES: u64 = 256;

/// An object whose history is of a campaign's entries, and which gives copies of them.
pub trait Chronicle: Object<Entry = Entry> {
    /// A copy of the entry at this place.
    fn entry(&self, alloc: Global, place: u64) -> Result<Entry, Memory>
        requires { place < length (Self.history self.now) }
        ensures { IfOk result (λ e. slice_get (Self.history self.now) place ≡ Some e) };
}

// Copies a group of entries from a place on. It enters nothing.
#[derive(Drop)]
struct Copying {
    alloc: Global,
    from: u64,
    copied: Result<Entries, LogFault>,
}

impl<O: Chronicle> Job<O> for Copying {
    ghost entries = { λ before after. [] };

    ghost ran = { λ origin before found after left. (left ≡ found) × IfOk after.copied (λ group. IsGroup group before.from left) };

    fn run(&mut self, object: &mut O) {
        self.copied = copy_group(self.alloc, object, self.from);
    }
}

/// Copies the entries of the history from this place on, a group of them. `Full` where the first of them is too long for a log.
pub(crate) fn copied<O: Chronicle, R: Wait>(
    rt: &R,
    alloc: Global,
    hall: &Hall<O>,
    pass: &mut Pass<O>,
    from: u64,
) -> Result<Entries, LogFault>
    requires { IsPassOf hall.now pass.old }
    ensures hall { IsPassOf hall.now pass.new }
    ensures front { IsPrefix pass.old.front pass.new.front }
    ensures group { IfOk result (λ group. IsGroup group from pass.new.front) }
{
    let mut turn = Copying {
        alloc,
        from,
        copied: Err(LogFault::Memory),
    };
    hall.act_quietly(rt, pass, &mut turn);
    let Copying {
        alloc: _,
        from: _,
        copied,
    } = turn;
    copied
}

fn copy_group<O: Chronicle>(alloc: Global, object: &O, from: u64) -> Result<Entries, LogFault>
    ensures { IfOk result (λ group. IsGroup group from (O.history object.now)) }
{
    let mut list = Vec::new(alloc);
    for place in from..group_end(from, object.length()) {
        let entry = object.entry(alloc, place)?;
        if !is_short(&entry) {
            return first_part(list);
        }
        pushed(&mut list, entry)?;
    }
    Ok(Entries { list })
}

fn group_end(from: u64, length: u64) -> u64
    ensures { result ≤ length }
{
    length.min(from.saturating_add(GROUP_ENTRIES))
}

// What stands before an entry that is too long for a log.
fn first_part(list: Vec<Entry>) -> Result<Entries, LogFault>
    ensures { IfOk result (λ group. group ≡ list.items) }
{
    if list.is_empty() {
        return Err(LogFault::Full);
    }
    Ok(Entries { list })
}

fn pushed(list: &mut Vec<Entry>, entry: Entry) -> Result<(), Memory>
    ensures { OnOk result (list.new.items ≡ list.old.items ++ entry ∷ []) }
{
    list.push(entry)?;
    Ok(())
}
