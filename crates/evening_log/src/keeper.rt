//! The keeper of a log, and what its log keeps of the hall's history.
ghost use Rattle.std.specs.Prelude.{◌≡◌, ◌≤◌, ◌++◌, [], length, take, false, All, IfOk};
ghost use Rattle.std.specs.Arc.{arc_value};
ghost use Rattle.turn_lock.specs.Pass.{IsPassOf};
ghost use Rattle.crash_log.specs.Log.{HoldsLog, IsDisks};
ghost use Rattle.crash_log.specs.Entries.{IsShort};
ghost use Rattle.evening_log.specs.Keeping.{IsKept, KeepsMore, is_disk_fault as is_disk_fault_lem, group_of, log_history};

use crate::chronicle::{Chronicle, copied};
use campaign_law::Entry;
use crash_log::{Disk, Entries, Journal, LogFault, append_all};
use names::LineText;
use std::alloc::Global;
use std::marker::Model;
use std::sync::{Arc, Wait};
use turn_lock::{Hall, Object, Pass};

/// What never changes of a keeper. No value of it is made.
pub struct KeptFor<O: Object> {
    hall: Hall<O>,
    text: LineText,
    recovered: u64,
    start: u64,
}

impl<O: Object> Model for KeptFor<O> {
    ghost use Rattle.evening_log.specs.Keeping.{LogOrigin};

    ghost Value = { LogOrigin O.Origin };

    ghost view = { λ k. record { hall = k.hall; text = k.text; recovered = k.recovered; start = k.start } };
}

/// Reads the history of a hall by a pass of its own, and puts its entries behind a log on a disk. After a fault of the disk it puts
/// nothing more.
#[derive(Drop)]
pub struct Keeper<O: Chronicle, K: Disk> {
    alloc: Global,
    hall: Arc<Hall<O>>,
    text: LineText,
    recovered: u64,
    start: u64,
    pass: Pass<O>,
    disk: K,
    journal: Journal,
    logged: u64,
    stuck: bool,
}

impl<O: Chronicle, K: Disk> Model for Keeper<O, K> {
    ghost use Rattle.std.specs.Arc.{arc_value};
    ghost use Rattle.evening_log.specs.Keeping.{KeeperState, IsKept};

    ghost Value = { KeeperState O.Origin K };

    ghost view = { λ k. record {
      origin = record { hall = arc_value k.hall; text = k.text; recovered = k.recovered; start = k.start };
      pass = k.pass;
      disk = k.disk;
      end = k.journal;
      logged = k.logged;
      stuck = k.stuck;
    } };

    ghost invariant = { λ k. IsKept K.tells K.seen K.may_leave K.moment K.left_since (record {
      origin = record { hall = arc_value k.hall; text = k.text; recovered = k.recovered; start = k.start };
      pass = k.pass;
      disk = k.disk;
      end = k.journal;
      logged = k.logged;
      stuck = k.stuck;
    }) };
}

impl<O: Chronicle, K: Disk> Object for Keeper<O, K> {
    type Entry = Entry;

    type Origin = KeptFor<O>;

    ghost origin = { λ k. k.origin };

    ghost history = { λ k. log_history k };

    fn length(&self) -> u64 {
        self.logged
    }
}

impl<O: Chronicle + Drop, K: Disk> Keeper<O, K> {
    /// A keeper of the hall's history by this pass. The disk's log of this text has the first `recovered` entries of its front.
    pub fn new(
        alloc: Global,
        hall: Arc<Hall<O>>,
        pass: Pass<O>,
        disk: K,
        journal: Journal,
        text: LineText,
        recovered: u64,
    ) -> Keeper<O, K>
        requires pass { IsPassOf (arc_value hall) pass }
        requires recovered { recovered ≤ length pass.front }
        requires holds { K.tells → HoldsLog K.seen K.may_leave disk journal text (take recovered pass.front) }
        ensures start { K.tells → result.origin.start ≡ K.moment disk }
        ensures made { result ≡ record {
          origin = record { hall = arc_value hall; text = text; recovered = recovered; start = result.origin.start };
          pass = pass;
          disk = disk;
          end = journal;
          logged = recovered;
          stuck = false;
        } }
    {
        let start = disk.now();
        Keeper {
            alloc,
            hall,
            text,
            recovered,
            start,
            pass,
            disk,
            journal,
            logged: recovered,
            stuck: false,
        }
    }

    /// Puts entries that the log lacks behind it, a group of them.
    pub(crate) fn settle<R: Wait>(&mut self, rt: &R) -> Result<Entries, LogFault>
        ensures origin { self.new.origin ≡ self.old.origin }
        ensures history { log_history self.new ≡ log_history self.old ++ group_of result }
    {
        if self.stuck {
            return Err(LogFault::DiskFault);
        }
        let group = copied(rt, self.alloc, &self.hall, &mut self.pass, self.logged)?;
        let group = put(
            self.alloc,
            &mut self.disk,
            &mut self.journal,
            &mut self.stuck,
            group,
        )?;
        self.logged += group.list.len() as u64;
        Ok(group)
    }

    /// A group without entries.
    pub(crate) fn no_group(&self) -> Entries
        ensures { result ≡ [] }
    {
        Entries {
            list: Vec::new(self.alloc),
        }
    }

    /// Whether the disk failed.
    pub(crate) fn is_stuck(&self) -> bool {
        self.stuck
    }

    /// Its disk.
    pub fn into_disk(self) -> K
        ensures disk { result ≡ self.disk }
    {
        let (_, disk) = self.into_parts();
        disk
    }

    /// Its pass and its disk.
    pub(crate) fn into_parts(self) -> (Pass<O>, K)
        ensures pass { result.0 ≡ self.pass }
        ensures disk { result.1 ≡ self.disk }
        ensures kept { IsKept K.tells K.seen K.may_leave K.moment K.left_since self }
    {
        let Keeper {
            alloc: _,
            hall: _,
            text: _,
            recovered: _,
            start: _,
            pass,
            disk,
            journal: _,
            logged: _,
            stuck: _,
        } = self;
        (pass, disk)
    }
}

// Puts the group behind the log.
fn put<K: Disk>(
    alloc: Global,
    disk: &mut K,
    journal: &mut Journal,
    stuck: &mut bool,
    group: Entries,
) -> Result<Entries, LogFault>
    requires free { stuck.old ≡ false }
    requires journal { K.tells → IsDisks K.seen K.may_leave disk.old journal.old }
    requires short { All IsShort group }
    ensures group { IfOk result (λ same. same ≡ group) }
    ensures kept { K.tells
        → KeepsMore K.seen K.may_leave K.moment K.left_since group result disk.old journal.old disk.new journal.new stuck.new }
{
    match append_all(alloc, disk, journal, &group.list) {
        Ok(()) => Ok(group),
        Err(fault) => {
            *stuck = is_disk_fault(fault);
            Err(fault)
        }
    }
}

fn is_disk_fault(fault: LogFault) -> bool
    ensures { result ≡ is_disk_fault_lem fault }
{
    match fault {
        LogFault::DiskFault => true,
        LogFault::BadLog { at: _ } => false,
        LogFault::Full => false,
        LogFault::Memory => false,
    }
}
