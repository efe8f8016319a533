//! Waiting until entries are safe.
ghost use Rattle.std.specs.Prelude.{◌≡◌, ◌≤◌, ◌++◌, [], OnOk};
ghost use mathlib.Core.List.{IsPrefix};
ghost use Rattle.turn_lock.specs.Pass.{IsPassOf};
ghost use Rattle.evening_log.specs.Keeping.{group_of};

use crate::chronicle::Chronicle;
use crate::keeper::Keeper;
use crate::rounds::Rounds;
use crash_log::{Disk, Entries, LogFault};
use std::sync::Wait;
use turn_lock::{Hall, Job, Object, Pass};

/// Puts a group of entries that the log lacks behind it, and has them; none, where it has as many as are wanted. It waits for a turn of
/// the other hall.
pub struct Settling<'a, R: Wait> {
    rt: &'a R,
    want: u64,
    answer: Result<Entries, LogFault>,
}

impl<'a, R: Wait, O: Chronicle + Drop, K: Disk> Job<Keeper<O, K>> for Settling<'a, R> {
    ghost entries = { λ before after. group_of after.answer };

    ghost ran = { λ origin before found after left. left ≡ found ++ group_of after.answer };

    fn run(&mut self, keeper: &mut Keeper<O, K>) {
        // Whoever waited for the turn before may have put them.
        self.answer = if keeper.length() < self.want {
            keeper.settle(self.rt)
        } else {
            Ok(keeper.no_group())
        };
    }
}

/// Waits until the log has as many entries as are wanted. At Ok they are safe from a crash.
pub fn settle<O: Chronicle + Drop, K: Disk, R: Wait>(
    rt: &R,
    log: &Hall<Keeper<O, K>>,
    pass: &mut Pass<Keeper<O, K>>,
    want: u64,
) -> Result<(), LogFault>
    requires { IsPassOf log.now pass.old }
    ensures hall { IsPassOf log.now pass.new }
    ensures number { pass.new.number ≡ pass.old.number }
    ensures front { IsPrefix pass.old.front pass.new.front }
    ensures heard { pass.old.heard ≤ pass.new.heard }
    ensures settled { OnOk result (want ≤ pass.new.heard) }
{
    settle_together(rt, log, &Rounds::new(), pass, want)
}

/// Waits so as one of many: one of them puts a group, and the others sleep meanwhile.
pub(crate) fn settle_together<O: Chronicle + Drop, K: Disk, R: Wait>(
    rt: &R,
    log: &Hall<Keeper<O, K>>,
    rounds: &Rounds,
    pass: &mut Pass<Keeper<O, K>>,
    want: u64,
) -> Result<(), LogFault>
    requires { IsPassOf log.now pass.old }
    ensures hall { IsPassOf log.now pass.new }
    ensures number { pass.new.number ≡ pass.old.number }
    ensures front { IsPrefix pass.old.front pass.new.front }
    ensures heard { pass.old.heard ≤ pass.new.heard }
    ensures settled { OnOk result (want ≤ pass.new.heard) }
{
    for _ in rt.forever() {
        let seen = rounds.count();
        if log.progress(pass) >= want {
            return Ok(());
        }
        if rounds.begin() {
            let put = put_group(rt, log, pass, want);
            rounds.end();
            put?;
        } else {
            rounds.sleep(rt, seen);
        }
    }
    unreachable!()
}

// One turn, in which a group is put behind the log that has less than is wanted.
fn put_group<O: Chronicle + Drop, K: Disk, R: Wait>(
    rt: &R,
    log: &Hall<Keeper<O, K>>,
    pass: &mut Pass<Keeper<O, K>>,
    want: u64,
) -> Result<(), LogFault>
    requires { IsPassOf log.now pass.old }
    ensures hall { IsPassOf log.now pass.new }
    ensures number { pass.new.number ≡ pass.old.number }
    ensures front { IsPrefix pass.old.front pass.new.front }
    ensures heard { pass.new.heard ≡ pass.old.heard }
{
    let mut turn = Settling {
        rt,
        want,
        answer: Err(LogFault::Memory),
    };
    log.act_quietly(rt, pass, &mut turn);
    let Settling {
        rt: _,
        want: _,
        answer,
    } = turn;
    match answer {
        Ok(_) => Ok(()),
        Err(fault) => Err(fault),
    }
}

// Asks whether the disk failed.
#[derive(Drop)]
struct Asking {
    stuck: bool,
}

impl<O: Chronicle + Drop, K: Disk> Job<Keeper<O, K>> for Asking {
    ghost entries = { λ before after. [] };

    ghost ran = { λ origin before found after left. left ≡ found };

    fn run(&mut self, keeper: &mut Keeper<O, K>) {
        self.stuck = keeper.is_stuck();
    }
}

/// Whether the log's disk failed, so that nothing more is put behind it.
pub(crate) fn is_stuck<O: Chronicle + Drop, K: Disk, R: Wait>(
    rt: &R,
    log: &Hall<Keeper<O, K>>,
    pass: &mut Pass<Keeper<O, K>>,
) -> bool
    requires { IsPassOf log.now pass.old }
    ensures hall { IsPassOf log.now pass.new }
    ensures number { pass.new.number ≡ pass.old.number }
{
    let mut turn = Asking { stuck: false };
    log.act_quietly(rt, pass, &mut turn);
    turn.stuck
}
