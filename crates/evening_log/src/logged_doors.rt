//! A door whose outputs wait for a log.
ghost use Rattle.std.specs.Prelude.{◌≡◌, ◌≤◌, ◌<◌, ◌+◌, ◌^◌, Some, IfSome, IfNone, IsSomeAnd, [], max, vec_len, vec_capacity};
ghost use Rattle.std.specs.Arc.{arc_value};
ghost use Rattle.turn_lock.specs.Pass.{IsPassOf, IsUsherOf};
ghost use Rattle.line_io.specs.Counts.{next_count};
ghost use Rattle.line_io.specs.Connections.{IsAtLeast};
ghost use Rattle.evening_log.specs.Logged.{AllHeardAtMost, CanSplit, both_counts};

use crate::chronicle::Chronicle;
use crate::keeper::Keeper;
use crate::logged_sinks::{LoggedSink, counted};
use crate::rounds::Rounds;
use crate::settling::is_stuck;
use crash_log::Disk;
use line_io::{Door, Failed};
use std::alloc::Global;
use std::marker::Model;
use std::snapshot::Snapshot;
use std::sync::{Arc, Wait};
use turn_lock::{Hall, Pass, Usher};

/// A door before another one, whose outputs wait for a log. It tells the ends that were given back. Once the log's disk failed it
/// gives no connection any more, and fails.
pub struct LoggedDoor<R, L: Door, O: Chronicle, K: Disk> {
    rt: R,
    outer: L,
    log: Arc<Hall<Keeper<O, K>>>,
    // Shared with the outputs. None for want of memory: no connection is given then.
    rounds: Option<Arc<Rounds>>,
    usher: Usher<Keeper<O, K>>,
    // None only while another one is split off it.
    pass: Option<Pass<Keeper<O, K>>>,
    ended: Vec<Snapshot<(L::In, LoggedSink<L::Out, O, K>)>>,
    away: usize,
    heard: u64,
    refused: u64,
}

impl<R, L: Door, O: Chronicle, K: Disk> Model for LoggedDoor<R, L, O, K> {
    ghost use Rattle.std.specs.Prelude.{◌≤◌, ◌+◌, IsSomeAnd, map, vec_len, vec_capacity};
    ghost use Rattle.std.specs.Arc.{arc_value};
    ghost use Rattle.line_io.specs.Connections.{IsAtLeast};
    ghost use Rattle.evening_log.specs.Logged.{DoorState, CanSplit, AllHeardAtMost};

    ghost Value = { DoorState L L.In L.Out O.Origin };

    ghost view = { λ d. record {
      outer = d.outer;
      log = arc_value d.log;
      usher = d.usher;
      pass = d.pass;
      ended = map (λ ends. ends.value) d.ended.items;
      away = d.away;
      heard = d.heard;
      refused = d.refused;
    } };

    ghost invariant = { λ d. IsSomeAnd d.pass (λ pass. CanSplit (arc_value d.log) d.usher pass)
        × AllHeardAtMost d.heard (map (λ ends. ends.value) d.ended.items)
        × (vec_len d.ended + d.away ≤ vec_capacity d.ended)
        × IsAtLeast d.away (L.away d.outer) };
}

impl<R, L: Door, O: Chronicle, K: Disk> LoggedDoor<R, L, O, K> {
    /// A door before this one, at the log's hall, by a pass of it that is the door's alone and the hall's usher.
    pub fn new(
        rt: R,
        alloc: Global,
        outer: L,
        log: Arc<Hall<Keeper<O, K>>>,
        usher: Usher<Keeper<O, K>>,
        pass: Pass<Keeper<O, K>>,
    ) -> LoggedDoor<R, L, O, K>
        requires pass { IsPassOf (arc_value log) pass }
        requires usher { IsUsherOf (arc_value log) usher }
        requires below { pass.number < usher.count }
        ensures { result ≡ record {
          outer = outer;
          log = arc_value log;
          usher = usher;
          pass = Some pass;
          ended = [];
          away = 0;
          heard = 0;
          refused = 0;
        } }
    {
        LoggedDoor {
            rt,
            outer,
            log,
            rounds: Arc::new(alloc, Rounds::new()).ok(),
            usher,
            pass: Some(pass),
            ended: Vec::new(alloc),
            away: 0,
            heard: 0,
            refused: 0,
        }
    }

    /// The door that it stood before, and a length of the log: no output that was given back had heard of a greater one.
    pub fn finish(self) -> (L, u64)
    where
        R: Drop,
        O: Drop,
        K: Drop,
        ensures outer { result.0 ≡ self.outer }
        ensures heard { AllHeardAtMost result.1 self.ended }
    {
        let LoggedDoor {
            rt: _,
            outer,
            log: _,
            rounds: _,
            usher: _,
            pass,
            ended,
            away: _,
            heard,
            refused: _,
        } = self;
        drop(pass);
        drop(ended);
        (outer, heard)
    }
}

// A pass that is split off this one. None where the disk failed, and for want of memory or of numbers.
fn split_off<R: Wait, O: Chronicle + Drop, K: Disk>(
    rt: &R,
    log: &Hall<Keeper<O, K>>,
    usher: &mut Usher<Keeper<O, K>>,
    pass: &mut Option<Pass<Keeper<O, K>>>,
) -> Option<Pass<Keeper<O, K>>>
    requires can { IsSomeAnd pass.old (λ pass. CanSplit log.now usher.old pass) }
    ensures can { IsSomeAnd pass.new (λ pass. CanSplit log.now usher.new pass) }
    ensures split { IfSome result (λ pass. IsPassOf log.now pass) }
{
    if usher.count() == u64::MAX {
        return None;
    }
    let Some(mut whole) = pass.take() else {
        unreachable!();
    };
    if is_stuck(rt, log, &mut whole) {
        *pass = Some(whole);
        return None;
    }
    match log.split(usher, whole) {
        Ok((left, right)) => {
            *pass = Some(left);
            Some(right)
        }
        Err(back) => {
            *pass = Some(back);
            None
        }
    }
}

// A runtime and the hall for an output, and a place for its ends. None for want of memory.
fn prepared<O: Chronicle + Drop, K: Disk + Drop, E>(
    log: &Arc<Hall<Keeper<O, K>>>,
    ended: &mut Vec<E>,
    away: usize,
) -> Option<Arc<Hall<Keeper<O, K>>>>
    requires room { vec_len ended.old + away ≤ vec_capacity ended.old }
    ensures items { ended.new.items ≡ ended.old.items }
    ensures length { vec_len ended.new ≡ vec_len ended.old }
    ensures room { vec_len ended.new + away ≤ vec_capacity ended.new }
    ensures log { IfSome result (λ shared. arc_value shared ≡ arc_value log.now) }
    ensures more { IfSome result (λ shared. vec_len ended.new + (away + 1) ≤ vec_capacity ended.new) }
{
    ended.reserve(away.checked_add(1)?).ok()?;
    Arc::try_clone(log).ok()
}

// The door's rounds for an output.
fn shared(rounds: &Option<Arc<Rounds>>) -> Option<Arc<Rounds>> {
    match rounds {
        Some(rounds) => Arc::try_clone(rounds).ok(),
        None => None,
    }
}

impl<R: Wait + Clone + Drop, L: Door, O: Chronicle + Drop, K: Disk + Drop> Door
    for LoggedDoor<R, L, O, K> {
    type In = L::In;

    type Out = LoggedSink<L::Out, O, K>;

    ghost use Rattle.std.specs.Prelude.{Some};

    ghost faults_of = { λ d. both_counts (L.faults_of d.outer) d.refused };

    ghost ended = { λ d. Some d.ended };

    ghost away = { λ d. Some d.away };

    fn open(&mut self, port: u16) -> Result<(), Failed> {
        self.outer.open(port)
    }

    fn next(&mut self) -> Result<Option<(L::In, LoggedSink<L::Out, O, K>)>, Failed> {
        let Some((input, output)) = self.outer.next()? else {
            return Ok(None);
        };
        if let Some(log) = prepared(&self.log, &mut self.ended, self.away)
            && let Some(rounds) = shared(&self.rounds)
            && let Some(pass) = split_off(&self.rt, &self.log, &mut self.usher, &mut self.pass)
        {
            self.away += 1;
            return Ok(Some((input, LoggedSink::new(output, log, rounds, pass))));
        }
        self.outer.give_back(input, output);
        self.refused = counted(self.refused);
        Err(Failed)
    }

    fn give_back(&mut self, input: L::In, output: LoggedSink<L::Out, O, K>) {
        let ends = (input, output);
        self.ended.push_reserved(Snapshot::of(&ends));
        self.away -= 1;
        let (input, output) = ends;
        let (output, heard) = output.into_parts();
        self.heard = self.heard.max(heard);
        self.outer.give_back(input, output);
    }

    fn faults(&self) -> u64 {
        self.outer.faults().saturating_add(self.refused)
    }
}
