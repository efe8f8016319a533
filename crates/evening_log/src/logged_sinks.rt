//! An output that waits for the log.
ghost use Rattle.std.specs.Prelude.{◌≡◌, ◌≤◌};
ghost use Rattle.std.specs.Arc.{arc_value};
ghost use Rattle.turn_lock.specs.Pass.{IsPassOf};
ghost use Rattle.line_io.specs.Counts.{CountRose, next_count};
ghost use Rattle.evening_log.specs.Logged.{both_counts};

use crate::chronicle::Chronicle;
use crate::keeper::Keeper;
use crate::rounds::Rounds;
use crate::settling::settle_together;
use crash_log::Disk;
use line_io::{Failed, Outlet, Sink, write_whole};
use std::marker::Model;
use std::sync::{Arc, Wait};
use turn_lock::{Hall, Pass};

/// An output for bytes that tell of a history's entries: it writes them once the log has these entries. Where the log refuses,
/// it writes nothing, counts that and closes.
#[derive(Drop)]
pub struct LoggedSink<S, O: Chronicle, K: Disk> {
    inner: S,
    log: Arc<Hall<Keeper<O, K>>>,
    rounds: Arc<Rounds>,
    pass: Pass<Keeper<O, K>>,
    refused: u64,
}

impl<S, O: Chronicle, K: Disk> Model for LoggedSink<S, O, K> {
    ghost use Rattle.std.specs.Arc.{arc_value};
    ghost use Rattle.turn_lock.specs.Pass.{IsPassOf};
    ghost use Rattle.evening_log.specs.Logged.{SinkState};

    ghost Value = { SinkState S O.Origin };

    ghost view = { λ s. record { inner = s.inner; log = arc_value s.log; pass = s.pass; refused = s.refused } };

    ghost invariant = { λ s. IsPassOf (arc_value s.log) s.pass };
}

impl<S, O: Chronicle, K: Disk> LoggedSink<S, O, K> {
    /// An output into another one, at this log by this pass.
    pub(crate) fn new(
        inner: S,
        log: Arc<Hall<Keeper<O, K>>>,
        rounds: Arc<Rounds>,
        pass: Pass<Keeper<O, K>>,
    ) -> LoggedSink<S, O, K>
        requires pass { IsPassOf (arc_value log) pass }
        ensures { result ≡ record { inner = inner; log = arc_value log; pass = pass; refused = 0 } }
    {
        LoggedSink {
            inner,
            log,
            rounds,
            pass,
            refused: 0,
        }
    }

    /// What it writes to, and a length of the log, at least the one that its pass had heard of.
    pub(crate) fn into_parts(self) -> (S, u64)
    where
        O: Drop,
        K: Drop,
        ensures inner { result.0 ≡ self.inner }
        ensures heard { self.pass.heard ≤ result.1 }
    {
        let LoggedSink {
            inner,
            log,
            rounds: _,
            mut pass,
            refused: _,
        } = self;
        let length = log.progress(&mut pass);
        (inner, length)
    }
}

// One more. It stands still at its last value.
pub(crate) fn counted(count: u64) -> u64
    ensures { result ≡ next_count count }
{
    count.saturating_add(1)
}

impl<S: Sink, O: Chronicle, K: Disk> Sink for LoggedSink<S, O, K> {
    ghost faults_of = { λ s. both_counts (S.faults_of s.inner) s.refused };

    ghost written = { λ s. S.written s.inner };

    fn write(&mut self, piece: &[u8]) -> Result<usize, Failed> {
        self.inner.write(piece)
    }

    fn close(&mut self, word: &str)
        ensures written { S.written self.new.inner ≡ S.written self.old.inner }
        ensures count { S.faults_of self.new.inner ≡ S.faults_of self.old.inner }
        ensures refused { self.new.refused ≡ self.old.refused }
        ensures log { self.new.log ≡ self.old.log }
        ensures pass { self.new.pass ≡ self.old.pass }
    {
        self.inner.close(word);
    }

    fn faults(&self) -> u64 {
        self.inner.faults().saturating_add(self.refused)
    }
}

impl<S: Sink, O: Chronicle + Drop, K: Disk> Outlet for LoggedSink<S, O, K> {
    ghost safe = { λ s n. n ≤ s.pass.heard };

    fn tell<R: Wait>(&mut self, rt: &R, bytes: &[u8], length: u64) -> Result<(), Failed> {
        match settle_together(rt, &self.log, &self.rounds, &mut self.pass, length) {
            Ok(()) => write_whole(&mut self.inner, bytes),
            Err(_) => {
                // Whoever waits for more sees the end.
                self.inner.close("is told nothing more");
                self.refused = counted(self.refused);
                Err(Failed)
            }
        }
    }
}
