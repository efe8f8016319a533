//! A door in memory.
ghost use Rattle.std.specs.Prelude.{◌≡◌, ◌≤◌, ◌<◌, ◌↔◌, ◌+◌, ◌++◌, ◌∷◌, [], IfOk, IfSome, IfNone, IsErr, OnErr, length, drop, vec_len};
ghost use Rattle.std.specs.Result.{is_err};
ghost use Rattle.line_io.specs.Counts.{CountRose};
ghost use Rattle.line_io.specs.Memory.{IsDue, plan_after};

use crate::doors::Door;
use crate::fault_plans::FaultPlan;
use crate::faults::Failed;
use crate::memory_sinks::MemSink;
use crate::memory_sources::MemSource;
use std::alloc::Global;
use std::marker::Model;

/// A door in memory. It tells the connections that are still to come and the ends that were given back.
#[derive(Drop)]
pub struct MemDoor {
    // Those that are still to come, and then those that were given back.
    ends: Vec<(MemSource, MemSink)>,
    coming: usize,
    away: usize,
    plan: FaultPlan,
}

impl Model for MemDoor {
    ghost use Rattle.std.specs.Prelude.{◌≤◌, ◌+◌, take, drop, vec_len, vec_capacity};
    ghost use Rattle.line_io.specs.Memory.{MemoryDoor};

    ghost Value = { MemoryDoor };

    ghost view = { λ d. record { coming = take d.coming d.ends.items; ended = drop d.coming d.ends.items; away = d.away; plan = d.plan } };

    ghost invariant = { λ d. (d.coming ≤ vec_len d.ends) × (vec_len d.ends + d.away ≤ vec_capacity d.ends) };
}

impl MemDoor {
    /// A door with these connections. A call that may fail does so exactly where its number, counted
    /// from 0 on, is in `fail`.
    pub fn new(_alloc: Global, ends: Vec<(MemSource, MemSink)>, fail: Vec<u64>) -> MemDoor
        ensures { result ≡ record {
          coming = ends.items;
          ended = [];
          away = 0;
          plan = record { failing = fail.items; calls = 0; faults = 0 };
        } }
    {
        let coming = ends.len();
        MemDoor {
            ends,
            coming,
            away: 0,
            plan: FaultPlan::new(fail),
        }
    }

    /// The ends that were given back, in order.
    pub fn ended(&self) -> &[(MemSource, MemSink)]
        ensures { result.now ≡ self.now.ended }
    {
        &self.ends[self.coming..]
    }
}

impl Door for MemDoor {
    type In = MemSource;

    type Out = MemSink;

    ghost use Rattle.std.specs.Prelude.{Some};

    ghost faults_of = { λ d. d.plan.faults };

    ghost coming = { λ d. Some d.coming };

    ghost ended = { λ d. Some d.ended };

    ghost away = { λ d. Some d.away };

    fn open(&mut self, port: u16) -> Result<(), Failed>
        ensures coming { self.new.coming ≡ self.old.coming }
        ensures ended { self.new.ended ≡ self.old.ended }
        ensures away { self.new.away ≡ self.old.away }
        ensures count { self.old.plan.faults ≤ self.new.plan.faults }
        ensures failed { OnErr result (CountRose self.old.plan.faults self.new.plan.faults) }
        ensures due { IsErr result ↔ IsDue self.old.plan }
        ensures plan { self.new.plan ≡ plan_after self.old.plan (is_err result) }
    {
        let due = self.plan.is_due();
        self.plan.end_call(due);
        if due { Err(Failed) } else { Ok(()) }
    }

    fn next(&mut self) -> Result<Option<(MemSource, MemSink)>, Failed>
        ensures some { IfOk result (λ next. IfSome next (λ ends. (self.old.coming ≡ ends ∷ self.new.coming)
            × (self.new.away ≡ self.old.away + 1))) }
        ensures none { IfOk result (λ next. IfNone next ((self.new.coming ≡ []) × (self.new.coming ≡ self.old.coming)
            × (self.new.away ≡ self.old.away))) }
        ensures err { OnErr result ((self.new.coming ≡ self.old.coming) × (self.new.away ≡ self.old.away)) }
        ensures ended { self.new.ended ≡ self.old.ended }
        ensures count { self.old.plan.faults ≤ self.new.plan.faults }
        ensures failed { OnErr result (CountRose self.old.plan.faults self.new.plan.faults) }
        ensures due { IsErr result ↔ IsDue self.old.plan }
        ensures plan { self.new.plan ≡ plan_after self.old.plan (is_err result) }
    {
        let due = self.plan.is_due();
        self.plan.end_call(due);
        if due {
            return Err(Failed);
        }
        if self.coming == 0 {
            return Ok(None);
        }
        let ends = self.ends.remove(0);
        self.coming -= 1;
        self.away += 1;
        Ok(Some(ends))
    }

    fn give_back(&mut self, input: MemSource, output: MemSink)
        requires away { 1 ≤ self.old.away }
        ensures coming { self.new.coming ≡ self.old.coming }
        ensures ended { self.new.ended ≡ self.old.ended ++ (input, output) ∷ [] }
        ensures away { self.old.away ≡ self.new.away + 1 }
        ensures count { self.old.plan.faults ≤ self.new.plan.faults }
        ensures plan { self.new.plan ≡ self.old.plan }
    {
        self.ends.push_reserved((input, output));
        self.away -= 1;
    }

    fn faults(&self) -> u64 {
        self.plan.faults()
    }
}
