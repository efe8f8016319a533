//! A spawner that runs each work at once.
ghost use Rattle.std.specs.Prelude.{◌≡◌};
ghost use Rattle.line_io.specs.Connections.{count_told};

use crate::fault_plans::FaultPlan;
use crate::faults::{Failed, counted};
use crate::works::{Spawner, Work};
use std::alloc::Global;
use std::snapshot::Snapshot;

/// What a work gave that was run at once.
#[derive(Drop)]
pub struct Ran<W: Work> {
    done: W::Done,
    work: Snapshot<W>,
    ghost ran: { ∥ W.done work.value done ∥₁ },
}

/// Runs each work within `start`. It tells how many it ran.
#[derive(Drop)]
pub struct ListSpawner {
    plan: FaultPlan,
    started: u64,
}

impl ListSpawner {
    /// A spawner whose starts fail exactly where their number, counted from 0 on, is in `fail`.
    pub fn new(_alloc: Global, fail: Vec<u64>) -> ListSpawner {
        ListSpawner {
            plan: FaultPlan::new(fail),
            started: 0,
        }
    }
}

// Runs the work, and keeps which one it was.
fn run_at_once<W: Work>(work: W) -> Ran<W>
    requires { W.ready work }
    ensures { result.work.value ≡ work }
{
    let kept = Snapshot::of(&work);
    let done = work.run();
    Ran { done, work: kept }
}

impl<W: Work + Drop> Spawner<W> for ListSpawner {
    type Task = Ran<W>;

    ghost use Rattle.std.specs.Prelude.{Some};

    ghost faults_of = { λ s. s.plan.faults };

    ghost started = { λ s. Some s.started };

    ghost work_of = { λ task. task.work.value };

    fn start(&mut self, work: W) -> Result<Ran<W>, Failed> {
        let due = self.plan.is_due();
        self.plan.end_call(due);
        if due {
            return Err(Failed);
        }
        self.started = counted(self.started);
        Ok(run_at_once(work))
    }

    fn gather(&mut self, task: Ran<W>) -> W::Done {
        let Ran { done, work: _ } = task;
        done
    }

    fn faults(&self) -> u64 {
        self.plan.faults()
    }
}
