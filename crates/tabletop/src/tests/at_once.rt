//! Sessions over memory that are served one after another, each as soon as it starts.
ghost use Rattle.std.specs.Prelude.{◌≡◌, IfOk, Some};
ghost use Rattle.serving.specs.Runs.{IsSafeRun};

use line_io::{Failed, MemSink, MemSource, Started, Work};
use serving::Sitting;
use session::Sat;
use std::snapshot::Snapshot;
use std::sync::Wait;
use std::sync::atomic::{AtomicU64, Ordering};
use std::thread::Threads;

pub(super) type MemSitting<R> = Sitting<R, MemSource, MemSink>;

/// What a session gave. The prover can't follow a task whose type names the trait of its work, as that of `ListSpawner`, so this
/// one names what a session does.
#[derive(Drop)]
pub(super) struct Ran<R> {
    done: ((MemSource, MemSink), Sat),
    pub(super) sitting: Snapshot<MemSitting<R>>,
    ghost ran: { ∥ IsSafeRun (λ s n. Unit {0}) (λ s. Some s.left) (λ s. Some s.written) (λ s. s.plan.faults) (λ s. s.plan.faults)
        sitting.value done ∥₁ },
}

impl<R: Threads + Wait + Sync + Drop> Started<MemSitting<R>> for Ran<R> {
    ghost work_of = { λ ran. ran.sitting.value };

    fn wait_for<S: Threads>(self, _rt: &S) -> ((MemSource, MemSink), Sat) {
        let Ran { done, sitting: _ } = self;
        done
    }
}

/// Serves the session, unless it is the start of this number, counted from 0 on.
pub(super) fn run_at_once<R: Threads + Wait + Sync + Drop>(
    starts: &AtomicU64,
    failing: u64,
    sitting: MemSitting<R>,
) -> Result<Ran<R>, Failed>
    ensures { IfOk result (λ ran. ran.sitting.value ≡ sitting) }
{
    if starts.fetch_add(1, Ordering::SeqCst) == failing {
        return Err(Failed);
    }
    let kept = Snapshot::of(&sitting);
    let done = sitting.run();
    Ok(Ran {
        done,
        sitting: kept,
    })
}
