//! Sessions in threads of their own.
ghost use Rattle.std.specs.Prelude.{◌≡◌, IfOk};

use crate::runs::SessionSource;
use crate::sittings::Sitting;
use line_io::{Failed, Outlet, Started, Work};
use session::Sat;
use std::snapshot::Snapshot;
use std::sync::Wait;
use std::thread::{Promise, PromisedHandle, Threads, spawn_with};

/// The promise of a thread that serves a session: it gives what a run of it makes.
#[derive(Drop)]
pub struct RunOf<R, I, O>(pub Snapshot<Sitting<R, I, O>>);

impl<R: Threads + Wait + Sync + Drop, I: SessionSource<O> + Drop, O: Outlet + Drop> Promise<
    ((I, O), Sat),
> for RunOf<R, I, O> {
    ghost kept_by = { λ promise done. ⟦<Sitting<R, I, O> as Work>⟧.done promise.0.value done };
}

/// A session that a thread of its own serves.
pub type SittingThread<R, I, O> = PromisedHandle<((I, O), Sat), RunOf<R, I, O>>;

/// Starts a thread that serves the session.
pub fn start_sitting<
    S: Threads,
    R: Threads + Wait + Sync + Send + Drop + 'static,
    I: SessionSource<O> + Send + Drop + 'static,
    O: Outlet + Send + Drop + 'static,
>(rt: &S, sitting: Sitting<R, I, O>) -> Result<SittingThread<R, I, O>, Failed>
    ensures { IfOk result (λ task. task.promise.0.value ≡ sitting) }
{
    let promise = RunOf(Snapshot::of(&sitting));
    match spawn_with(rt, promise, move || sitting.run()) {
        Ok(task) => Ok(task),
        Err(_) => Err(Failed),
    }
}

impl<R: Threads + Wait + Sync + Drop, I: SessionSource<O> + Drop, O: Outlet + Drop> Started<
    Sitting<R, I, O>,
> for SittingThread<R, I, O> {
    ghost work_of = { λ task. task.promise.0.value };

    fn wait_for<S: Threads>(self, rt: &S) -> ((I, O), Sat) {
        self.join(rt)
    }
}
