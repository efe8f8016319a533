//! A spawner that starts works by a call.
ghost use Rattle.std.specs.Prelude.{◌≡◌, IfOk};

use crate::faults::{Failed, counted};
use crate::works::{Spawner, Work};
use std::marker::PhantomData;
use std::thread::Threads;

/// A work that was started.
pub trait Started<W: Work> {
    // The work that it runs.
    ghost work_of: { Self → W };

    /// Waits for it and gives what its work gave.
    fn wait_for<S: Threads>(self, rt: &S) -> W::Done
        ensures done { ∥ W.done (work_of self) result ∥₁ };
}

/// Starts each work by a call of a closure, as one that makes a thread for it. A start fails where the call fails.
#[derive(Drop)]
pub struct CallSpawner<T, F, S> {
    start: F,
    rt: S,
    faults: u64,
    tasks: PhantomData<T>,
}

impl<T, F, S> CallSpawner<T, F, S> {
    /// A spawner that starts works by this call and waits for them by this runtime, without faults so far.
    pub fn new(start: F, rt: S) -> CallSpawner<T, F, S>
        ensures { result.start ≡ start }
    {
        CallSpawner {
            start,
            rt,
            faults: 0,
            tasks: PhantomData,
        }
    }
}

impl<W: Work, T: Started<W>, S: Threads, F: Fn(W) -> Result<T, Failed>> Spawner<W>
    for CallSpawner<T, F, S> {
    type Task = T;

    ghost faults_of = { λ s. s.faults };

    ghost work_of = { λ task. T.work_of task };

    ghost fit = { λ s. (work : W) → W.ready work → F.pre s.start work
        × ((r : _) → F.post s.start work r → IfOk r (λ task. T.work_of task ≡ work)) };

    fn start(&mut self, work: W) -> Result<T, Failed> {
        match (self.start)(work) {
            Ok(task) => Ok(task),
            Err(_) => {
                self.faults = counted(self.faults);
                Err(Failed)
            }
        }
    }

    fn gather(&mut self, task: T) -> W::Done {
        task.wait_for(&self.rt)
    }

    fn faults(&self) -> u64 {
        self.faults
    }
}
