//! What can be run once, and what runs it.
ghost use Rattle.std.specs.Prelude.{◌≡◌, ◌≤◌, ℕ, Option, None, IfOk, OnErr};
ghost use Rattle.line_io.specs.Counts.{CountRose};
ghost use Rattle.line_io.specs.Connections.{count_told};

use crate::faults::Failed;

/// What can be run once.
pub trait Work {
    type Done: Drop;

    // What a run needs.
    ghost ready: { Self → Type 0 } = { λ _. Unit {0} };

    // What a run makes of the work.
    ghost done: { Self → Self.Done → Type 0 };

    fn run(self) -> Self::Done
        requires { ready self }
        ensures { done self result };
}

/// What runs works, beside its caller or not.
pub trait Spawner<W: Work> {
    type Task;

    // How many of its calls failed so far.
    ghost faults_of: { Self → ℕ };

    // What it needs to start works and to gather them.
    ghost fit: { Self → Type 0 } = { λ _. Unit {0} };

    // How many works it started, where it tells that.
    ghost started: { Self → Option ℕ } = { λ _. None };

    // The work that a task runs.
    ghost work_of: { Self.Task → W };

    /// Starts the work. At `Failed` it is dropped.
    fn start(&mut self, work: W) -> Result<Self::Task, Failed>
        requires ready { W.ready work }
        requires fit { fit self.old }
        ensures fit { fit self.new }
        ensures task { IfOk result (λ task. work_of task ≡ work) }
        ensures started { IfOk result (λ task. started self.new ≡ count_told 1 (started self.old)) }
        ensures err { OnErr result (started self.new ≡ started self.old) }
        ensures count { faults_of self.old ≤ faults_of self.new }
        ensures failed { OnErr result (CountRose (faults_of self.old) (faults_of self.new)) };

    /// Waits for the task and gives what its work gave.
    fn gather(&mut self, task: Self::Task) -> W::Done
        requires fit { fit self.old }
        ensures fit { fit self.new }
        ensures done { ∥ W.done (work_of task) result ∥₁ }
        ensures started { started self.new ≡ started self.old }
        ensures count { faults_of self.old ≤ faults_of self.new };

    /// How many of its calls failed so far. The count never falls, and stands still at its last value.
    fn faults(&self) -> u64
        ensures { result ≡ faults_of self.now };
}
