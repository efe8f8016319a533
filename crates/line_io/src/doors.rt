//! Where connections come from.
ghost use Rattle.std.specs.Prelude.{◌≡◌, ◌≤◌, ℕ, List, Option, None, [], ◌∷◌, IfOk, OnErr, IfSome, IfNone};
ghost use Rattle.line_io.specs.Counts.{CountRose};
ghost use Rattle.line_io.specs.Connections.{prepend_told, append_told, IsNoneLeft, add_told, IsAtLeast};

use crate::faults::Failed;
use crate::sinks::Sink;
use crate::sources::Source;

/// A place that connections come from, each with two ends.
pub trait Door {
    type In: Source;

    type Out: Sink;

    // How many of its calls failed so far.
    ghost faults_of: { Self → ℕ };

    // The connections that are still to come, where it tells them.
    ghost coming: { Self → Option (List (Self.In × Self.Out)) } = { λ _. None };

    // The ends that were given back, where it tells them.
    ghost ended: { Self → Option (List (Self.In × Self.Out)) } = { λ _. None };

    // How many of those that it gave were not given back so far, where it tells that.
    ghost away: { Self → Option ℕ } = { λ _. None };

    /// Begins to take connections at the port.
    fn open(&mut self, port: u16) -> Result<(), Failed>
        ensures coming { coming self.new ≡ coming self.old }
        ensures ended { ended self.new ≡ ended self.old }
        ensures away { away self.new ≡ away self.old }
        ensures count { faults_of self.old ≤ faults_of self.new }
        ensures failed { OnErr result (CountRose (faults_of self.old) (faults_of self.new)) };

    /// Waits for the next connection. `None` is the end of the door.
    fn next(&mut self) -> Result<Option<(Self::In, Self::Out)>, Failed>
        ensures some { IfOk result (λ next. IfSome next (λ ends. (coming self.old ≡ prepend_told (ends ∷ []) (coming self.new))
            × (away self.new ≡ add_told 1 (away self.old)))) }
        ensures none { IfOk result (λ next. IfNone next (IsNoneLeft (coming self.new) × (coming self.new ≡ coming self.old)
            × (away self.new ≡ away self.old))) }
        ensures err { OnErr result ((coming self.new ≡ coming self.old) × (away self.new ≡ away self.old)) }
        ensures ended { ended self.new ≡ ended self.old }
        ensures count { faults_of self.old ≤ faults_of self.new }
        ensures failed { OnErr result (CountRose (faults_of self.old) (faults_of self.new)) };

    /// Takes back the ends of a connection that it gave. It takes no memory.
    fn give_back(&mut self, input: Self::In, output: Self::Out)
        requires away { IsAtLeast 1 (away self.old) }
        ensures coming { coming self.new ≡ coming self.old }
        ensures ended { ended self.new ≡ append_told (ended self.old) ((input, output) ∷ []) }
        ensures away { away self.old ≡ add_told 1 (away self.new) }
        ensures count { faults_of self.old ≤ faults_of self.new };

    /// How many of its calls failed so far. The count never falls, and stands still at its last value.
    fn faults(&self) -> u64
        ensures { result ≡ faults_of self.now };
}
