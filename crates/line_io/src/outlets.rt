//! Where what is told of a history goes to.
ghost use Rattle.std.specs.Prelude.{◌≡◌, ◌≤◌, ◌⊎◌, ℕ, OnOk, OnErr};
ghost use Rattle.std.specs.Io.KnownBytes.{append_known};
ghost use Rattle.line_io.specs.Counts.{CountRose};
ghost use Rattle.line_io.specs.Told.{TookPrefix};

use crate::faults::Failed;
use crate::memory_sinks::MemSink;
use crate::sinks::{Sink, write_whole};
use crate::tcp_ends::TcpSink;
use std::io::Eprint;
use std::sync::Wait;

/// A sink for bytes that tell of a history's entries. It may hold them back until those entries are safe from a crash.
pub trait Outlet: Sink {
    // That the first so many entries of the history are safe, as far as it knows.
    ghost safe: { Self → ℕ → Type 0 } = { λ _ _. Unit {0} };

    /// Writes all of the bytes, which tell of the first `length` entries and of no others, once these are safe. At `Failed` a prefix
    /// of the bytes was taken: none, where the entries can't be made safe.
    fn tell<R: Wait>(&mut self, rt: &R, bytes: &[u8], length: u64) -> Result<(), Failed>
        ensures ok { OnOk result (Self.Sink.written self.new ≡ append_known (Self.Sink.written self.old) bytes.now) }
        ensures err { OnErr result (TookPrefix (Self.Sink.written self.old) bytes.now (Self.Sink.written self.new)) }
        ensures safe { (Self.Sink.written self.new ≡ Self.Sink.written self.old) ⊎ safe self.new length }
        ensures still { (n : ℕ) → safe self.old n → safe self.new n }
        ensures count { Self.Sink.faults_of self.old ≤ Self.Sink.faults_of self.new }
        ensures failed { OnErr result (CountRose (Self.Sink.faults_of self.old) (Self.Sink.faults_of self.new)) };
}

// Nothing is held back.
impl Outlet for MemSink {
    fn tell<R: Wait>(&mut self, _rt: &R, bytes: &[u8], _length: u64) -> Result<(), Failed> {
        write_whole(self, bytes)
    }
}

// Nothing is held back.
impl<E: Eprint> Outlet for TcpSink<E> {
    fn tell<R: Wait>(&mut self, _rt: &R, bytes: &[u8], _length: u64) -> Result<(), Failed> {
        write_whole(self, bytes)
    }
}
