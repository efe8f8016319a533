//! A script in memory, and an output that keeps nothing. Neither ever fails.
ghost use Rattle.std.specs.Prelude.{◌≡◌, ◌≤◌, ◌<◌, ◌++◌, [], length, take, IfOk, OnErr, Some};

use line_io::{Failed, Sink, Source};
use names::LineText;
use std::marker::Model;

/// A script that is read from memory.
#[derive(Drop)]
pub(crate) struct ScriptText {
    bytes: LineText,
    start: usize,
}

impl Model for ScriptText {
    ghost use Rattle.std.specs.Prelude.{◌≤◌, ℕ, List, length, drop};

    ghost Value = { List ℕ };

    ghost view = { λ s. drop s.start s.bytes };

    ghost invariant = { λ s. s.start ≤ length s.bytes };
}

impl ScriptText {
    pub(crate) fn new(bytes: LineText) -> ScriptText
        ensures { result ≡ bytes }
    {
        ScriptText { bytes, start: 0 }
    }
}

impl Source for ScriptText {
    ghost use Rattle.std.specs.Prelude.{Some};

    ghost faults_of = { λ _. 0 };

    ghost left = { λ s. Some s };

    fn read(&mut self, piece: &mut [u8]) -> Result<usize, Failed> {
        let left = &self.bytes.bytes()[self.start..];
        let count = piece.len().min(left.len());
        piece[..count].copy_from_slice(&left[..count]);
        self.start += count;
        Ok(count)
    }

    fn faults(&self) -> u64 {
        0
    }
}

/// An output that takes all bytes and keeps none.
#[derive(Drop)]
pub(crate) struct NoOutput;

impl Sink for NoOutput {
    ghost faults_of = { λ _. 0 };

    fn write(&mut self, piece: &[u8]) -> Result<usize, Failed> {
        Ok(piece.len())
    }

    fn faults(&self) -> u64 {
        0
    }
}
