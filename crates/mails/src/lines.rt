//! Lines that are queued together.
ghost use Rattle.std.specs.Prelude.{◌≡◌, ◌==◌, ◌++◌, ◌∷◌, [], length, IfSome, OnOk};
ghost use Rattle.std.specs.Option.{option_to_list};
ghost use Rattle.mails.specs.Texts.{text_of};
ghost use Rattle.mails.specs.Waiting.{IsSum};

use names::{LineText, Memory};
use std::alloc::Global;
use std::marker::Model;

/// Lines that an entry queues for a seat, in order. One alone, as most are, takes no list.
#[derive(Drop)]
pub struct Lines {
    pub(crate) first: Option<LineText>,
    /// Those behind the first.
    pub(crate) rest: Vec<LineText>,
}

impl Model for Lines {
    ghost use Rattle.std.specs.Prelude.{ℕ, List, ◌++◌};
    ghost use Rattle.std.specs.Option.{option_to_list};
    ghost use Rattle.mails.specs.Together.{AreInOrder};

    ghost Value = { List (List ℕ) };

    ghost view = { λ l. option_to_list l.first ++ l.rest.items };

    ghost invariant = { λ l. AreInOrder l.first l.rest.items };
}

impl Lines {
    /// No lines.
    pub fn new(alloc: Global) -> Lines
        ensures { result ≡ [] }
    {
        Lines {
            first: None,
            rest: Vec::new(alloc),
        }
    }

    /// How many they are.
    pub fn len(&self) -> usize
        ensures { result ≡ length self.now }
    {
        match self.first {
            Some(_) => self.rest.len() + 1,
            None => 0,
        }
    }

    /// Whether there is none.
    pub fn is_empty(&self) -> bool
        ensures { result ≡ (length self.now == 0) }
    {
        self.first.is_none()
    }

    /// Adds a line behind them.
    pub fn push(&mut self, line: LineText) -> Result<(), Memory>
        ensures { OnOk result (self.new ≡ self.old ++ line ∷ []) }
    {
        if self.first.is_none() {
            self.first = Some(line);
            return Ok(());
        }
        self.rest.push(line)?;
        Ok(())
    }

    /// How many bytes they have, with their LFs; none, where they are more than can be counted.
    pub(crate) fn size(&self) -> Option<u64>
        ensures { IfSome result (λ n. n ≡ length (text_of self.now)) }
    {
        sum_of(size_of_first(&self.first), size_of(&self.rest))
    }
}

fn size_of_first(first: &Option<LineText>) -> Option<u64>
    ensures { IfSome result (λ n. n ≡ length (text_of (option_to_list first.now))) }
{
    match first {
        Some(line) => (line.bytes().len() as u64).checked_add(1),
        None => Some(0),
    }
}

/// How many bytes these lines have, with their LFs; none, where they are more than can be counted.
fn size_of(lines: &[LineText]) -> Option<u64>
    ensures { IfSome result (λ n. n ≡ length (text_of lines.now)) }
{
    let mut size: u64 = 0;
    for line in lines {
        size = size.checked_add(line.bytes().len() as u64)?.checked_add(1)?;
    }
    Some(size)
}

pub(crate) fn sum_of(first: Option<u64>, second: Option<u64>) -> Option<u64>
    ensures { IfSome result (IsSum first second) }
{
    first?.checked_add(second?)
}
