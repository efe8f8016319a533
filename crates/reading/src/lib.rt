//! Reading a text byte by byte, and the laws of such reading whatever the grammar is.
//!
//! `specs/Reading` has readers as functions on lists of bytes, `proofs/Laws` what each combinator keeps, and
//! `proofs/Longest` that a reader which looks one byte ahead fails exactly at the end of the longest viable front.
#![tactic(auto)]

ghost use Rattle.std.specs.Prelude.{◌≡◌, ◌<◌, ◌≤◌, ◌+◌, ◌^◌, Some, IfSome, IsTrue, length, nat_eq, true, false};
ghost use Rattle.reading.specs.Reading.{item, bind, on_head, done};
ghost use Rattle.reading.specs.Number.{is_digit, digits_at, number_at};

/// A place in a text, by the bytes from there on. What can't be read leaves it at the failing place.
#[derive(Drop)]
pub struct Cursor<'a> {
    pub rest: &'a [u8],
}

impl Cursor<'_> {
    /// Takes the next byte, if it is a digit.
    pub fn digit(&mut self) -> Option<u8>
        ensures value { item is_digit self.old.rest.now ≡ (result, self.new.rest.now) }
        ensures shrinks { length self.new.rest.now ≤ length self.old.rest.now }
    {
        let (first, rest) = self.rest.split_first()?;
        if !first.is_ascii_digit() {
            return None;
        }
        self.rest = rest;
        Some(*first)
    }

    /// Whether the next byte is the wanted one, which is then taken.
    pub fn takes(&mut self, wanted: u8) -> bool
        ensures value { on_head (nat_eq wanted) (bind (item (nat_eq wanted)) (λ _. done true)) (done false) self.old.rest.now
            ≡ (Some result, self.new.rest.now) }
        ensures shorter { IsTrue result → length self.new.rest.now < length self.old.rest.now }
        ensures shrinks { length self.new.rest.now ≤ length self.old.rest.now }
    {
        let Some((first, rest)) = self.rest.split_first() else {
            return false;
        };
        if *first != wanted {
            return false;
        }
        self.rest = rest;
        true
    }

    /// The value of at most so many further digits behind one.
    fn digits(&mut self, further: u32, first: u64) -> u64
        requires first { first < 10 }
        requires few { further ≤ 17 }
        ensures value { digits_at further first self.old.rest.now ≡ (Some result, self.new.rest.now) }
        ensures bound { result < 10 ^ (further + 1) }
        ensures shrinks { length self.new.rest.now ≤ length self.old.rest.now }
    {
        let mut value = first;
        for _place in 0..further {
            let Some(digit) = self.digit() else {
                return value;
            };
            value = 10 * value + u64::from(digit - b'0');
        }
        value
    }

    /// The number in decimal that comes next, with at most so many digits behind its first.
    #[tactic(auto, unfolding(crate::specs::Number::number_at))]
    pub fn number(&mut self, further: u32) -> Option<u64>
        requires { further ≤ 17 }
        ensures value { number_at further self.old.rest.now ≡ (result, self.new.rest.now) }
        ensures bound { IfSome result (λ n. n < 10 ^ (further + 1)) }
        ensures shrinks { length self.new.rest.now ≤ length self.old.rest.now }
    {
        let first = self.digit()?;
        if first == b'0' {
            return Some(0);
        }
        Some(self.digits(further, u64::from(first - b'0')))
    }
}
