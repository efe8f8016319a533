//! The dice words of one seat, drawn from a ChaCha20 stream.
//!
//! The word at place k of a seed is word k of the ChaCha20 stream of RFC 8439 with this seed as key, as `rand_chacha`
//! makes it for stream 0. The rule that places go modulo 2^62, and how a word becomes a die, are this project's own.
#![tactic(auto)]

ghost use Rattle.std.specs.Prelude.{◌≡◌, ◌+◌, ◌*◌, ◌/◌, ◌%◌, ◌^◌, ◌<◌, ◌≤◌, List, ℕ, length};
ghost use Rattle.seat_random.specs.Stream.{Stream, word_of, after, shown};

use rand_chacha::ChaCha20Rng;
use rand_core::SeedableRng;
use rand_core::utils::NextWord;
use std::marker::Model;

/// A stream of words, by its seed and how many were drawn of it.
#[derive(Drop)]
pub struct SeatStream {
    seed: [u8; 32],
    drawn: u64,
}

impl Model for SeatStream {
    ghost use Rattle.std.specs.Prelude.{◌<◌, ◌^◌};
    ghost use Rattle.seat_random.specs.Stream.{Stream};

    ghost Value = { Stream };

    ghost view = { λ s. record { seed = s.seed; drawn = s.drawn } };

    ghost invariant = { λ s. s.drawn < 2 ^ 62 };
}

/// The word at a place of a seed's stream.
#[tactic(auto, unfolding(crate::specs::Stream::word_of))]
fn word(seed: [u8; 32], drawn: u64) -> u32
    requires { drawn < 2 ^ 62 }
    ensures { result ≡ word_of (record { seed = seed; drawn = drawn }) 0 }
{
    let mut rng = ChaCha20Rng::from_seed(seed);
    rng.set_word_pos(drawn as u128);
    rng.next_word()
}

impl SeatStream {
    /// The stream of this seed, from the place `drawn` on.
    pub fn new(seed: [u8; 32], drawn: u64) -> Self
        requires { drawn < 2 ^ 62 }
        ensures { result ≡ record { seed = seed; drawn = drawn } }
    {
        SeatStream { seed, drawn }
    }

    /// Draws a word, and gives what a die of 1 to 1,000 sides shows for it. Small dice are so little uneven that it is
    /// accepted.
    #[tactic(auto, unfolding(crate::specs::Stream::after))]
    pub fn die(&mut self, sides: u32) -> u32
        requires some { 1 ≤ sides }
        requires few { sides ≤ 1000 }
        ensures value { result ≡ shown (word_of self.old 0) sides }
        ensures stream { self.new ≡ after self.old 1 }
        ensures least { 1 ≤ result }
        ensures most { result ≤ sides }
    {
        let word = word(self.seed, self.drawn);
        self.drawn = (self.drawn + 1) % (1 << 62);
        (u64::from(word) * u64::from(sides) / (1 << 32)) as u32 + 1
    }

    /// The seed, which no draw changes.
    pub fn seed(&self) -> [u8; 32]
        ensures { result ≡ self.now.seed }
    {
        self.seed
    }

    /// The place of the next word.
    pub fn drawn(&self) -> u64
        ensures drawn { result ≡ self.now.drawn }
        ensures bound { result < 2 ^ 62 }
    {
        self.drawn
    }
}

#[cfg(test)]
mod tests {
    use super::*;

    // The keystream of RFC 8439, appendix A.1, test vectors 1 and 2, as little-endian words.
    #[test]
    fn first_words_of_the_zero_seed(rt: HostRuntime) {
        let words = [
            0xade0b876u32,
            0x903df1a0,
            0xe56a5d40,
            0x28bd8653,
            0xb819d2bd,
        ];
        for (place, wanted) in words.iter().enumerate() {
            assert!(rt; word([0; 32], place as u64) == *wanted);
        }
        assert!(rt; word([0; 32], 16) == 0xbee7079f);
    }

    #[test]
    fn dice_of_six_of_the_zero_seed(rt: HostRuntime) {
        let mut stream = SeatStream::new([0; 32], 0);
        for wanted in [5, 4, 6, 1] {
            assert!(rt; stream.die(6) == wanted);
        }
        assert!(rt; stream.drawn() == 4);
        assert!(rt; stream.seed() == [0; 32]);
        let mut last = SeatStream::new([0; 32], (1 << 62) - 1);
        let _die = last.die(6);
        assert!(rt; last.drawn() == 0);
    }
}
