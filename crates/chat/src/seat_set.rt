//! Sets of seats.
ghost use Rattle.std.specs.Prelude.{◌≡◌, ◌==◌, ◌||◌, ◌≤◌, ℕ, nat_lt};
ghost use Rattle.chat.specs.Addresses.{has_seat};

use names::SeatNo;
use std::marker::Model;

/// A set of seats. Contracts see the number whose bit k is 1 where seat k is in the set.
#[derive(Clone, Copy, Debug, PartialEq, Eq)]
pub struct SeatSet {
    seats: u64,
}

impl Model for SeatSet {
    ghost use Rattle.std.specs.Prelude.{ℕ};

    ghost Value = { ℕ };

    ghost view = { λ s. s.seats };

    ghost inverse = { λ seats. record { seats = seats } };
}

impl SeatSet {
    /// Whether the seat is in the set.
    pub fn has(self, seat: SeatNo) -> bool
        ensures { result ≡ has_seat self seat }
    {
        self.seats >> seat.number() & 1 == 1
    }

    /// The seat of this number, 0 to 32, alone.
    #[tactic(auto, using(crate::proofs::SeatBits::one_has))]
    pub(crate) fn one(number: u8) -> SeatSet
        requires { number ≤ 32 }
        ensures { (seat : ℕ) → has_seat result seat ≡ (seat == number) }
    {
        SeatSet { seats: 1 << number }
    }

    /// This set and the seat of this number, 0 to 32.
    #[tactic(auto, using(crate::proofs::SeatBits::with_has))]
    pub(crate) fn with(self, number: u8) -> SeatSet
        requires { number ≤ 32 }
        ensures { (seat : ℕ) → has_seat result seat ≡ (has_seat self seat || seat == number) }
    {
        SeatSet {
            seats: self.seats | 1 << number,
        }
    }

    /// The first seats, of which there are at most 33.
    #[tactic(auto, using(crate::proofs::SeatBits::below_has))]
    pub(crate) fn below(count: u8) -> SeatSet
        requires { count ≤ 33 }
        ensures { (seat : ℕ) → has_seat result seat ≡ nat_lt seat count }
    {
        SeatSet {
            seats: (1 << count) - 1,
        }
    }
}
