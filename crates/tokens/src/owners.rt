//! Which seats own a token.
ghost use Rattle.std.specs.Prelude.{◌≡◌, ◌==◌, ◌<◌, ◌≤◌, ◌^◌, ◌||◌, ℕ, if◌then◌else◌};
ghost use Rattle.tokens.specs.Owners.{has_owner, with_owner};

use names::SeatNo;
use std::marker::Model;

/// The seats that own a token. Contracts see a number whose bit k is 1 where seat k is an owner.
#[derive(Clone, Copy, Debug, PartialEq, Eq)]
pub struct Owners {
    seats: u64,
}

impl Model for Owners {
    ghost use Rattle.std.specs.Prelude.{ℕ, ◌<◌, ◌^◌};

    ghost Value = { ℕ };

    ghost view = { λ o. o.seats };

    ghost invariant = { λ o. o.seats < 2 ^ 33 };

    ghost inverse = { λ seats. record { seats = seats } };
}

impl Owners {
    /// No owner.
    pub fn none() -> Owners
        ensures { result ≡ 0 }
    {
        Owners { seats: 0 }
    }

    /// Whether the seat is an owner. Only seats are owners: no bit past the last seat's is 1.
    pub fn has(self, seat: SeatNo) -> bool
        ensures value { result ≡ has_owner self seat }
        ensures seats { self < 2 ^ 33 }
    {
        self.seats >> seat.number() & 1 == 1
    }

    /// The seats of both.
    #[tactic(auto, using(crate::proofs::OwnerLemmas::joined_lt, crate::proofs::OwnerLemmas::has_joined))]
    pub fn joined(self, other: Owners) -> Owners
        ensures { (k : ℕ) → has_owner result k ≡ (has_owner self k || has_owner other k) }
    {
        Owners {
            seats: self.seats | other.seats,
        }
    }

    /// These owners, with the seat among them or not; the other seats stay.
    #[tactic(auto, using(crate::proofs::OwnerLemmas::has_with))]
    pub fn with(self, seat: SeatNo, on: bool) -> Owners
        ensures value { result ≡ with_owner self seat on }
        ensures each { (k : ℕ) → k ≤ 32 → has_owner result k ≡ (if k == seat then on else has_owner self k) }
    {
        Owners {
            seats: with_seat(self.seats, seat, on),
        }
    }
}

fn with_seat(seats: u64, seat: SeatNo, on: bool) -> u64
    requires { seats < 2 ^ 33 }
    ensures value { result ≡ with_owner seats seat on }
    ensures bound { result < 2 ^ 33 }
{
    let bit = 1 << seat.number();
    if on { seats | bit } else { seats & !bit }
}
