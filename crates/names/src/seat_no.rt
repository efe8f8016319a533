//! Numbers of seats.
ghost use Rattle.std.specs.Prelude.{◌≡◌, ◌≤◌, ◌↔◌, ℕ, IsSome, IfSome};

use std::marker::Model;

/// A seat's number, 0 to 32. Seat 0 is the game master's.
#[derive(Clone, Copy, Debug, PartialEq, Eq, PartialOrd, Ord)]
pub struct SeatNo {
    number: u8,
}

impl Model for SeatNo {
    ghost Value = { ℕ };

    ghost view = { λ s. s.number };

    ghost invariant = { λ s. s.number ≤ 32 };

    ghost inverse = { λ n. record { number = n } };
}

impl SeatNo {
    /// The seat of this number; `None` exactly past 32.
    pub fn new(n: u8) -> Option<SeatNo>
        ensures some { IsSome result ↔ (n ≤ 32) }
        ensures value { IfSome result (λ s. s ≡ n) }
    {
        if n <= 32 {
            Some(SeatNo { number: n })
        } else {
            None
        }
    }

    /// The number, 0 to 32.
    pub fn number(self) -> u8
        ensures value { result ≡ self }
        ensures bound { result ≤ 32 }
    {
        self.number
    }
}
