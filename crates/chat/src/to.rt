//! Addresses of messages.
ghost use Rattle.std.specs.Prelude.{◌≡◌};
ghost use Rattle.chat.specs.Addresses.{is_within as is_within_lem};

use names::SeatNo;

/// To whom a message goes. Seat 0 is the game master's.
#[derive(Clone, Copy, Debug, PartialEq, Eq)]
pub enum To {
    /// The sender alone.
    SelfOnly,
    /// The game master.
    Gm,
    /// The game master and the sender.
    GmSelf,
    /// Every seat.
    All,
    /// This seat.
    Seat(SeatNo),
}

impl To {
    /// Whether a campaign of so many seats has the seat that the address names, if it names one.
    pub fn is_within(self, seats: u8) -> bool
        ensures { result ≡ is_within_lem self seats }
    {
        match self {
            To::Seat(seat) => seat.number() < seats,
            To::SelfOnly | To::Gm | To::GmSelf | To::All => true,
        }
    }
}
