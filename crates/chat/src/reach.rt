//! Whom an address reaches.
ghost use Rattle.std.specs.Prelude.{◌≡◌, ◌<◌, ◌≤◌, ℕ, true, IsTrue};
ghost use Rattle.chat.specs.Addresses.{has_seat, is_addressed, is_within};

use crate::seat_set::SeatSet;
use crate::to::To;
use names::SeatNo;

/// The number of the game master's seat.
const GM: u8 = 0;

/// The seats that a message of `from` reaches, in a campaign of `seats` seats, 1 to 33. The sender
/// and a named seat are seats of the campaign.
pub fn receivers(to: To, from: SeatNo, seats: u8) -> SeatSet
    requires some { 1 ≤ seats }
    requires few { seats ≤ 33 }
    requires sender { from < seats }
    requires named { is_within to seats ≡ true }
    ensures value { (seat : ℕ) → has_seat result seat ≡ is_addressed to from seats seat }
    ensures within { (seat : ℕ) → has_seat result seat ≡ true → seat < seats }
{
    match to {
        To::SelfOnly => SeatSet::one(from.number()),
        To::Gm => SeatSet::one(GM),
        To::GmSelf => SeatSet::one(GM).with(from.number()),
        To::All => SeatSet::below(seats),
        To::Seat(seat) => SeatSet::one(seat.number()),
    }
}
