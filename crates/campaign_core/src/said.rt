//! What the last entry said.
ghost use Rattle.std.specs.Prelude.{◌≡◌, find, option_map};
ghost use Rattle.std.specs.Option.{option_copied};
ghost use Rattle.campaign_core.specs.Said.{is_heard as is_heard_lem};

use entry_outcomes::{Message, is_to};
use names::{LineText, SeatNo};

/// Whether a seat that is Joined now, or isn't, heard this message of the last entry: it said it itself, or is Joined still.
fn is_heard(message: &Message, seat: SeatNo, joined: bool) -> bool
    ensures { result ≡ is_heard_lem seat joined message.now }
{
    is_to(seat, message) && (joined || message.from == seat)
}

/// The first of the last entry's messages that the seat heard, which is Joined now, or isn't.
pub(crate) fn heard(messages: &[Message], seat: SeatNo, joined: bool) -> Option<&LineText>
    ensures { option_copied result ≡ option_map (λ m. m.line) (find (is_heard_lem seat joined) messages.now) }
{
    for message in messages {
        if is_heard(message, seat, joined) {
            return Some(&message.line);
        }
    }
    None
}
