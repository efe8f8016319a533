//! Lines of messages.
ghost use Rattle.std.specs.Prelude.{◌≡◌, IfOk};
ghost use Rattle.json_fields.specs.Lines.{IsOneLine};
ghost use Rattle.json_lines.specs.Objects.{plain_data};
ghost use Rattle.chat.specs.Messages.{address as address_data, message_line as message_text};

use crate::to::To;
use json_lines::{Plain, object_line};
use names::{LineText, Memory, SeatNo};
use std::alloc::Global;

/// The address as a message shows it.
fn address(to: To) -> Plain<'static>
    ensures { plain_data result ≡ address_data to }
{
    match to {
        To::SelfOnly => Plain::Text("self"),
        To::Gm => Plain::Text("gm"),
        To::GmSelf => Plain::Text("gmself"),
        To::All => Plain::Text("all"),
        To::Seat(seat) => Plain::Whole(u64::from(seat.number())),
    }
}

/// The line of a message: compact JSON with the sender's number, the text and the address, which is
/// a word or the named seat's number. Its LF isn't part of it. `Memory` for want of memory.
#[tactic(auto, unfolding(crate::specs::Messages::message_line))]
pub fn message_line(alloc: Global, from: SeatNo, to: To, text: &str) -> Result<LineText, Memory>
    ensures text { IfOk result (λ line. line ≡ message_text from to text.now) }
    ensures one_line { IfOk result (λ line. IsOneLine line) }
{
    object_line(
        alloc,
        &[
            ("from", Plain::Whole(u64::from(from.number()))),
            ("text", Plain::Text(text)),
            ("to", address(to)),
        ],
    )
}
