//! The tags that accepted commands use.
ghost use Rattle.std.specs.Prelude.{◌≡◌, OnOk, OnErr};
ghost use Rattle.command_effects.specs.Tags.{tag_made as tag_made_lem, using_tag, MayUseTag};

use command_json::Command;
use names::{Memory, Tag};
use seats::{SeatBook, TagFault};

fn tag_made(command: &Command) -> Option<Tag>
    ensures { result ≡ tag_made_lem command.now }
{
    match command {
        Command::Make { tag, .. } | Command::Token { tag, .. } => Some(*tag),
        _ => None,
    }
}

/// The seat uses the tag of the token that its command makes, if it makes one. That it may is one of the rules, which an
/// accepted command breaks none of. After `Memory` the book is as before.
pub fn use_made_tag(book: &mut SeatBook, command: &Command) -> Result<(), Memory>
    requires { MayUseTag book.old command.now }
    ensures used { OnOk result (book.new ≡ using_tag (tag_made_lem command.now) book.old) }
    ensures unchanged { OnErr result (book.new ≡ book.old) }
{
    let Some(tag) = tag_made(command) else {
        return Ok(());
    };
    match book.use_tag(tag) {
        Ok(()) => Ok(()),
        Err(TagFault::Memory) => Err(Memory),
        Err(TagFault::TagUsed | TagFault::TagsSpent) => unreachable!(),
    }
}
