//! What accepted commands do with the macros and the dice of their seats' books.
ghost use Rattle.std.specs.Prelude.{◌≡◌, OnOk, OnErr, None};
ghost use Rattle.seats.specs.Book.{macro_fault, with_macro, with_stream};
ghost use Rattle.command_rules.specs.MacroRules.{new_text_in, setting_rule};
ghost use Rattle.command_effects.specs.MacroEffects.{setting_text};

use command_json::Command;
use names::{Memory, Tag, Text};
use seat_random::SeatStream;
use seats::{BookFault, SeatBook};

fn set_macro(book: &mut SeatBook, name: Tag, text: &Text) -> Result<(), Memory>
    requires { macro_fault book.old.macros name ≡ None }
    ensures set { OnOk result (book.new ≡ with_macro name text.now book.old) }
    ensures unchanged { OnErr result (book.new ≡ book.old) }
{
    match book.set_macro(name, text.share()?) {
        Ok(()) => Ok(()),
        Err(BookFault::Memory) => Err(Memory),
        Err(BookFault::MacroLimit) => unreachable!(),
    }
}

/// The seat's macro is set or removed, where its command does this. That it may is one of the rules, which an accepted command
/// breaks none of. After `Memory` the book is as before.
#[tactic(auto, using(crate::proofs::NewTexts::has_room))]
pub fn set_text(book: &mut SeatBook, command: &Command) -> Result<(), Memory>
    requires { setting_rule book.old.macros (new_text_in command.now) ≡ None }
    ensures set { OnOk result (book.new ≡ setting_text (new_text_in command.now) book.old) }
    ensures unchanged { OnErr result (book.new ≡ book.old) }
{
    let Command::Setmacro { name, text } = command else {
        return Ok(());
    };
    match text {
        Some(text) => set_macro(book, *name, text),
        None => {
            let _there = book.drop_macro(*name);
            Ok(())
        }
    }
}

/// The dice of the seat go on from the place that this stream has. All else of the book stays.
pub fn draw(book: &mut SeatBook, stream: &SeatStream)
    ensures { book.new ≡ with_stream book.old stream.now }
{
    let stream = SeatStream::new(stream.seed(), stream.drawn());
    *book.stream() = stream;
}
