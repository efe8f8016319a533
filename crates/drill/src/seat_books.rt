//! The seats of a drill.
ghost use Rattle.std.specs.Prelude.{◌≡◌, ◌<◌, [], map, IfOk};
ghost use Rattle.std.specs.List.{range_with_len};
ghost use Rattle.drill.specs.Numbered.{tag_at};
ghost use Rattle.drill.specs.Campaign.{book_at};

use crate::tags::tag_of;
use names::{Memory, SeatNo, Text};
use seats::SeatBook;
use std::alloc::Global;

/// How many tokens a drill has.
pub(crate) const TOKENS: u32 = 40;

/// The book of the game master, who used the tags of all tokens.
fn with_tags(mut book: SeatBook, alloc: Global) -> Result<SeatBook, Memory>
    requires { book.tags ≡ [] }
    ensures { IfOk result (λ new. new ≡ record book { tags = map tag_at (range_with_len 0 40) }) }
{
    for number in 0..TOKENS {
        // No tag is used twice, and so many may be.
        match book.use_tag(tag_of(alloc, number)?) {
            Ok(()) => {}
            Err(_) => return Err(Memory),
        }
    }
    Ok(book)
}

#[tactic(auto, unfolding(crate::specs::Campaign::book_at))]
fn book_of(alloc: Global, number: u8) -> Result<SeatBook, Memory>
    requires { number < 5 }
    ensures { IfOk result (λ book. book ≡ book_at number) }
{
    let Some(seat) = SeatNo::new(number) else {
        unreachable!();
    };
    let Ok(key) = format!(in alloc; "k{number}") else {
        return Err(Memory);
    };
    let book = SeatBook::new(alloc, seat, Text::new(key)?, [number; 32], 0);
    if number == 0 {
        return with_tags(book, alloc);
    }
    Ok(book)
}

/// The books of the five seats.
pub(crate) fn seat_books(alloc: Global) -> Result<Vec<SeatBook>, Memory>
    ensures { IfOk result (λ books. books.items ≡ map book_at (range_with_len 0 5)) }
{
    let mut books = Vec::new(alloc);
    for number in 0..5u8 {
        match books.push(book_of(alloc, number)?) {
            Ok(()) => {}
            Err(_) => return Err(Memory),
        }
    }
    Ok(books)
}
