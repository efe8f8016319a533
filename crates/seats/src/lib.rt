//! Seats' books: one for each seat of a campaign, with its key, the stream of its dice, the tags
//! that it used, its macros, its count of lines and whether a session sits in it.
//!
//! In contracts a `SeatBook` is the record `Book`, and what happens to it is a word of `specs/Book`:
//! `joined`, `counted`, `left`, `freed`, `with_tag`, `with_macro`, `without_macro` and `with_stream`.
#![tactic(auto)]

mod book_fault;
mod macros;
mod seat_book;
mod seat_state;
mod tag_fault;

pub use book_fault::BookFault;
pub use seat_book::{SeatBook, most_tags};
pub use seat_state::{JoinRefusal, SeatState};
pub use tag_fault::TagFault;
