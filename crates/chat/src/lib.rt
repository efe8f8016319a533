//! Chat: to whom a message goes, and the line that carries it.
//!
//! In contracts a `SeatSet` is the number whose bit k is 1 where seat k is in the set, and whom an
//! address reaches is `is_addressed` of `specs/Addresses`.
#![tactic(auto)]

mod laws;
mod message;
mod reach;
mod seat_set;
mod to;

pub use laws::a_message_is_one_line;
pub use message::message_line;
pub use reach::receivers;
pub use seat_set::SeatSet;
pub use to::To;
