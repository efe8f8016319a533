//! Lines that are one JSON object whose members are texts and whole numbers, written member by member.
#![tactic(auto)]

mod objects;

pub use objects::{Plain, object_line};
