//! The lines that tell what one seat sees of a game: the full line tells a view whole, the change line how it became
//! another. Both are written token by token, with no tree of what they tell.
#![tactic(auto)]

mod changes;
mod fights;
mod ground;
mod lines;
mod map_views;
mod parts;
mod rows;
mod runs;
mod token_views;
mod types;
mod values;
mod views_whole;

pub use lines::{change_line, full_line};
