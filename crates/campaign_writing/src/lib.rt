//! The campaign text written: one line that holds a whole world, and that is read back as the same world.
//!
//! The text is of the second format, and canonical: compact JSON with the keys of each object in the order of their bytes, maps by name, walls
//! with the lesser end first and in order of their four numbers, tokens by id, owners ascending, tags in order of use,
//! and what is exposed as maximal runs, only for maps with exposed cells. So a world has one text. Lines, the states of
//! seats and what was said don't stand in it.
#![tactic(auto)]

mod campaign;
mod fog_values;
mod map_values;
mod seat_values;
mod token_values;
mod type_values;
mod values;

pub use campaign::{campaign_value, read_worlds_are_written, write_campaign, write_first};
