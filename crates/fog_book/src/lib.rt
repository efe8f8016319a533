//! Fog of war: the cells that are exposed to each player, map by map.
//!
//! Contracts see a book as a finite table: `exposed_of` gives the set of a player on a map.
#![tactic(auto)]

mod book;
mod exposure;
mod paint;

pub use book::FogBook;
pub use exposure::Exposure;
