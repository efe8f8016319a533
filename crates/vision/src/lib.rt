//! What tokens see of a map, told by the kept fields of their eyes and of the lamps.
//!
//! A field is the set of the cells that are clear from an eye and within 40 cells of it. `Fields` keeps them by the
//! ids of tokens, and `seen_cells` adds what a token sees to a set without a look at a wall.
#![tactic(auto)]

mod disc;
mod fields;
mod lamp;
mod seen;

pub use fields::Fields;
pub use lamp::Lamp;
pub use seen::seen_cells;
