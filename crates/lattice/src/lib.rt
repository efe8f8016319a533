//! Points in half cells, the directions between them in their order by angle, and where segments between them meet.
//!
//! All of it is exact: coordinates are whole numbers, and nothing is rounded. Nothing takes memory.
#![tactic(auto)]

mod direction;
mod point;
mod segment;

pub use direction::{Direction, cone_has};
pub use point::Point;
pub use segment::{Turn, meets, orient, side_blocks};
