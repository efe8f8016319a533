//! The walls of a map, and which cells an eye sees past them.
//!
//! Walls of kind vbl block sight, walls of kind mbl block movement. `Eye` is what finds the cells that are clear
//! from a point; `PlainEye` tries every wall for every cell.
#![tactic(auto)]

mod eye;
mod plain_eye;
mod wall;
mod walls;

pub use eye::Eye;
pub use plain_eye::PlainEye;
pub use wall::Wall;
pub use walls::{MOST_WALLS, NoSuchWall, WallFault, Walls, is_on_map};
