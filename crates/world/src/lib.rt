//! All of a campaign: maps, the tokens on them, types of lights and sights, what is exposed, and the seats' books.
//!
//! In contracts a `Scene` is the record of its parts, and a `World` the record of its scene and its seats' books.
#![tactic(auto)]

mod scene;
mod world;

pub use scene::Scene;
pub use world::World;

#[cfg(test)]
mod scene_tests;
#[cfg(test)]
mod tests;
