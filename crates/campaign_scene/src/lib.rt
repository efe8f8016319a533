//! What the campaign text says of the scene: types of lights and sights, maps, tokens, and what is exposed.
//!
//! Each part is read into the scene that has the parts before it, so that a name is known where it was read before.
#![tactic(auto)]

mod fog;
mod map;
mod property;
mod token;
mod types;
mod wall;

pub use fog::read_fog;
pub use map::read_maps;
pub use token::read_tokens;
pub use types::{read_lights, read_sights};
