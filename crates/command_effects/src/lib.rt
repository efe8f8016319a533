//! What accepted commands do to the scene and to their seats' tags, and how what players see is exposed to them.
#![tactic(auto)]

mod effects;
mod gm_effects;
mod intents;
mod laws;
mod macros;
mod making;
mod sight;
mod tags;
mod way;

pub use effects::{scene_by, steps_by};
pub use laws::scenes_follow;
pub use macros::{draw, set_text};
pub use sight::{expose_seen, settle};
pub use tags::use_made_tag;
pub use way::{Way, way_of};
