//! What a player may know of a history, checked by the player machine: whether a transcript is what the machine prints, and whether two
//! histories agree for a player.
#![tactic(auto)]

mod checking;
mod comparing;
mod entering;
mod fault;
mod lines;
mod tracing;

pub use checking::{Verdict, check_transcript};
pub use comparing::{Agreement, compare};
pub use fault::CheckFault;
pub use player_machine::{Machine, Opening, TraceItem};
pub use tracing::trace_of;
