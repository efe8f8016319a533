//! What the rules of a Joined seat's commands are, the refusals of those that break one, and what judges the game master's own
//! commands and macros. Rules that are asked of a view are judged by `view_rules`.
#![tactic(auto)]

mod calls;
mod gm_rules;
mod macros;
mod places;
mod refusal;

pub use calls::{Called, MacroRun};
pub use gm_rules::gm_rule;
pub use macros::{run_called, setting_rule};
pub use places::{all_fit, are_king_steps, cell_at, coordinate, fits_at, point_at, rect_at};
pub use refusal::Refusal;
