//! Dice texts such as `4d6k3+2`, read by their grammar.
//!
//! The grammar and its limits are this project's own; `specs/Grammar` states both. `read_dice` reads a whole text,
//! and `die` what stands behind the `d` of a group, for readers of larger grammars.
#![tactic(auto)]

mod parts;
mod readers;
mod texts;

pub use parts::{Group, Part, Tail, Term};
pub use readers::die;
pub use texts::{Dice, DiceFault, one_reading, read_dice};
