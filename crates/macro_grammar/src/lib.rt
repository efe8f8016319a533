//! The grammar of macros, and its laws.
//!
//! `specs/Grammar` states the grammar, `specs/Readers` the same as it is read. `proofs/WholeMacros` has what reading tells of
//! the grammar; the code that reads stands in a crate above.
#![tactic(auto)]

mod functions;
mod laws;
mod words;

pub use functions::function_of;
pub use laws::one_reading;
pub use words::{Function, Operator};
