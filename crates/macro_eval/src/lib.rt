//! The meaning of macros.
//!
//! `specs/Nodes` says what each node of a macro's tree is worth, `specs/Pieces` what its pieces say and to whom, and
//! `specs/Runs` what the run of a macro comes to. The code runs over flat nodes.
#![tactic(auto)]

mod functions;
mod intent;
mod laws;
mod names_set;
mod operators;
mod outcome;
mod outputs;
mod pieces;
mod runs;
mod said;
mod setting;
mod state;
mod stop;
mod texts;
mod value;
mod values;
mod way;

pub use intent::Intent;
pub use laws::{examples_read, examples_run};
pub use names::Texts;
pub use outcome::{Intents, Outcome};
pub use readable::Readable;
pub use runs::run;
pub use stop::{FaultKind, MacroStop};
