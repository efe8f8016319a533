//! The values of the campaign text: their kinds, and the first breach of a rule.
//!
//! The fields of an object are read in a fixed order, each whole before the next, and the first breach is
//! the answer, with its path (a JSON pointer, RFC 6901) and its rule.
#![tactic(auto)]

mod faults;
pub mod fields;
mod formats;
pub mod kinds;

pub use faults::{BadCampaign, FileFault, Rule, broken, broken_at, broken_item};
pub use formats::Format;
