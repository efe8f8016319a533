//! The campaign text: one JSON text with the whole opening state of a campaign.
//!
//! There are two formats, and both are read. In the second each map has a flag for its trail, and a light type may be a
//! darkness; a campaign of the first has no trails and no darknesses.
//!
//! Any JSON spelling that `serde_json` reads is taken. All keys of an object are required, and no
//! others are allowed. The fields of an object are read in a fixed order, each whole before the next,
//! and the first breach is the answer, with its path (a JSON pointer, RFC 6901) and its rule. All else
//! of the format is this project's own.
#![tactic(auto)]

mod macros;
mod root;
mod seat;

pub use campaign_json::{BadCampaign, FileFault, Rule};
pub use root::read_campaign;
