//! Sessions: one connection that sits at a seat of a campaign, which many share.
//!
//! A session reads a hello, joins by the numbers of its two passes, and then runs two halves side by side. The reading half
//! enters the lines of the input, and both halves, one at a time, write the lines that the campaign queues for the seat. What a
//! session did is told of each longer history that begins with the fronts of its passes.
#![tactic(auto)]

mod attended;
mod exchange;
mod first_line;
mod halves;
mod hearing;
mod hold;
mod input;
mod joining;
mod leaving;
mod pace;
mod pen;
mod service;
mod sitting;
mod speaking;
mod start;
mod writing;

use campaign_core::Campaign;
pub use service::{Sat, serve_session};
use sight_sweep::SweepEye;
pub use sitting::Ended;

/// The campaign that sessions share.
pub type Table = Campaign<SweepEye>;

#[cfg(test)]
mod tests;
