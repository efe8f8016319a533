//! A lock round one object with a history, which many threads share.
//!
//! A [`Hall`] has the object. A thread acts on it through a [`Pass`], one turn at a time, and the
//! pass knows a prefix of the history, its front, which each turn brings up to date. So what
//! threads learn of the object are prefixes of one history. [`Hall::progress`] tells how long the
//! history has become, and never waits.
//!
//! Nothing is said of the order of turns between passes that were never met, nor that a turn ever
//! comes: there is no fairness, no freedom from deadlock and no bound on time.
#![tactic(auto)]

mod hall;
mod object;
mod order;
mod signals;
mod steps;
mod turns;
mod view;

pub use hall::{Hall, Pass, Usher};
pub use object::{Job, Object};

#[cfg(test)]
mod tests;
