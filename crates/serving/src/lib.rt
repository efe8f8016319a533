//! Serving: connections that sit at one hall, each in a session of its own.
//!
//! [`serve_hall`] takes connections from a door, starts a session for each by a spawner, gathers them, and prints for each, in
//! order of arrival, how it ended. A session is a work, [`Sitting`], that the spawner runs at once or in a thread of its own.
#![tactic(auto)]

mod admitting;
mod endings;
mod gathering;
mod guests;
mod hosting;
mod logged_runs;
mod printing;
mod runs;
mod serving_hall;
mod sittings;
mod threads;

pub use endings::{Dump, dump_now, print_text};
pub use guests::Guest;
pub use hosting::{Hosted, host};
pub use logged_runs::{LoggedMemSink, LoggedTcpSink};
pub use runs::SessionSource;
pub use serving_hall::{Served, serve_hall};
pub use sittings::Sitting;
pub use threads::{RunOf, SittingThread, start_sitting};
