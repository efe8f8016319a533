//! A log beside a hall. Its keeper puts the history's entries behind a log on a disk, in order, and tells how many of them are safe
//! from a crash. Threads act on the hall as if there were no log, and wait for the keeper before they tell of an entry.
#![tactic(auto)]

mod campaigns;
mod chronicle;
mod closing;
mod keeper;
mod logged_doors;
mod logged_sinks;
mod rounds;
mod settling;

pub use chronicle::Chronicle;
pub use closing::{catch_up, close, close_shared};
pub use keeper::{Keeper, KeptFor};
pub use logged_doors::LoggedDoor;
pub use logged_sinks::LoggedSink;
pub use settling::{Settling, settle};
