//! A script played on a campaign: each of its lines is an entry, and each line that an entry sends
//! is written behind the number of its seat.
#![tactic(auto)]

mod entries;
mod run;
mod seat_tag;
mod sending;
mod tally;

pub use entries::entry_of_line;
pub use run::{LINE_BYTES, LINE_LIMIT, Played, play, play_counted};
pub use sending::{send_all, takens_due};
pub use tally::Tally;
