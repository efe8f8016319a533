//! The player machine as running code. It holds no world: its seat's own book, the number of seats, and what it was last shown.
//! Fed a player's trace item by item, it prints what the player was sent, line by line.
#![tactic(auto)]

mod feeding;
mod item;
mod lines;
mod machine;
mod machine_seat;
mod own_entry;
mod printing;
mod same;

pub use item::TraceItem;
pub use machine::{Machine, Opening};
pub use printing::printed_bytes;
pub use same::{same_item, same_opening};
