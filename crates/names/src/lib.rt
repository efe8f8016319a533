//! Plain values that every crate speaks of: seat numbers, tags, ids of tokens, owned texts, and
//! the small enumerations of maps, tokens, walls and properties.
//!
//! In contracts a `SeatNo` is its number, a `Tag`, a `Text` and a `LineText` are lists of bytes,
//! and a `TokenId` is the record of its maker and its tag.
#![tactic(auto)]

mod counts;
mod kinds;
mod letters;
mod memory;
mod seat_no;
mod tags;
mod texts;
mod token_id;

pub use counts::sum_of_counts;
pub use kinds::{Layer, Mode, PropClass, WallKind};
pub use letters::is_letter;
pub use memory::Memory;
pub use seat_no::SeatNo;
pub use tags::{BadTag, Tag};
pub use texts::{LineText, Text, Texts};
pub use token_id::TokenId;
