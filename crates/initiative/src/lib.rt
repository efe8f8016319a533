//! The round list of a fight: which tokens act, in which order, whose turn it is, and in which round.
//!
//! In contracts a `Fight` is a record of its list, its turn and its round. The list has an entry for each token that takes
//! part, its value with its id: the greatest value first, and of equal values the least id first.
#![tactic(auto)]

mod entry;
mod fight;

pub use entry::Entry;
pub use fight::{Fight, MOST_ROUND};
