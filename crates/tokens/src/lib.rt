//! The tokens of a campaign, their owners and their properties.
//!
//! In contracts a `TokenTable` is the list of its tokens, in order of ids, a `Props` is the list of
//! its names with their values, in order of first setting, and an `Owners` is the number whose
//! bit k is 1 where seat k is an owner.
#![tactic(auto)]

mod owners;
mod prop_name;
mod props;
mod token;
mod token_table;
mod values;

pub use owners::Owners;
pub use props::{PropFault, Props};
pub use token::Token;
pub use token_table::TokenTable;
