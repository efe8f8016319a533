//! Macro texts, read by their grammar into flat nodes.
//!
//! `macro_grammar` has the grammar and its readers on lists. Here each reader is a function that moves a cursor and puts nodes
//! behind those read before, with a contract that it gives what the reader on lists gives (`Finds` of `specs/Flat`).
#![tactic(auto)]

mod atoms;
mod expressions;
mod levels;
mod macros;
mod nodes;
mod pieces;
mod reader;
mod rolls;
mod statements;
mod texts;

pub use macro_grammar::{Function, Operator, one_reading};
pub use macros::Macro;
pub use nodes::{Address, Arguments, Branch, Node, Options, Piece};
pub use texts::{MacroParseFault, read_macro};
