//! JSON as the other crates read and write it: values from bytes, lines from values, and the fields
//! of an object, each of its kind. All rules speak of the value that `serde_json` reads, and of
//! nothing else in the text.
#![tactic(auto)]

pub mod fields;
pub mod kinds;
mod lines;
mod values;

pub use lines::compact_line;
pub use values::{ReadFault, read_value};
