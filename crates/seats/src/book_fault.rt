//! Why a macro can't be set.

/// Why a seat can't set a macro, in the order in which the causes are asked.
#[derive(Clone, Copy, Debug, PartialEq, Eq)]
pub enum BookFault {
    /// The name is new, and the seat has 32 macros.
    MacroLimit,
    /// Want of memory.
    Memory,
}
