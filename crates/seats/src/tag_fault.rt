//! Why a tag can't be used.

/// Why a seat can't use a tag, in the order in which the causes are asked.
#[derive(Clone, Copy, Debug, PartialEq, Eq)]
pub enum TagFault {
    /// The seat used it before.
    TagUsed,
    /// The seat has used all the tags that it may.
    TagsSpent,
    /// Want of memory.
    Memory,
}
