//! What a seat of the table knows.
use std::collections::LinkedList;

/// What the seat of a pass knows. It exists in proofs alone, and no value of it is made.
pub struct SeatView<Entry, Origin> {
    /// The origin of the hall's object. None at a seat that another took in.
    pub origin: Option<Origin>,
    /// The prefix of the history that the seat has seen.
    pub front: LinkedList<Entry>,
    /// The front of a seat that this one has just taken in. Else empty.
    pub told: LinkedList<Entry>,
    /// The places of the history at which its turns appended.
    pub own: LinkedList<u64>,
    /// The greatest length of the history that it has heard of.
    pub heard: u64,
    /// Whether it has the turn.
    pub turn: bool,
    /// Whether it has the object.
    pub out: bool,
}
