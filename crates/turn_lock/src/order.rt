//! The rule of the table that a hall stands on.
//!
//! The table has two words and one slot. The first word, `MADE`, is the length of the history. The
//! second, `BUSY`, is 1 while a seat has the turn, and else 0. The slot has the object. Between any
//! two steps:
//!
//! - The log is the history of the object in the slot, or, while the slot is out, the front of the
//!   seat that has the turn. `MADE` is its length.
//! - Every front is a prefix of the log. No seat has heard of a greater length than `MADE`.
//! - At most one seat has the turn, and its front is the log. `BUSY` is 1 where a seat has the turn,
//!   and else 0.
//! - The slot is out only while a seat has the turn. The object has the hall's origin.
use crate::object::Object;
use crate::view::SeatView;
use atomic_table::TableRule;
use std::marker::PhantomData;
use std::snapshot::Snapshot;

/// The word that counts the entries of the history.
pub const MADE: usize = 0;
/// The word that says whether a seat has the turn.
pub const BUSY: usize = 1;
/// The slot that has the object.
pub const OBJECT: usize = 0;

/// The rule. The table's key is the object as it was when the hall was opened, of which it reads
/// the origin.
pub struct Order<O> {
    object: PhantomData<O>,
}

impl<O: Object> TableRule<O, SeatView<O::Entry, O::Origin>, Snapshot<O>> for Order<O> {
    ghost use Rattle.turn_lock.specs.Order.{IsOrderly};
    ghost use Rattle.turn_lock.specs.SeatView.{first_view};

    ghost holds = { λ opened. IsOrderly O.origin O.history (O.origin opened.value) };

    ghost first = { λ opened. first_view (O.origin opened.value) (O.history opened.value) };
}
