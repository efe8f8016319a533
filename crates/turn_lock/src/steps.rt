//! What each kind of atomic step tells the seat that takes it.
//!
//! The kinds are seven: take the turn, take the object out of its slot, add to the count of
//! entries, give the object back, pass the turn, load the count, and split or join seats. A join
//! has a second half, in which the seat compares the two fronts that it then has.
ghost use Rattle.turn_lock.specs.SeatView.{newcomer, joined, spent};
ghost use Rattle.turn_lock.specs.Steps.{TakesTurn, TakesObject, AddsEntries, GivesObject, PassesTurn, LoadsMade, ComparesFronts};

use crate::object::Object;
use crate::view::SeatView;
use atomic_table::{Join, Play, Split};

// BUSY becomes 1 if it is 0.
pub(crate) struct TakeTurn;

impl<O: Object> Play<O, SeatView<O::Entry, O::Origin>> for TakeTurn {
    ghost then = { TakesTurn };
}

// The slot goes out.
pub(crate) struct TakeObject;

impl<O: Object> Play<O, SeatView<O::Entry, O::Origin>> for TakeObject {
    ghost then = { TakesObject O.origin O.history };
}

// MADE grows by the number of the job's entries.
pub(crate) struct AddEntries;

impl<O: Object> Play<O, SeatView<O::Entry, O::Origin>> for AddEntries {
    ghost then = { AddsEntries O.history };
}

// The slot comes home.
pub(crate) struct GiveObject;

impl<O: Object> Play<O, SeatView<O::Entry, O::Origin>> for GiveObject {
    ghost then = { GivesObject };
}

// BUSY becomes 0.
pub(crate) struct PassTurn;

impl<O: Object> Play<O, SeatView<O::Entry, O::Origin>> for PassTurn {
    ghost then = { PassesTurn };
}

// MADE is read.
pub(crate) struct LoadMade;

impl<O: Object> Play<O, SeatView<O::Entry, O::Origin>> for LoadMade {
    ghost then = { LoadsMade };
}

// One seat becomes two, which have seen as much.
pub(crate) struct SplitSeat;

impl<Entry, Origin> Split<SeatView<Entry, Origin>> for SplitSeat {
    ghost left = { λ view. view };

    ghost right = { newcomer };
}

// Two seats become one, which has both fronts.
pub(crate) struct JoinSeats;

impl<Entry, Origin> Join<SeatView<Entry, Origin>> for JoinSeats {
    ghost both = { joined };

    ghost spent = { spent };
}

// The longer of the two fronts becomes the front.
pub(crate) struct CompareFronts;

impl<O: Object> Play<O, SeatView<O::Entry, O::Origin>> for CompareFronts {
    ghost then = { ComparesFronts };
}
