//! The steps of a turn, each over the table that the threads share and a seat of it.
ghost use Rattle.std.specs.Prelude.{◌≡◌, ◌+◌, ◌^◌, ◌<◌, ◌≤◌, ◌++◌, ◌⊎◌, max, false, true, [], ◌∷◌, length};
ghost use mathlib.Core.List.{IsPrefix};
ghost use Rattle.turn_lock.specs.Pass.{HasTurn, OwnsWithin};
ghost use Rattle.turn_lock.specs.SeatView.{with_turn, with_object, grown, without_object, without_turn, informed, newcomer};
ghost use Rattle.turn_lock.specs.Seat.{IsSized, hall_state, known_of, IsSeatOf, IsIdle, IsResting, HasObject, HoldsObject, HoldsMore};

use crate::object::{Job, Object};
use crate::order::{BUSY, MADE, OBJECT, Order};
use crate::signals::{Acts, Sleepers};
use crate::steps::{
    AddEntries, CompareFronts, GiveObject, JoinSeats, LoadMade, PassTurn, SplitSeat, TakeObject,
    TakeTurn,
};
use crate::view::SeatView;
use atomic_table::{Seat, Shared, Table};
use std::alloc::Global;
use std::snapshot::Snapshot;
use std::sync::Wait;

/// What threads share of a hall's table.
pub type SharedTable<O> = Shared<
    O,
    SeatView<<O as Object>::Entry, <O as Object>::Origin>,
    Snapshot<O>,
    Order<O>,
>;

/// A hall's table.
pub type HallTable<O> = Table<
    O,
    SeatView<<O as Object>::Entry, <O as Object>::Origin>,
    Snapshot<O>,
    Order<O>,
    Global,
>;

/// A seat of a hall's table.
pub type HallSeat<O> = Seat<O, SeatView<<O as Object>::Entry, <O as Object>::Origin>>;

/// Waits until no seat has the turn, and takes it.
pub fn take_turn<O: Object, R: Wait>(
    shared: &SharedTable<O>,
    sleepers: &Sleepers,
    rt: &R,
    seat: &mut HallSeat<O>,
)
    requires sized { IsSized shared.now.table_id }
    requires table { seat.old.table_id ≡ shared.now.table_id }
    requires idle { (seat.old.me.0.turn ≡ false) × (seat.old.me.0.out ≡ false) }
    ensures table { (seat.new.table_id ≡ seat.old.table_id) × (seat.new.id ≡ seat.old.id) }
    ensures turn { seat.new.me ≡ (with_turn seat.old.me.0 seat.new.me.0.front, seat.old.me.1) }
    ensures front { IsPrefix seat.old.me.0.front seat.new.me.0.front }
    ensures heard { seat.old.me.0.heard ≤ length seat.new.me.0.front }
{
    for _ in rt.forever() {
        if shared.compare_exchange::<TakeTurn>(seat, BUSY, 0, 1) == 0 {
            return;
        }
        sleepers.add();
        shared.park(rt, BUSY, 1);
        sleepers.remove();
    }
    unreachable!()
}

/// Takes the object out of its slot.
pub fn take_object<O: Object>(shared: &SharedTable<O>, seat: &mut HallSeat<O>)
    requires sized { IsSized shared.now.table_id }
    requires hall { IsSeatOf (hall_state shared.now.table_id (O.origin shared.now.key.value)) seat.old }
    requires turn { (seat.old.me.0.turn ≡ true) × (seat.old.me.0.out ≡ false) × (seat.old.me.1 ≡ []) }
    ensures table { (seat.new.table_id ≡ seat.old.table_id) × (seat.new.id ≡ seat.old.id) }
    ensures view { seat.new.me.0 ≡ with_object seat.old.me.0 }
    ensures object { HoldsObject O.origin O.history (O.origin shared.now.key.value) seat.new.me }
{
    shared.load::<TakeObject>(seat, MADE);
}

/// Runs the job on the object, and tells how many entries it appended.
pub fn run_job<O: Object, J: Job<O>>(
    shared: &SharedTable<O>,
    seat: &mut HallSeat<O>,
    job: &mut J,
) -> u64
    requires sized { IsSized shared.now.table_id }
    requires table { seat.old.table_id ≡ shared.now.table_id }
    requires object { HoldsObject O.origin O.history (O.origin shared.now.key.value) seat.old.me }
    ensures table { (seat.new.table_id ≡ seat.old.table_id) × (seat.new.id ≡ seat.old.id) }
    ensures view { seat.new.me.0 ≡ seat.old.me.0 }
    ensures object { HoldsMore O.origin O.history (O.origin shared.now.key.value) (J.entries job.old job.new) result seat.new.me }
    ensures ran { J.ran (O.origin shared.now.key.value) job.old seat.old.me.0.front
        job.new (seat.old.me.0.front ++ J.entries job.old job.new) }
{
    let object = seat.slot_mut(shared, OBJECT);
    let before = object.length();
    job.run(object);
    object.length() - before
}

/// Adds to the count of entries those that the job appended.
pub fn add_entries<O: Object>(shared: &SharedTable<O>, seat: &mut HallSeat<O>, more: u64)
    requires sized { IsSized shared.now.table_id }
    requires table { seat.old.table_id ≡ shared.now.table_id }
    requires turn { (seat.old.me.0.turn ≡ true) × (seat.old.me.0.out ≡ true) }
    requires object { HasObject seat.old.me (λ object.
        IsPrefix seat.old.me.0.front (O.history object) × (length (O.history object) < 2 ^ 64)
        × (length seat.old.me.0.front + more ≡ length (O.history object))) }
    ensures table { (seat.new.table_id ≡ seat.old.table_id) × (seat.new.id ≡ seat.old.id) }
    ensures object { HasObject seat.old.me (λ object. seat.new.me ≡ (grown seat.old.me.0 (O.history object), seat.old.me.1)) }
{
    shared.fetch_add::<AddEntries>(seat, MADE, more);
}

/// Wakes all that wait for a longer history.
pub fn wake_waiters<O: Object>(shared: &SharedTable<O>, sleepers: &Sleepers)
    requires { IsSized shared.now.table_id }
{
    if sleepers.any() {
        shared.wake_all(MADE);
    }
}

/// Puts the object back into its slot.
pub fn give_object<O: Object>(shared: &SharedTable<O>, seat: &mut HallSeat<O>)
    requires sized { IsSized shared.now.table_id }
    requires hall { IsSeatOf (hall_state shared.now.table_id (O.origin shared.now.key.value)) seat.old }
    requires turn { seat.old.me.0.turn ≡ true }
    requires object { HoldsObject O.origin O.history (O.origin shared.now.key.value) seat.old.me }
    ensures table { (seat.new.table_id ≡ seat.old.table_id) × (seat.new.id ≡ seat.old.id) }
    ensures given { seat.new.me ≡ (without_object seat.old.me.0, []) }
{
    shared.load::<GiveObject>(seat, MADE);
}

/// Ends the turn.
pub fn pass_turn<O: Object>(shared: &SharedTable<O>, sleepers: &Sleepers, seat: &mut HallSeat<O>)
    requires sized { IsSized shared.now.table_id }
    requires table { seat.old.table_id ≡ shared.now.table_id }
    requires turn { (seat.old.me.0.turn ≡ true) × (seat.old.me.0.out ≡ false) }
    ensures table { (seat.new.table_id ≡ seat.old.table_id) × (seat.new.id ≡ seat.old.id) }
    ensures passed { seat.new.me ≡ (without_turn seat.old.me.0, seat.old.me.1) }
{
    shared.store::<PassTurn>(seat, BUSY, 0);
    if sleepers.any() {
        shared.wake_one(BUSY);
    }
}

/// One turn of a seat, in which the job is run once. It is one of the acts where it wakes. How many of these there were when it began.
pub fn turn<O: Object, R: Wait, J: Job<O>>(
    shared: &SharedTable<O>,
    sleepers: &Sleepers,
    acts: &Acts,
    rt: &R,
    seat: &mut HallSeat<O>,
    job: &mut J,
    wakes: bool,
) -> u64
    requires sized { IsSized shared.now.table_id }
    requires hall { IsSeatOf (hall_state shared.now.table_id (O.origin shared.now.key.value)) seat.old }
    requires resting { IsResting seat.old.me }
    ensures hall { IsSeatOf (hall_state shared.now.table_id (O.origin shared.now.key.value)) seat.new }
    ensures idle { IsIdle seat.new.me }
    ensures within { OwnsWithin seat.new.me.0.front seat.new.me.0.own }
    ensures turn { HasTurn (λ found left. J.ran (O.origin shared.now.key.value) job.old found job.new left)
        (J.entries job.old job.new) (known_of seat.old.me.0) (known_of seat.new.me.0) }
{
    take_turn(shared, sleepers, rt, seat);
    let seen = acts.count();
    take_object(shared, seat);
    let more = run_job(shared, seat, job);
    add_entries(shared, seat, more);
    give_object(shared, seat);
    if wakes {
        acts.add();
    }
    pass_turn(shared, sleepers, seat);
    seen
}

/// Loads the count of entries.
pub fn load_made<O: Object>(shared: &SharedTable<O>, seat: &mut HallSeat<O>) -> u64
    requires sized { IsSized shared.now.table_id }
    requires table { seat.old.table_id ≡ shared.now.table_id }
    ensures table { (seat.new.table_id ≡ seat.old.table_id) × (seat.new.id ≡ seat.old.id) }
    ensures view { seat.new.me ≡ (informed seat.old.me.0 result, seat.old.me.1) }
    ensures front { length seat.old.me.0.front ≤ result }
    ensures heard { seat.old.me.0.heard ≤ result }
{
    shared.load::<LoadMade>(seat, MADE)
}

/// Waits until the count of entries is past the known one.
pub fn wait_made_past<O: Object, R: Wait>(
    shared: &SharedTable<O>,
    sleepers: &Sleepers,
    rt: &R,
    seat: &mut HallSeat<O>,
    known: u64,
) -> u64
    requires sized { IsSized shared.now.table_id }
    requires table { seat.old.table_id ≡ shared.now.table_id }
    ensures table { (seat.new.table_id ≡ seat.old.table_id) × (seat.new.id ≡ seat.old.id) }
    ensures view { seat.new.me ≡ (informed seat.old.me.0 result, seat.old.me.1) }
    ensures front { length seat.old.me.0.front ≤ result }
    ensures heard { seat.old.me.0.heard ≤ result }
    ensures past { known < result }
{
    for _ in rt.forever() {
        let made = load_made(shared, seat);
        if made > known {
            return made;
        }
        sleepers.add();
        // A thread parks on the low 32 bits of a word.
        shared.park(rt, MADE, (made % (1 << 32)) as u32);
        sleepers.remove();
    }
    unreachable!()
}

/// Waits for a turn, which never ends, and takes the table apart.
pub fn close_table<O: Object, R: Wait>(
    table: HallTable<O>,
    sleepers: &Sleepers,
    rt: &R,
    mut seat: HallSeat<O>,
) -> O
    requires sized { IsSized table.shared.table_id }
    requires hall { IsSeatOf (hall_state table.shared.table_id (O.origin table.shared.key.value)) seat }
    requires idle { IsIdle seat.me }
    ensures origin { O.origin result ≡ O.origin table.shared.key.value }
    ensures front { IsPrefix seat.me.0.front (O.history result) }
    ensures heard { seat.me.0.heard ≤ length (O.history result) }
{
    take_turn(&table.shared, sleepers, rt, &mut seat);
    let mut closed = table.close_with(seat);
    let object = closed.take(OBJECT);
    closed.free();
    object
}

/// Takes in another seat. The front is then the longer of the two.
pub fn join_seats<O: Object>(shared: &SharedTable<O>, seat: &mut HallSeat<O>, other: HallSeat<O>)
    requires sized { IsSized shared.now.table_id }
    requires hall { IsSeatOf (hall_state shared.now.table_id (O.origin shared.now.key.value)) seat.old }
    requires table { other.table_id ≡ shared.now.table_id }
    requires resting { IsResting seat.old.me × IsResting other.me }
    ensures hall { IsSeatOf (hall_state shared.now.table_id (O.origin shared.now.key.value)) seat.new }
    ensures idle { IsIdle seat.new.me }
    ensures within { OwnsWithin seat.new.me.0.front seat.new.me.0.own }
    ensures left { IsPrefix seat.old.me.0.front seat.new.me.0.front }
    ensures right { IsPrefix other.me.0.front seat.new.me.0.front }
    ensures longer { (seat.new.me.0.front ≡ seat.old.me.0.front) ⊎ (seat.new.me.0.front ≡ other.me.0.front) }
    ensures own { seat.new.me.0.own ≡ seat.old.me.0.own ++ other.me.0.own }
    ensures heard { seat.new.me.0.heard ≡ max seat.old.me.0.heard other.me.0.heard }
{
    shared.join_seat::<JoinSeats>(seat, other);
    shared.load::<CompareFronts>(seat, MADE);
}

/// Makes a second seat, which has seen and heard as much.
pub fn split_seat<O: Object>(shared: &SharedTable<O>, seat: &mut HallSeat<O>) -> HallSeat<O>
    requires sized { IsSized shared.now.table_id }
    requires table { seat.old.table_id ≡ shared.now.table_id }
    requires idle { IsIdle seat.old.me }
    ensures kept { (seat.new.table_id ≡ seat.old.table_id) × (seat.new.me ≡ seat.old.me) }
    ensures made { (result.table_id ≡ seat.old.table_id) × (result.me ≡ (newcomer seat.old.me.0, [])) }
{
    shared.split_seat::<SplitSeat>(seat)
}
