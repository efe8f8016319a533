//! The hall, its usher and its passes.
ghost use Rattle.std.specs.Prelude.{◌≡◌, ◌+◌, ◌-◌, ◌^◌, ◌<◌, ◌≤◌, ◌++◌, ◌⊎◌, max, [], length, IfOk, IfErr};
ghost use mathlib.Core.List.{IsPrefix};
ghost use Rattle.turn_lock.specs.Pass.{HallState, UsherState, PassState, IsPassOf, IsUsherOf, HasTurn, OwnsWithin, known, hears, first_pass, right_pass};
ghost use Rattle.turn_lock.specs.Seat.{IsSized, IsResting, hall_state, usher_state, pass_state};
ghost use Rattle.turn_lock.specs.SeatView.{first_view};

use crate::object::{Job, Object};
use crate::signals::{Acts, Sleepers};
use crate::turns::{
    HallSeat, HallTable, close_table, join_seats, load_made, split_seat, turn, wait_made_past,
    wake_waiters,
};
use atomic_table::{Refused, Table};
use std::alloc::Global;
use std::marker::Model;
use std::snapshot::Snapshot;
use std::sync::Wait;

/// A lock round an object. Threads share it by `&`, and each acts on the object through a pass of
/// its own.
///
/// Contracts see which hall it is and the origin of its object.
#[derive(Drop)]
pub struct Hall<O: Object> {
    table: HallTable<O>,
    // Who waits for a turn.
    for_turn: Sleepers,
    // Who waits for a longer history.
    for_more: Sleepers,
    acts: Acts,
}

impl<O: Object> Model for Hall<O> {
    ghost Value = { HallState O.Origin };

    ghost view = { λ hall. hall_state hall.table.shared.table_id (O.origin hall.table.shared.key.value) };

    ghost invariant = { λ hall. IsSized hall.table.shared.table_id };
}

/// What gives further passes their numbers. A hall has one, and its count only rises, so it gives
/// each number once.
///
/// Contracts see its hall and its count, the number that it gives next.
pub struct Usher<O: Object> {
    // Ties the usher to its hall. It takes no turn.
    seat: HallSeat<O>,
    count: u64,
}

impl<O: Object> Model for Usher<O> {
    ghost Value = { UsherState O.Origin };

    ghost view = { λ usher. usher_state usher.seat usher.count };
}

/// The right of one thread at a time to act on a hall's object, and what that thread knows of the
/// history.
///
/// Contracts see its hall, its number, its front (the prefix of the history that it has seen), its
/// own places (those of the front at which its turns appended) and the greatest length of the
/// history that it has heard of.
pub struct Pass<O: Object> {
    seat: HallSeat<O>,
    number: u64,
}

impl<O: Object> Model for Pass<O> {
    ghost Value = { PassState O.Entry O.Origin };

    ghost view = { λ pass. pass_state pass.seat pass.number };

    ghost invariant = { λ pass. IsResting pass.seat.me };
}

impl<O: Object> Pass<O> {
    /// The pass's number. Its own places are places of its front.
    pub fn number(&self) -> u64
        ensures number { result ≡ self.now.number }
        ensures within { OwnsWithin self.now.front self.now.own }
    {
        self.number
    }

    fn into_parts(self) -> (HallSeat<O>, u64)
        ensures pass { pass_state result.0 result.1 ≡ self }
        ensures resting { IsResting result.0.me }
    {
        let Self { seat, number } = self;
        (seat, number)
    }
}

impl<O: Object> Usher<O> {
    /// The usher's count, the number that it gives next.
    pub fn count(&self) -> u64
        ensures { result ≡ self.now.count }
    {
        self.count
    }
}

impl<O: Object> Drop for Pass<O> {
    fn drop(self) {
        let Self { seat: _, number: _ } = self;
    }
}

impl<O: Object> Drop for Usher<O> {
    fn drop(self) {
        let Self { seat: _, count: _ } = self;
    }
}

impl<O: Object> Hall<O> {
    /// A hall for the object, its usher, whose count is 1, and its first pass, whose number is 0 and
    /// whose front is the object's history. The object comes back only for want of memory.
    pub fn open(alloc: Global, object: O) -> Result<(Hall<O>, Usher<O>, Pass<O>), O>
        ensures origin { IfOk result (λ opened. opened.0.origin ≡ O.origin object) }
        ensures usher { IfOk result (λ opened. IsUsherOf opened.0 opened.1 × (opened.1.count ≡ 1)) }
        ensures pass { IfOk result (λ opened. opened.2 ≡ first_pass opened.0 (O.history object)) }
        ensures err { IfErr result (λ back. back ≡ object) }
    {
        let first = Snapshot::of(&object);
        let length = object.length();
        let Ok(mut slots) = Vec::with_capacity(alloc, 1) else {
            return Err(object);
        };
        slots.push_reserved(object);
        match Table::new(alloc, &[length, 0], slots, &first) {
            Ok((table, seat)) => Ok(Self::opened(table, seat)),
            Err(Refused { mut slots }) => {
                let object = slots.take_last();
                slots.destroy_empty();
                Err(object)
            }
        }
    }

    fn opened(table: HallTable<O>, mut seat: HallSeat<O>) -> (Hall<O>, Usher<O>, Pass<O>)
        requires sized { IsSized table.shared.table_id }
        requires table { seat.table_id ≡ table.shared.table_id }
        requires view { seat.me ≡ (first_view (O.origin table.shared.key.value) (O.history table.shared.key.value), []) }
        ensures origin { result.0.origin ≡ O.origin table.shared.key.value }
        ensures usher { IsUsherOf result.0 result.1 × (result.1.count ≡ 1) }
        ensures pass { result.2 ≡ first_pass result.0 (O.history table.shared.key.value) }
    {
        let usher = Usher {
            seat: split_seat(&table.shared, &mut seat),
            count: 1,
        };
        let hall = Hall {
            table,
            for_turn: Sleepers::new(),
            for_more: Sleepers::new(),
            acts: Acts::new(),
        };
        (hall, usher, Pass { seat, number: 0 })
    }

    /// Makes two passes of one. Both have its front and have heard of as much. The left has its
    /// number and its own places. The right has no own places, and its number is the usher's count,
    /// which then rises by one. The pass comes back only for want of memory.
    pub fn split(&self, usher: &mut Usher<O>, pass: Pass<O>) -> Result<(Pass<O>, Pass<O>), Pass<O>>
        requires hall { IsPassOf self.now pass × IsUsherOf self.now usher.old }
        requires number { (pass.number < usher.old.count) × (usher.old.count < 2 ^ 64 - 1) }
        ensures left { IfOk result (λ both. both.0 ≡ pass) }
        ensures right { IfOk result (λ both. both.1 ≡ right_pass pass usher.old.count) }
        ensures count { IfOk result (λ _. usher.new.count ≡ usher.old.count + 1) }
        ensures usher { IsUsherOf self.now usher.new }
        ensures err { IfErr result (λ back. (back ≡ pass) × (usher.new ≡ usher.old)) }
    {
        let (mut seat, number) = pass.into_parts();
        let other = split_seat(&self.table.shared, &mut seat);
        let right = Pass {
            seat: other,
            number: usher.count,
        };
        usher.count += 1;
        Ok((Pass { seat, number }, right))
    }

    /// Makes one pass of two. Of their fronts one begins with the other, and it is the front of the
    /// result, which has the left's number, the left's own places and then the right's, and the
    /// greater length of those that they had heard of. It takes no memory.
    pub fn meet(&self, left: Pass<O>, right: Pass<O>) -> Pass<O>
        requires { IsPassOf self.now left × IsPassOf self.now right }
        ensures hall { IsPassOf self.now result }
        ensures number { result.number ≡ left.number }
        ensures left { IsPrefix left.front result.front }
        ensures right { IsPrefix right.front result.front }
        ensures longer { (result.front ≡ left.front) ⊎ (result.front ≡ right.front) }
        ensures own { result.own ≡ left.own ++ right.own }
        ensures within { OwnsWithin result.front result.own }
        ensures heard { result.heard ≡ max left.heard right.heard }
    {
        let (mut seat, number) = left.into_parts();
        let (other, _) = right.into_parts();
        join_seats(&self.table.shared, &mut seat, other);
        Pass { seat, number }
    }

    /// Waits for its turn and runs the job once on the object. The turn finds a history that begins
    /// with the pass's front and is at least as long as what it had heard of. The front becomes
    /// that history with the job's entries behind it, whose places join the own places. It refuses
    /// nothing.
    pub fn act<R: Wait, J: Job<O>>(&self, rt: &R, pass: &mut Pass<O>, job: &mut J)
        requires { IsPassOf self.now pass.old }
        ensures hall { IsPassOf self.now pass.new }
        ensures number { pass.new.number ≡ pass.old.number }
        ensures front { IsPrefix pass.old.front pass.new.front }
        ensures turn { HasTurn (λ found left. J.ran self.now.origin job.old found job.new left)
            (J.entries job.old job.new) (known pass.old) (known pass.new) }
        ensures within { OwnsWithin pass.new.front pass.new.own }
    {
        self.act_so(rt, pass, job, true);
        wake_waiters(&self.table.shared, &self.for_more);
        self.acts.wake();
    }

    /// Does what `act` does, and wakes nobody: who waits for a longer history sleeps on until a turn
    /// of `act`, or finds the entries when it is awake. For jobs whose entries nobody waits for, so
    /// that they don't rouse every thread. The answer is for `wait_act`.
    pub fn act_quietly<R: Wait, J: Job<O>>(&self, rt: &R, pass: &mut Pass<O>, job: &mut J) -> u64
        requires { IsPassOf self.now pass.old }
        ensures hall { IsPassOf self.now pass.new }
        ensures number { pass.new.number ≡ pass.old.number }
        ensures front { IsPrefix pass.old.front pass.new.front }
        ensures turn { HasTurn (λ found left. J.ran self.now.origin job.old found job.new left)
            (J.entries job.old job.new) (known pass.old) (known pass.new) }
        ensures within { OwnsWithin pass.new.front pass.new.own }
    {
        self.act_so(rt, pass, job, false)
    }

    /// Waits until there was a turn of `act` behind the turn of `act_quietly` that gave this answer, or one that it didn't find.
    /// Quiet turns aren't waited for, whatever they enter.
    pub fn wait_act<R: Wait>(&self, rt: &R, seen: u64) {
        self.acts.wait(rt, seen);
    }

    // One turn, which wakes or is quiet.
    fn act_so<R: Wait, J: Job<O>>(
        &self,
        rt: &R,
        pass: &mut Pass<O>,
        job: &mut J,
        wakes: bool,
    ) -> u64
        requires { IsPassOf self.now pass.old }
        ensures hall { IsPassOf self.now pass.new }
        ensures number { pass.new.number ≡ pass.old.number }
        ensures front { IsPrefix pass.old.front pass.new.front }
        ensures turn { HasTurn (λ found left. J.ran self.now.origin job.old found job.new left)
            (J.entries job.old job.new) (known pass.old) (known pass.new) }
        ensures within { OwnsWithin pass.new.front pass.new.own }
    {
        turn(
            &self.table.shared,
            &self.for_turn,
            &self.acts,
            rt,
            &mut pass.seat,
            job,
            wakes,
        )
    }

    /// A length of the history, at least that of the pass's front and at least what it had heard
    /// of. The pass has then heard of it, so its next turn finds a history that is at least so
    /// long. It doesn't wait and takes no memory.
    pub fn progress(&self, pass: &mut Pass<O>) -> u64
        requires { IsPassOf self.now pass.old }
        ensures pass { pass.new ≡ hears pass.old result }
        ensures front { length pass.old.front ≤ result }
        ensures heard { pass.old.heard ≤ result }
    {
        load_made(&self.table.shared, &mut pass.seat)
    }

    /// Waits until the history is longer than the known length, and answers as `progress` does.
    pub fn wait_past<R: Wait>(&self, rt: &R, pass: &mut Pass<O>, known: u64) -> u64
        requires { IsPassOf self.now pass.old }
        ensures pass { pass.new ≡ hears pass.old result }
        ensures front { length pass.old.front ≤ result }
        ensures heard { pass.old.heard ≤ result }
        ensures past { known < result }
    {
        wait_made_past(
            &self.table.shared,
            &self.for_more,
            rt,
            &mut pass.seat,
            known,
        )
    }

    /// Waits for its turn and gives the object. Its history begins with the pass's front and is at
    /// least as long as what the pass had heard of. It takes no memory.
    pub fn close<R: Wait>(self, rt: &R, pass: Pass<O>) -> O
        requires { IsPassOf self pass }
        ensures origin { O.origin result ≡ self.origin }
        ensures front { IsPrefix pass.front (O.history result) }
        ensures heard { pass.heard ≤ length (O.history result) }
    {
        let (seat, _) = pass.into_parts();
        let Self {
            table,
            for_turn,
            for_more: _,
            acts: _,
        } = self;
        close_table(table, &for_turn, rt, seat)
    }
}
