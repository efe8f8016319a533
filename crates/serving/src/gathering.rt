//! Gathers the sessions that were started, and tells how they ended.
ghost use Rattle.std.specs.Prelude.{◌≡◌, ◌≤◌, ◌+◌, ℕ, false, All, length};
ghost use Rattle.std.specs.Arc.{arc_value};
ghost use mathlib.Core.List.{IsPrefix};
ghost use Rattle.line_io.specs.Counts.{CountRose};
ghost use Rattle.line_io.specs.Connections.{IsAtLeast};
ghost use Rattle.turn_lock.specs.Pass.{IsPassOf};
ghost use Rattle.serving.specs.Guests.{IsGuestOf, one_sitting, sitting_in};
ghost use Rattle.serving.specs.Fates.{GathersOne, HasGathered};

use crate::guests::{Guest, Word};
use crate::printing::print_line;
use crate::runs::SessionSource;
use crate::sittings::Sitting;
use line_io::{Door, Outlet, Sink, Spawner, Work};
use session::{Sat, Table};
use std::sync::{Arc, Wait};
use std::thread::Threads;
use turn_lock::{Hall, Pass};

/// Waits for the session of a connection, gives its ends back, and meets its passes.
pub(crate) fn gather_one<
    R: Threads + Wait + Sync + Drop,
    L: Door,
    P: Spawner<Sitting<R, L::In, L::Out>>,
>(
    hall: &Arc<Hall<Table>>,
    pass: Pass<Table>,
    guest: Guest<P::Task, L::In, L::Out>,
    door: &mut L,
    spawner: &mut P,
) -> (Pass<Table>, Word)
where
    L::In: SessionSource<L::Out> + Drop,
    L::Out: Outlet + Drop,
    requires pass { IsPassOf (arc_value hall.now) pass }
    requires guest { IsGuestOf P.work_of (arc_value hall.now) guest }
    requires away { IsAtLeast (one_sitting guest) (L.away door.old) }
    requires fit { P.fit spawner.old }
    ensures fit { P.fit spawner.new }
    ensures pass { IsPassOf (arc_value hall.now) result.0 }
    ensures number { result.0.number ≡ pass.number }
    ensures front { IsPrefix pass.front result.0.front }
    ensures gathers { GathersOne P.work_of ⟦<Sitting<R, L::In, L::Out> as Work>⟧.done
        guest result.1 pass result.0 (L.ended door.old) (L.ended door.new) }
    ensures coming { L.coming door.new ≡ L.coming door.old }
    ensures away { (k : ℕ) → IsAtLeast (one_sitting guest + k) (L.away door.old) → IsAtLeast k (L.away door.new) }
    ensures door_count { L.faults_of door.old ≤ L.faults_of door.new }
    ensures started { P.started spawner.new ≡ P.started spawner.old }
    ensures spawner_count { P.faults_of spawner.old ≤ P.faults_of spawner.new }
{
    match guest {
        Guest::Busy(_ends) => (pass, Word::Busy),
        Guest::Sits(task) => {
            let ((input, output), sat) = spawner.gather(task);
            door.give_back(input, output);
            let Sat {
                reader,
                writer,
                ended,
            } = sat;
            let pass = hall.meet(pass, reader);
            (hall.meet(pass, writer), Word::Ended(ended))
        }
    }
}

/// Gathers the sessions in order, and tells how each ended. Whether all was printed.
pub(crate) fn gather_all<
    R: Threads + Wait + Sync + Drop,
    O: Sink,
    L: Door,
    P: Spawner<Sitting<R, L::In, L::Out>>,
>(
    hall: &Arc<Hall<Table>>,
    mut pass: Pass<Table>,
    guests: Vec<Guest<P::Task, L::In, L::Out>>,
    out: &mut O,
    door: &mut L,
    spawner: &mut P,
) -> (Pass<Table>, bool)
where
    L::In: SessionSource<L::Out> + Drop,
    L::Out: Outlet + Drop,
    P::Task: Drop,
    requires pass { IsPassOf (arc_value hall.now) pass }
    requires guests { All (IsGuestOf P.work_of (arc_value hall.now)) guests.items }
    requires few { length guests.items ≤ 1024 }
    requires away { IsAtLeast (sitting_in guests.items) (L.away door.old) }
    requires fit { P.fit spawner.old }
    ensures fit { P.fit spawner.new }
    ensures pass { IsPassOf (arc_value hall.now) result.0 }
    ensures number { result.0.number ≡ pass.number }
    ensures front { IsPrefix pass.front result.0.front }
    ensures gathered { HasGathered P.work_of ⟦<Sitting<R, L::In, L::Out> as Work>⟧.done
        guests.items pass result.0 (L.ended door.old) (L.ended door.new) result.1 (O.written out.old) (O.written out.new) }
    ensures coming { L.coming door.new ≡ L.coming door.old }
    ensures door_count { L.faults_of door.old ≤ L.faults_of door.new }
    ensures started { P.started spawner.new ≡ P.started spawner.old }
    ensures spawner_count { P.faults_of spawner.old ≤ P.faults_of spawner.new }
    ensures out_count { O.faults_of out.old ≤ O.faults_of out.new }
    ensures out_fault { result.1 ≡ false → CountRose (O.faults_of out.old) (O.faults_of out.new) }
{
    let mut number = 0;
    let mut printed = true;
    for guest in guests {
        let (rest, word) = gather_one(hall, pass, guest, door, spawner);
        pass = rest;
        number += 1;
        printed = print_line(out, printed, number, word);
    }
    (pass, printed)
}
