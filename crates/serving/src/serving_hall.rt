//! Serves the connections of a door at one hall.
ghost use Rattle.std.specs.Prelude.{◌≡◌, ◌≤◌, ◌<◌, ◌+◌, ◌^◌};
ghost use Rattle.std.specs.Arc.{arc_value};
ghost use Rattle.line_io.specs.Counts.{CountRose};
ghost use Rattle.campaign_law.specs.Law.{IsOpening};
ghost use Rattle.serving.specs.Guests.{CanSplit, HasSplit};
ghost use Rattle.serving.specs.Outside.{as_told};
ghost use Rattle.serving.specs.Served.{Serves, served_by as served_by_lem};

use crate::admitting::admit_all;
use crate::gathering::gather_all;
use crate::guests::Stop;
use crate::runs::SessionSource;
use crate::sittings::Sitting;
use line_io::{Door, Outlet, Sink, Spawner, Work};
use session::Table;
use std::alloc::Global;
use std::sync::{Arc, Wait};
use std::thread::Threads;
use turn_lock::{Hall, Pass, Usher};

/// How serving a hall ended.
#[derive(Clone, Copy, Debug, PartialEq, Eq)]
pub enum Served {
    /// So many connections were taken, or all up to the door's end, and all lines were printed.
    Done,
    WriteFault,
    DoorFault,
    Memory,
}

/// Takes `count` connections, or all up to the door's end, runs a session at the hall for each, gathers
/// them, and prints for each, in order of arrival, its number and how it ended. For each connection it
/// splits two passes off its own, and those that come back are met with it. After a stop what was
/// started is still gathered and, unless a call of the output fails, printed. It enters nothing itself.
/// So where nobody else enters anything, what each session wrote is a front of its lines of the one history.
pub fn serve_hall<
    R: Threads + Wait + Sync + Clone + Drop,
    O: Sink,
    L: Door,
    P: Spawner<Sitting<R, L::In, L::Out>>,
>(
    rt: &R,
    alloc: Global,
    hall: &Arc<Hall<Table>>,
    usher: &mut Usher<Table>,
    pass: Pass<Table>,
    count: u32,
    out: &mut O,
    door: &mut L,
    spawner: &mut P,
) -> (Pass<Table>, Served)
where
    L::In: SessionSource<L::Out> + Drop,
    L::Out: Outlet + Drop,
    P::Task: Drop,
    requires count { (1 ≤ count) × (count ≤ 1024) }
    requires passes { CanSplit (arc_value hall.now) pass usher.old }
    requires room { usher.old.count < 2 ^ 63 }
    requires opening { IsOpening (arc_value hall.now).origin }
    requires fit { P.fit spawner.old }
    ensures split { HasSplit (arc_value hall.now) 2048 pass result.0 usher.old usher.new }
    ensures serves { Serves (arc_value hall.now) ⟦<Sitting<R, L::In, L::Out> as Work>⟧.done L.Out.written
        result.1 count pass result.0 usher.old.count usher.new.count
        (as_told (L.coming door.old) (L.ended door.old) (P.started spawner.old) (P.faults_of spawner.old)
        (O.written out.old) (O.faults_of out.old))
        (as_told (L.coming door.new) (L.ended door.new) (P.started spawner.new) (P.faults_of spawner.new)
        (O.written out.new) (O.faults_of out.new)) }
    ensures write_fault { result.1 ≡ Served.WriteFault → CountRose (O.faults_of out.old) (O.faults_of out.new) }
    ensures door_fault { result.1 ≡ Served.DoorFault → CountRose (L.faults_of door.old) (L.faults_of door.new) }
    ensures out_count { O.faults_of out.old ≤ O.faults_of out.new }
    ensures door_count { L.faults_of door.old ≤ L.faults_of door.new }
{
    let (pass, guests, stop) = admit_all(rt, alloc, hall, usher, pass, count, door, spawner);
    let (pass, printed) = gather_all(hall, pass, guests, out, door, spawner);
    (pass, served_by(stop, printed))
}

fn served_by(stop: Stop, printed: bool) -> Served
    ensures { result ≡ served_by_lem stop printed }
{
    match stop {
        Stop::Full | Stop::End => {
            if printed {
                Served::Done
            } else {
                Served::WriteFault
            }
        }
        Stop::DoorFault => Served::DoorFault,
        Stop::Memory => Served::Memory,
    }
}
