//! Takes connections.
ghost use Rattle.std.specs.Prelude.{◌≡◌, ◌≤◌, ◌<◌, ◌+◌, ◌-◌, ◌^◌, IfOk, IfErr, IfSome};
ghost use Rattle.std.specs.Arc.{arc_value};
ghost use Rattle.line_io.specs.Counts.{CountRose};
ghost use Rattle.turn_lock.specs.Pass.{IsPassOf};
ghost use Rattle.campaign_law.specs.Law.{IsOpening};
ghost use Rattle.serving.specs.Alone.{AreNewPasses};
ghost use Rattle.serving.specs.Guests.{CanSplit, HasSplit, GotNewPasses, AdmitsByNewPasses, Admits, Takes, Seats};

use crate::guests::{Admission, Guest, Stop};
use crate::runs::SessionSource;
use crate::sittings::Sitting;
use line_io::{Door, Outlet, Source, Spawner};
use session::Table;
use std::alloc::Global;
use std::snapshot::Snapshot;
use std::sync::{Arc, Wait};
use std::thread::Threads;
use turn_lock::{Hall, Pass, Usher};

/// Splits two passes off one. It comes back where there is no memory for both.
pub(crate) fn split_two(
    hall: &Hall<Table>,
    usher: &mut Usher<Table>,
    pass: Pass<Table>,
) -> Result<(Pass<Table>, Pass<Table>, Pass<Table>), Pass<Table>>
    requires can { CanSplit hall.now pass usher.old }
    requires room { usher.old.count < 2 ^ 64 - 2 }
    ensures split { IfOk result (λ three. HasSplit hall.now 2 pass three.0 usher.old usher.new) }
    ensures halves { IfOk result (λ three. IsPassOf hall.now three.1 × IsPassOf hall.now three.2) }
    ensures new { IfOk result (λ three. AreNewPasses usher.old.count three.1 three.2 × (three.2.number < usher.new.count)) }
    ensures own { IfOk result (λ three. three.0.own ≡ pass.own) }
    ensures err { IfErr result (λ back. HasSplit hall.now 2 pass back usher.old usher.new × (back.own ≡ pass.own)) }
{
    let (pass, reader) = hall.split(usher, pass)?;
    match hall.split(usher, pass) {
        Ok((pass, writer)) => Ok((pass, reader, writer)),
        Err(pass) => Err(hall.meet(pass, reader)),
    }
}

/// Takes the next connection and starts its session.
pub(crate) fn admit<
    R: Threads + Wait + Sync + Clone + Drop,
    L: Door,
    P: Spawner<Sitting<R, L::In, L::Out>>,
>(
    rt: &R,
    alloc: Global,
    hall: &Arc<Hall<Table>>,
    usher: &mut Usher<Table>,
    pass: Pass<Table>,
    door: &mut L,
    spawner: &mut P,
) -> (Pass<Table>, Admission<P::Task, L::In, L::Out>)
where
    L::In: SessionSource<L::Out> + Drop,
    L::Out: Outlet + Drop,
    requires can { CanSplit (arc_value hall.now) pass usher.old }
    requires room { usher.old.count < 2 ^ 64 - 2 }
    requires opening { IsOpening (arc_value hall.now).origin }
    requires fit { P.fit spawner.old }
    ensures fit { P.fit spawner.new }
    ensures split { HasSplit (arc_value hall.now) 2 pass result.0 usher.old usher.new }
    ensures own { result.0.own ≡ pass.own }
    ensures new { AdmitsByNewPasses P.work_of usher.old.count result.1 usher.new.count }
    ensures admits { Admits P.work_of (arc_value hall.now) result.1 (L.coming door.old) (L.coming door.new) (L.away door.old)
        (L.away door.new)
        (P.started spawner.old) (P.started spawner.new) (P.faults_of spawner.old) (P.faults_of spawner.new) }
    ensures ended { L.ended door.new ≡ L.ended door.old }
    ensures door_count { L.faults_of door.old ≤ L.faults_of door.new }
    ensures door_fault { result.1 ≡ Admission.Stopped Stop.DoorFault → CountRose (L.faults_of door.old) (L.faults_of door.new) }
{
    match door.next() {
        Ok(Some(ends)) => seat(rt, alloc, hall, usher, pass, ends, spawner),
        Ok(None) => (pass, Admission::Stopped(Stop::End)),
        Err(_) => (pass, Admission::Stopped(Stop::DoorFault)),
    }
}

/// Takes so many connections, or all up to the door's end, and starts their sessions. Each splits two
/// passes off.
pub(crate) fn admit_all<
    R: Threads + Wait + Sync + Clone + Drop,
    L: Door,
    P: Spawner<Sitting<R, L::In, L::Out>>,
>(
    rt: &R,
    alloc: Global,
    hall: &Arc<Hall<Table>>,
    usher: &mut Usher<Table>,
    mut pass: Pass<Table>,
    count: u32,
    door: &mut L,
    spawner: &mut P,
) -> (Pass<Table>, Vec<Guest<P::Task, L::In, L::Out>>, Stop)
where
    L::In: SessionSource<L::Out> + Drop,
    L::Out: Outlet + Drop,
    requires can { CanSplit (arc_value hall.now) pass usher.old }
    requires room { (usher.old.count < 2 ^ 63) × (count ≤ 1024) }
    requires opening { IsOpening (arc_value hall.now).origin }
    requires fit { P.fit spawner.old }
    ensures fit { P.fit spawner.new }
    ensures split { HasSplit (arc_value hall.now) 2048 pass result.0 usher.old usher.new }
    ensures own { result.0.own ≡ pass.own }
    ensures new { GotNewPasses P.work_of usher.old.count result.1.items usher.new.count }
    ensures takes { Takes P.work_of (arc_value hall.now) result.2 count result.1.items (L.coming door.old) (L.coming door.new)
        (L.away door.old) (L.away door.new)
        (P.started spawner.old) (P.started spawner.new) (P.faults_of spawner.old) (P.faults_of spawner.new) }
    ensures ended { L.ended door.new ≡ L.ended door.old }
    ensures door_count { L.faults_of door.old ≤ L.faults_of door.new }
    ensures door_fault { result.2 ≡ Stop.DoorFault → CountRose (L.faults_of door.old) (L.faults_of door.new) }
{
    let Ok(mut guests) = Vec::with_capacity(alloc, count as usize) else {
        return (pass, Vec::new(alloc), Stop::Memory);
    };
    for _ in 0..count {
        let (rest, admission) = admit(rt, alloc, hall, usher, pass, door, spawner);
        pass = rest;
        match admission {
            Admission::Taken(guest) => guests.push_reserved(guest),
            Admission::Stopped(stop) => return (pass, guests, stop),
        }
    }
    (pass, guests, Stop::Full)
}

// Starts a session for the ends of a connection.
fn seat<
    R: Threads + Wait + Sync + Clone + Drop,
    I: SessionSource<O> + Drop,
    O: Outlet + Drop,
    P: Spawner<Sitting<R, I, O>>,
>(
    rt: &R,
    alloc: Global,
    hall: &Arc<Hall<Table>>,
    usher: &mut Usher<Table>,
    pass: Pass<Table>,
    ends: (I, O),
    spawner: &mut P,
) -> (Pass<Table>, Admission<P::Task, I, O>)
    requires can { CanSplit (arc_value hall.now) pass usher.old }
    requires room { usher.old.count < 2 ^ 64 - 2 }
    requires opening { IsOpening (arc_value hall.now).origin }
    requires fit { P.fit spawner.old }
    ensures fit { P.fit spawner.new }
    ensures split { HasSplit (arc_value hall.now) 2 pass result.0 usher.old usher.new }
    ensures own { result.0.own ≡ pass.own }
    ensures new { AdmitsByNewPasses P.work_of usher.old.count result.1 usher.new.count }
    ensures seats { Seats P.work_of (arc_value hall.now) ends result.1 (P.started spawner.old) (P.started spawner.new)
        (P.faults_of spawner.old) (P.faults_of spawner.new) }
{
    let Some((rt, shared)) = shared(rt, hall) else {
        return (pass, Admission::Stopped(Stop::Memory));
    };
    let (pass, reader, writer) = match split_two(hall, usher, pass) {
        Ok(three) => three,
        Err(pass) => return (pass, Admission::Stopped(Stop::Memory)),
    };
    let kept = Snapshot::of(&ends);
    let (input, output) = ends;
    let sitting = Sitting {
        rt,
        alloc,
        hall: shared,
        reader,
        writer,
        input,
        output,
    };
    match spawner.start(sitting) {
        Ok(task) => (pass, Admission::Taken(Guest::Sits(task))),
        Err(_) => (pass, Admission::Taken(Guest::Busy(kept))),
    }
}

// The runtime and the hall for another thread.
fn shared<R: Clone + Drop>(rt: &R, hall: &Arc<Hall<Table>>) -> Option<(R, Arc<Hall<Table>>)>
    ensures { IfSome result (λ both. arc_value both.1 ≡ arc_value hall.now) }
{
    let rt: Result<_, _> = rt.clone();
    Some((rt.ok()?, Arc::try_clone(hall).ok()?))
}
