//! Serves the connections of a door beside a log.
ghost use Rattle.std.specs.Prelude.{◌≡◌, ◌≤◌, ◌⊎◌, true, length, take, IfSome};
ghost use Rattle.std.specs.Arc.{arc_value};
ghost use mathlib.Core.List.{IsPrefix};
ghost use Rattle.line_io.specs.Counts.{CountRose};
ghost use Rattle.turn_lock.specs.Pass.{IsPassOf};
ghost use Rattle.campaign_law.specs.Law.{IsOpening};
ghost use Rattle.crash_log.specs.Log.{HoldsLog};
ghost use Rattle.log_serving.specs.Evening.{EndsEvening, IsReady, ServesEvening, ServesNobody};

use crate::answers::{LogServed, as_served, ended_by};
use crate::evening::{Evening, LogHall, open_evening};
use crash_log::{Disk, Journal};
use evening_log::{Keeper, LoggedDoor, LoggedSink, close_shared, settle};
use line_io::{Door, Sink, Spawner, Work};
use names::LineText;
use serving::{Served, SessionSource, Sitting, dump_now, print_text, serve_hall};
use session::Table;
use std::alloc::Global;
use std::sync::{Arc, Wait};
use std::thread::Threads;
use turn_lock::{Hall, Pass};

/// A session's output that waits for the log.
pub(crate) type LoggedOut<S, K> = LoggedSink<S, Table, K>;

/// Opens a hall for the campaign and the door at the port, and serves `count` connections, or all up to the door's end, as
/// `serve_hall` does, with a log on this disk beside it. The log has the campaign's text and the first `recovered` entries of its
/// history. A session's output takes no byte that tells of an entry before the log has it. When all sessions are over, the log gets
/// what it still lacks. With `end`, and where all was done, the campaign's text and LF are printed: it is the one to which the log
/// comes. The disk comes back.
pub fn serve_logged<
    R: Threads + Wait + Sync + Clone + Drop,
    O: Sink,
    L: Door,
    K: Disk + Drop,
    P: Spawner<Sitting<R, L::In, LoggedOut<L::Out, K>>>,
>(
    rt: &R,
    alloc: Global,
    campaign: Table,
    recovered: u64,
    text: LineText,
    disk: K,
    journal: Journal,
    port: u16,
    count: u32,
    end: bool,
    out: &mut O,
    mut door: L,
    spawner: &mut P,
) -> (LogServed, L, K)
where
    L::In: SessionSource<LoggedOut<L::Out, K>> + Drop,
    L::Out: Drop,
    P::Task: Drop,
    requires opening { IsOpening campaign.origin }
    requires recovered { recovered ≤ length campaign.history }
    requires holds { K.tells → HoldsLog K.seen K.may_leave disk journal text (take recovered campaign.history) }
    requires count { (1 ≤ count) × (count ≤ 1024) }
    requires fit { P.fit spawner.old }
    ensures evening { ServesNobody K.tells K.left_since result.0 text recovered campaign.history
        (O.written out.old) (O.written out.new) (K.moment disk) result.2
        ⊎ ServesEvening ⟦<Sitting<R, L::In, LoggedOut<L::Out, K>> as Work>⟧.done (λ output. L.Out.written output.inner)
        K.tells K.may_leave K.left_since result.0 text recovered count end campaign.origin campaign.history
        (O.written out.old) (O.written out.new) (K.moment disk) result.2 }
    ensures write_fault { result.0 ≡ LogServed.WriteFault → CountRose (O.faults_of out.old) (O.faults_of out.new) }
    ensures out_count { O.faults_of out.old ≤ O.faults_of out.new }
{
    let evening = match open_evening(rt, alloc, campaign, recovered, text, disk, journal) {
        Ok(evening) => evening,
        Err(disk) => return (LogServed::Memory, door, disk),
    };
    if door.open(port).is_err() {
        let Evening {
            hall,
            usher: _,
            pass,
            log,
            log_usher: _,
            log_pass,
            for_door: _,
        } = evening;
        let (_, disk) = close_shared(rt, log, log_pass, 0, &hall, pass);
        return (LogServed::DoorFault, door, disk);
    }
    serve_evening(rt, alloc, evening, count, end, out, door, spawner)
}

// Serves the hall by a door whose outputs wait for the log.
fn serve_evening<
    R: Threads + Wait + Sync + Clone + Drop,
    O: Sink,
    L: Door,
    K: Disk + Drop,
    P: Spawner<Sitting<R, L::In, LoggedOut<L::Out, K>>>,
>(
    rt: &R,
    alloc: Global,
    evening: Evening<K>,
    count: u32,
    end: bool,
    out: &mut O,
    door: L,
    spawner: &mut P,
) -> (LogServed, L, K)
where
    L::In: SessionSource<LoggedOut<L::Out, K>> + Drop,
    L::Out: Drop,
    P::Task: Drop,
    requires ready { IsReady (arc_value evening.hall) evening.usher evening.pass (arc_value evening.log) evening.log_usher
        evening.log_pass evening.for_door }
    requires opening { IsOpening (arc_value evening.hall).origin }
    requires count { (1 ≤ count) × (count ≤ 1024) }
    requires fit { P.fit spawner.old }
    ensures evening { ServesNobody K.tells K.left_since result.0 (arc_value evening.log).origin.text (arc_value evening.log).origin.recovered
        evening.pass.front (O.written out.old) (O.written out.new) (arc_value evening.log).origin.start result.2
        ⊎ ServesEvening ⟦<Sitting<R, L::In, LoggedOut<L::Out, K>> as Work>⟧.done (λ output. L.Out.written output.inner)
        K.tells K.may_leave K.left_since result.0 (arc_value evening.log).origin.text (arc_value evening.log).origin.recovered count end
        (arc_value evening.hall).origin evening.pass.front (O.written out.old) (O.written out.new)
        (arc_value evening.log).origin.start result.2 }
    ensures write_fault { result.0 ≡ LogServed.WriteFault → CountRose (O.faults_of out.old) (O.faults_of out.new) }
    ensures out_count { O.faults_of out.old ≤ O.faults_of out.new }
{
    let Evening {
        hall,
        mut usher,
        pass,
        log,
        log_usher,
        mut log_pass,
        for_door,
    } = evening;
    let Some((own_rt, shared)) = shared(rt, &log) else {
        let (_, disk) = close_shared(rt, log, log_pass, 0, &hall, pass);
        return (LogServed::Memory, door, disk);
    };
    let mut logged_door = LoggedDoor::new(own_rt, alloc, door, shared, log_usher, for_door);
    let (mut pass, served) = serve_hall(
        rt,
        alloc,
        &hall,
        &mut usher,
        pass,
        count,
        out,
        &mut logged_door,
        spawner,
    );
    let (door, heard) = logged_door.finish();
    let ended = finish(rt, &hall, &mut pass, &log, &mut log_pass, end, served, out);
    let (_, disk) = close_shared(rt, log, log_pass, heard, &hall, pass);
    (ended, door, disk)
}

// What is left to do when all sessions are over: the log gets what it lacks, and with `end` the campaign's text is printed.
fn finish<R: Wait, O: Sink, K: Disk + Drop>(
    rt: &R,
    hall: &Hall<Table>,
    pass: &mut Pass<Table>,
    log: &LogHall<K>,
    log_pass: &mut Pass<Keeper<Table, K>>,
    end: bool,
    served: Served,
    out: &mut O,
) -> LogServed
    requires pass { IsPassOf hall.now pass.old }
    requires log { IsPassOf log.now log_pass.old }
    ensures pass { IsPassOf hall.now pass.new }
    ensures front { IsPrefix pass.old.front pass.new.front }
    ensures log { IsPassOf log.now log_pass.new }
    ensures heard { log_pass.old.heard ≤ log_pass.new.heard }
    ensures ends { EndsEvening end served result hall.now.origin pass.old (O.written out.old) (O.written out.new) }
    ensures write_fault { result ≡ LogServed.WriteFault
        → (served ≡ Served.WriteFault) ⊎ CountRose (O.faults_of out.old) (O.faults_of out.new) }
    ensures out_count { O.faults_of out.old ≤ O.faults_of out.new }
{
    if end && served == Served::Done {
        return print_settled(rt, hall, pass, log, log_pass, out);
    }
    let length = hall.progress(pass);
    ended_by(served, settle(rt, log, log_pass, length))
}

// The runtime and the log's hall for the door.
fn shared<R: Clone + Drop, K: Disk + Drop>(
    rt: &R,
    log: &Arc<LogHall<K>>,
) -> Option<(R, Arc<LogHall<K>>)>
    ensures { IfSome result (λ both. arc_value both.1 ≡ arc_value log.now) }
{
    let rt: Result<_, _> = rt.clone();
    Some((rt.ok()?, Arc::try_clone(log).ok()?))
}

// The log gets what it lacks, and then the campaign's text is printed, as one more turn found it.
fn print_settled<R: Wait, O: Sink, K: Disk + Drop>(
    rt: &R,
    hall: &Hall<Table>,
    pass: &mut Pass<Table>,
    log: &LogHall<K>,
    log_pass: &mut Pass<Keeper<Table, K>>,
    out: &mut O,
) -> LogServed
    requires pass { IsPassOf hall.now pass.old }
    requires log { IsPassOf log.now log_pass.old }
    ensures pass { IsPassOf hall.now pass.new }
    ensures front { IsPrefix pass.old.front pass.new.front }
    ensures log { IsPassOf log.now log_pass.new }
    ensures heard { log_pass.old.heard ≤ log_pass.new.heard }
    ensures ends { EndsEvening true Served.Done result hall.now.origin pass.old (O.written out.old) (O.written out.new) }
    ensures write_fault { result ≡ LogServed.WriteFault → CountRose (O.faults_of out.old) (O.faults_of out.new) }
    ensures out_count { O.faults_of out.old ≤ O.faults_of out.new }
{
    let dump = dump_now(rt, hall, pass);
    let length = hall.progress(pass);
    match settle(rt, log, log_pass, length) {
        Ok(()) => match dump {
            Ok(dump) => as_served(print_text(&dump.text, out)),
            Err(_) => LogServed::Memory,
        },
        Err(fault) => ended_by(Served::Done, Err(fault)),
    }
}
