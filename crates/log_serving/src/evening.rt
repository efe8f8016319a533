//! A hall with a log beside it.
ghost use Rattle.std.specs.Prelude.{◌≡◌, ◌≤◌, length, take, IfOk, IfErr, IfSome};
ghost use Rattle.std.specs.Arc.{arc_value};
ghost use Rattle.turn_lock.specs.Pass.{IsPassOf, IsUsherOf, first_pass};
ghost use Rattle.crash_log.specs.Log.{HoldsLog};
ghost use Rattle.log_serving.specs.Evening.{HasStayed, IsBegun, IsReady};

use crash_log::{Disk, Journal};
use evening_log::{Keeper, close};
use names::LineText;
use session::Table;
use std::alloc::Global;
use std::sync::{Arc, Wait};
use turn_lock::{Hall, Pass, Usher};

/// The hall of a log's keeper.
pub(crate) type LogHall<K> = Hall<Keeper<Table, K>>;

/// A campaign's hall, and beside it the hall of its log's keeper.
pub(crate) struct Evening<K: Disk + Drop> {
    pub(crate) hall: Arc<Hall<Table>>,
    pub(crate) usher: Usher<Table>,
    pub(crate) pass: Pass<Table>,
    pub(crate) log: Arc<LogHall<K>>,
    pub(crate) log_usher: Usher<Keeper<Table, K>>,
    pub(crate) log_pass: Pass<Keeper<Table, K>>,
    // The log's pass for the door.
    pub(crate) for_door: Pass<Keeper<Table, K>>,
}

/// Opens a hall for the campaign, and one for the keeper of its log, which has the first `recovered` entries. The disk comes back for
/// want of memory.
pub(crate) fn open_evening<R: Wait, K: Disk + Drop>(
    rt: &R,
    alloc: Global,
    campaign: Table,
    recovered: u64,
    text: LineText,
    disk: K,
    journal: Journal,
) -> Result<Evening<K>, K>
    requires recovered { recovered ≤ length campaign.history }
    requires holds { K.tells → HoldsLog K.seen K.may_leave disk journal text (take recovered campaign.history) }
    ensures ready { IfOk result (λ e. IsReady (arc_value e.hall) e.usher e.pass (arc_value e.log) e.log_usher e.log_pass e.for_door) }
    ensures begun { IfOk result (λ e. IsBegun K.tells K.moment recovered text disk (arc_value e.log).origin) }
    ensures campaign { IfOk result (λ e. ((arc_value e.hall).origin ≡ campaign.origin) × (e.pass.front ≡ campaign.history)) }
    ensures back { K.tells → IfErr result (HasStayed K.left_since text recovered campaign.history (K.moment disk)) }
{
    let Some((hall, usher, pass)) = shared_hall(alloc, campaign) else {
        return Err(disk);
    };
    with_keeper(rt, alloc, hall, usher, pass, recovered, text, disk, journal)
}

// A hall for the campaign, with its usher and its first pass. `None` is want of memory.
fn shared_hall(
    alloc: Global,
    campaign: Table,
) -> Option<(Arc<Hall<Table>>, Usher<Table>, Pass<Table>)>
    ensures origin { IfSome result (λ opened. (arc_value opened.0).origin ≡ campaign.origin) }
    ensures usher { IfSome result (λ opened. IsUsherOf (arc_value opened.0) opened.1 × (opened.1.count ≡ 1)) }
    ensures pass { IfSome result (λ opened. opened.2 ≡ first_pass (arc_value opened.0) campaign.history) }
{
    let Ok((hall, usher, pass)) = Hall::open(alloc, campaign) else {
        return None;
    };
    match Arc::new(alloc, hall) {
        Ok(hall) => Some((hall, usher, pass)),
        Err(_) => None,
    }
}

// Opens the keeper's hall beside this one.
fn with_keeper<R: Wait, K: Disk + Drop>(
    rt: &R,
    alloc: Global,
    hall: Arc<Hall<Table>>,
    mut usher: Usher<Table>,
    pass: Pass<Table>,
    recovered: u64,
    text: LineText,
    disk: K,
    journal: Journal,
) -> Result<Evening<K>, K>
    requires usher { IsUsherOf (arc_value hall) usher × (usher.count ≡ 1) }
    requires pass { IsPassOf (arc_value hall) pass × (pass.number ≡ 0) }
    requires recovered { recovered ≤ length pass.front }
    requires holds { K.tells → HoldsLog K.seen K.may_leave disk journal text (take recovered pass.front) }
    ensures ready { IfOk result (λ e. IsReady (arc_value e.hall) e.usher e.pass (arc_value e.log) e.log_usher e.log_pass e.for_door) }
    ensures begun { IfOk result (λ e. IsBegun K.tells K.moment recovered text disk (arc_value e.log).origin) }
    ensures campaign { IfOk result (λ e. ((arc_value e.hall).origin ≡ (arc_value hall).origin) × (e.pass.front ≡ pass.front)) }
    ensures back { K.tells → IfErr result (HasStayed K.left_since text recovered pass.front (K.moment disk)) }
{
    let Ok(shared) = Arc::try_clone(&hall) else {
        return Err(disk);
    };
    let Ok((pass, reading)) = hall.split(&mut usher, pass) else {
        return Err(disk);
    };
    let keeper = Keeper::new(alloc, shared, reading, disk, journal, text, recovered);
    let (log, mut log_usher, log_pass) = match Hall::open(alloc, keeper) {
        Ok(opened) => opened,
        Err(keeper) => return Err(keeper.into_disk()),
    };
    let (log_pass, for_door) = match log.split(&mut log_usher, log_pass) {
        Ok(both) => both,
        Err(log_pass) => return Err(close(rt, log, log_pass, &hall, pass).1),
    };
    match Arc::new(alloc, log) {
        Ok(log) => Ok(Evening {
            hall,
            usher,
            pass,
            log,
            log_usher,
            log_pass,
            for_door,
        }),
        Err(failed) => Err(close(rt, failed.value, log_pass, &hall, pass).1),
    }
}
