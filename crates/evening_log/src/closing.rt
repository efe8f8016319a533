//! The end of a log.
ghost use Rattle.std.specs.Prelude.{◌≡◌, ◌≤◌, List, ℕ, max};
ghost use Rattle.std.specs.Arc.{arc_value};
ghost use mathlib.Core.List.{IsPrefix};
ghost use Rattle.turn_lock.specs.Pass.{IsPassOf};
ghost use Rattle.evening_log.specs.Keeping.{LeavesPart};

use crate::chronicle::Chronicle;
use crate::keeper::Keeper;
use crash_log::Disk;
use std::sync::{Arc, Wait};
use turn_lock::{Hall, Pass};

/// Waits for the log's last turn and gives its disk. The main pass takes in what the log knows of the hall's history.
pub fn close<O: Chronicle + Drop, K: Disk, R: Wait>(
    rt: &R,
    log: Hall<Keeper<O, K>>,
    pass: Pass<Keeper<O, K>>,
    hall: &Hall<O>,
    main: Pass<O>,
) -> (Pass<O>, K)
    requires log { IsPassOf log pass }
    requires hall { log.origin.hall ≡ hall.now }
    requires main { IsPassOf hall.now main }
    ensures hall { IsPassOf hall.now result.0 }
    ensures main { IsPrefix main.front result.0.front }
    ensures front { IsPrefix pass.front result.0.front }
    ensures now { K.tells → (c : List ℕ) → K.may_leave result.1 c → LeavesPart log.origin.text pass.heard result.0.front c }
    ensures since { K.tells → (c : List ℕ) → K.left_since result.1 log.origin.start c
        → LeavesPart log.origin.text log.origin.recovered result.0.front c }
{
    let keeper = log.close(rt, pass);
    let (kept, disk) = keeper.into_parts();
    (hall.meet(main, kept), disk)
}

/// Waits until the log has so many entries, and hears of them. It has them already where another pass had heard of so many.
pub fn catch_up<O: Chronicle + Drop, K: Disk, R: Wait>(
    rt: &R,
    log: &Hall<Keeper<O, K>>,
    pass: &mut Pass<Keeper<O, K>>,
    length: u64,
)
    requires { IsPassOf log.now pass.old }
    ensures hall { IsPassOf log.now pass.new }
    ensures number { pass.new.number ≡ pass.old.number }
    ensures front { pass.new.front ≡ pass.old.front }
    ensures heard { length ≤ pass.new.heard }
    ensures kept { pass.old.heard ≤ pass.new.heard }
{
    if length > 0 {
        log.wait_past(rt, pass, length - 1);
    }
}

/// The log's end where its hall was shared: waits until nobody else has it and until the log has `heard` entries, as outputs heard,
/// and then ends it as `close` does.
pub fn close_shared<O: Chronicle + Drop, K: Disk, R: Wait>(
    rt: &R,
    log: Arc<Hall<Keeper<O, K>>>,
    pass: Pass<Keeper<O, K>>,
    heard: u64,
    hall: &Hall<O>,
    main: Pass<O>,
) -> (Pass<O>, K)
    requires log { IsPassOf (arc_value log) pass }
    requires hall { (arc_value log).origin.hall ≡ hall.now }
    requires main { IsPassOf hall.now main }
    ensures hall { IsPassOf hall.now result.0 }
    ensures main { IsPrefix main.front result.0.front }
    ensures front { IsPrefix pass.front result.0.front }
    ensures now { K.tells → (c : List ℕ) → K.may_leave result.1 c
        → LeavesPart (arc_value log).origin.text (max pass.heard heard) result.0.front c }
    ensures since { K.tells → (c : List ℕ) → K.left_since result.1 (arc_value log).origin.start c
        → LeavesPart (arc_value log).origin.text (arc_value log).origin.recovered result.0.front c }
{
    let mut pass = pass;
    catch_up(rt, &log, &mut pass, heard);
    close(rt, sole(rt, log), pass, hall, main)
}

// Waits until nobody else has the value, and takes it out.
fn sole<T, R: Wait>(rt: &R, shared: Arc<T>) -> T
    ensures { result ≡ arc_value shared }
{
    let mut shared = shared;
    for _ in rt.forever() {
        match Arc::try_unwrap(shared) {
            Ok(value) => return value,
            Err(back) => shared = back,
        }
    }
    unreachable!()
}
