//! Sessions over memory by threads, side by side. What is sent over connections is tested by `examples/test_serve.py`.
ghost use Rattle.std.specs.Prelude.{◌≡◌, ◌<◌, ◌+◌, IfOk};
ghost use Rattle.turn_lock.specs.Pass.{IsPassOf, IsUsherOf};
ghost use Rattle.campaign_law.specs.Law.{IsOpening};

mod cut_off;
mod side_by_side;

use crate::Table;
use crate::pace::Pace;
use campaign_core::Campaign;
use sight_sweep::SweepEye;
use std::alloc::Global;
use std::test::Fail;
use turn_lock::{Hall, Pass, Usher};

// The game master and two players, with the keys g, a and b.
const THREE_SEATS: &[u8] =
    br#"{"format":1,"lights":{},"maps":[],"seats":[{"drawn":0,"fog":{},"key":"g","macros":{},"seed":"0000000000000000000000000000000000000000000000000000000000000000","tags":[]},{"drawn":0,"fog":{},"key":"a","macros":{},"seed":"0000000000000000000000000000000000000000000000000000000000000000","tags":[]},{"drawn":0,"fog":{},"key":"b","macros":{},"seed":"0000000000000000000000000000000000000000000000000000000000000000","tags":[]}],"sights":{},"tokens":[]}"#;

fn opened(alloc: Global, text: &[u8]) -> Result<Table, Fail>
    ensures { IfOk result (λ table. IsOpening table.origin) }
{
    match Campaign::open(alloc, text, SweepEye::new(alloc)) {
        Ok(table) => Ok(table),
        Err(_) => Err(Fail::from("no campaign")),
    }
}

// A hall over these seats, its usher and its first pass.
fn opened_hall(alloc: Global) -> Result<(Hall<Table>, Usher<Table>, Pass<Table>), Fail>
    ensures opening { IfOk result (λ made. IsOpening made.0.origin) }
    ensures usher { IfOk result (λ made. IsUsherOf made.0 made.1 × (made.1.count ≡ 1)) }
    ensures pass { IfOk result (λ made. IsPassOf made.0 made.2 × (made.2.number ≡ 0)) }
{
    match Hall::open(alloc, opened(alloc, THREE_SEATS)?) {
        Ok(made) => Ok(made),
        Err(_) => Err(Fail::from("memory")),
    }
}

// Two passes of one.
fn two_of(
    hall: &Hall<Table>,
    usher: &mut Usher<Table>,
    pass: Pass<Table>,
) -> Result<(Pass<Table>, Pass<Table>), Fail>
    requires hall { IsPassOf hall.now pass × IsUsherOf hall.now usher.old }
    requires number { (pass.number < usher.old.count) × (usher.old.count < 9) }
    ensures left { IfOk result (λ both. IsPassOf hall.now both.0 × (both.0.number ≡ pass.number)) }
    ensures right { IfOk result (λ both. IsPassOf hall.now both.1) }
    ensures usher { IfOk result (λ _. IsUsherOf hall.now usher.new × (usher.new.count ≡ usher.old.count + 1)) }
{
    match hall.split(usher, pass) {
        Ok(both) => Ok(both),
        Err(_) => Err(Fail::from("memory")),
    }
}

#[test]
fn a_half_without_a_thread_is_not_waited_for(rt: HostRuntime) -> Result<(), Fail> {
    let pace = Pace::new(2);
    pace.wait(&rt);
    pace.entered(3, 100_000);
    pace.wait(&rt);
    Ok(())
}
