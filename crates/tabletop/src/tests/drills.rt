//! A drill that is played with two eyes.
ghost use Rattle.std.specs.Prelude.{◌≡◌};

use crate::drilling::summary_of;
use sight_sweep::SweepEye;
use std::alloc::Global;
use topology::{Eye, PlainEye};

// How many pairs of a wall and a cell the eye compared in a drill; none for want of memory.
fn tested<E: Eye + Drop>(alloc: Global, eye: E) -> u64
    requires { E.looks_made eye ≡ 0 }
{
    match summary_of(alloc, 7, 25, eye) {
        Ok(summary) => summary.tested,
        Err(_) => 0,
    }
}

#[test]
fn the_sweep_compares_less_than_half_of_the_pairs(rt: HostRuntime) {
    let plain = tested(rt.alloc(), PlainEye::new());
    let swept = tested(rt.alloc(), SweepEye::new(rt.alloc()));
    assert!(rt; 0 < swept && swept < plain / 2, "{swept} of {plain}");
}
