ghost use Rattle.std.specs.Prelude.{◌≡◌, ◌+◌, ◌-◌, ◌*◌, ◌^◌, ◌<◌, ◌≤◌, not, min, false, IsOk, OnOk, OnErr};
ghost use Rattle.std.specs.List.{list_all};
ghost use Rattle.lattice.specs.Turning.{meet_test};
ghost use Rattle.cells.specs.Cells.{cells_where};
ghost use Rattle.topology.specs.WallLists.{IsOnMap, walls_of};
ghost use Rattle.topology.specs.Sight.{IsField, clear_test, field_of, field_test};

use crate::{Eye, Wall, Walls};
use cells::{Cell, CellSet};
use lattice::{Point, meets};
use names::{Memory, WallKind};
use std::marker::Model;

/// How far an eye sees, in cells.
const REACH: u16 = 40;

/// An eye that tries every wall for every cell within reach. It takes no memory.
#[derive(Drop)]
pub struct PlainEye {
    looks: u64,
    tested: u64,
}

impl Model for PlainEye {
    ghost use Rattle.std.specs.Prelude.{ℕ};

    ghost Value = { ℕ };

    ghost view = { λ e. e.looks };
}

impl PlainEye {
    /// An eye that made no look.
    pub fn new() -> PlainEye
        ensures { result ≡ 0 }
    {
        PlainEye {
            looks: 0,
            tested: 0,
        }
    }
}

impl Eye for PlainEye {
    ghost looks_made = { λ looks. looks };

    // The clauses of the trait, and that no memory is wanted.
    fn field(&mut self, walls: &Walls, eye: Point, out: &mut CellSet) -> Result<(), Memory>
        requires size { out.old.extent ≡ walls.now.extent }
        requires eye { IsOnMap walls.now.extent eye }
        ensures always { IsOk result }
        ensures value { OnOk result (out.new ≡ field_of walls.now eye) }
        ensures cells { OnOk result (IsField walls.now eye out.new) }
        ensures empty { OnErr result (out.new ≡ cells_where walls.now.extent (λ x y. false)) }
        ensures looks { self.new ≡ min (self.old + 1) (2 ^ 64 - 1) }
    {
        let tested = mark_field(walls, eye, out);
        self.looks = self.looks.saturating_add(1);
        self.tested = self.tested.saturating_add(tested);
        Ok(())
    }

    fn looks(&self) -> u64 {
        self.looks
    }

    fn tested(&self) -> u64 {
        self.tested
    }
}

// Makes `out` the field of the point, and tells how many pairs of a wall and a cell were compared.
fn mark_field(walls: &Walls, eye: Point, out: &mut CellSet) -> u64
    requires { out.old.extent ≡ walls.now.extent }
    ensures { out.new ≡ field_of walls.now eye }
{
    let mut tested = 0;
    out.clear();
    let size = walls.size();
    for y in 0..size.h() {
        for x in 0..size.w() {
            if is_in_field(walls, eye, x, y, &mut tested) {
                out.add(Cell { x, y });
            }
        }
    }
    tested
}

// The reach comes first, since it tells many cells without a wall.
fn is_in_field(walls: &Walls, eye: Point, x: u8, y: u8, tested: &mut u64) -> bool
    requires column { x < 96 }
    requires row { y < 96 }
    ensures { result ≡ field_test walls.now eye x y }
{
    eye.is_within(Point::centre(x, y), 2 * REACH) && is_clear(walls, eye, x, y, tested)
}

fn is_clear(walls: &Walls, eye: Point, x: u8, y: u8, tested: &mut u64) -> bool
    requires column { x < 96 }
    requires row { y < 96 }
    ensures { result ≡ clear_test walls.now eye x y }
{
    let centre = Point::centre(x, y);
    eye == centre || is_crossed_by_none(walls.list(WallKind::Vbl), eye, centre, tested)
}

fn is_crossed_by_none(walls: &[Wall], from: Point, to: Point, tested: &mut u64) -> bool
    ensures { result ≡ list_all (λ wall. not (meet_test wall.first wall.second from to)) walls.now }
{
    for wall in walls {
        *tested = tested.saturating_add(1);
        if meets(wall.first, wall.second, from, to) {
            return false;
        }
    }
    true
}
