// What a wall hides, taken out of a set.

ghost use Rattle.std.specs.Prelude.{◌≡◌};
ghost use Rattle.cells.specs.Cells.{IsToldByCells};
ghost use Rattle.sight_sweep.specs.Shadows.{IsFieldWith, IsWithinReach, hides, without};

use crate::field::is_far;
use crate::line::hide_in_line;
use crate::paint::hide_in_rows;
use cells::CellSet;
use lattice::{Point, Turn, orient};
use topology::Wall;

/// Takes out of a field the cells that a wall hides from its eye.
///
/// The field with one wall more that blocks sight is what is left, so a wall that comes needs no look. The field has no
/// cell farther than 40 cells from the eye. It takes no memory.
pub fn hide_behind_wall(eye: Point, wall: &Wall, field: &mut CellSet)
    requires { IsWithinReach eye field.old }
    ensures cells { field.new ≡ without field.old (hides eye wall.now) }
    ensures added { IsFieldWith eye wall.now field.old field.new }
{
    take_out(eye, wall, field);
}

fn take_out(eye: Point, wall: &Wall, field: &mut CellSet)
    requires { IsWithinReach eye field.old }
    ensures { field.new ≡ without field.old (hides eye wall.now) }
{
    // That a set is told by its cells is a clause of `size`.
    let _ = field.size();
    let mut tested = 0;
    hide_behind(eye, wall, field, &mut tested);
}

// Takes out the cells that the wall hides, row by row.
pub(crate) fn hide_behind(eye: Point, wall: &Wall, out: &mut CellSet, tested: &mut u64)
    requires told { IsToldByCells out.old }
    requires within { IsWithinReach eye out.old }
    ensures { out.new ≡ without out.old (hides eye wall.now) }
{
    if is_far(eye, wall) {
        return;
    }
    match orient(eye, wall.first, wall.second) {
        Turn::Left => hide_in_rows(eye, wall.first, wall.second, out),
        Turn::Right => hide_in_rows(eye, wall.second, wall.first, out),
        Turn::Straight => hide_in_line(eye, wall, out, tested),
    }
}
