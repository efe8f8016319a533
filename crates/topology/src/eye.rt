ghost use Rattle.std.specs.Prelude.{◌≡◌, ℕ, ◌+◌, ◌-◌, ◌^◌, min, false, OnOk, OnErr};
ghost use Rattle.cells.specs.Cells.{cells_where};
ghost use Rattle.topology.specs.WallLists.{IsOnMap};
ghost use Rattle.topology.specs.Sight.{IsField, field_of};

use crate::Walls;
use cells::CellSet;
use lattice::Point;
use names::Memory;

/// What finds the cells that are clear from a point.
pub trait Eye {
    /// How many looks were made: calls of `field`.
    ghost looks_made: { Self → ℕ };

    /// Makes `out` the field of the point: the cells of the map that are clear from it and within 40 cells.
    ///
    /// `out` is of the map's size and the point is on the map. After want of memory `out` is empty. Each call is one
    /// look.
    fn field(&mut self, walls: &Walls, eye: Point, out: &mut CellSet) -> Result<(), Memory>
        requires size { out.old.extent ≡ walls.now.extent }
        requires eye { IsOnMap walls.now.extent eye }
        ensures value { OnOk result (out.new ≡ field_of walls.now eye) }
        ensures cells { OnOk result (IsField walls.now eye out.new) }
        ensures empty { OnErr result (out.new ≡ cells_where walls.now.extent (λ x y. false)) }
        ensures looks { looks_made self.new ≡ min (looks_made self.old + 1) (2 ^ 64 - 1) };

    /// How many looks were made; it stands still at its last value.
    fn looks(&self) -> u64
        ensures { result ≡ looks_made self.now };

    /// How many pairs of a wall and a cell were compared; it stands still at its last value. No clause speaks of it.
    fn tested(&self) -> u64;
}
