ghost use Rattle.std.specs.Prelude.{◌≡◌};
ghost use Rattle.topology.specs.Order.{point_before, point_eq, wall_before, wall_between, wall_eq};

use lattice::Point;

/// A wall of a map: a segment between two different points, the lesser by x, then y first.
#[derive(Clone, Copy, PartialEq, Eq, Debug)]
pub struct Wall {
    pub first: Point,
    pub second: Point,
}

impl Wall {
    /// The wall between two points, which may be given in either order.
    pub fn between(a: Point, b: Point) -> Wall
        ensures { result ≡ wall_between a b }
    {
        if is_before(b, a) {
            Wall {
                first: b,
                second: a,
            }
        } else {
            Wall {
                first: a,
                second: b,
            }
        }
    }

    /// Whether this wall stands before the other, by the four numbers of their ends.
    pub fn is_before(self, other: Wall) -> bool
        ensures { result ≡ wall_before self other }
    {
        is_before(self.first, other.first)
            || self.first == other.first && is_before(self.second, other.second)
    }

    pub(crate) fn is_same(self, other: Wall) -> bool
        ensures { result ≡ wall_eq self other }
    {
        is_same(self.first, other.first) && is_same(self.second, other.second)
    }
}

fn is_before(a: Point, b: Point) -> bool
    ensures { result ≡ point_before a b }
{
    a < b
}

fn is_same(a: Point, b: Point) -> bool
    ensures { result ≡ point_eq a b }
{
    a == b
}
