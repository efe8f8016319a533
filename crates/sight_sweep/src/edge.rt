// The line of two points, as it cuts rows: of each row it leaves the columns on one side of it.
//
// Columns are counted from `LEFT` columns before the map's first, so that no line's bound within the map's rows is negative.

ghost use Rattle.std.specs.Prelude.{◌≡◌, ℕ, ◌+◌, ◌*◌, ◌<◌, ◌≤◌, ◌&&◌, nat_le, nat_lt};
ghost use Rattle.sight_sweep.specs.Edges.{IsScale, IsSmall, TellsTurns, bound_in, is_between, is_kept};

use crate::field::{across, down};
use lattice::Point;

/// How many columns before the map's first one columns are counted from.
pub(crate) const LEFT: u64 = 20_000;

// The columns from the first number to the second, which is left out, counted from `LEFT` before the map.
#[derive(Clone, Copy)]
pub(crate) struct Columns {
    pub(crate) first: u64,
    pub(crate) past: u64,
}

// A line whose bound in a row is a quotient. The dividend is `base`, and in each half cell from the top `up` more and `down`
// less. To divide is to multiply by `scale` and to leave 32 bits out, so a row takes no division. The line leaves the
// columns from the bound on, or those before it.
#[derive(Clone, Copy)]
pub(crate) struct Edge {
    from: bool,
    base: u64,
    up: u64,
    down: u64,
    scale: u64,
}

impl Edge {
    // The line of `a` and `b`: it leaves the columns to whose centre the path from `a` over `b` doesn't turn right.
    pub(crate) fn new(a: Point, b: Point) -> Edge
        ensures small { IsSmall result }
        ensures turns { TellsTurns a b result }
    {
        let (ax, ay) = (across(a) as u64, down(a) as u64);
        let (bx, by) = (across(b) as u64, down(b) as u64);
        if ay == by {
            return Edge::level(ax, ay, bx);
        }
        let gap = 2 * ay.abs_diff(by);
        let from = by < ay;
        let (left, right) = (ax * by + ay, ay * bx + by);
        let (more, less, up, down) = if from {
            (right, left + 1, ax, bx)
        } else {
            (left, right, bx, ax)
        };
        Edge {
            from,
            base: LEFT * gap + gap + more - less,
            up,
            down,
            scale: scale_of(gap as u32),
        }
    }

    // The line from column `ax` to column `bx` at the height `y`: it leaves all columns of a row, or none.
    fn level(ax: u64, y: u64, bx: u64) -> Edge
        requires { y ≤ 192 }
        ensures small { IsSmall result }
        ensures turns { (x v : ℕ) → x < 96 → v < 96 → is_kept result x v ≡ nat_le (y * bx + (2 * v + 1) * ax) (ax * y + bx * (2 * v + 1)) }
    {
        let up = if ax < bx { 96 } else { 0 };
        let down = if bx < ax { 96 } else { 0 };
        Edge {
            from: false,
            base: LEFT + 96 + down * y - up * y,
            up,
            down,
            scale: 1 << 32,
        }
    }

    // Of these columns those that are left of row `y`.
    pub(crate) fn cut(&self, columns: Columns, y: u8) -> Columns
        requires row { y < 96 }
        requires small { IsSmall self.now }
        ensures left { (x : ℕ) → is_between result x ≡ (is_between columns x && is_kept self.now x y) }
        ensures first { columns.first ≤ result.first }
        ensures past { result.past ≤ columns.past }
    {
        let bound = self.bound(y);
        if self.from {
            Columns {
                first: bound.max(columns.first),
                past: columns.past,
            }
        } else {
            Columns {
                first: columns.first,
                past: bound.min(columns.past),
            }
        }
    }

    fn bound(&self, y: u8) -> u64
        requires row { y < 96 }
        requires small { IsSmall self.now }
        ensures { result ≡ bound_in self.now y }
    {
        let row = 2 * y as u64 + 1;
        (self.base + self.up * row - self.down * row) * self.scale >> 32
    }
}

// What to multiply by in place of dividing by `gap`.
fn scale_of(gap: u32) -> u64
    requires some { 0 < gap }
    ensures { IsScale gap result }
{
    (u32::MAX / gap) as u64 + 1
}
