//! Places that commands name by whole numbers, and the cells, rectangles and points at them.
ghost use Rattle.std.specs.Prelude.{◌≡◌, true};
ghost use Rattle.std.specs.List.{list_all};
ghost use Rattle.command_rules.specs.Places.{fits_along as fits_along_lem, fits_at as fits_at_lem, cell_at as cell_at_lem, are_near as are_near_lem, is_king_step as is_king_step_lem, are_king_steps as are_king_steps_lem, coordinate as coordinate_lem, rect_fits as rect_fits_lem, rect_at as rect_at_lem, point_fits as point_fits_lem, point_at as point_at_lem};

use cells::{Cell, Rect, Size};
use lattice::Point;

/// Whether the number isn't negative, and with so much more is at most this.
fn fits_along(most: u8, more: u32, at: i32) -> bool
    ensures { result ≡ fits_along_lem most more at }
{
    at >= 0 && at as u64 + more as u64 <= most as u64
}

/// Whether the square of that side at the place is on a map of the size.
pub fn fits_at(size: Size, side: u32, place: (i32, i32)) -> bool
    ensures { result ≡ fits_at_lem size side place }
{
    fits_along(size.w(), side, place.0) && fits_along(size.h(), side, place.1)
}

/// Whether it is so at each place.
pub fn all_fit(size: Size, side: u8, path: &[(i32, i32)]) -> bool
    ensures { result ≡ list_all (fits_at_lem size side) path.now }
{
    for place in path {
        if !fits_at(size, u32::from(side), *place) {
            return false;
        }
    }
    true
}

/// The cell at a place where a square fits.
#[tactic(auto, using(crate::proofs::PlaceLemmas::column, crate::proofs::PlaceLemmas::row))]
pub fn cell_at(size: Size, side: u8, place: (i32, i32)) -> Cell
    requires { fits_at_lem size side place ≡ true }
    ensures { result ≡ cell_at_lem place }
{
    let (_size, _side) = (size, side);
    Cell {
        x: place.0 as u8,
        y: place.1 as u8,
    }
}

fn are_near(one: u8, other: u8) -> bool
    ensures { result ≡ are_near_lem one other }
{
    one.abs_diff(other) <= 1
}

fn is_king_step(from: Cell, to: Cell) -> bool
    ensures { result ≡ is_king_step_lem from to }
{
    are_near(from.x, to.x) && are_near(from.y, to.y) && !(from.x == to.x && from.y == to.y)
}

/// Whether each cell of the path is a king step from the one before, the first from the given cell. The square fits at
/// each place.
pub fn are_king_steps(size: Size, side: u8, from: Cell, path: &[(i32, i32)]) -> bool
    requires { list_all (fits_at_lem size side) path.now ≡ true }
    ensures { result ≡ are_king_steps_lem from path.now }
{
    let mut last = from;
    for place in path {
        let next = cell_at(size, side, *place);
        if !is_king_step(last, next) {
            return false;
        }
        last = next;
    }
    true
}

// ---- numbers, rectangles and points

/// The number, or 0 in place of a negative one.
pub fn coordinate(number: i32) -> u32
    ensures { result ≡ coordinate_lem number }
{
    if number < 0 { 0 } else { number as u32 }
}

/// Whether the rectangle is on a map of the size.
pub(crate) fn rect_fits(size: Size, rect: (i32, i32, i32, i32)) -> bool
    ensures { result ≡ rect_fits_lem size rect }
{
    fits_along(size.w(), coordinate(rect.2), rect.0)
        && fits_along(size.h(), coordinate(rect.3), rect.1)
}

/// Whether the point is on a map of the size.
pub(crate) fn point_fits(size: Size, point: (i32, i32)) -> bool
    ensures { result ≡ point_fits_lem size point }
{
    fits_along(2 * size.w(), 0, point.0) && fits_along(2 * size.h(), 0, point.1)
}

/// The rectangle, which is on a map of the size.
#[tactic(auto, using(crate::proofs::PlaceLemmas::columns, crate::proofs::PlaceLemmas::rows))]
pub fn rect_at(size: Size, rect: (i32, i32, i32, i32)) -> Rect
    requires { rect_fits_lem size rect ≡ true }
    ensures { result ≡ rect_at_lem rect }
{
    let (_w, _h) = (size.w(), size.h());
    Rect {
        x: rect.0 as u8,
        y: rect.1 as u8,
        w: coordinate(rect.2) as u8,
        h: coordinate(rect.3) as u8,
    }
}

/// The point, which is on a map of the size.
#[tactic(auto, using(crate::proofs::PlaceLemmas::point_column, crate::proofs::PlaceLemmas::point_row))]
pub fn point_at(size: Size, point: (i32, i32)) -> Point
    requires { point_fits_lem size point ≡ true }
    ensures { result ≡ point_at_lem point }
{
    let (_w, _h) = (size.w(), size.h());
    match Point::new(point.0, point.1) {
        Some(point) => point,
        None => unreachable!(),
    }
}
