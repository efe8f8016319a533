// The rows in which a wall hides cells within reach.

ghost use Rattle.std.specs.Prelude.{◌≡◌, ℕ, ◌+◌, ◌-◌, ◌*◌, ◌<◌, ◌≤◌, min, max, true};
ghost use Rattle.lattice.specs.Coordinates.{centre_of, difference};
ghost use Rattle.lattice.specs.Turning.{left_sum, right_sum, shadow_test};
ghost use Rattle.topology.specs.Sight.{reach_test};
ghost use Rattle.sight_sweep.specs.Spans.{IsRowOf};

use crate::field::{REACH, across, down};
use crate::paint::Span;
use lattice::Point;

// Rows, of so many, that hold all cells within reach in the shadow of the wall from `a` to `b`. Of a wall to one side of
// the eye, the lines through its ends bound them.
pub(crate) fn shadow_rows(eye: Point, a: Point, b: Point, rows: u8) -> Span
    requires spread { right_sum eye a b < left_sum eye a b }
    requires few { rows ≤ 96 }
    ensures cover { (x y : ℕ) → y < rows → reach_test eye x y 40 ≡ true → shadow_test eye a b (centre_of x y) ≡ true
        → (result.first ≤ y) × (y < result.past) }
    ensures bound { result.past ≤ rows }
{
    let near = near_rows(eye, a, b, rows);
    if across(eye) < across(a).min(across(b)) {
        Span {
            first: near.first.max(first_risen(eye, a)),
            past: near.past.min(past_fallen(eye, b)),
        }
    } else if across(a).max(across(b)) < across(eye) {
        Span {
            first: near.first.max(first_risen(eye, b)),
            past: near.past.min(past_fallen(eye, a)),
        }
    } else {
        near
    }
}

// The rows, of so many, that are near the eye's height, and behind the wall from `a` to `b` or beside it.
pub(crate) fn near_rows(eye: Point, a: Point, b: Point, rows: u8) -> Span
    ensures cover { (y : ℕ) → y < rows → IsRowOf eye.y (min a.y b.y) (max a.y b.y) y → (result.first ≤ y) × (y < result.past) }
    ensures bound { result.past ≤ rows }
{
    let first = first_row(down(eye), down(a).min(down(b)));
    let past = past_row(down(eye), down(a).max(down(b)), rows);
    Span { first, past }
}

// The first row that a wall hides cells of, whose upper end is at `top`, for an eye at that height.
fn first_row(eye: u8, top: u8) -> u8
    ensures { (y : ℕ) → eye ≤ 2 * y + 1 + 80 → (eye < top → top ≤ 2 * y + 1) → result ≤ y }
{
    let first = eye.saturating_sub(REACH as u8) / 2;
    if eye < top { first.max(top / 2) } else { first }
}

// The row behind the last one that a wall hides cells of, whose lower end is at `low`; of so many rows.
fn past_row(eye: u8, low: u8, rows: u8) -> u8
    ensures cover { (y : ℕ) → y < rows → 2 * y + 1 ≤ eye + 80 → (low < eye → 2 * y + 1 ≤ low) → y < result }
    ensures bound { result ≤ rows }
{
    let past = ((eye as u16 + REACH + 1) / 2).min(rows as u16) as u8;
    if low < eye {
        past.min(((low as u16 + 1) / 2) as u8)
    } else {
        past
    }
}

// The first row that the line from the eye through `end` comes to within reach, going up.
fn first_risen(eye: Point, end: Point) -> u8
    requires { 0 < difference eye.x end.x }
    ensures { (y k : ℕ) → k * k + (eye.y - (2 * y + 1)) * (eye.y - (2 * y + 1)) ≤ 6400
        → difference eye.x end.x * (eye.y - (2 * y + 1)) ≤ (eye.y - end.y) * k → result ≤ y }
{
    let rise = down(eye).saturating_sub(down(end));
    let reached = most_risen(across(eye).abs_diff(across(end)), rise);
    ((down(eye) as u32).saturating_sub(reached) / 2) as u8
}

// The row behind the last one that it comes to, going down.
fn past_fallen(eye: Point, end: Point) -> u8
    requires { 0 < difference eye.x end.x }
    ensures { (y k : ℕ) → y < 96 → k * k + (2 * y + 1 - eye.y) * (2 * y + 1 - eye.y) ≤ 6400
        → difference eye.x end.x * (2 * y + 1 - eye.y) ≤ (end.y - eye.y) * k → y < result }
{
    let fall = down(end).saturating_sub(down(eye));
    let reached = most_risen(across(eye).abs_diff(across(end)), fall);
    ((down(eye) as u32 + reached + 1) / 2).min(96) as u8
}

// How far at most a line rises within reach, in half cells, that rises so much over so much to the side.
fn most_risen(side: u8, rise: u8) -> u32
    requires { 0 < side }
    ensures bound { result ≤ rise * 80 }
    ensures most { (j k : ℕ) → k * k + j * j ≤ 6400 → side * j ≤ rise * k → j ≤ result }
{
    rise as u32 * REACH as u32 / shortened(side as u32, rise as u32)
}

// The length over these sides, or somewhat less: without a square root, by the 3, 4 and 5.
fn shortened(side: u32, rise: u32) -> u32
    requires side { side < 256 }
    requires rise { rise < 256 }
    ensures square { result * result ≤ side * side + rise * rise }
    ensures some { side ≤ result }
{
    let long = side.max(rise);
    let short = side.min(rise);
    long.max((4 * long + 3 * short) / 5)
}
