ghost use Rattle.std.specs.Prelude.{◌≡◌, ℕ, ◌+◌, ◌*◌, ◌<◌, ◌≤◌, ◌&&◌, nat_le, nat_lt};
ghost use Rattle.vision.specs.Common.{is_in_disc};

use lattice::Point;

/// The points within some distance of a point.
#[derive(Clone, Copy, Debug)]
pub(crate) struct Disc {
    /// The point.
    pub middle: Point,
    /// The distance, in half cells.
    pub halves: u8,
}

impl Disc {
    /// The rows, of so many, outside of which no cell of the disc stands: from the first number to the second, which is
    /// left out.
    pub(crate) fn rows(&self, count: u8) -> (u8, u8)
        ensures first { (y : ℕ) → self.now.middle.y ≤ 2 * y + 1 + self.now.halves → result.0 ≤ y }
        ensures past { (y : ℕ) → y < count → 2 * y + 1 ≤ self.now.middle.y + self.now.halves → y < result.1 }
        ensures bound { result.1 ≤ count }
    {
        let middle = down(&self.middle);
        let halves = self.halves as u16;
        (first_near(middle, halves), past_near(middle, halves, count))
    }

    /// The rows, of so many, outside of which no cell stands that is in both discs.
    pub(crate) fn common_rows(&self, other: &Disc, count: u8) -> (u8, u8)
        ensures first { (y : ℕ) → self.now.middle.y ≤ 2 * y + 1 + self.now.halves → other.now.middle.y ≤ 2 * y + 1 + other.now.halves
            → result.0 ≤ y }
        ensures past { (y : ℕ) → y < count → 2 * y + 1 ≤ self.now.middle.y + self.now.halves
            → 2 * y + 1 ≤ other.now.middle.y + other.now.halves → y < result.1 }
        ensures bound { result.1 ≤ count }
    {
        let (self_first, self_past) = self.rows(count);
        let (other_first, other_past) = other.rows(count);
        (self_first.max(other_first), self_past.min(other_past))
    }

    /// The columns, of so many, of the disc's cells in row `y`: from the first number to the second, which is left out.
    ///
    /// `reach` is how far the disc reaches to each side in a row, in half cells: at first a guess, and then the answer for
    /// row `y`. The better the guess, the shorter the search, so it is handed from row to row.
    pub(crate) fn span(&self, y: u8, count: u8, reach: &mut u8) -> (u8, u8)
        requires row { y < 96 }
        ensures cells { (x : ℕ) → x < count → (nat_le result.0 x && nat_lt x result.1) ≡ is_in_disc self.now x y }
        ensures bound { result.1 ≤ count }
    {
        let halves = self.halves as u16;
        let away = down(&self.middle).abs_diff(2 * y as u16 + 1);
        if away > halves {
            return (0, 0);
        }
        let root = root_near(square(halves) - square(away), *reach);
        *reach = root;
        let middle = across(&self.middle);
        (
            first_near(middle, root as u16),
            past_near(middle, root as u16, count),
        )
    }
}

/// The greatest number whose square is at most `limit`, looked for from a guess on.
fn root_near(limit: u16, guess: u8) -> u8
    ensures low { result * result ≤ limit }
    ensures high { limit < (result + 1) * (result + 1) }
{
    root_above(limit, root_below(limit, guess))
}

/// The greatest number up to the guess whose square is at most `limit`.
fn root_below(limit: u16, guess: u8) -> u8
    ensures { result * result ≤ limit }
{
    let mut root = guess;
    while limit < square(root as u16) {
        root -= 1;
    }
    root
}

/// The greatest number whose square is at most `limit`, where that of `root` is.
fn root_above(limit: u16, root: u8) -> u8
    requires { root * root ≤ limit }
    ensures low { result * result ≤ limit }
    ensures high { limit < (result + 1) * (result + 1) }
{
    // Without a last number the compiler makes no wide steps of a search that is short.
    let mut root = root as u32;
    while (root + 1) * (root + 1) <= limit as u32 {
        root += 1;
    }
    root as u8
}

fn square(number: u16) -> u16
    requires { number ≤ 255 }
    ensures { result ≡ number * number }
{
    number * number
}

fn across(point: &Point) -> u16
    ensures value { result ≡ point.now.x }
    ensures range { result ≤ 192 }
{
    point.x() as u16
}

fn down(point: &Point) -> u16
    ensures value { result ≡ point.now.y }
    ensures range { result ≤ 192 }
{
    point.y() as u16
}

fn first_near(middle: u16, halves: u16) -> u8
    requires middle { middle ≤ 192 }
    requires halves { halves ≤ 255 }
    ensures first { (n : ℕ) → middle ≤ 2 * n + 1 + halves → result ≤ n }
    ensures near { (n : ℕ) → result ≤ n → middle ≤ 2 * n + 1 + halves }
{
    (middle.saturating_sub(halves) / 2) as u8
}

fn past_near(middle: u16, halves: u16, count: u8) -> u8
    requires middle { middle ≤ 192 }
    requires halves { halves ≤ 255 }
    ensures past { (n : ℕ) → n < count → 2 * n + 1 ≤ middle + halves → n < result }
    ensures near { (n : ℕ) → n < result → 2 * n + 1 ≤ middle + halves }
    ensures bound { result ≤ count }
{
    let past = (middle + halves + 1) / 2;
    past.min(count as u16) as u8
}
