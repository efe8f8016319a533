//! The cells of one map that are exposed to one player, and where they stand among others.
ghost use Rattle.std.specs.Prelude.{◌≡◌, ◌<◌, ◌≤◌, IsSome, length};
ghost use Rattle.std.specs.List.{position, position_or_len};
ghost use Rattle.std.specs.Option.{ForSome};
ghost use Rattle.fog_book.specs.Exposures.{cells_at, changed_at, is_behind, is_of, joined};
ghost use Rattle.fog_book.specs.Rects.{with_rect};

use crate::paint::set_rect;
use cells::{CellSet, Rect};
use names::{SeatNo, Tag};

/// The cells of a map that are exposed to a player.
#[derive(Drop)]
pub struct Exposure {
    pub seat: SeatNo,
    pub map: Tag,
    pub cells: CellSet,
}

/// Whether this is the player's set on the map.
pub(crate) fn is_of(exposure: &Exposure, seat: SeatNo, map: Tag) -> bool
    ensures { result ≡ is_of seat map exposure.now }
{
    exposure.seat == seat && exposure.map == map
}

/// Where the player's set on the map stands.
pub(crate) fn place_of(sets: &[Exposure], seat: SeatNo, map: Tag) -> usize
    requires { IsSome (cells_at sets.now seat map) }
    ensures place { result ≡ position_or_len (is_of seat map) sets.now }
    ensures bound { result < length sets.now }
{
    match found_place(sets, seat, map) {
        Some(place) => place,
        None => unreachable!(),
    }
}

fn found_place(sets: &[Exposure], seat: SeatNo, map: Tag) -> Option<usize>
    ensures { result ≡ position (is_of seat map) sets.now }
{
    sets.iter().position(|set| is_of(set, seat, map))
}

/// Where the sets of a new map of that name stand: before those of the first map of a greater name.
pub(crate) fn place_for(sets: &[Exposure], map: Tag) -> usize
    ensures place { result ≡ position_or_len (is_behind map) sets.now }
    ensures bound { result ≤ length sets.now }
{
    match first_behind(sets, map) {
        Some(place) => place,
        None => sets.len(),
    }
}

fn first_behind(sets: &[Exposure], map: Tag) -> Option<usize>
    ensures { result ≡ position (is_behind map) sets.now }
{
    sets.iter().position(|set| is_behind(set, map))
}

/// Whether the set is of a map of that name or a greater one.
fn is_behind(set: &Exposure, map: Tag) -> bool
    ensures { result ≡ is_behind map set.now }
{
    set.map >= map
}

/// Adds the rectangle to the player's set on the map, or takes it out.
pub(crate) fn set_rect_of(sets: &mut Vec<Exposure>, seat: SeatNo, map: Tag, rect: Rect, shown: bool)
    requires { IsSome (cells_at sets.old.items seat map) }
    ensures { sets.new.items ≡ changed_at (is_of seat map) (λ cells. with_rect cells rect shown) sets.old.items }
{
    let place = place_of(sets, seat, map);
    let exposure = &mut sets[place];
    set_rect(&mut exposure.cells, rect, shown);
}

/// Adds the cells to the player's set on the map.
pub(crate) fn join_with(sets: &mut Vec<Exposure>, seat: SeatNo, map: Tag, seen: &CellSet)
    requires there { IsSome (cells_at sets.old.items seat map) }
    requires size { ForSome (cells_at sets.old.items seat map) (λ cells. seen.now.extent ≡ cells.extent) }
    ensures { sets.new.items ≡ changed_at (is_of seat map) (λ cells. joined cells seen.now) sets.old.items }
{
    let place = place_of(sets, seat, map);
    let exposure = &mut sets[place];
    exposure.cells.join_with(seen);
}
