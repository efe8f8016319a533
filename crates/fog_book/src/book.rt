//! The fog of war of a campaign.
ghost use Rattle.std.specs.Prelude.{◌≡◌, ◌≤◌, [], ◌∷◌, ◌++◌, Some, true, false, length, take, drop, IsSome, IfOk, OnOk, OnErr};
ghost use Rattle.std.specs.Option.{ForSome};
ghost use Rattle.std.specs.List.{AllZip};
ghost use Rattle.fog_book.specs.Exposures.{joined, blank_sets, with_each_seen, with_found, HaveOneSize};
ghost use Rattle.fog_book.specs.Rects.{with_rect};

use crate::exposure::{Exposure, join_with, place_for, place_of, set_rect_of};
use cells::{CellSet, Rect, Size};
use names::{Memory, SeatNo, Tag};
use std::alloc::Global;
use std::marker::Model;

/// The cells that are exposed to each player, map by map. Players have the seats from 1 on.
///
/// In every call that names a seat and a map, the seat is a player of the book and the map is in it.
#[derive(Drop)]
pub struct FogBook {
    players: u8,
    sets: Vec<Exposure>,
}

impl Model for FogBook {
    ghost use Rattle.std.specs.Prelude.{◌≤◌};
    ghost use Rattle.fog_book.specs.Exposures.{Fog};

    ghost Value = { Fog };

    ghost view = { λ b. record { players = b.players; sets = b.sets.items } };

    ghost invariant = { λ b. b.players ≤ 32 };
}

impl FogBook {
    ghost use Rattle.fog_book.specs.Exposures.{exposed_of, with_change, with_map, AddsMap, ChangesOnly};

    /// A book of so many players, at most 32, without maps.
    pub fn open(alloc: Global, players: u8) -> Result<FogBook, Memory>
        requires { players ≤ 32 }
        ensures { IfOk result (λ book. book ≡ record { players = players; sets = [] }) }
    {
        Ok(FogBook {
            players,
            sets: Vec::new(alloc),
        })
    }

    /// The same book once more, or `Memory` for want of memory.
    pub fn copy(&self) -> Result<FogBook, Memory>
        ensures { IfOk result (λ book. book ≡ self.now) }
    {
        let sets = copied(&self.sets)?;
        Ok(FogBook {
            players: self.players,
            sets,
        })
    }

    /// Adds a map of that size, which isn't there. Nothing of it is exposed, and all sets of other maps stay. Its sets
    /// stand seat by seat before those of the first map of a greater name.
    ///
    /// After `Memory` the book is as before.
    pub fn add_map(&mut self, map: Tag, size: Size) -> Result<(), Memory>
        ensures value { OnOk result (self.new ≡ with_map self.old map size) }
        ensures sets { OnOk result (AddsMap self.old self.new map size) }
        ensures unchanged { OnErr result (self.new ≡ self.old) }
    {
        let fresh = blank_sets(*self.sets.allocator(), self.players, map, size)?;
        let place = place_for(&self.sets, map);
        insert_all(&mut self.sets, place, fresh)
    }

    /// Exposes the map's cells in the rectangle to the player. All other sets stay.
    pub fn expose(&mut self, seat: SeatNo, map: Tag, rect: Rect)
        requires { IsSome (exposed_of self.old seat map) }
        ensures value { self.new ≡ with_change self.old seat map (λ cells. with_rect cells rect true) }
        ensures sets { ChangesOnly self.old self.new seat map (λ cells. with_rect cells rect true) }
    {
        set_rect_of(&mut self.sets, seat, map, rect, true);
    }

    /// Hides the map's cells in the rectangle from the player. All other sets stay.
    pub fn hide(&mut self, seat: SeatNo, map: Tag, rect: Rect)
        requires { IsSome (exposed_of self.old seat map) }
        ensures value { self.new ≡ with_change self.old seat map (λ cells. with_rect cells rect false) }
        ensures sets { ChangesOnly self.old self.new seat map (λ cells. with_rect cells rect false) }
    {
        set_rect_of(&mut self.sets, seat, map, rect, false);
    }

    /// Exposes the cells that the player sees; `seen` is of the map's size. All other sets stay.
    pub fn after_sight(&mut self, seat: SeatNo, map: Tag, seen: &CellSet)
        requires there { IsSome (exposed_of self.old seat map) }
        requires size { ForSome (exposed_of self.old seat map) (λ cells. seen.now.extent ≡ cells.extent) }
        ensures value { self.new ≡ with_change self.old seat map (λ cells. joined cells seen.now) }
        ensures sets { ChangesOnly self.old self.new seat map (λ cells. joined cells seen.now) }
    {
        join_with(&mut self.sets, seat, map, seen);
    }

    /// How many players there are, at most 32.
    pub fn players(&self) -> u8
        ensures value { result ≡ self.now.players }
        ensures bound { result ≤ 32 }
    {
        self.players
    }

    /// The sets, one for each player and map: map by map in byte order of the names, and of each map seat by seat.
    pub fn sets(&self) -> &[Exposure]
        ensures { result.now ≡ self.now.sets }
    {
        self.sets.as_slice()
    }

    /// Exposes what is seen: to each set, in their order, the cells at its place in `seen`, where there are any, which are of
    /// its size.
    pub fn join_each(&mut self, seen: &[Option<CellSet>])
        requires { AllZip HaveOneSize self.old.sets seen.now }
        ensures { self.new ≡ record self.old { sets = with_each_seen self.old.sets seen.now } }
    {
        join_all(&mut self.sets, seen);
    }

    /// The cells of the map that are exposed to the player.
    pub fn exposed(&self, seat: SeatNo, map: Tag) -> &CellSet
        requires { IsSome (exposed_of self.now seat map) }
        ensures { exposed_of self.now seat map ≡ Some result.now }
    {
        let place = place_of(&self.sets, seat, map);
        &self.sets[place].cells
    }
}

/// Adds to each set the cells at its place.
fn join_all(sets: &mut Vec<Exposure>, seen: &[Option<CellSet>])
    requires { AllZip HaveOneSize sets.old.items seen.now }
    ensures { sets.new.items ≡ with_each_seen sets.old.items seen.now }
{
    for (place, found) in seen.iter().enumerate() {
        join_found(&mut sets[place], found);
    }
}

/// Adds to a set what is seen of its map by its player, where it was looked for.
fn join_found(set: &mut Exposure, found: &Option<CellSet>)
    requires { HaveOneSize set.old found.now }
    ensures { set.new ≡ with_found set.old found.now }
{
    if let Some(seen) = found {
        set.cells.join_with(seen);
    }
}

fn copied(sets: &Vec<Exposure>) -> Result<Vec<Exposure>, Memory>
    ensures { IfOk result (λ copy. copy.items ≡ sets.now.items) }
{
    let mut copy = Vec::new(*sets.allocator());
    for set in sets {
        let cells = set.cells.copy()?;
        let (seat, map) = (set.seat, set.map);
        copy.push(Exposure { seat, map, cells })?;
    }
    Ok(copy)
}

/// For each player a set of no cells.
fn blank_sets(alloc: Global, players: u8, map: Tag, size: Size) -> Result<Vec<Exposure>, Memory>
    requires { players ≤ 32 }
    ensures { IfOk result (λ sets. sets.items ≡ blank_sets players map size) }
{
    let mut sets = Vec::new(alloc);
    for number in 0..players {
        let Some(seat) = SeatNo::new(number + 1) else {
            unreachable!();
        };
        let cells = CellSet::new(alloc, size)?;
        sets.push(Exposure { seat, map, cells })?;
    }
    Ok(sets)
}

/// Puts the fresh sets before the one at the place. After `Memory` the sets are as before.
fn insert_all(
    sets: &mut Vec<Exposure>,
    place: usize,
    mut fresh: Vec<Exposure>,
) -> Result<(), Memory>
    requires { place ≤ length sets.old.items }
    ensures ok { OnOk result (sets.new.items ≡ take place sets.old.items ++ (fresh.items ++ drop place sets.old.items)) }
    ensures unchanged { OnErr result (sets.new.items ≡ sets.old.items) }
{
    let behind = sets.len() - place;
    sets.append(&mut fresh)?;
    sets[place..].rotate_left(behind);
    Ok(())
}
