ghost use Rattle.std.specs.Prelude.{◌≡◌, ◌-◌, ◌<◌, ◌≤◌, ◌↔◌, length, slice_get, Some, None, IfOk, IfErr, IfSome, IsNone, OnOk, OnErr, IsErr, is_ok, if◌then◌else◌, [], IsTrue, false};
ghost use Rattle.std.specs.List.{find, list_any, range_with_len};
ghost use Rattle.lattice.specs.Turning.{meet_test};
ghost use Rattle.topology.specs.Order.{wall_between};
ghost use Rattle.topology.specs.WallLists.{AreWalls, IsOnMap, has_wall, on_map_test, place_of, walls_of, with_wall, with_walls, without_wall};
ghost use Rattle.topology.specs.Paths.{IsFirstBlock, IsFree, block_test, first_block};
ghost use Rattle.topology.specs.WallFaults.{IsFaultOf, wall_fault};

use crate::Wall;
use cells::Size;
use lattice::{Point, meets};
use names::{Memory, WallKind};
use std::alloc::Global;
use std::marker::Model;
use thiserror::Error;

/// How many walls of each kind a map has at most.
pub const MOST_WALLS: usize = 2048;

/// Why a wall isn't added. The checks are made in this order.
#[derive(Clone, Copy, Debug, PartialEq, Eq, Error)]
pub enum WallFault {
    /// An end isn't on the map.
    #[error("an end of the wall is not on the map")]
    OffMap,
    /// The ends are the same point.
    #[error("the ends of the wall are the same point")]
    DegenerateWall,
    /// The map has the wall, of that kind.
    #[error("the wall is there")]
    WallThere,
    /// The map has 2,048 walls of that kind.
    #[error("the map has as many walls of that kind as it may have")]
    WallLimit,
    /// Want of memory.
    #[error("want of memory")]
    Memory,
}

/// The map has no such wall.
#[derive(Clone, Copy, Debug, PartialEq, Eq)]
pub struct NoSuchWall;

/// The walls of a map, of both kinds, each in order of the four numbers of their ends.
#[derive(Drop)]
pub struct Walls {
    size: Size,
    vbl: Vec<Wall>,
    mbl: Vec<Wall>,
}

impl Model for Walls {
    ghost use Rattle.topology.specs.WallLists.{WallLists, AreWalls};

    ghost Value = { WallLists };

    ghost view = { λ w. record { extent = w.size; vbl = w.vbl.items; mbl = w.mbl.items } };

    ghost invariant = { λ w. AreWalls w.size w.vbl.items × AreWalls w.size w.mbl.items };
}

impl Walls {
    /// No walls, on a map of that size.
    pub fn new(alloc: Global, size: Size) -> Walls
        ensures { result ≡ record { extent = size; vbl = []; mbl = [] } }
    {
        Walls {
            size,
            vbl: Vec::new(alloc),
            mbl: Vec::new(alloc),
        }
    }

    /// The same walls once more.
    pub fn copy(&self) -> Result<Walls, Memory>
        ensures { IfOk result (λ w. w ≡ self.now) }
    {
        let vbl = copy_list(&self.vbl)?;
        let mbl = copy_list(&self.mbl)?;
        Ok(Walls {
            size: self.size,
            vbl,
            mbl,
        })
    }

    /// The size of the map.
    pub fn size(&self) -> Size
        ensures { result ≡ self.now.extent }
    {
        self.size
    }

    /// How many walls of that kind there are, at most 2,048.
    pub fn count(&self, kind: WallKind) -> usize
        ensures value { result ≡ length (walls_of self.now kind) }
        ensures valid { AreWalls self.now.extent (walls_of self.now kind) }
    {
        match kind {
            WallKind::Vbl => self.vbl.len(),
            WallKind::Mbl => self.mbl.len(),
        }
    }

    /// The walls of that kind, in order of their four numbers.
    pub fn list(&self, kind: WallKind) -> &[Wall]
        ensures { result.now ≡ walls_of self.now kind }
    {
        match kind {
            WallKind::Vbl => &self.vbl,
            WallKind::Mbl => &self.mbl,
        }
    }

    /// The ends of the wall of that kind at that place, the lesser first; walls stand in order of their four numbers.
    pub fn wall(&self, kind: WallKind, place: usize) -> (Point, Point)
        requires { place < length (walls_of self.now kind) }
        ensures { slice_get (walls_of self.now kind) place ≡ Some (record { first = result.0; second = result.1 }) }
    {
        let wall = self.list(kind)[place];
        (wall.first, wall.second)
    }

    /// Whether the wall of that kind between two points, given in either order, is there.
    pub fn has(&self, kind: WallKind, a: Point, b: Point) -> bool
        ensures { result ≡ has_wall (wall_between a b) (walls_of self.now kind) }
    {
        contains(self.list(kind), &Wall::between(a, b))
    }

    /// The first check that a new wall of that kind between two points breaks: the fault that `add_wall` gives, where it
    /// has memory.
    pub fn broken_check(&self, kind: WallKind, a: Point, b: Point) -> Option<WallFault>
        ensures { result ≡ wall_fault self.now kind a b }
    {
        let walls = self.list(kind);
        if !is_on_map(self.size, a) || !is_on_map(self.size, b) {
            Some(WallFault::OffMap)
        } else if a == b {
            Some(WallFault::DegenerateWall)
        } else if contains(walls, &Wall::between(a, b)) {
            Some(WallFault::WallThere)
        } else if walls.len() >= MOST_WALLS {
            Some(WallFault::WallLimit)
        } else {
            None
        }
    }

    /// Adds a wall of that kind between two points, in its place.
    ///
    /// The checks are made in the order of `WallFault`; after a fault the walls are as before.
    pub fn add_wall(&mut self, kind: WallKind, a: Point, b: Point) -> Result<(), WallFault>
        ensures added { OnOk result (self.new ≡ with_walls self.old kind (with_wall (wall_between a b) (walls_of self.old kind))) }
        ensures ok { OnOk result (wall_fault self.old kind a b ≡ None) }
        ensures fault { IfErr result (IsFaultOf (wall_fault self.old kind a b)) }
        ensures unchanged { OnErr result (self.new ≡ self.old) }
    {
        if let Some(fault) = self.broken_check(kind, a, b) {
            return Err(fault);
        }
        let wall = Wall::between(a, b);
        match kind {
            WallKind::Vbl => insert_wall(&mut self.vbl, wall),
            WallKind::Mbl => insert_wall(&mut self.mbl, wall),
        }
    }

    /// Takes away the wall of that kind between two points.
    ///
    /// Refused exactly where there is no such wall; the walls are then as before. No memory is taken.
    pub fn cut_wall(&mut self, kind: WallKind, a: Point, b: Point) -> Result<(), NoSuchWall>
        ensures missing { IsErr result ↔ (has_wall (wall_between a b) (walls_of self.old kind) ≡ false) }
        ensures cut { OnOk result (self.new ≡ with_walls self.old kind (without_wall (wall_between a b) (walls_of self.old kind))) }
        ensures unchanged { OnErr result (self.new ≡ self.old) }
    {
        let wall = Wall::between(a, b);
        if !contains(self.list(kind), &wall) {
            return Err(NoSuchWall);
        }
        match kind {
            WallKind::Vbl => remove_wall(&mut self.vbl, &wall),
            WallKind::Mbl => remove_wall(&mut self.mbl, &wall),
        }
        Ok(())
    }

    /// The first step of a path that meets a wall of kind mbl, where step k goes from the path's point k to its point
    /// k + 1; `None` exactly where no step does.
    pub fn first_block(&self, path: &[Point]) -> Option<usize>
        ensures value { result ≡ first_block self.now path.now }
        ensures first { IfSome result (IsFirstBlock self.now path.now) }
        ensures free { IsNone result ↔ IsFree self.now path.now }
    {
        first_blocked(self.list(WallKind::Mbl), path)
    }
}

/// Whether the point is on a map of that size, its edges included.
pub fn is_on_map(size: Size, point: Point) -> bool
    ensures test { result ≡ on_map_test size point }
    ensures on_map { IsTrue result ↔ IsOnMap size point }
{
    point.x() <= 2 * size.w() as i32 && point.y() <= 2 * size.h() as i32
}

fn copy_list(walls: &Vec<Wall>) -> Result<Vec<Wall>, Memory>
    ensures { IfOk result (λ list. list.items ≡ walls.now.items) }
{
    Ok(walls.clone()?)
}

fn contains(walls: &[Wall], wall: &Wall) -> bool
    ensures { result ≡ has_wall wall.now walls.now }
{
    walls.iter().any(|other| wall.is_same(*other))
}

fn insert_wall(walls: &mut Vec<Wall>, wall: Wall) -> Result<(), WallFault>
    ensures items { walls.new.items ≡ (if is_ok result then with_wall wall walls.old.items else walls.old.items) }
    ensures fault { IfErr result (λ fault. fault ≡ WallFault.Memory) }
{
    let place = place_of(walls, &wall);
    match walls.insert(place, wall) {
        Ok(()) => Ok(()),
        Err(_) => Err(WallFault::Memory),
    }
}

fn remove_wall(walls: &mut Vec<Wall>, wall: &Wall)
    ensures { walls.new.items ≡ without_wall wall.now walls.old.items }
{
    walls.retain(|other| !wall.is_same(*other));
}

fn place_of(walls: &[Wall], wall: &Wall) -> usize
    ensures value { result ≡ place_of wall.now walls.now }
    ensures bound { result ≤ length walls.now }
{
    for (place, other) in walls.iter().enumerate() {
        if !other.is_before(*wall) {
            return place;
        }
    }
    walls.len()
}

fn first_blocked(walls: &[Wall], path: &[Point]) -> Option<usize>
    ensures { result ≡ find (block_test walls.now path.now) (range_with_len 0 (length path.now - 1)) }
{
    for next in 1..path.len() {
        if is_blocked(walls, path[next - 1], path[next]) {
            return Some(next - 1);
        }
    }
    None
}

fn is_blocked(walls: &[Wall], from: Point, to: Point) -> bool
    ensures { result ≡ list_any (λ wall. meet_test wall.first wall.second from to) walls.now }
{
    walls
        .iter()
        .any(|wall| meets(wall.first, wall.second, from, to))
}
