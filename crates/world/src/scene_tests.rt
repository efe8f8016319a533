//! With ample memory each call of a world that takes memory gives its answer, and a copy has it too.

ghost use Rattle.std.specs.Prelude.{◌≡◌, Some, true};
ghost use Rattle.maps.specs.Maps.{has_map};
ghost use Rattle.world.specs.Rules.{is_player, size_of};

use crate::World;
use crate::tests::{opened, tag};
use cells::{CellSet, Size};
use lattice::Point;
use names::{SeatNo, Tag, WallKind};
use std::alloc::Global;
use std::process::Abort;

fn size(rt: &impl Abort) -> Size {
    Size::new(5, 4).expect(rt, "a size")
}

fn point(rt: &impl Abort, x: i32, y: i32) -> Point {
    Point::new(x, y).expect(rt, "a point")
}

fn map_there(rt: &impl Abort, world: &World, map: Tag)
    ensures { has_map map world.now.scene.maps ≡ true }
{
    assert!(rt; world.maps().get(map).is_some());
}

fn player_there(rt: &impl Abort, world: &World, seat: SeatNo)
    ensures { is_player world.now.scene.fog.players seat ≡ true }
{
    assert!(rt; 1 <= seat.number() && seat.number() <= world.fog().players());
}

/// All cells of the map.
fn whole(rt: &impl Abort, alloc: Global, world: &World, map: Tag) -> CellSet
    ensures { size_of map world.now.scene.maps ≡ Some result.extent }
{
    let map = world.maps().get(map).expect(rt, "a map");
    let mut seen = CellSet::new(alloc, map.size()).expect(rt, "memory");
    seen.fill();
    seen
}

fn build(rt: &impl Abort, world: &mut World, map: Tag) {
    let (a, b) = (point(rt, 0, 0), point(rt, 4, 2));
    map_there(rt, world, map);
    world
        .add_wall(map, WallKind::Vbl, a, b)
        .expect(rt, "a wall");
}

fn declare(rt: &impl Abort, world: &mut World) {
    world
        .set_light_type(tag(rt, "torch"), 4)
        .expect(rt, "a light");
    world
        .set_sight_type(tag(rt, "human"), 9, 0, 2)
        .expect(rt, "a sight");
}

fn see(rt: &impl Abort, alloc: Global, world: &mut World, map: Tag) {
    let ann = SeatNo::new(1).expect(rt, "a seat");
    let seen = whole(rt, alloc, world, map);
    player_there(rt, world, ann);
    world.after_sight(ann, map, &seen);
}

fn filled(rt: &impl Abort, alloc: Global) -> World {
    let mut world = opened(rt, alloc);
    let cave = tag(rt, "n10");
    for name in ["n2", "n10", "n1"] {
        world.add_map(tag(rt, name), size(rt)).expect(rt, "a map");
    }
    build(rt, &mut world, cave);
    declare(rt, &mut world);
    see(rt, alloc, &mut world, cave);
    world
}

/// The most cells that are exposed to a player on a map.
fn exposed(world: &World) -> u32 {
    let mut most = 0;
    for set in world.fog().sets() {
        most = most.max(set.cells.count());
    }
    most
}

#[test]
fn a_world_is_copied(rt: HostRuntime) {
    let copy = filled(&rt, rt.alloc()).copy().expect(&rt, "memory");
    let maps = copy.maps();
    let counts = (maps.len(), copy.lights().len(), copy.sights().len());
    assert_eq!(rt; counts, (3, 1, 1));
    let cave = maps.at(1);
    let last = (cave.walls().count(WallKind::Vbl), exposed(&copy));
    assert_eq!(rt; last, (1, 20));
    assert!(rt; cave.name() == tag(&rt, "n10"));
}
