//! Walls.
ghost use Rattle.std.specs.Prelude.{◌≡◌, OnOk};
ghost use Rattle.serde_json.specs.View.{view, items_view};
ghost use Rattle.json_fields.specs.Objects.{Gives};
ghost use Rattle.names.specs.Words.{wall_word};
ghost use Rattle.campaign_json.specs.Reading.{Fails, under, each};
ghost use Rattle.campaign_scene.specs.Kept.{kept};
ghost use Rattle.campaign_scene.specs.Maps.{IsWallBreach, point_on as point_on_lem, walled_at as walled_at_lem, wall as wall_lem, wall_ends as wall_ends_lem, walls as walls_lem};

use campaign_json::fields::{self, check_count};
use campaign_json::kinds::up_to;
use campaign_json::{FileFault, Rule, broken};
use cells::Size;
use lattice::Point;
use names::{Tag, WallKind};
use serde_json::Value;
use std::alloc::Global;
use topology::{MOST_WALLS, WallFault};
use world::Scene;

/// Reads the walls of that kind of the map of that name.
#[tactic(auto, unfolding(crate::specs::Maps::walls))]
pub(crate) fn read_walls(
    alloc: Global,
    name: Tag,
    kind: WallKind,
    value: &Value,
    scene: &mut Scene,
) -> Result<(), FileFault>
    ensures exact { Gives Fails (λ u. scene.new) result (walls_lem name kind scene.old (view value.now)) }
    ensures kept { OnOk result (kept scene.new ≡ kept scene.old) }
{
    let values = fields::list(alloc, value, kind.word(), 0, MOST_WALLS)?;
    each_wall(alloc, name, kind, values, scene)
}

fn each_wall(
    alloc: Global,
    name: Tag,
    kind: WallKind,
    values: &[Value],
    scene: &mut Scene,
) -> Result<(), FileFault>
    ensures exact { Gives Fails (λ u. scene.new) result
        (under (wall_word kind) (each (λ place. wall_lem name kind) 0 scene.old (items_view values.now))) }
    ensures kept { OnOk result (kept scene.new ≡ kept scene.old) }
{
    for (place, value) in values.iter().enumerate() {
        match read_wall(alloc, name, kind, value, scene) {
            Ok(()) => {}
            Err(fault) => return Err(fault.under_item(alloc, kind.word(), place)),
        }
    }
    Ok(())
}

#[tactic(auto, unfolding(crate::specs::Maps::wall))]
fn read_wall(
    alloc: Global,
    name: Tag,
    kind: WallKind,
    value: &Value,
    scene: &mut Scene,
) -> Result<(), FileFault>
    ensures exact { Gives Fails (λ u. scene.new) result (wall_lem name kind scene.old (view value.now)) }
    ensures kept { OnOk result (kept scene.new ≡ kept scene.old) }
{
    let (first, second) = wall_ends(alloc, value)?;
    add_wall(alloc, name, kind, first, second, scene)
}

/// The coordinates of a wall's ends.
#[tactic(auto, unfolding(crate::specs::Maps::wall_ends))]
fn wall_ends(alloc: Global, value: &Value) -> Result<((i64, i64), (i64, i64)), FileFault>
    ensures { Gives Fails (λ e. ((e.0.0, e.0.1), (e.1.0, e.1.1))) result (wall_ends_lem (view value.now)) }
{
    check_count(alloc, value, 4)?;
    let ax = fields::integer_item(alloc, value, 0)?;
    let ay = fields::integer_item(alloc, value, 1)?;
    let bx = fields::integer_item(alloc, value, 2)?;
    let by = fields::integer_item(alloc, value, 3)?;
    Ok(((ax, ay), (bx, by)))
}

/// Adds a wall between two points.
#[tactic(auto, unfolding(crate::specs::Maps::walled_at))]
fn add_wall(
    alloc: Global,
    name: Tag,
    kind: WallKind,
    first: (i64, i64),
    second: (i64, i64),
    scene: &mut Scene,
) -> Result<(), FileFault>
    ensures exact { Gives Fails (λ u. scene.new) result (walled_at_lem name kind first second scene.old) }
    ensures kept { OnOk result (kept scene.new ≡ kept scene.old) }
{
    let Some(grid) = scene.maps().get(name) else {
        return Err(broken(alloc, Rule::Cross));
    };
    let size = grid.size();
    let Some(a) = point_on(size, first) else {
        return Err(broken(alloc, Rule::Cross));
    };
    let Some(b) = point_on(size, second) else {
        return Err(broken(alloc, Rule::Cross));
    };
    match scene.add_wall(name, kind, a, b) {
        Ok(()) => Ok(()),
        Err(fault) => Err(wall_breach(alloc, fault)),
    }
}

/// The breach of a wall that isn't added.
fn wall_breach(alloc: Global, fault: WallFault) -> FileFault
    ensures { IsWallBreach fault result }
{
    match fault {
        WallFault::OffMap | WallFault::DegenerateWall => broken(alloc, Rule::Cross),
        WallFault::WallThere => broken(alloc, Rule::Twice),
        WallFault::WallLimit => broken(alloc, Rule::Range),
        WallFault::Memory => FileFault::Memory,
    }
}

/// The point of a map of that size with these coordinates, which are half cells.
fn point_on(size: Size, place: (i64, i64)) -> Option<Point>
    ensures { result ≡ point_on_lem size place.0 place.1 }
{
    let x = up_to(place.0, 2 * size.w())?;
    let y = up_to(place.1, 2 * size.h())?;
    Some(Point::new(i32::from(x), i32::from(y)).unwrap())
}
