//! Maps as values of the campaign text.
ghost use Rattle.std.specs.Prelude.{◌≡◌, ◌<◌, IfOk, OnOk};
ghost use Rattle.serde_json.specs.Data.{string};
ghost use Rattle.serde_json.specs.View.{view, members_view};
ghost use Rattle.topology.specs.WallLists.{AreWalls, walls_of};
ghost use Rattle.campaign_writing.specs.Kept.{AreKeptMaps, IsKeptMap};
ghost use Rattle.campaign_writing.specs.Scenes.{map_members as map_members_lem, map_tree, maps_tree, with_trail, row_letters, rows_tree, wall_tree, walls_tree};

use crate::values::{name, put_member};
use campaign_json::Format;
use cells::Cell;
use maps::{GridMap, MapTable};
use names::WallKind;
use serde_json::{Map, Value, json};
use std::alloc::{AllocError, Global};
use topology::{Wall, Walls};

fn wall(alloc: Global, wall: &Wall) -> Result<Value, AllocError>
    ensures { IfOk result (λ v. view v ≡ wall_tree wall.now) }
{
    json!(in alloc; [wall.first.x(), wall.first.y(), wall.second.x(), wall.second.y()])
}

/// The walls of a kind, in their order.
fn walls(alloc: Global, walls: &Walls, kind: WallKind) -> Result<Value, AllocError>
    ensures tree { IfOk result (λ v. view v ≡ walls_tree (walls_of walls.now kind)) }
    ensures kept { OnOk result (AreWalls walls.now.extent (walls_of walls.now kind)) }
{
    let mut list = Vec::with_capacity(alloc, walls.count(kind))?;
    for one in walls.list(kind) {
        list.push(wall(alloc, one)?)?;
    }
    Ok(Value::Array(list))
}

/// The letters of row `y`.
fn row(alloc: Global, map: &GridMap, y: u8) -> Result<Value, AllocError>
    requires { y < map.now.walls.extent.h }
    ensures { IfOk result (λ v. view v ≡ string (row_letters map.now y)) }
{
    let mut text = String::new(alloc);
    for x in 0..map.size().w() {
        text.push(char::from(map.letter(Cell { x, y })))?;
    }
    Ok(Value::String(text))
}

fn rows(alloc: Global, map: &GridMap) -> Result<Value, AllocError>
    ensures { IfOk result (λ v. view v ≡ rows_tree map.now) }
{
    let mut list = Vec::new(alloc);
    for y in 0..map.size().h() {
        list.push(row(alloc, map, y)?)?;
    }
    Ok(Value::Array(list))
}

/// Puts in whether a map has a trail, of which the first format has no word.
fn put_trail(
    members: &mut Map<String, Value>,
    alloc: Global,
    format: Format,
    on: bool,
) -> Result<(), AllocError>
    ensures { OnOk result (members_view members.new.entries ≡ with_trail format on (members_view members.old.entries)) }
{
    match format {
        Format::First => Ok(()),
        Format::Second => put_member(members, alloc, "trail", Value::Bool(on)),
    }
}

#[tactic(auto, unfolding(crate::specs::Scenes::map_members))]
fn map_members(
    alloc: Global,
    format: Format,
    map: &GridMap,
) -> Result<Map<String, Value>, AllocError>
    ensures tree { IfOk result (λ members. members_view members.entries ≡ map_members_lem format map.now) }
    ensures kept { OnOk result (IsKeptMap map.now) }
{
    let mut members = Map::new(alloc);
    put_member(&mut members, alloc, "h", Value::from(map.size().h()))?;
    put_member(
        &mut members,
        alloc,
        "mbl",
        walls(alloc, map.walls(), WallKind::Mbl)?,
    )?;
    put_member(&mut members, alloc, "mode", word(alloc, map.mode().word())?)?;
    put_member(&mut members, alloc, "name", name(alloc, map.name())?)?;
    put_member(&mut members, alloc, "rows", rows(alloc, map)?)?;
    put_member(&mut members, alloc, "shown", Value::Bool(map.shown()))?;
    put_trail(&mut members, alloc, format, map.trail())?;
    put_member(
        &mut members,
        alloc,
        "vbl",
        walls(alloc, map.walls(), WallKind::Vbl)?,
    )?;
    put_member(&mut members, alloc, "w", Value::from(map.size().w()))?;
    Ok(members)
}

fn map_value(alloc: Global, format: Format, map: &GridMap) -> Result<Value, AllocError>
    ensures tree { IfOk result (λ v. view v ≡ map_tree format map.now) }
    ensures kept { OnOk result (IsKeptMap map.now) }
{
    let members = map_members(alloc, format, map)?;
    Ok(Value::Object(members))
}

fn word(alloc: Global, word: &str) -> Result<Value, AllocError>
    ensures { IfOk result (λ v. view v ≡ string word.now) }
{
    json!(in alloc; word)
}

/// The maps, in byte order of their names.
pub(crate) fn maps_value(
    alloc: Global,
    format: Format,
    maps: &MapTable,
) -> Result<Value, AllocError>
    ensures tree { IfOk result (λ v. view v ≡ maps_tree format maps.now) }
    ensures kept { OnOk result (AreKeptMaps maps.now) }
{
    let mut list = Vec::new(alloc);
    for place in 0..maps.len() {
        list.push(map_value(alloc, format, maps.at(place))?)?;
    }
    Ok(Value::Array(list))
}
