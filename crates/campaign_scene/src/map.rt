//! Maps: their names, sizes, modes and letters.
ghost use Rattle.std.specs.Prelude.{◌≡◌, ◌<◌, ◌≤◌, true, false, IfOk, IfErr, OnOk, None, Some, codes, length};
ghost use Rattle.std.specs.List.{list_all};
ghost use Rattle.serde_json.specs.View.{view, items_view};
ghost use Rattle.json_fields.specs.Objects.{Gives};
ghost use Rattle.names.specs.Letters.{is_letter as is_letter_lem};
ghost use Rattle.maps.specs.MapFaults.{map_fault};
ghost use Rattle.maps.specs.Maps.{has_map};
ghost use Rattle.world.specs.Rules.{size_of};
ghost use Rattle.campaign_json.specs.Kinds.{only};
ghost use Rattle.campaign_json.specs.Reading.{Fails, here, under, each, field};
ghost use Rattle.campaign_scene.specs.Kept.{kept};
ghost use Rattle.campaign_scene.specs.Maps.{frame, lettered, row as row_lem, row_letters as row_letters_lem, with_blank, rows as rows_lem, map_keys, new_name as new_name_lem, trail as trail_lem, heading as heading_lem, map as map_lem, maps as maps_lem};

use crate::wall::read_walls;
use campaign_json::fields::{self, check_object, check_only};
use campaign_json::{FileFault, Format, Rule, broken, broken_at, kinds};
use cells::{Rect, Size};
use maps::MAP_LIMIT;
use names::{Mode, Tag, WallKind, is_letter};
use serde_json::Value;
use std::alloc::Global;
use world::Scene;

/// The keys of a map of the first format.
const FIRST_KEYS: [&str; 8] = ["name", "w", "h", "mode", "shown", "rows", "vbl", "mbl"];

/// The keys of a map of the second format.
const SECOND_KEYS: [&str; 9] = [
    "name", "w", "h", "mode", "shown", "trail", "rows", "vbl", "mbl",
];

/// What a map says of itself before its letters and walls.
#[derive(Drop)]
struct Heading {
    name: Tag,
    size: Size,
    mode: Mode,
    shown: bool,
    trail: bool,
}

/// The scene with the maps of a campaign of that format.
pub fn read_maps(
    alloc: Global,
    format: Format,
    value: &Value,
    mut scene: Scene,
) -> Result<Scene, FileFault>
    ensures exact { Gives Fails (λ s. s) result (maps_lem format scene (view value.now)) }
    ensures kept { IfOk result (λ s. kept s ≡ kept scene) }
{
    add_maps(alloc, format, value, &mut scene)?;
    Ok(scene)
}

#[tactic(auto, unfolding(crate::specs::Maps::maps))]
fn add_maps(
    alloc: Global,
    format: Format,
    value: &Value,
    scene: &mut Scene,
) -> Result<(), FileFault>
    ensures exact { Gives Fails (λ u. scene.new) result (maps_lem format scene.old (view value.now)) }
    ensures kept { OnOk result (kept scene.new ≡ kept scene.old) }
{
    let values = fields::list(alloc, value, "maps", 0, 8)?;
    each_map(alloc, format, values, scene)
}

fn each_map(
    alloc: Global,
    format: Format,
    values: &[Value],
    scene: &mut Scene,
) -> Result<(), FileFault>
    ensures exact { Gives Fails (λ u. scene.new) result
        (under (codes "maps") (each (λ place. map_lem format) 0 scene.old (items_view values.now))) }
    ensures kept { OnOk result (kept scene.new ≡ kept scene.old) }
{
    for (place, value) in values.iter().enumerate() {
        match read_map(alloc, format, value, scene) {
            Ok(()) => {}
            Err(fault) => return Err(fault.under_item(alloc, "maps", place)),
        }
    }
    Ok(())
}

#[tactic(auto, unfolding(crate::specs::Maps::map))]
fn read_map(
    alloc: Global,
    format: Format,
    value: &Value,
    scene: &mut Scene,
) -> Result<(), FileFault>
    ensures exact { Gives Fails (λ u. scene.new) result (map_lem format scene.old (view value.now)) }
    ensures kept { OnOk result (kept scene.new ≡ kept scene.old) }
{
    let heading = read_heading(alloc, format, value, scene)?;
    let name = heading.name;
    let size = heading.size;
    add_blank(&heading, scene)?;
    read_rows(alloc, name, size, value, scene)?;
    read_walls(alloc, name, WallKind::Vbl, value, scene)?;
    read_walls(alloc, name, WallKind::Mbl, value, scene)?;
    check_keys(alloc, format, value)
}

/// The heading of a new map.
#[tactic(auto, unfolding(crate::specs::Maps::heading))]
fn read_heading(
    alloc: Global,
    format: Format,
    value: &Value,
    scene: &Scene,
) -> Result<Heading, FileFault>
    ensures exact { Gives Fails (λ m. m) result (heading_lem format scene.now (view value.now)) }
    ensures room { IfOk result (λ m. map_fault scene.now.maps m.name ≡ None) }
{
    check_object(alloc, value)?;
    let name = new_name(alloc, value, scene)?;
    let w = fields::whole(alloc, value, "w", 1, 96)? as u8;
    let h = fields::whole(alloc, value, "h", 1, 96)? as u8;
    let mode = fields::mode(alloc, value, "mode")?;
    let shown = fields::boolean(alloc, value, "shown")?;
    let trail = read_trail(alloc, format, value)?;
    let size = Size::new(w, h).unwrap();
    Ok(Heading {
        name,
        size,
        mode,
        shown,
        trail,
    })
}

/// Whether the map has a trail, which no map of the first format has.
fn read_trail(alloc: Global, format: Format, value: &Value) -> Result<bool, FileFault>
    ensures { Gives Fails (λ b. b) result (trail_lem format (view value.now)) }
{
    match format {
        Format::First => Ok(false),
        Format::Second => fields::boolean(alloc, value, "trail"),
    }
}

/// The map has no keys beside those of its format.
fn check_keys(alloc: Global, format: Format, value: &Value) -> Result<(), FileFault>
    ensures { Gives Fails (λ u. u) result (only (map_keys format) (view value.now)) }
{
    match format {
        Format::First => check_only(alloc, value, &FIRST_KEYS),
        Format::Second => check_only(alloc, value, &SECOND_KEYS),
    }
}

/// Adds a map of that heading, of a name that no map has.
#[tactic(auto, using(crate::proofs::Maps::blank_size))]
fn add_blank(heading: &Heading, scene: &mut Scene) -> Result<(), FileFault>
    requires { map_fault scene.old.maps heading.now.name ≡ None }
    ensures value { OnOk result (scene.new ≡ with_blank heading.now scene.old) }
    ensures memory { IfErr result (λ fault. fault ≡ FileFault.Memory) }
    ensures kept { OnOk result (kept scene.new ≡ kept scene.old) }
    ensures size { OnOk result (size_of heading.now.name scene.new.maps ≡ Some heading.now.size) }
{
    let name = heading.name;
    match scene.add_map(name, heading.size) {
        Ok(()) => {}
        Err(_) => return Err(FileFault::Memory),
    }
    scene.set_mode(name, heading.mode);
    scene.set_shown(name, heading.shown);
    scene.set_trail(name, heading.trail);
    Ok(())
}

/// The name of a new map.
fn new_name(alloc: Global, value: &Value, scene: &Scene) -> Result<Tag, FileFault>
    ensures exact { Gives Fails (λ t. t) result (field (codes "name") (new_name_lem scene.now) (view value.now)) }
    ensures room { IfOk result (λ t. map_fault scene.now.maps t ≡ None) }
{
    match checked_name(fields::needed(alloc, value, "name")?, scene) {
        Ok(name) => Ok(name),
        Err(rule) => Err(broken_at(alloc, "name", rule)),
    }
}

#[tactic(auto, unfolding(crate::specs::Maps::new_name))]
fn checked_name(value: &Value, scene: &Scene) -> Result<Tag, Rule>
    ensures exact { here (λ t. t) result ≡ new_name_lem scene.now (view value.now) }
    ensures room { IfOk result (λ t. map_fault scene.now.maps t ≡ None) }
{
    let name = kinds::tag(value)?;
    if scene.maps().get(name).is_some() {
        return Err(Rule::Twice);
    }
    if scene.maps().len() >= MAP_LIMIT {
        return Err(Rule::Range);
    }
    Ok(name)
}

/// Reads the letters of the map of that name, which is of that size.
#[tactic(auto, unfolding(crate::specs::Maps::rows))]
fn read_rows(
    alloc: Global,
    name: Tag,
    size: Size,
    value: &Value,
    scene: &mut Scene,
) -> Result<(), FileFault>
    requires { size_of name scene.old.maps ≡ Some size }
    ensures exact { Gives Fails (λ u. scene.new) result (rows_lem name size scene.old (view value.now)) }
    ensures kept { OnOk result (frame name scene.new ≡ frame name scene.old) }
{
    let rows = usize::from(size.h());
    let values = fields::list(alloc, value, "rows", rows, rows)?;
    each_row(alloc, name, size, values, scene)
}

fn each_row(
    alloc: Global,
    name: Tag,
    size: Size,
    values: &[Value],
    scene: &mut Scene,
) -> Result<(), FileFault>
    requires there { size_of name scene.old.maps ≡ Some size }
    requires count { length values.now ≤ size.h }
    ensures exact { Gives Fails (λ u. scene.new) result
        (under (codes "rows") (each (row_lem name size.w) 0 scene.old (items_view values.now))) }
    ensures kept { OnOk result (frame name scene.new ≡ frame name scene.old) }
{
    let _height = size.h();
    for (place, value) in values.iter().enumerate() {
        match read_row(alloc, name, size, place as u8, value, scene) {
            Ok(()) => {}
            Err(fault) => return Err(fault.under_item(alloc, "rows", place)),
        }
    }
    Ok(())
}

#[tactic(auto, unfolding(crate::specs::Maps::row))]
fn read_row(
    alloc: Global,
    name: Tag,
    size: Size,
    y: u8,
    value: &Value,
    scene: &mut Scene,
) -> Result<(), FileFault>
    requires there { size_of name scene.old.maps ≡ Some size }
    requires row { y < size.h }
    ensures exact { Gives Fails (λ u. scene.new) result (row_lem name size.w y scene.old (view value.now)) }
    ensures kept { OnOk result (frame name scene.new ≡ frame name scene.old) }
{
    match row_letters(value, size) {
        Ok(letters) => {
            set_letters(name, size, y, letters, scene);
            Ok(())
        }
        Err(rule) => Err(broken(alloc, rule)),
    }
}

/// The letters of a row.
#[tactic(auto, unfolding(crate::specs::Maps::row_letters))]
fn row_letters(value: &Value, size: Size) -> Result<&[u8], Rule>
    ensures value { here (λ s. s.now) result ≡ row_letters_lem size.w (view value.now) }
    ensures count { IfOk result (λ s. length s.now ≤ size.w) }
    ensures good { IfOk result (λ s. list_all is_letter_lem s.now ≡ true) }
{
    let width = usize::from(size.w());
    let letters = kinds::text(value, width, width)?.as_bytes();
    if !are_letters(letters) {
        return Err(Rule::Form);
    }
    Ok(letters)
}

fn are_letters(letters: &[u8]) -> bool
    ensures { result ≡ list_all is_letter_lem letters.now }
{
    letters.iter().all(|letter| is_letter(*letter))
}

/// Sets row `y` of the map of that name, which is of that size, to these letters.
fn set_letters(name: Tag, size: Size, y: u8, letters: &[u8], scene: &mut Scene)
    requires there { size_of name scene.old.maps ≡ Some size }
    requires row { y < size.h }
    requires count { length letters.now ≤ size.w }
    requires good { list_all is_letter_lem letters.now ≡ true }
    ensures value { scene.new ≡ lettered name y 0 scene.old letters.now }
    ensures kept { frame name scene.new ≡ frame name scene.old }
{
    let _width = size.w();
    for (x, letter) in letters.iter().enumerate() {
        let cell = Rect {
            x: x as u8,
            y,
            w: 1,
            h: 1,
        };
        scene.set_ground(name, cell, *letter);
    }
}
