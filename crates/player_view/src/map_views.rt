//! The maps of a seat's view.
ghost use Rattle.std.specs.Prelude.{◌≡◌, ◌<◌, ◌≤◌, ◌+◌, ◌++◌, ◌∷◌, [], Some, None, true, IfOk, IfSome, OnOk, map, option_copied, take, length, if◌then◌else◌};
ghost use Rattle.std.specs.List.{filter, find, position};
ghost use Rattle.std.specs.Str.{bytes_eq};
ghost use Rattle.fog_book.specs.Exposures.{is_of};
ghost use Rattle.maps.specs.Maps.{map_of};
ghost use Rattle.player_view.specs.Fields.{HasFields};
ghost use Rattle.player_view.specs.Lettered.{HaveLetters};
ghost use Rattle.player_view.specs.Seen.{AreSeen};
ghost use Rattle.player_view.specs.Shown.{exposed};
ghost use Rattle.player_view.specs.Sight.{visible};
ghost use Rattle.player_view.specs.View.{all_cells, exposed_to, has_map, letters_in, map_view, seen_by};
ghost use Rattle.player_view.specs.Walk.{run_letters};

use crate::looks::look_over;
use crate::reads::{has_map, is_gm, map_at};
use cells::{Cell, CellSet, Run};
use fog_book::Exposure;
use maps::GridMap;
use names::{Memory, SeatNo, Tag};
use std::alloc::Global;
use views::{Letters, MapView, MapViews};
use vision::Fields;
use world::Scene;

fn all_cells(alloc: Global, map: &GridMap) -> Result<CellSet, Memory>
    ensures { IfOk result (λ cells. cells ≡ all_cells map.now) }
{
    let mut cells = CellSet::new(alloc, map.size())?;
    cells.fill();
    Ok(cells)
}

/// What the player's tokens see of the map, found anew.
fn look_anew(
    alloc: Global,
    scene: &Scene,
    seat: SeatNo,
    map: &GridMap,
    fields: &Fields,
) -> Result<CellSet, Memory>
    requires there { map_of map.now.name scene.now.maps ≡ Some map.now }
    requires fields { HasFields scene.now fields.now }
    ensures { IfOk result (λ cells. cells ≡ visible scene.now seat map.now) }
{
    let mut cells = CellSet::new(alloc, map.size())?;
    look_over(alloc, scene, seat, map, fields, &mut cells)?;
    Ok(cells)
}

/// The place of the player's set on the map of that name, if there is one.
fn place_of(sets: &[Exposure], seat: SeatNo, name: Tag) -> Option<usize>
    ensures { result ≡ position (is_of seat name) sets.now }
{
    sets.iter()
        .position(|set| set.seat == seat && set.map == name)
}

/// What stands at the place of the player's set on the map, if anything does.
fn found_at<'a>(
    scene: &Scene,
    seat: SeatNo,
    map: &GridMap,
    seen: &'a [Option<CellSet>],
) -> Option<&'a Option<CellSet>>
    requires there { map_of map.now.name scene.now.maps ≡ Some map.now }
    requires seen { AreSeen scene.now seen.now }
    ensures { IfSome (option_copied result) (λ found. IfSome found (λ cells. cells ≡ visible scene.now seat map.now)) }
{
    match place_of(scene.fog().sets(), seat, map.name()) {
        Some(place) => seen.get(place),
        None => None,
    }
}

/// What was found before of what the player sees of the map, if it was.
fn found_before<'a>(
    scene: &Scene,
    seat: SeatNo,
    map: &GridMap,
    seen: &'a [Option<CellSet>],
) -> Option<&'a CellSet>
    requires there { map_of map.now.name scene.now.maps ≡ Some map.now }
    requires seen { AreSeen scene.now seen.now }
    ensures { IfSome (option_copied result) (λ cells. cells ≡ visible scene.now seat map.now) }
{
    match found_at(scene, seat, map, seen) {
        Some(Some(cells)) => Some(cells),
        Some(None) | None => None,
    }
}

/// What the player's tokens see of the map, as it was found before, where it was.
fn visible(
    alloc: Global,
    scene: &Scene,
    seat: SeatNo,
    map: &GridMap,
    fields: &Fields,
    seen: &[Option<CellSet>],
) -> Result<CellSet, Memory>
    requires there { map_of map.now.name scene.now.maps ≡ Some map.now }
    requires fields { HasFields scene.now fields.now }
    requires seen { AreSeen scene.now seen.now }
    ensures { IfOk result (λ cells. cells ≡ visible scene.now seat map.now) }
{
    match found_before(scene, seat, map, seen) {
        Some(cells) => cells.copy(),
        None => look_anew(alloc, scene, seat, map, fields),
    }
}

/// The cells of the map that the seat has in sight.
fn seen_by(
    alloc: Global,
    scene: &Scene,
    seat: SeatNo,
    map: &GridMap,
    fields: &Fields,
    seen: &[Option<CellSet>],
) -> Result<CellSet, Memory>
    requires there { map_of map.now.name scene.now.maps ≡ Some map.now }
    requires fields { HasFields scene.now fields.now }
    requires seen { AreSeen scene.now seen.now }
    ensures { IfOk result (λ cells. cells ≡ seen_by scene.now seat map.now) }
{
    if is_gm(seat) {
        all_cells(alloc, map)
    } else {
        visible(alloc, scene, seat, map, fields, seen)
    }
}

/// What is exposed to the player of the map.
fn exposed<'a>(scene: &'a Scene, seat: SeatNo, map: &GridMap) -> &'a CellSet
    requires there { map_of map.now.name scene.now.maps ≡ Some map.now }
    requires player { 1 ≤ seat }
    requires seat { seat ≤ scene.now.fog.players }
    ensures value { result.now ≡ exposed scene.now seat map.now }
    ensures size { result.now.extent ≡ map.now.walls.extent }
{
    let fog = scene.fog();
    fog.exposed(seat, map.name())
}

fn exposed_to(alloc: Global, scene: &Scene, seat: SeatNo, map: &GridMap) -> Result<CellSet, Memory>
    requires there { map_of map.now.name scene.now.maps ≡ Some map.now }
    requires seat { seat ≤ scene.now.fog.players }
    ensures value { IfOk result (λ cells. cells ≡ exposed_to scene.now seat map.now) }
    ensures size { IfOk result (λ cells. cells.extent ≡ map.now.walls.extent) }
{
    if is_gm(seat) {
        all_cells(alloc, map)
    } else {
        exposed(scene, seat, map).copy()
    }
}

/// A list with room for so many items.
pub(crate) fn room_for<T>(alloc: Global, count: usize) -> Result<Vec<T>, Memory>
    ensures { IfOk result (λ list. list.items ≡ []) }
{
    Ok(Vec::with_capacity(alloc, count)?)
}

fn push_letter(list: &mut Vec<(Cell, u8)>, letter: (Cell, u8)) -> Result<(), Memory>
    ensures { OnOk result (list.new.items ≡ list.old.items ++ letter ∷ []) }
{
    list.push(letter)?;
    Ok(())
}

/// Adds the letters of the run's cells.
fn add_run(map: &GridMap, run: Run, list: &mut Vec<(Cell, u8)>) -> Result<(), Memory>
    requires row { run.y < map.now.walls.extent.h }
    requires some { run.x0 ≤ run.x1 }
    requires columns { run.x1 < map.now.walls.extent.w }
    ensures { OnOk result (list.new.items ≡ list.old.items ++ run_letters map.now run) }
{
    // The map tells with its size how many columns it has at most.
    let _size = map.size();
    for x in run.x0..run.x1 + 1 {
        let cell = Cell { x, y: run.y };
        push_letter(list, (cell, map.letter(cell)))?;
    }
    Ok(())
}

/// The letters of the set's cells.
fn letters_in(alloc: Global, map: &GridMap, cells: &CellSet) -> Result<Letters, Memory>
    requires { cells.now.extent ≡ map.now.walls.extent }
    ensures { IfOk result (λ letters. letters ≡ letters_in map.now cells.now) }
{
    Letters::new(letter_list(alloc, map, cells)?)
}

fn letter_list(alloc: Global, map: &GridMap, cells: &CellSet) -> Result<Vec<(Cell, u8)>, Memory>
    requires { cells.now.extent ≡ map.now.walls.extent }
    ensures { IfOk result (λ list. list.items ≡ letters_in map.now cells.now) }
{
    let mut list = room_for(alloc, cells.count() as usize)?;
    for run in cells.runs() {
        add_run(map, run, &mut list)?;
    }
    Ok(list)
}

/// The view of the map of that name, if there is one.
pub(crate) fn find_view(views: &[MapView], name: Tag) -> Option<&MapView>
    ensures { option_copied result ≡ find (λ view. bytes_eq view.name name) views.now }
{
    views.iter().find(|view| view.name == name)
}

/// The older view of the map, if there is one.
fn older_of<'a>(scene: &Scene, older: &'a [MapView], map: &GridMap) -> Option<&'a MapView>
    requires there { map_of map.now.name scene.now.maps ≡ Some map.now }
    requires older { HaveLetters scene.now.maps older.now }
    ensures { IfSome (option_copied result) (λ v. v.letters ≡ letters_in map.now v.exposed) }
{
    let _scene = scene;
    find_view(older, map.name())
}

/// The letters of the set's cells: those of the older view, where it exposes the same cells.
fn letters_like(
    alloc: Global,
    map: &GridMap,
    cells: &CellSet,
    older: Option<&MapView>,
) -> Result<Letters, Memory>
    requires cells { cells.now.extent ≡ map.now.walls.extent }
    requires older { IfSome (option_copied older) (λ v. v.letters ≡ letters_in map.now v.exposed) }
    ensures { IfOk result (λ letters. letters ≡ letters_in map.now cells.now) }
{
    if let Some(older) = older {
        if older.exposed.size() == cells.size() && older.exposed.equals(cells) {
            return older.letters.share();
        }
    }
    letters_in(alloc, map, cells)
}

fn shown_if(gm: bool, shown: bool) -> Option<bool>
    ensures { result ≡ (if gm then Some shown else None) }
{
    if gm { Some(shown) } else { None }
}

/// The map as the seat is shown it.
fn map_view(
    alloc: Global,
    scene: &Scene,
    seat: SeatNo,
    map: &GridMap,
    fields: &Fields,
    older: &[MapView],
    seen: &[Option<CellSet>],
) -> Result<MapView, Memory>
    requires there { map_of map.now.name scene.now.maps ≡ Some map.now }
    requires older { HaveLetters scene.now.maps older.now }
    requires seat { seat ≤ scene.now.fog.players }
    requires fields { HasFields scene.now fields.now }
    requires seen { AreSeen scene.now seen.now }
    ensures { IfOk result (λ view. view ≡ map_view scene.now seat map.now) }
{
    let seen = seen_by(alloc, scene, seat, map, fields, seen)?;
    let exposed = exposed_to(alloc, scene, seat, map)?;
    let letters = letters_like(alloc, map, &exposed, older_of(scene, older, map))?;
    Ok(MapView {
        name: map.name(),
        size: map.size(),
        mode: map.mode(),
        shown: shown_if(is_gm(seat), map.shown()),
        seen,
        exposed,
        letters,
    })
}

fn add_map(
    alloc: Global,
    scene: &Scene,
    seat: SeatNo,
    place: usize,
    fields: &Fields,
    older: &[MapView],
    seen: &[Option<CellSet>],
    list: &mut Vec<MapView>,
) -> Result<(), Memory>
    requires older { HaveLetters scene.now.maps older.now }
    requires place { place < length scene.now.maps }
    requires seat { seat ≤ scene.now.fog.players }
    requires fields { HasFields scene.now fields.now }
    requires seen { AreSeen scene.now seen.now }
    requires so_far { list.old.items ≡ map (map_view scene.now seat) (filter (has_map seat) (take place scene.now.maps)) }
    ensures { OnOk result (list.new.items ≡ map (map_view scene.now seat) (filter (has_map seat) (take (place + 1) scene.now.maps))) }
{
    let map = map_at(scene, place);
    if !has_map(seat, map) {
        return Ok(());
    }
    let view = map_view(alloc, scene, seat, map, fields, older, seen)?;
    push_map(list, view)?;
    Ok(())
}

fn push_map(list: &mut Vec<MapView>, view: MapView) -> Result<(), Memory>
    ensures { OnOk result (list.new.items ≡ list.old.items ++ view ∷ []) }
{
    list.push(view)?;
    Ok(())
}

/// The maps that the seat is shown; letters are taken from older views of maps with the same letters, where they serve,
/// and what a player sees from `seen`, where it is there.
pub(crate) fn map_views(
    alloc: Global,
    scene: &Scene,
    seat: SeatNo,
    fields: &Fields,
    older: &[MapView],
    seen: &[Option<CellSet>],
) -> Result<MapViews, Memory>
    requires older { HaveLetters scene.now.maps older.now }
    requires seat { seat ≤ scene.now.fog.players }
    requires fields { HasFields scene.now fields.now }
    requires seen { AreSeen scene.now seen.now }
    ensures { IfOk result (λ views. views ≡ map (map_view scene.now seat) (filter (has_map seat) scene.now.maps)) }
{
    let mut list = Vec::new(alloc);
    for place in 0..scene.maps().len() {
        add_map(alloc, scene, seat, place, fields, older, seen, &mut list)?;
    }
    Ok(MapViews { list })
}
