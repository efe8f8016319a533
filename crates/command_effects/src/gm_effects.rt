//! What an accepted command of the game master does to the scene.
ghost use Rattle.std.specs.Prelude.{◌≡◌, IfOk, IfSome, None, true, false, unwrap_or};
ghost use Rattle.names.specs.Letters.{is_letter};
ghost use Rattle.initiative.specs.Fights.{no_fight, passed};
ghost use Rattle.maps.specs.Maps.{has_map, map_of, shown_if as map_shown_if, trail_if, with_letters as with_letters_lem, with_mode as with_mode_lem, with_wall_of, without_wall_of};
ghost use Rattle.maps.specs.MapFaults.{map_fault};
ghost use Rattle.lights.specs.Lights.{light_fault};
ghost use Rattle.sight_types.specs.Sights.{sight_fault};
ghost use Rattle.topology.specs.Order.{wall_between};
ghost use Rattle.topology.specs.WallFaults.{wall_fault};
ghost use Rattle.topology.specs.WallLists.{has_wall, walls_of};
ghost use Rattle.type_table.specs.Types.{with_type};
ghost use Rattle.tokens.specs.Tokens.{has_token, on_layer as on_layer_lem, owned_by as owned_by_lem, placed as placed_lem, shown_if, with_sight as with_sight_lem};
ghost use Rattle.world.specs.Rules.{is_known, is_player};
ghost use Rattle.world.specs.Scene.{with_grid, with_new_map as with_new_map_lem, with_token};
ghost use Rattle.command_json.specs.Limits.{IsNumber};
ghost use Rattle.command_rules.specs.Places.{cell_at as cell_at_lem, coordinate as coordinate_lem, point_at as point_at_lem, rect_at as rect_at_lem};
ghost use Rattle.command_effects.specs.Making.{new_token as new_token_lem, with_new as with_new_lem};
ghost use Rattle.command_effects.specs.GmEffects.{gm_scene_by as gm_scene_by_lem, sight_by, with_fog};
ghost use Rattle.command_effects.specs.Allowed.{IsAllowed, MayFill, MayPlace, MayStand, MayWall};
ghost use Rattle.command_effects.specs.Tags.{MakesNew};

use crate::effects::with_prop;
use crate::making::{cell_on, new_token, with_new};
use cells::{Rect, Size};
use command_json::Command;
use command_rules::{coordinate, point_at, rect_at};
use lattice::Point;
use lights::LightFault;
use maps::MapFault;
use names::{Layer, Memory, Mode, PropClass, SeatNo, Tag, Text, TokenId, WallKind};
use sight_types::SightFault;
use std::alloc::Global;
use tokens::Owners;
use topology::WallFault;
use world::Scene;

// ---- maps

/// The size of so many cells.
fn size_of(w: i32, h: i32) -> Size
    requires w { IsNumber 1 96 w }
    requires h { IsNumber 1 96 h }
    ensures { result ≡ record { w = coordinate_lem w; h = coordinate_lem h } }
{
    match Size::new(w as u8, h as u8) {
        Some(size) => size,
        None => unreachable!(),
    }
}

fn with_new_map(scene: &Scene, name: &Tag, size: Size) -> Result<Scene, Memory>
    requires { map_fault scene.now.maps name.now ≡ None }
    ensures { IfOk result (λ s. s ≡ with_new_map_lem name.now size scene.now) }
{
    let mut after = scene.copy()?;
    match after.add_map(*name, size) {
        Ok(()) => Ok(after),
        Err(MapFault::Memory) => Err(Memory),
        Err(MapFault::MapExists | MapFault::MapLimit) => unreachable!(),
    }
}

fn with_mode(scene: &Scene, map: &Tag, mode: Mode) -> Result<Scene, Memory>
    requires { has_map map.now scene.now.maps ≡ true }
    ensures { IfOk result (λ s. s ≡ with_grid map.now (with_mode_lem mode) scene.now) }
{
    let mut after = scene.copy()?;
    after.set_mode(*map, mode);
    Ok(after)
}

fn with_shown(scene: &Scene, map: &Tag, on: bool) -> Result<Scene, Memory>
    requires { has_map map.now scene.now.maps ≡ true }
    ensures { IfOk result (λ s. s ≡ with_grid map.now (map_shown_if on) scene.now) }
{
    let mut after = scene.copy()?;
    after.set_shown(*map, on);
    Ok(after)
}

/// The rectangle, which is on the map.
fn rect_on(scene: &Scene, map: &Tag, rect: (i32, i32, i32, i32)) -> Rect
    requires { MayFill scene.now map.now rect }
    ensures { result ≡ rect_at_lem rect }
{
    let Some(map) = scene.maps().get(*map) else {
        unreachable!();
    };
    rect_at(map.size(), rect)
}

fn with_letters(
    scene: &Scene,
    map: &Tag,
    rect: (i32, i32, i32, i32),
    letter: u8,
) -> Result<Scene, Memory>
    requires fits { MayFill scene.now map.now rect }
    requires letter { is_letter letter ≡ true }
    ensures { IfOk result (λ s. s ≡ with_grid map.now (with_letters_lem (rect_at_lem rect) letter) scene.now) }
{
    let rect = rect_on(scene, map, rect);
    let mut after = scene.copy()?;
    after.set_ground(*map, rect, letter);
    Ok(after)
}

fn with_trail(scene: &Scene, map: &Tag, on: bool) -> Result<Scene, Memory>
    requires { has_map map.now scene.now.maps ≡ true }
    ensures { IfOk result (λ s. s ≡ with_grid map.now (trail_if on) scene.now) }
{
    let mut after = scene.copy()?;
    after.set_trail(*map, on);
    Ok(after)
}

// ---- walls

/// The points, which are on the map.
fn points_on(scene: &Scene, map: &Tag, a: (i32, i32), b: (i32, i32)) -> (Point, Point)
    requires { MayWall scene.now map.now a b }
    ensures first { result.0 ≡ point_at_lem a }
    ensures second { result.1 ≡ point_at_lem b }
{
    let Some(map) = scene.maps().get(*map) else {
        unreachable!();
    };
    (point_at(map.size(), a), point_at(map.size(), b))
}

fn with_wall(
    scene: &Scene,
    map: &Tag,
    kind: WallKind,
    a: (i32, i32),
    b: (i32, i32),
) -> Result<Scene, Memory>
    requires ends { MayWall scene.now map.now a b }
    requires new { IfSome (map_of map.now scene.now.maps) (λ m. wall_fault m.walls kind (point_at_lem a) (point_at_lem b) ≡ None) }
    ensures { IfOk result (λ s. s ≡ with_grid map.now (with_wall_of kind (point_at_lem a) (point_at_lem b)) scene.now) }
{
    let (a, b) = points_on(scene, map, a, b);
    let mut after = scene.copy()?;
    match after.add_wall(*map, kind, a, b) {
        Ok(()) => Ok(after),
        Err(WallFault::Memory) => Err(Memory),
        Err(_) => unreachable!(),
    }
}

fn without_wall(
    scene: &Scene,
    map: &Tag,
    kind: WallKind,
    a: (i32, i32),
    b: (i32, i32),
) -> Result<Scene, Memory>
    requires ends { MayWall scene.now map.now a b }
    requires there { IfSome (map_of map.now scene.now.maps) (λ m. has_wall (wall_between (point_at_lem a) (point_at_lem b))
        (walls_of m.walls kind) ≡ true) }
    ensures { IfOk result (λ s. s ≡ with_grid map.now (without_wall_of kind (point_at_lem a) (point_at_lem b)) scene.now) }
{
    let (a, b) = points_on(scene, map, a, b);
    let mut after = scene.copy()?;
    match after.cut_wall(*map, kind, a, b) {
        Ok(()) => Ok(after),
        Err(_) => unreachable!(),
    }
}

// ---- types

fn with_light_type(scene: &Scene, name: &Tag, radius: &i32) -> Result<Scene, Memory>
    requires { light_fault scene.now.lights name.now radius.now ≡ None }
    ensures { IfOk result (λ s. s ≡ record scene.now { lights = with_type name.now radius.now scene.now.lights }) }
{
    let mut after = scene.copy()?;
    match after.set_light_type(*name, *radius) {
        Ok(()) => Ok(after),
        Err(LightFault::Memory) => Err(Memory),
        Err(LightFault::BadRadius | LightFault::TypeLimit) => unreachable!(),
    }
}

fn with_sight_type(
    scene: &Scene,
    name: &Tag,
    range: &i32,
    night: &i32,
    mult: &i32,
) -> Result<Scene, Memory>
    requires { sight_fault scene.now.sights name.now (coordinate_lem range.now) (coordinate_lem night.now) (coordinate_lem mult.now)
        ≡ None }
    ensures { IfOk result (λ s. s ≡ record scene.now {
      sights = with_type name.now (sight_by range.now night.now mult.now) scene.now.sights;
    }) }
{
    let mut after = scene.copy()?;
    match after.set_sight_type(
        *name,
        coordinate(*range),
        coordinate(*night),
        coordinate(*mult),
    ) {
        Ok(()) => Ok(after),
        Err(SightFault::Memory) => Err(Memory),
        Err(SightFault::BadRange | SightFault::TypeLimit) => unreachable!(),
    }
}

// ---- tokens

/// How many cells wide and high a token of the size is.
fn side_of(size: &i32) -> u8
    requires { IsNumber 1 4 size.now }
    ensures { result ≡ coordinate_lem size.now }
{
    *size as u8
}

/// The scene once the game master, whose seat this is, made the token.
fn with_gm_token(
    alloc: Global,
    scene: &Scene,
    seat: SeatNo,
    tag: &Tag,
    map: &Tag,
    place: (i32, i32),
    name: &Text,
    size: u8,
    layer: Layer,
) -> Result<Scene, Memory>
    requires absent { has_token (record { maker = seat; tag = tag.now }) scene.now.tokens ≡ false }
    requires stands { MayStand scene.now map.now size place }
    ensures { IfOk result (λ s. s ≡ with_new_lem (new_token_lem seat tag.now map.now place name.now size layer 0) scene.now) }
{
    let id = TokenId {
        maker: seat,
        tag: *tag,
    };
    let cell = cell_on(scene, map, size, place);
    let token = new_token(alloc, id, *map, cell, name, size, layer, Owners::none())?;
    with_new(scene, token)
}

fn with_owner(scene: &Scene, id: &TokenId, seat: SeatNo, on: bool) -> Result<Scene, Memory>
    requires there { has_token id.now scene.now.tokens ≡ true }
    requires player { is_player scene.now.fog.players seat ≡ true }
    ensures { IfOk result (λ s. s ≡ with_token id.now (owned_by_lem seat on) scene.now) }
{
    let mut after = scene.copy()?;
    after.set_owner(*id, seat, on);
    Ok(after)
}

fn on_layer(scene: &Scene, id: &TokenId, layer: Layer) -> Result<Scene, Memory>
    requires { has_token id.now scene.now.tokens ≡ true }
    ensures { IfOk result (λ s. s ≡ with_token id.now (on_layer_lem layer) scene.now) }
{
    let mut after = scene.copy()?;
    after.set_layer(*id, layer);
    Ok(after)
}

fn with_visible(scene: &Scene, id: &TokenId, on: bool) -> Result<Scene, Memory>
    requires { has_token id.now scene.now.tokens ≡ true }
    ensures { IfOk result (λ s. s ≡ with_token id.now (shown_if on) scene.now) }
{
    let mut after = scene.copy()?;
    after.set_visible(*id, on);
    Ok(after)
}

fn with_sight(scene: &Scene, id: &TokenId, sight: &Option<Tag>) -> Result<Scene, Memory>
    requires there { has_token id.now scene.now.tokens ≡ true }
    requires known { is_known scene.now.sights sight.now ≡ true }
    ensures { IfOk result (λ s. s ≡ with_token id.now (with_sight_lem sight.now) scene.now) }
{
    let mut after = scene.copy()?;
    after.set_sight(*id, *sight);
    Ok(after)
}

fn placed(scene: &Scene, id: &TokenId, map: &Tag, place: (i32, i32)) -> Result<Scene, Memory>
    requires { MayPlace scene.now id.now map.now place }
    ensures { IfOk result (λ s. s ≡ with_token id.now (placed_lem map.now (cell_at_lem place)) scene.now) }
{
    let Some(token) = scene.tokens().get(*id) else {
        unreachable!();
    };
    let cell = cell_on(scene, map, token.size, place);
    let mut after = scene.copy()?;
    after.place(*id, *map, cell);
    Ok(after)
}

// ---- fog

fn exposed(
    scene: &Scene,
    seat: SeatNo,
    map: &Tag,
    rect: (i32, i32, i32, i32),
) -> Result<Scene, Memory>
    requires fits { MayFill scene.now map.now rect }
    requires player { is_player scene.now.fog.players seat ≡ true }
    ensures { IfOk result (λ s. s ≡ with_fog seat map.now rect true scene.now) }
{
    let rect = rect_on(scene, map, rect);
    let mut after = scene.copy()?;
    after.expose(seat, *map, rect);
    Ok(after)
}

fn hidden(
    scene: &Scene,
    seat: SeatNo,
    map: &Tag,
    rect: (i32, i32, i32, i32),
) -> Result<Scene, Memory>
    requires fits { MayFill scene.now map.now rect }
    requires player { is_player scene.now.fog.players seat ≡ true }
    ensures { IfOk result (λ s. s ≡ with_fog seat map.now rect false scene.now) }
{
    let rect = rect_on(scene, map, rect);
    let mut after = scene.copy()?;
    after.hide(seat, *map, rect);
    Ok(after)
}

// ---- the fight

/// The scene once the turn passed on.
fn with_next_turn(scene: &Scene) -> Result<Scene, Memory>
    ensures { IfOk result (λ s. s ≡ record scene.now { fight = passed scene.now.fight }) }
{
    let mut after = scene.copy()?;
    let _passed = after.fight_next();
    Ok(after)
}

fn without_fight(scene: &Scene) -> Result<Scene, Memory>
    ensures { IfOk result (λ s. s ≡ record scene.now { fight = no_fight }) }
{
    let mut after = scene.copy()?;
    after.fight_clear();
    Ok(after)
}

// ---- all commands

/// The scene after an accepted command of the game master, whose seat this is; none, where the command leaves it as it
/// is.
#[tactic(auto, unfolding(crate::specs::GmEffects::gm_scene_by))]
pub(crate) fn gm_scene_by(
    alloc: Global,
    scene: &Scene,
    seat: SeatNo,
    command: &Command,
) -> Result<Option<Scene>, Memory>
    requires allowed { IsAllowed scene.now seat command.now }
    requires new { MakesNew scene.now seat command.now }
    ensures { IfOk result (λ after. unwrap_or after scene.now ≡ gm_scene_by_lem seat scene.now command.now) }
{
    match command {
        Command::Map { name, w, h } => Ok(Some(with_new_map(scene, name, size_of(*w, *h))?)),
        Command::Mode { map, mode } => Ok(Some(with_mode(scene, map, *mode)?)),
        Command::Show { map, on } => Ok(Some(with_shown(scene, map, *on)?)),
        Command::Trail { map, on } => Ok(Some(with_trail(scene, map, *on)?)),
        Command::Terrain { map, rect, kind } => Ok(Some(with_letters(scene, map, *rect, *kind)?)),
        Command::Wall { map, kind, a, b } => Ok(Some(with_wall(scene, map, *kind, *a, *b)?)),
        Command::Unwall { map, kind, a, b } => Ok(Some(without_wall(scene, map, *kind, *a, *b)?)),
        Command::Lighttype { name, radius } => Ok(Some(with_light_type(scene, name, radius)?)),
        Command::Sighttype {
            name,
            range,
            night,
            mult,
        } => Ok(Some(with_sight_type(scene, name, range, night, mult)?)),
        Command::Token {
            tag,
            map,
            cell,
            name,
            size,
            layer,
        } => {
            let side = side_of(size);
            Ok(Some(with_gm_token(alloc, scene, seat, tag, map, *cell, name, side, *layer)?))
        }
        Command::Own {
            token,
            seat: owner,
            on,
        } => Ok(Some(with_owner(scene, token, *owner, *on)?)),
        Command::Layer { token, layer } => Ok(Some(on_layer(scene, token, *layer)?)),
        Command::Visible { token, on } => Ok(Some(with_visible(scene, token, *on)?)),
        Command::Sight { token, sight } => Ok(Some(with_sight(scene, token, sight)?)),
        Command::Place { token, map, cell } => Ok(Some(placed(scene, token, map, *cell)?)),
        Command::Secret { token, name, value } => Ok(Some(with_prop(
            scene,
            token,
            PropClass::Secret,
            name,
            value,
        )?)),
        Command::Expose {
            seat: player,
            map,
            rect,
        } => Ok(Some(exposed(scene, *player, map, *rect)?)),
        Command::Hide {
            seat: player,
            map,
            rect,
        } => Ok(Some(hidden(scene, *player, map, *rect)?)),
        Command::Turn => Ok(Some(with_next_turn(scene)?)),
        Command::Endfight => Ok(Some(without_fight(scene)?)),
        _ => Ok(None),
    }
}
