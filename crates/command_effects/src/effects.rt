//! What an accepted command does to the scene.
ghost use Rattle.std.specs.Prelude.{◌≡◌, ◌≤◌, ◌∷◌, ◌++◌, [], None, Some, IfNone, IfOk, OnOk, length, true, false, unwrap_or};
ghost use Rattle.std.specs.List.{list_all};
ghost use Rattle.maps.specs.Maps.{in_order as maps_in_order};
ghost use Rattle.tokens.specs.Properties.{value_limit};
ghost use Rattle.tokens.specs.Tokens.{has_token, in_order, with_light as with_light_lem, with_prop as with_prop_lem};
ghost use Rattle.world.specs.Rules.{fits, is_known, is_player, IsScene};
ghost use Rattle.initiative.specs.Fights.{with_entry as with_entry_lem, without_entry as without_entry_lem};
ghost use Rattle.world.specs.Scene.{removed, with_token};
ghost use Rattle.command_rules.specs.Places.{fits_at as fits_at_lem, cell_at as cell_at_lem};
ghost use Rattle.command_effects.specs.Making.{players_token, with_new as with_new_lem};
ghost use Rattle.command_effects.specs.Effects.{eye_at as eye_at_lem, eyes_along as eyes_along_lem, free_steps as free_steps_lem, steps_with as steps_with_lem, steps_by as steps_by_lem, own_token, cell_after as cell_after_lem, after_steps as after_steps_lem, scene_by as scene_by_lem};
ghost use Rattle.command_effects.specs.Allowed.{IsAllowed, MayMove, MaySet, MayStand};
ghost use Rattle.command_effects.specs.Tags.{MakesNew};
ghost use Rattle.command_effects.specs.Setting.{MaySetAll};
ghost use Rattle.command_effects.specs.Way.{way_of as way_of_lem};

use crate::gm_effects::gm_scene_by;
use crate::intents::with_intents;
use crate::making::{cell_on, new_token, with_new};
use cells::{Cell, Size};
use command_json::{CellPath, Command};
use command_rules::cell_at;
use lattice::Point;
use macro_eval::Intents;
use maps::GridMap;
use names::{Layer, Memory, PropClass, SeatNo, Tag, Text, TokenId};
use player_view::mine;
use std::alloc::Global;
use tokens::{Owners, PropFault, Token};
use world::Scene;

// ---- moves

fn eye_at(size: Size, side: u8, place: (i32, i32)) -> Point
    requires { fits_at_lem size side place ≡ true }
    ensures { result ≡ eye_at_lem side (cell_at_lem place) }
{
    let cell = cell_at(size, side, place);
    Point::square_centre(cell.x, cell.y, side)
}

fn add_eye(eyes: &mut Vec<Point>, eye: Point) -> Result<(), Memory>
    ensures { OnOk result (eyes.new.items ≡ eyes.old.items ++ eye ∷ []) }
{
    match eyes.push(eye) {
        Ok(()) => Ok(()),
        Err(_) => Err(Memory),
    }
}

/// Where the token's eye is before the path and at each of its cells.
fn eyes_along(
    alloc: Global,
    map: &GridMap,
    token: &Token,
    path: &[(i32, i32)],
) -> Result<Vec<Point>, Memory>
    requires start { fits map.now.walls.extent token.now.cell token.now.size ≡ true }
    requires path { list_all (fits_at_lem map.now.walls.extent token.now.size) path.now ≡ true }
    ensures { IfOk result (λ v. v.items ≡ eyes_along_lem token.now.size token.now.cell path.now) }
{
    // The map tells with its size that it is at most 96 cells wide and high.
    let size = map.size();
    let mut eyes = Vec::new(alloc);
    add_eye(&mut eyes, token.eye())?;
    for place in path {
        add_eye(&mut eyes, eye_at(size, token.size, *place))?;
    }
    Ok(eyes)
}

/// How many of the first steps no wall blocks.
fn free_steps(
    alloc: Global,
    map: &GridMap,
    token: &Token,
    path: &[(i32, i32)],
) -> Result<usize, Memory>
    requires start { fits map.now.walls.extent token.now.cell token.now.size ≡ true }
    requires path { list_all (fits_at_lem map.now.walls.extent token.now.size) path.now ≡ true }
    ensures value { IfOk result (λ n. n ≡ free_steps_lem map.now.walls token.now.size token.now.cell path.now) }
    ensures most { IfOk result (λ n. n ≤ length path.now) }
{
    let eyes = eyes_along(alloc, map, token, path)?;
    Ok(map.walls().first_block(&eyes).unwrap_or(path.len()))
}

/// Where a token is after so many steps.
pub(crate) fn cell_after(size: Size, side: u8, from: Cell, path: &[(i32, i32)], steps: u32) -> Cell
    requires { list_all (fits_at_lem size side) path.now ≡ true }
    ensures { result ≡ cell_after_lem steps from path.now }
{
    let mut last = from;
    let mut left = steps;
    for place in path {
        if left == 0 {
            return last;
        }
        last = cell_at(size, side, *place);
        left -= 1;
    }
    last
}

#[tactic(auto, unfolding(crate::specs::Effects::steps_by))]
fn move_steps(
    alloc: Global,
    scene: &Scene,
    seat: SeatNo,
    token: TokenId,
    path: &CellPath,
) -> Result<usize, Memory>
    requires { MayMove scene.now seat token path.now }
    ensures value { IfOk result (λ n. n ≡ steps_with_lem scene.now seat path.now (own_token scene.now seat token)) }
    ensures most { IfOk result (λ n. n ≤ length path.now) }
{
    let Some(token) = mine(scene, seat, token) else {
        unreachable!();
    };
    if seat.number() == 0 {
        return Ok(path.cells().len());
    }
    let Some(map) = scene.maps().get(token.map) else {
        unreachable!();
    };
    free_steps(alloc, map, token, path.cells())
}

/// The scene once the token took the steps.
fn moved(
    scene: &Scene,
    seat: SeatNo,
    id: &TokenId,
    path: &CellPath,
    steps: u32,
) -> Result<Scene, Memory>
    requires { MayMove scene.now seat id.now path.now }
    ensures { IfOk result (λ s. s ≡ after_steps_lem steps id.now path.now (own_token scene.now seat id.now) scene.now) }
{
    let _told = told(scene);
    let mut after = scene.copy()?;
    let Some(token) = mine(scene, seat, *id) else {
        unreachable!();
    };
    let Some(map) = scene.maps().get(token.map) else {
        unreachable!();
    };
    let cell = cell_after(map.size(), token.size, token.cell, path.cells(), steps);
    after.place(*id, token.map, cell);
    Ok(after)
}

// ---- tokens

/// The scene once the property is set.
pub(crate) fn with_prop(
    scene: &Scene,
    id: &TokenId,
    class: PropClass,
    name: &Tag,
    value: &Text,
) -> Result<Scene, Memory>
    requires room { MaySet scene.now id.now class name.now }
    requires short { length value.now ≤ value_limit }
    ensures { IfOk result (λ s. s ≡ with_token id.now (with_prop_lem class name.now value.now) scene.now) }
{
    let value = value.share()?;
    let mut after = scene.copy()?;
    match after.set_prop(*id, class, *name, value) {
        Ok(()) => Ok(after),
        Err(PropFault::Memory) => Err(Memory),
        Err(PropFault::PropertyLimit) => unreachable!(),
    }
}

fn with_light(scene: &Scene, id: &TokenId, light: &Option<Tag>) -> Result<Scene, Memory>
    requires there { has_token id.now scene.now.tokens ≡ true }
    requires known { is_known scene.now.lights light.now ≡ true }
    ensures { IfOk result (λ s. s ≡ with_token id.now (with_light_lem light.now) scene.now) }
{
    let mut after = scene.copy()?;
    after.set_light(*id, *light);
    Ok(after)
}

fn without(scene: &Scene, id: &TokenId) -> Result<Scene, Memory>
    ensures { IfOk result (λ s. s ≡ removed id.now scene.now) }
{
    let mut after = scene.copy()?;
    let _gone = after.remove(*id);
    Ok(after)
}

/// The scene once the token has an entry of that value in the fight.
fn with_entry(scene: &Scene, id: &TokenId, value: &i16) -> Result<Scene, Memory>
    requires { has_token id.now scene.now.tokens ≡ true }
    ensures { IfOk result (λ s. s ≡ record scene.now { fight = with_entry_lem id.now value.now scene.now.fight }) }
{
    let mut after = scene.copy()?;
    after.fight_set(*id, *value)?;
    Ok(after)
}

/// The scene once the token's entry is out of the fight.
fn without_entry(scene: &Scene, id: &TokenId) -> Result<Scene, Memory>
    requires { has_token id.now scene.now.tokens ≡ true }
    ensures { IfOk result (λ s. s ≡ record scene.now { fight = without_entry_lem id.now scene.now.fight }) }
{
    let mut after = scene.copy()?;
    let _gone = after.fight_drop(*id);
    Ok(after)
}

/// The scene once the player made the token.
fn with_players_token(
    alloc: Global,
    scene: &Scene,
    seat: SeatNo,
    tag: &Tag,
    map: &Tag,
    place: (i32, i32),
    name: &Text,
) -> Result<Scene, Memory>
    requires absent { has_token (record { maker = seat; tag = tag.now }) scene.now.tokens ≡ false }
    requires stands { MayStand scene.now map.now 1 place }
    requires player { is_player scene.now.fog.players seat ≡ true }
    ensures { IfOk result (λ s. s ≡ with_new_lem (players_token seat tag.now map.now place name.now) scene.now) }
{
    let id = TokenId {
        maker: seat,
        tag: *tag,
    };
    let owners = Owners::none().with(seat, true);
    let cell = cell_on(scene, map, 1, place);
    let token = new_token(alloc, id, *map, cell, name, 1, Layer::Token, owners)?;
    with_new(scene, token)
}

// ---- commands

/// What the tables tell with their lengths: the parts of a scene fit together, and no name and no id is there twice.
pub(crate) fn told(scene: &Scene) -> (usize, usize)
    ensures scene { IsScene scene.now }
    ensures maps { maps_in_order scene.now.maps ≡ true }
    ensures tokens { in_order scene.now.tokens ≡ true }
{
    (scene.maps().len(), scene.tokens().len())
}

/// The steps of an accepted command: those of a move, else 0.
#[tactic(auto, unfolding(crate::specs::Effects::steps_by))]
pub fn steps_by(
    alloc: Global,
    scene: &Scene,
    seat: SeatNo,
    command: &Command,
) -> Result<u32, Memory>
    requires { IsAllowed scene.now seat command.now }
    ensures { IfOk result (λ n. n ≡ steps_by_lem scene.now seat (Some command.now)) }
{
    let _told = told(scene);
    match command {
        Command::Move { token, path } => {
            // A path has 64 cells at most.
            Ok(move_steps(alloc, scene, seat, *token, path)? as u32)
        }
        _ => Ok(0),
    }
}

/// The scene after an accepted command; none, where the command leaves it as it is. A token that it makes is new, since
/// its maker hasn't used its tag. A macro sets what its run means to set, which the seat may set.
#[tactic(auto, unfolding(crate::specs::Effects::scene_by, crate::specs::Way::way_of))]
pub fn scene_by(
    alloc: Global,
    scene: &Scene,
    seat: SeatNo,
    command: &Command,
    steps: u32,
    intents: &Intents,
) -> Result<Option<Scene>, Memory>
    requires allowed { IsAllowed scene.now seat command.now }
    requires new { MakesNew scene.now seat command.now }
    requires seat { seat ≤ scene.now.fog.players }
    requires intents { MaySetAll scene.now seat intents.now }
    ensures value { IfOk result (λ after. unwrap_or after scene.now ≡ scene_by_lem steps intents.now seat scene.now (Some command.now)) }
    ensures stays { IfOk result (λ after. IfNone after (way_of_lem steps seat scene.now (Some command.now) ≡ None)) }
{
    let _told = told(scene);
    match command {
        Command::Macro { .. } => with_intents(scene, seat, intents),
        Command::Move { token, path } => Ok(Some(moved(scene, seat, token, path, steps)?)),
        Command::Setprop {
            token,
            class,
            name,
            value,
        } => Ok(Some(with_prop(scene, token, *class, name, value)?)),
        Command::Light { token, light } => Ok(Some(with_light(scene, token, light)?)),
        Command::Make {
            tag,
            map,
            cell,
            name,
        } => Ok(Some(with_players_token(alloc, scene, seat, tag, map, *cell, name)?)),
        Command::Remove { token } => Ok(Some(without(scene, token)?)),
        Command::Init { token, value } => Ok(Some(with_entry(scene, token, value)?)),
        Command::Uninit { token } => Ok(Some(without_entry(scene, token)?)),
        _ => gm_scene_by(alloc, scene, seat, command),
    }
}
