//! The first broken rule of a game master's command, over the whole scene.
ghost use Rattle.std.specs.Prelude.{◌≡◌, ◌==◌, if◌then◌else◌, None, Some, length, option_map};
ghost use Rattle.lights.specs.Lights.{light_fault};
ghost use Rattle.sight_types.specs.Sights.{sight_fault};
ghost use Rattle.maps.specs.Maps.{Grid, map_of};
ghost use Rattle.maps.specs.MapFaults.{map_fault};
ghost use Rattle.tokens.specs.Tokens.{token_of};
ghost use Rattle.world.specs.Rules.{is_known as is_known_lem};
ghost use Rattle.command_rules.specs.declared.refusal.Refusal.TheVariants.{EmptyList, OffMap, UnknownSight};
ghost use Rattle.command_rules.specs.Places.{coordinate as coordinate_lem};
ghost use Rattle.command_rules.specs.GmRules.{of_map_fault as of_map_fault_lem, of_wall_fault as of_wall_fault_lem, of_light_fault as of_light_fault_lem, of_sight_fault as of_sight_fault_lem, map_rule, token_rule, then_rule, unless, tag_rule as tag_rule_lem, room_rule as room_rule_lem, player_rule as player_rule_lem, rect_rule as rect_rule_lem, square_rule as square_rule_lem, ends_fit as ends_fit_lem, wall_rule as wall_rule_lem, unwall_rule as unwall_rule_lem, new_token_rule as new_token_rule_lem, gm_rule as gm_rule_lem};

use crate::places::{coordinate, fits_at, point_at, point_fits, rect_fits};
use crate::refusal::Refusal;
use command_json::Command;
use lights::LightFault;
use maps::{GridMap, MapFault};
use names::{SeatNo, Tag, TokenId, WallKind};
use seats::{SeatBook, most_tags};
use sight_types::SightFault;
use tokens::Props;
use topology::{WallFault, Walls};
use world::Scene;

// ---- faults of tables as refusals

fn of_map_fault(fault: MapFault) -> Refusal
    ensures { result ≡ of_map_fault_lem fault }
{
    match fault {
        MapFault::MapExists => Refusal::MapExists,
        MapFault::MapLimit | MapFault::Memory => Refusal::MapLimit,
    }
}

fn of_wall_fault(fault: WallFault) -> Refusal
    ensures { result ≡ of_wall_fault_lem fault }
{
    match fault {
        WallFault::OffMap => Refusal::OffMap,
        WallFault::DegenerateWall => Refusal::DegenerateWall,
        WallFault::WallThere => Refusal::WallThere,
        WallFault::WallLimit | WallFault::Memory => Refusal::WallLimit,
    }
}

fn of_light_fault(fault: LightFault) -> Refusal
    ensures { result ≡ of_light_fault_lem fault }
{
    match fault {
        LightFault::BadRadius => Refusal::BadRadius,
        LightFault::TypeLimit | LightFault::Memory => Refusal::TypeLimit,
    }
}

fn of_sight_fault(fault: SightFault) -> Refusal
    ensures { result ≡ of_sight_fault_lem fault }
{
    match fault {
        SightFault::BadRange => Refusal::BadRange,
        SightFault::TypeLimit | SightFault::Memory => Refusal::TypeLimit,
    }
}

// ---- maps

fn new_map_rule(scene: &Scene, name: Tag) -> Option<Refusal>
    ensures { result ≡ option_map of_map_fault_lem (map_fault scene.now.maps name) }
{
    match scene.maps().broken_check(name) {
        Some(fault) => Some(of_map_fault(fault)),
        None => None,
    }
}

/// There has to be a map of that name.
fn some_map_rule(scene: &Scene, map: Tag) -> Option<Refusal>
    ensures { result ≡ map_rule (λ m. None) (map_of map scene.now.maps) }
{
    match scene.maps().get(map) {
        Some(_) => None,
        None => Some(Refusal::NoSuchMap),
    }
}

fn on_map(fits: bool) -> Option<Refusal>
    ensures { result ≡ unless fits OffMap }
{
    if fits { None } else { Some(Refusal::OffMap) }
}

fn rect_rule(scene: &Scene, map: Tag, rect: (i32, i32, i32, i32)) -> Option<Refusal>
    ensures { result ≡ map_rule (rect_rule_lem rect) (map_of map scene.now.maps) }
{
    match scene.maps().get(map) {
        Some(map) => on_map(rect_fits(map.size(), rect)),
        None => Some(Refusal::NoSuchMap),
    }
}

fn square_rule(side: u32, place: (i32, i32), map: &GridMap) -> Option<Refusal>
    ensures { result ≡ square_rule_lem side place map.now }
{
    on_map(fits_at(map.size(), side, place))
}

fn ends_fit(walls: &Walls, a: (i32, i32), b: (i32, i32)) -> bool
    ensures { result ≡ ends_fit_lem walls.now a b }
{
    point_fits(walls.size(), a) && point_fits(walls.size(), b)
}

fn new_wall_rule(walls: &Walls, kind: WallKind, a: (i32, i32), b: (i32, i32)) -> Option<Refusal>
    ensures { (m : Grid) → m.walls ≡ walls.now → result ≡ wall_rule_lem kind a b m }
{
    if !ends_fit(walls, a, b) {
        return Some(Refusal::OffMap);
    }
    let size = walls.size();
    match walls.broken_check(kind, point_at(size, a), point_at(size, b)) {
        Some(fault) => Some(of_wall_fault(fault)),
        None => None,
    }
}

fn wall_rule(
    scene: &Scene,
    map: Tag,
    kind: WallKind,
    a: (i32, i32),
    b: (i32, i32),
) -> Option<Refusal>
    ensures { result ≡ map_rule (wall_rule_lem kind a b) (map_of map scene.now.maps) }
{
    match scene.maps().get(map) {
        Some(map) => new_wall_rule(map.walls(), kind, a, b),
        None => Some(Refusal::NoSuchMap),
    }
}

/// A wall whose ends aren't on the map isn't there.
fn old_wall_rule(walls: &Walls, kind: WallKind, a: (i32, i32), b: (i32, i32)) -> Option<Refusal>
    ensures { (m : Grid) → m.walls ≡ walls.now → result ≡ unwall_rule_lem kind a b m }
{
    if !ends_fit(walls, a, b) {
        return Some(Refusal::NoSuchWall);
    }
    let size = walls.size();
    if walls.has(kind, point_at(size, a), point_at(size, b)) {
        None
    } else {
        Some(Refusal::NoSuchWall)
    }
}

fn unwall_rule(
    scene: &Scene,
    map: Tag,
    kind: WallKind,
    a: (i32, i32),
    b: (i32, i32),
) -> Option<Refusal>
    ensures { result ≡ map_rule (unwall_rule_lem kind a b) (map_of map scene.now.maps) }
{
    match scene.maps().get(map) {
        Some(map) => old_wall_rule(map.walls(), kind, a, b),
        None => Some(Refusal::NoSuchMap),
    }
}

// ---- types

fn light_type_rule(scene: &Scene, name: Tag, radius: i32) -> Option<Refusal>
    ensures { result ≡ option_map of_light_fault_lem (light_fault scene.now.lights name radius) }
{
    match scene.lights().broken_check(name, radius) {
        Some(fault) => Some(of_light_fault(fault)),
        None => None,
    }
}

fn sight_type_rule(scene: &Scene, name: Tag, range: i32, night: i32, mult: i32) -> Option<Refusal>
    ensures { result ≡ option_map of_sight_fault_lem (sight_fault scene.now.sights name (coordinate_lem range) (coordinate_lem night)
        (coordinate_lem mult)) }
{
    let sights = scene.sights();
    match sights.broken_check(name, coordinate(range), coordinate(night), coordinate(mult)) {
        Some(fault) => Some(of_sight_fault(fault)),
        None => None,
    }
}

// ---- tokens

/// The game master, whose seat this is and who has this book, may still use the tag.
fn tag_rule(seat: SeatNo, book: &SeatBook, tag: Tag) -> Option<Refusal>
    requires { seat ≡ 0 }
    ensures { result ≡ tag_rule_lem book.now.tags tag }
{
    if book.has_tag(tag) {
        Some(Refusal::IdUsed)
    } else if book.tag_count() >= most_tags(seat) {
        Some(Refusal::TokenLimit)
    } else {
        None
    }
}

fn new_token_rule(
    seat: SeatNo,
    book: &SeatBook,
    tag: Tag,
    side: u32,
    place: (i32, i32),
    map: &GridMap,
) -> Option<Refusal>
    requires { seat ≡ 0 }
    ensures { result ≡ new_token_rule_lem book.now.tags tag side place map.now }
{
    match square_rule(side, place, map) {
        Some(refusal) => Some(refusal),
        None => tag_rule(seat, book, tag),
    }
}

fn make_rule(
    scene: &Scene,
    seat: SeatNo,
    book: &SeatBook,
    tag: Tag,
    map: Tag,
    place: (i32, i32),
    size: i32,
) -> Option<Refusal>
    requires { seat ≡ 0 }
    ensures { result ≡ map_rule (new_token_rule_lem book.now.tags tag (coordinate_lem size) place) (map_of map scene.now.maps) }
{
    match scene.maps().get(map) {
        Some(map) => new_token_rule(seat, book, tag, coordinate(size), place, map),
        None => Some(Refusal::NoSuchMap),
    }
}

/// There has to be a token of that id.
fn some_token_rule(scene: &Scene, token: TokenId) -> Option<Refusal>
    ensures { result ≡ token_rule (λ t. None) (token_of token scene.now.tokens) }
{
    match scene.tokens().get(token) {
        Some(_) => None,
        None => Some(Refusal::NoSuchToken),
    }
}

/// The seat has to be a player's.
fn player_rule(scene: &Scene, seat: SeatNo) -> Option<Refusal>
    ensures { result ≡ player_rule_lem scene.now.fog.players seat }
{
    if seat.number() == 0 {
        Some(Refusal::NotAPlayer)
    } else if seat.number() <= scene.fog().players() {
        None
    } else {
        Some(Refusal::NoSuchSeat)
    }
}

fn own_rule(scene: &Scene, token: TokenId, seat: SeatNo) -> Option<Refusal>
    ensures { result ≡ token_rule (λ t. player_rule_lem scene.now.fog.players seat) (token_of token scene.now.tokens) }
{
    match scene.tokens().get(token) {
        Some(_) => player_rule(scene, seat),
        None => Some(Refusal::NoSuchToken),
    }
}

fn is_known_sight(scene: &Scene, sight: Option<Tag>) -> bool
    ensures { result ≡ is_known_lem scene.now.sights sight }
{
    match sight {
        Some(name) => scene.sights().sight(name).is_some(),
        None => true,
    }
}

fn sight_rule(scene: &Scene, token: TokenId, sight: Option<Tag>) -> Option<Refusal>
    ensures { result ≡ token_rule (λ t. unless (is_known_lem scene.now.sights sight) UnknownSight) (token_of token scene.now.tokens) }
{
    if scene.tokens().get(token).is_none() {
        Some(Refusal::NoSuchToken)
    } else if is_known_sight(scene, sight) {
        None
    } else {
        Some(Refusal::UnknownSight)
    }
}

fn place_on(scene: &Scene, map: Tag, side: u32, place: (i32, i32)) -> Option<Refusal>
    ensures { result ≡ map_rule (square_rule_lem side place) (map_of map scene.now.maps) }
{
    match scene.maps().get(map) {
        Some(map) => square_rule(side, place, map),
        None => Some(Refusal::NoSuchMap),
    }
}

fn place_rule(scene: &Scene, token: TokenId, map: Tag, place: (i32, i32)) -> Option<Refusal>
    ensures { result ≡ token_rule (λ t. map_rule (square_rule_lem t.size place) (map_of map scene.now.maps))
        (token_of token scene.now.tokens) }
{
    match scene.tokens().get(token) {
        Some(token) => place_on(scene, map, u32::from(token.size), place),
        None => Some(Refusal::NoSuchToken),
    }
}

/// The name may be set among these properties.
fn room_rule(props: &Props, name: Tag) -> Option<Refusal>
    ensures { result ≡ room_rule_lem props.now name }
{
    if props.is_full_for(name) {
        Some(Refusal::PropertyLimit)
    } else {
        None
    }
}

fn secret_rule(scene: &Scene, token: TokenId, name: Tag) -> Option<Refusal>
    ensures { result ≡ token_rule (λ t. room_rule_lem t.secret name) (token_of token scene.now.tokens) }
{
    match scene.tokens().get(token) {
        Some(token) => room_rule(&token.secret, name),
        None => Some(Refusal::NoSuchToken),
    }
}

// ---- fog

fn fog_rule(scene: &Scene, seat: SeatNo, map: Tag, rect: (i32, i32, i32, i32)) -> Option<Refusal>
    ensures { result ≡ then_rule (player_rule_lem scene.now.fog.players seat) (map_rule (rect_rule_lem rect) (map_of map scene.now.maps)) }
{
    match player_rule(scene, seat) {
        Some(refusal) => Some(refusal),
        None => rect_rule(scene, map, rect),
    }
}

// ---- the fight

/// There has to be an entry in the fight.
fn turn_rule(scene: &Scene) -> Option<Refusal>
    ensures { result ≡ (if length scene.now.fight.list == 0 then Some EmptyList else None) }
{
    if scene.fight().len() == 0 {
        Some(Refusal::EmptyList)
    } else {
        None
    }
}

// ---- all commands

/// The first broken rule of a command of the game master, whose seat this is and who has this book. A command that isn't the
/// game master's alone is `BadCommand` here: its rules are a view's.
#[tactic(auto, unfolding(crate::specs::GmRules::gm_rule))]
pub fn gm_rule(scene: &Scene, seat: SeatNo, book: &SeatBook, command: &Command) -> Option<Refusal>
    requires { seat ≡ 0 }
    ensures { result ≡ gm_rule_lem scene.now book.now.tags command.now }
{
    match command {
        Command::Map { name, .. } => new_map_rule(scene, *name),
        Command::Mode { map, .. } => some_map_rule(scene, *map),
        Command::Show { map, .. } => some_map_rule(scene, *map),
        Command::Trail { map, .. } => some_map_rule(scene, *map),
        Command::Terrain { map, rect, .. } => rect_rule(scene, *map, *rect),
        Command::Wall { map, kind, a, b } => wall_rule(scene, *map, *kind, *a, *b),
        Command::Unwall { map, kind, a, b } => unwall_rule(scene, *map, *kind, *a, *b),
        Command::Lighttype { name, radius } => light_type_rule(scene, *name, *radius),
        Command::Sighttype {
            name,
            range,
            night,
            mult,
        } => sight_type_rule(scene, *name, *range, *night, *mult),
        Command::Token {
            tag,
            map,
            cell,
            size,
            ..
        } => make_rule(scene, seat, book, *tag, *map, *cell, *size),
        Command::Own { token, seat, .. } => own_rule(scene, *token, *seat),
        Command::Layer { token, .. } => some_token_rule(scene, *token),
        Command::Visible { token, .. } => some_token_rule(scene, *token),
        Command::Sight { token, sight } => sight_rule(scene, *token, *sight),
        Command::Place { token, map, cell } => place_rule(scene, *token, *map, *cell),
        Command::Secret { token, name, .. } => secret_rule(scene, *token, *name),
        Command::Expose { seat, map, rect } => fog_rule(scene, *seat, *map, *rect),
        Command::Hide { seat, map, rect } => fog_rule(scene, *seat, *map, *rect),
        Command::Turn => turn_rule(scene),
        Command::Endfight => None,
        Command::Dump => None,
        _ => Some(Refusal::BadCommand),
    }
}
