//! Whom a command may show something of what it changes.
ghost use Rattle.std.specs.Prelude.{◌≡◌, ◌==◌, ◌<◌, ◌+◌, ◌&&◌, ◌||◌, not, true, length, take};
ghost use Rattle.std.specs.List.{list_any};
ghost use Rattle.player_view.specs.Sight.{is_hidden, is_on};
ghost use Rattle.view_marks.specs.Onlookers.{AreWhere, blocks_movement as blocks_movement_lem, has_token_on, lies as lies_lem, looks_on, meets as meets_lem, meets_any, meets_as, plays_on};

use command_json::Command;
use names::{Layer, SeatNo, Tag, TokenId, WallKind};
use player_view::token_at;
use tokens::{Owners, Token};
use world::Scene;

/// All seats.
fn everybody() -> Owners
    ensures { AreWhere result (λ p. true) }
{
    let mut seats = Owners::none();
    for number in 0..33 {
        let Some(seat) = SeatNo::new(number) else {
            unreachable!();
        };
        seats = seats.with(seat, true);
    }
    seats
}

// ---- one token

/// Whether what is exposed uncovers tokens of the layer.
fn lies(layer: Layer) -> bool
    ensures { result ≡ lies_lem layer }
{
    matches!(layer, Layer::Object | Layer::Background)
}

/// Whether the token stands on the map of that name and isn't hidden.
fn stands_on(token: &Token, name: Tag) -> bool
    ensures { result ≡ (is_on name token.now && not (is_hidden token.now.layer)) }
{
    name == token.map && !matches!(token.layer, Layer::Hidden)
}

fn with_owners_on(scene: &Scene, name: Tag, place: usize, players: Owners) -> Owners
    requires place { place < length scene.now.tokens }
    requires so_far { AreWhere players (λ p. list_any (plays_on name p) (take place scene.now.tokens)) }
    ensures { AreWhere result (λ p. list_any (plays_on name p) (take (place + 1) scene.now.tokens)) }
{
    let token = token_at(scene, place);
    if stands_on(token, name) {
        players.joined(token.owners)
    } else {
        players
    }
}

/// The players who have a token on the map of that name that isn't hidden.
fn players_on(scene: &Scene, name: Tag) -> Owners
    ensures { AreWhere result (λ p. has_token_on scene.now p name) }
{
    let mut players = Owners::none();
    for place in 0..scene.tokens().len() {
        players = with_owners_on(scene, name, place, players);
    }
    players
}

/// The players who may be shown the token, or see by it or by its light.
fn met_by(scene: &Scene, token: &Token) -> Owners
    ensures { AreWhere result (λ p. meets_lem scene.now p token.now) }
{
    if matches!(token.layer, Layer::Hidden) {
        Owners::none()
    } else if lies(token.layer) {
        everybody()
    } else {
        token.owners.joined(players_on(scene, token.map))
    }
}

fn with_met_at(scene: &Scene, id: &TokenId, place: usize, players: Owners) -> Owners
    requires place { place < length scene.now.tokens }
    requires so_far { AreWhere players (λ p. list_any (meets_as scene.now id.now p) (take place scene.now.tokens)) }
    ensures { AreWhere result (λ p. list_any (meets_as scene.now id.now p) (take (place + 1) scene.now.tokens)) }
{
    let token = token_at(scene, place);
    if token.id == *id {
        players.joined(met_by(scene, token))
    } else {
        players
    }
}

/// The players who may be shown a token of that id, or see by it.
fn met_with(scene: &Scene, id: &TokenId) -> Owners
    ensures { AreWhere result (meets_any scene.now id.now) }
{
    let mut players = Owners::none();
    for place in 0..scene.tokens().len() {
        players = with_met_at(scene, id, place, players);
    }
    players
}

// ---- a command

fn met_before_or_after(before: &Scene, after: &Scene, id: &TokenId) -> Owners
    ensures { AreWhere result (λ p. meets_any before.now id.now p || meets_any after.now id.now p) }
{
    let first = met_with(before, id);
    let then = met_with(after, id);
    first.joined(then)
}

fn blocks_movement(kind: WallKind) -> bool
    ensures { result ≡ blocks_movement_lem kind }
{
    matches!(kind, WallKind::Mbl)
}

fn onlookers_at_wall(scene: &Scene, map: Tag, kind: WallKind) -> Owners
    ensures { AreWhere result (λ p. not (blocks_movement_lem kind) && has_token_on scene.now p map) }
{
    if blocks_movement(kind) {
        Owners::none()
    } else {
        players_on(scene, map)
    }
}

/// The one seat.
fn alone(seat: SeatNo) -> Owners
    ensures { AreWhere result (λ p. seat == p) }
{
    // A seat tells with its number that it is one of 33.
    let _number = seat.number();
    Owners::none().with(seat, true)
}

/// The players whom the command, by which the one scene became the other, may show something of what it changed, with seat 0
/// or without. All that other players see is exposed to them already; and where nothing is exposed on its way, their views stay.
pub fn onlookers(before: &Scene, after: &Scene, command: &Command) -> Owners
    ensures { AreWhere result (looks_on before.now after.now command.now) }
{
    match command {
        Command::Move { token, .. }
        | Command::Setprop { token, .. }
        | Command::Light { token, .. }
        | Command::Own { token, .. }
        | Command::Layer { token, .. }
        | Command::Visible { token, .. }
        | Command::Sight { token, .. }
        | Command::Place { token, .. } => met_before_or_after(before, after, token),
        Command::Secret { .. } | Command::Trail { .. } => Owners::none(),
        Command::Wall { map, kind, .. } | Command::Unwall { map, kind, .. } => onlookers_at_wall(
            before, *map, *kind,
        ),
        Command::Expose { seat, .. } | Command::Hide { seat, .. } => alone(*seat),
        _ => everybody(),
    }
}
