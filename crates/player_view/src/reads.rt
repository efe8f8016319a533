//! What is read of a scene for one seat.
ghost use Rattle.std.specs.Prelude.{◌≡◌, ◌&&◌, ◌<◌, ◌≤◌, ◌+◌, IfSome, Some, slice_get, length};
ghost use Rattle.std.specs.Option.{option_copied};
ghost use Rattle.std.specs.List.{find};
ghost use Rattle.maps.specs.Maps.{map_of};
ghost use Rattle.tokens.specs.Tokens.{has_id};
ghost use Rattle.player_view.specs.Sight.{is_hidden, map_shown, named_type, owns};
ghost use Rattle.player_view.specs.View.{acts_on, has_map, is_gm};

use maps::GridMap;
use names::{Layer, SeatNo, Tag, TokenId};
use sight_types::Sight;
use tokens::Token;
use world::Scene;

/// Whether the seat is the game master's.
pub(crate) fn is_gm(seat: SeatNo) -> bool
    ensures { result ≡ is_gm seat }
{
    seat.number() == 0
}

pub(crate) fn is_hidden(layer: Layer) -> bool
    ensures { result ≡ is_hidden layer }
{
    matches!(layer, Layer::Hidden)
}

/// The map of that name.
pub fn map_named(scene: &Scene, name: Tag) -> Option<&GridMap>
    ensures { option_copied result ≡ map_of name scene.now.maps }
{
    scene.maps().get(name)
}

/// Whether the map of that name is there and players are shown it.
pub(crate) fn map_shown(scene: &Scene, name: Tag) -> bool
    ensures { result ≡ map_shown scene.now name }
{
    match map_named(scene, name) {
        Some(map) => map.shown(),
        None => false,
    }
}

/// Whether the player is an owner of the token, which isn't hidden and is on a shown map.
pub(crate) fn owns(scene: &Scene, seat: SeatNo, token: &Token) -> bool
    ensures { result ≡ owns scene.now seat token.now }
{
    token.owners.has(seat) && !is_hidden(token.layer) && map_shown(scene, token.map)
}

/// Whether the seat may act on the token.
pub(crate) fn acts_on(scene: &Scene, seat: SeatNo, token: &Token) -> bool
    ensures { result ≡ acts_on scene.now seat token.now }
{
    is_gm(seat) || owns(scene, seat, token)
}

/// Whether the seat is shown the map.
pub(crate) fn has_map(seat: SeatNo, map: &GridMap) -> bool
    ensures { result ≡ has_map seat map.now }
{
    is_gm(seat) || map.shown()
}

/// The token at that place, whose square is on a map.
pub fn token_at(scene: &Scene, place: usize) -> &Token
    requires { place < length scene.now.tokens }
    ensures value { slice_get scene.now.tokens place ≡ Some result.now }
    ensures column { result.now.cell.x + result.now.size ≤ 96 }
    ensures row { result.now.cell.y + result.now.size ≤ 96 }
{
    // The table tells with its length that its maps have the sizes of maps.
    let _count = scene.maps().len();
    scene.tokens().at(place)
}

/// The token's sight, if it has a type of sight that is there.
pub(crate) fn sight_of(scene: &Scene, token: &Token) -> Option<Sight>
    ensures value { result ≡ named_type scene.now.sights token.now.sight }
    ensures limits { IfSome result (λ sight. (sight.range ≤ 40) × (sight.night ≤ 40) × (sight.mult ≤ 4)) }
{
    // The table tells with its length that its sights are within their limits.
    let _count = scene.sights().len();
    passed_sight_of(scene, token)
}

fn passed_sight_of(scene: &Scene, token: &Token) -> Option<Sight>
    ensures { result ≡ named_type scene.now.sights token.now.sight }
{
    match token.sight {
        None => None,
        Some(name) => scene.sights().sight(name),
    }
}

/// The radius of the token's light, if it has a type of light that is there; negative for a darkness.
pub(crate) fn radius_of(scene: &Scene, token: &Token) -> Option<i8>
    ensures { result ≡ named_type scene.now.lights token.now.light }
{
    match token.light {
        None => None,
        Some(name) => scene.lights().radius(name),
    }
}

fn is_mine(scene: &Scene, seat: SeatNo, token: &Token, id: &TokenId) -> bool
    ensures { result ≡ (has_id id.now token.now && acts_on scene.now seat token.now) }
{
    token.id == *id && acts_on(scene, seat, token)
}

/// The token of that id, if it is there and the seat may act on it.
pub fn mine(scene: &Scene, seat: SeatNo, id: TokenId) -> Option<&Token>
    ensures { option_copied result ≡ find (λ t. has_id id t && acts_on scene.now seat t) scene.now.tokens }
{
    for place in 0..scene.tokens().len() {
        let token = token_at(scene, place);
        if is_mine(scene, seat, token, &id) {
            return Some(token);
        }
    }
    None
}

/// The map at that place, which is the one of its name.
#[tactic(auto, using(crate::proofs::ViewLemmas::map_there))]
pub fn map_at(scene: &Scene, place: usize) -> &GridMap
    requires { place < length scene.now.maps }
    ensures value { slice_get scene.now.maps place ≡ Some result.now }
    ensures there { map_of result.now.name scene.now.maps ≡ Some result.now }
{
    // The table tells with its length that no name is there twice.
    let _count = scene.maps().len();
    scene.maps().at(place)
}
