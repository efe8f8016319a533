//! New tokens.
ghost use Rattle.std.specs.Prelude.{◌≡◌, [], None, IfOk, true, false};
ghost use Rattle.tokens.specs.Tokens.{has_token};
ghost use Rattle.world.specs.Rules.{belongs};
ghost use Rattle.command_rules.specs.Places.{cell_at as cell_at_lem};
ghost use Rattle.command_effects.specs.Making.{with_new as with_new_lem};
ghost use Rattle.command_effects.specs.Allowed.{MayStand};

use cells::Cell;
use command_rules::cell_at;
use names::{Layer, Memory, Tag, Text, TokenId};
use std::alloc::Global;
use tokens::{Owners, Props, Token};
use world::Scene;

/// The cell at a place of the map, where a square of that side is on it.
pub(crate) fn cell_on(scene: &Scene, map: &Tag, side: u8, place: (i32, i32)) -> Cell
    requires { MayStand scene.now map.now side place }
    ensures { result ≡ cell_at_lem place }
{
    let Some(map) = scene.maps().get(*map) else {
        unreachable!();
    };
    cell_at(map.size(), side, place)
}

/// A token without properties, sight and light, with the visible flag.
pub(crate) fn new_token(
    alloc: Global,
    id: TokenId,
    map: Tag,
    cell: Cell,
    name: &Text,
    size: u8,
    layer: Layer,
    owners: Owners,
) -> Result<Token, Memory>
    ensures { IfOk result (λ t. t ≡ record {
      id = id;
      name = name.now;
      map = map;
      cell = cell;
      size = size;
      layer = layer;
      owners = owners;
      visible = true;
      sight = None;
      light = None;
      public = [];
      own = [];
      secret = [];
    }) }
{
    Ok(Token {
        id,
        name: name.share()?,
        map,
        cell,
        size,
        layer,
        owners,
        visible: true,
        sight: None,
        light: None,
        public: Props::new(alloc),
        own: Props::new(alloc),
        secret: Props::new(alloc),
    })
}

/// The scene with the token, which is new and belongs there.
pub(crate) fn with_new(scene: &Scene, token: Token) -> Result<Scene, Memory>
    requires absent { has_token token.id scene.now.tokens ≡ false }
    requires fitting { belongs scene.now token ≡ true }
    ensures { IfOk result (λ s. s ≡ with_new_lem token scene.now) }
{
    let mut after = scene.copy()?;
    match after.make(token) {
        Ok(()) => Ok(after),
        Err(_) => Err(Memory),
    }
}
