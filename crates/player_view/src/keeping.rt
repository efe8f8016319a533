//! Which tokens need a field, and how one is made and kept.
ghost use Rattle.std.specs.Prelude.{◌≡◌, ◌≤◌, ◌+◌, IfOk, OnOk, Some, if◌then◌else◌};
ghost use Rattle.names.specs.declared.token_id.TokenId.{TokenId};
ghost use Rattle.names.specs.TokenId.{id_eq};
ghost use Rattle.topology.specs.Sight.{field_of};
ghost use Rattle.topology.specs.WallLists.{IsOnMap};
ghost use Rattle.tokens.specs.Tokens.{eye_of};
ghost use Rattle.vision.specs.Fields.{field_at};
ghost use Rattle.player_view.specs.Fields.{needs_field};

use cells::CellSet;
use maps::GridMap;
use names::{Memory, TokenId};
use std::alloc::Global;
use tokens::Token;
use topology::Eye;
use vision::Fields;

/// Whether the token has a sight or a light.
pub fn needs_field(token: &Token) -> bool
    ensures { result ≡ needs_field token.now }
{
    token.sight.is_some() || token.light.is_some()
}

/// The field of the token's eye on the map, by one look.
pub fn field_on<E: Eye>(
    alloc: Global,
    map: &GridMap,
    token: &Token,
    eye: &mut E,
) -> Result<CellSet, Memory>
    requires column { token.now.cell.x + token.now.size ≤ 96 }
    requires row { token.now.cell.y + token.now.size ≤ 96 }
    requires on_map { IsOnMap map.now.walls.extent (eye_of token.now) }
    ensures field { IfOk result (λ field. field ≡ field_of map.now.walls (eye_of token.now)) }
    ensures looks { E.looks_made eye.new ≤ E.looks_made eye.old + 1 }
{
    let mut field = CellSet::new(alloc, map.size())?;
    eye.field(map.walls(), token.eye(), &mut field)?;
    Ok(field)
}

/// Keeps a field for an id.
pub fn keep_field(fields: &mut Fields, id: TokenId, field: CellSet) -> Result<(), Memory>
    ensures { OnOk result ((other : TokenId) → field_at other fields.new
        ≡ (if id_eq id other then Some field else field_at other fields.old)) }
{
    match fields.put(id, field) {
        Ok(()) => Ok(()),
        Err(_) => Err(Memory),
    }
}
