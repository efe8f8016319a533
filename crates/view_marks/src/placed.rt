//! Where a command puts a token, which is all that it changes of what the game master is shown.
ghost use Rattle.std.specs.Prelude.{◌≡◌};
ghost use Rattle.view_marks.specs.Placed.{moved_by as moved_by_lem, placed_by as placed_by_lem, placed_of};

use cells::Cell;
use command_json::Command;
use names::{Tag, TokenId};
use world::Scene;

/// Where the token of an id stands.
#[derive(Clone, Copy)]
pub struct Placed {
    pub id: TokenId,
    pub map: Tag,
    pub cell: Cell,
}

/// The token that the command puts elsewhere, if it does nothing else.
fn moved_by(command: &Command) -> Option<TokenId>
    ensures { result ≡ moved_by_lem command.now }
{
    match command {
        Command::Move { token, .. } | Command::Place { token, .. } => Some(*token),
        _ => None,
    }
}

/// Where the token of that id stands, if it is there.
fn place_of(scene: &Scene, id: &TokenId) -> Option<Placed>
    ensures { result ≡ placed_of id.now scene.now.tokens }
{
    match scene.tokens().get(*id) {
        Some(token) => Some(Placed {
            id: *id,
            map: token.map,
            cell: token.cell,
        }),
        None => None,
    }
}

/// Where the token stands that the command, which made this scene, put elsewhere; none for any other command. Where nothing
/// is exposed on its way, that is all that the command changed of what the game master is shown.
pub fn placed_by(scene: &Scene, command: &Command) -> Option<Placed>
    ensures { result ≡ placed_by_lem scene.now command.now }
{
    match moved_by(command) {
        Some(id) => place_of(scene, &id),
        None => None,
    }
}
