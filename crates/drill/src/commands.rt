//! The commands of a drill's script, as JSON.
ghost use Rattle.std.specs.Prelude.{◌≡◌, ◌+◌, ◌<◌, ◌++◌, ◌^◌, codes, string_bytes, IfOk};
ghost use Rattle.serde_json.specs.View.{view};
ghost use Rattle.drill.specs.Numbered.{tag_at};
ghost use Rattle.drill.specs.Script.{hello as hello_data, move as move_data, place as place_data, roll as roll_data, say as say_data, wall as wall_data};

use cells::Cell;
use serde_json::{Value, json};
use std::alloc::{AllocError, Global};

/// The text of the id of the token of that number.
fn token_text(alloc: Global, number: u32) -> Result<String, AllocError>
    ensures { IfOk result (λ text. string_bytes text ≡ codes "0:" ++ tag_at number) }
{
    format!(in alloc; "0:t{number}")
}

pub(crate) fn hello(alloc: Global, seat: u8) -> Result<Value, AllocError>
    ensures { IfOk result (λ v. view v ≡ hello_data seat) }
{
    let key = format!(in alloc; "k{seat}")?;
    json!(in alloc; {"do": "hello", "key": key.as_str(), "seat": seat})
}

pub(crate) fn place(alloc: Global, number: u32, x: u32, y: u32) -> Result<Value, AllocError>
    ensures { IfOk result (λ v. view v ≡ place_data number x y) }
{
    let token = token_text(alloc, number)?;
    json!(in alloc; {"cell": [x, y], "do": "place", "map": "drill", "token": token.as_str()})
}

/// A wall that blocks sight, from a point to the one two half cells to the right.
pub(crate) fn wall(alloc: Global, x: u32, y: u32) -> Result<Value, AllocError>
    requires { x + 2 < 2 ^ 32 }
    ensures { IfOk result (λ v. view v ≡ wall_data x y) }
{
    json!(in alloc; {"a": [x, y], "b": [x + 2, y], "do": "wall", "kind": "vbl", "map": "drill"})
}

pub(crate) fn say(alloc: Global) -> Result<Value, AllocError>
    ensures { IfOk result (λ v. view v ≡ say_data) }
{
    json!(in alloc; {"do": "say", "text": "hello", "to": "all"})
}

pub(crate) fn roll(alloc: Global, dice: &str, to: &str) -> Result<Value, AllocError>
    ensures { IfOk result (λ v. view v ≡ roll_data dice.now to.now) }
{
    json!(in alloc; {"dice": dice, "do": "roll", "to": to})
}

/// One step of the token of that number, to the cell.
pub(crate) fn move_to(alloc: Global, number: u32, cell: Cell) -> Result<Value, AllocError>
    ensures { IfOk result (λ v. view v ≡ move_data number cell) }
{
    let token = token_text(alloc, number)?;
    json!(in alloc; {"do": "move", "path": [[cell.x, cell.y]], "token": token.as_str()})
}
