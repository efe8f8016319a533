//! What a seat's macros can read, by the seat's view.

ghost use Rattle.std.specs.Prelude.{◌≡◌, ℕ, ◌≤◌, ◌∷◌, ◌++◌, [], IfOk, OnOk, flat_map};
ghost use Rattle.names.specs.declared.kinds.PropClass.TheVariants.{Public, Own, Secret};
ghost use Rattle.readable.specs.Table.{with_value};
ghost use Rattle.player_view.specs.Readables.{keyed, props_in, secret_in, read_in, yours_in, table_of, readable_by_view, readable_of, with_values, with_token};
ghost use Rattle.player_view.specs.View.{view_of};
ghost use Rattle.world.specs.Scene.{Scene};

use names::{Memory, PropClass, Tag, Text, TokenId};
use readable::Readable;
use std::alloc::Global;
use views::{GmPart, OwnedPart, TokenView, View};

fn put_prop(
    table: &mut Readable,
    id: &TokenId,
    class: PropClass,
    prop: &(Tag, Text),
) -> Result<(), Memory>
    ensures { OnOk result (table.new ≡ with_value (record { id = id.now; class = class; name = prop.now.0 }) prop.now.1 table.old) }
{
    table.put(*id, class, prop.0, &prop.1)
}

/// Puts the properties of a class of a token.
#[tactic(auto, using(crate::proofs::ReadTables::props_next))]
fn put_props(
    table: &mut Readable,
    id: &TokenId,
    class: PropClass,
    props: &[(Tag, Text)],
) -> Result<(), Memory>
    ensures { OnOk result (table.new ≡ with_values (keyed id.now class props.now) table.old) }
{
    for prop in props {
        put_prop(table, id, class, prop)?;
    }
    Ok(())
}

fn put_owned(table: &mut Readable, id: &TokenId, owned: &Option<OwnedPart>) -> Result<(), Memory>
    ensures { OnOk result (table.new ≡ with_values (keyed id.now Own (props_in owned.now)) table.old) }
{
    match owned {
        None => Ok(()),
        Some(part) => put_props(table, id, PropClass::Own, part.own.items()),
    }
}

fn put_whole(table: &mut Readable, id: &TokenId, whole: &Option<GmPart>) -> Result<(), Memory>
    ensures { OnOk result (table.new ≡ with_values (keyed id.now Secret (secret_in whole.now)) table.old) }
{
    match whole {
        None => Ok(()),
        Some(part) => put_props(table, id, PropClass::Secret, part.secret.items()),
    }
}

fn put_mine(table: &mut Readable, token: &TokenView) -> Result<(), Memory>
    ensures { OnOk result (table.new ≡ record table.old { yours = table.old.yours ++ yours_in token.now }) }
{
    match &token.owned {
        None => Ok(()),
        Some(_) => table.put_yours(token.id),
    }
}

/// Puts what can be read of a token.
#[tactic(auto, using(crate::proofs::ReadTables::token_put))]
fn put_token(table: &mut Readable, token: &TokenView) -> Result<(), Memory>
    ensures { OnOk result (table.new ≡ with_token token.now table.old) }
{
    put_props(table, &token.id, PropClass::Public, token.props.items())?;
    put_owned(table, &token.id, &token.owned)?;
    put_whole(table, &token.id, &token.whole)?;
    put_mine(table, token)
}

#[tactic(auto, using(crate::proofs::ReadTables::token_next))]
fn table_by(alloc: Global, view: &View, seats: u8) -> Result<Readable, Memory>
    ensures { IfOk result (λ table. table ≡ readable_by_view seats view.now) }
{
    let mut table = Readable::new(alloc, seats);
    for token in view.tokens.items() {
        put_token(&mut table, token)?;
    }
    Ok(table)
}

/// What the macros of a seat that is shown this view can read, and the tokens that they may change, in a campaign of so many
/// seats. Whatever scene shows the seat this view, it is what they can read of the scene.
pub fn readable_in(alloc: Global, view: &View, seats: u8) -> Result<Readable, Memory>
    ensures value { IfOk result (λ table. table ≡ readable_by_view seats view.now) }
    ensures alike { (s : Scene) (q : ℕ) → view.now ≡ view_of s q → IfOk result (λ table. table ≡ readable_of seats s q) }
{
    table_by(alloc, view, seats)
}
