//! Small values of the campaign text.
ghost use Rattle.std.specs.Prelude.{◌≡◌, IfOk, OnOk};
ghost use Rattle.serde_json.specs.Data.{string};
ghost use Rattle.serde_json.specs.View.{view, members_view};
ghost use Rattle.names.specs.TokenId.{id_text, IsTokenId};
ghost use Rattle.campaign_writing.specs.Kept.{IsName, IsTag};
ghost use Rattle.campaign_writing.specs.Trees.{name_or_null as name_or_null_tree, with_member};

use names::{Tag, Text, TokenId};
use serde_json::{Map, Value, json};
use std::alloc::{AllocError, Global};

/// A name.
pub(crate) fn name(alloc: Global, name: Tag) -> Result<Value, AllocError>
    ensures tree { IfOk result (λ v. view v ≡ string name) }
    ensures tag { IsTag name }
{
    // Its bytes tell that the name is a tag.
    let _bytes = name.bytes();
    json!(in alloc; name.text())
}

/// A name, or null.
pub(crate) fn name_or_null(alloc: Global, named: Option<Tag>) -> Result<Value, AllocError>
    ensures tree { IfOk result (λ v. view v ≡ name_or_null_tree named) }
    ensures tag { IsName named }
{
    match named {
        None => Ok(Value::Null),
        Some(tag) => name(alloc, tag),
    }
}

/// A text.
pub(crate) fn text_value(alloc: Global, text: &Text) -> Result<Value, AllocError>
    ensures { IfOk result (λ v. view v ≡ string text.now) }
{
    json!(in alloc; text.text())
}

/// The id's text.
pub(crate) fn id(alloc: Global, id: TokenId) -> Result<Value, AllocError>
    ensures tree { IfOk result (λ v. view v ≡ string (id_text id)) }
    ensures valid { IsTokenId id }
{
    // The parts tell what an id has.
    let _maker = id.maker.number();
    let _tag = id.tag.bytes();
    match id.text(alloc) {
        Ok(text) => text_value(alloc, &text),
        Err(_) => Err(AllocError),
    }
}

/// Puts a member in.
#[tactic(auto, unfolding(crate::specs::Trees::with_member))]
pub(crate) fn put_member(
    members: &mut Map<String, Value>,
    alloc: Global,
    key: &str,
    value: Value,
) -> Result<(), AllocError>
    ensures { OnOk result (members_view members.new.entries ≡ with_member key.now (view value) (members_view members.old.entries)) }
{
    serde_json::put(members, alloc, key, value)
}

/// Puts a member with a free key in.
pub(crate) fn put_named(
    members: &mut Map<String, Value>,
    alloc: Global,
    name: Tag,
    value: Value,
) -> Result<(), AllocError>
    ensures members { OnOk result (members_view members.new.entries ≡ with_member name (view value) (members_view members.old.entries)) }
    ensures tag { IsTag name }
{
    // Its bytes tell that the name is a tag.
    let _bytes = name.bytes();
    put_member(members, alloc, name.text(), value)
}
