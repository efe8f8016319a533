//! Tokens as values of the campaign text.
ghost use Rattle.std.specs.Prelude.{◌≡◌, ◌<◌, ◌^◌, IfOk, OnOk};
ghost use Rattle.serde_json.specs.View.{view, members_view};
ghost use Rattle.campaign_writing.specs.Kept.{AreKeptTokens, AreProperties, IsKeptToken, IsTag};
ghost use Rattle.campaign_writing.specs.Scenes.{owners_tree, property_tree, properties_tree, token_members as token_members_lem, token_tree, tokens_tree};

use crate::values::{id, name, name_or_null, put_member, text_value};
use names::{SeatNo, Tag, Text};
use serde_json::{Map, Value, json};
use std::alloc::{AllocError, Global};
use tokens::{Owners, Props, Token, TokenTable};

fn property(alloc: Global, tag: Tag, value: &Text) -> Result<Value, AllocError>
    ensures tree { IfOk result (λ v. view v ≡ property_tree (tag, value.now)) }
    ensures tag { IsTag tag }
{
    let tag = name(alloc, tag)?;
    json!(in alloc; [tag, value.text()])
}

/// Properties, in order of first setting.
fn properties(alloc: Global, props: &Props) -> Result<Value, AllocError>
    ensures tree { IfOk result (λ v. view v ≡ properties_tree props.now) }
    ensures kept { OnOk result (AreProperties props.now) }
{
    let mut list = Vec::new(alloc);
    for place in 0..props.len() {
        let (tag, value) = props.at(place);
        list.push(property(alloc, tag, value)?)?;
    }
    Ok(Value::Array(list))
}

/// The owners' numbers, ascending.
fn owners(alloc: Global, owners: Owners) -> Result<Value, AllocError>
    ensures tree { IfOk result (λ v. view v ≡ owners_tree owners) }
    ensures seats { OnOk result (owners < 2 ^ 33) }
{
    let mut list = Vec::new(alloc);
    for number in 0..33u8 {
        let Some(seat) = SeatNo::new(number) else {
            unreachable!();
        };
        if owners.has(seat) {
            list.push(Value::from(number))?;
        }
    }
    Ok(Value::Array(list))
}

/// The members of a token.
#[tactic(auto, unfolding(crate::specs::Scenes::token_members))]
fn token_members(alloc: Global, token: &Token) -> Result<Map<String, Value>, AllocError>
    ensures tree { IfOk result (λ members. members_view members.entries ≡ token_members_lem token.now) }
    ensures kept { OnOk result (IsKeptToken token.now) }
{
    let mut members = Map::new(alloc);
    let cell = json!(in alloc; [token.cell.x, token.cell.y])?;
    put_member(&mut members, alloc, "cell", cell)?;
    put_member(&mut members, alloc, "id", id(alloc, token.id)?)?;
    let layer = json!(in alloc; token.layer.word())?;
    put_member(&mut members, alloc, "layer", layer)?;
    let light = name_or_null(alloc, token.light)?;
    put_member(&mut members, alloc, "light", light)?;
    put_member(&mut members, alloc, "map", name(alloc, token.map)?)?;
    put_member(&mut members, alloc, "name", text_value(alloc, &token.name)?)?;
    put_member(&mut members, alloc, "own", properties(alloc, &token.own)?)?;
    put_member(&mut members, alloc, "owners", owners(alloc, token.owners)?)?;
    let public = properties(alloc, &token.public)?;
    put_member(&mut members, alloc, "props", public)?;
    let secret = properties(alloc, &token.secret)?;
    put_member(&mut members, alloc, "secret", secret)?;
    let sight = name_or_null(alloc, token.sight)?;
    put_member(&mut members, alloc, "sight", sight)?;
    put_member(&mut members, alloc, "size", Value::from(token.size))?;
    put_member(&mut members, alloc, "visible", Value::Bool(token.visible))?;
    Ok(members)
}

/// A token.
fn token_value(alloc: Global, token: &Token) -> Result<Value, AllocError>
    ensures tree { IfOk result (λ v. view v ≡ token_tree token.now) }
    ensures kept { OnOk result (IsKeptToken token.now) }
{
    let members = token_members(alloc, token)?;
    Ok(Value::Object(members))
}

/// The tokens, in order of their ids.
pub(crate) fn tokens_value(alloc: Global, tokens: &TokenTable) -> Result<Value, AllocError>
    ensures tree { IfOk result (λ v. view v ≡ tokens_tree tokens.now) }
    ensures kept { OnOk result (AreKeptTokens tokens.now) }
{
    let mut list = Vec::new(alloc);
    for place in 0..tokens.len() {
        list.push(token_value(alloc, tokens.at(place))?)?;
    }
    Ok(Value::Array(list))
}
