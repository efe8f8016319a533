//! Kinds of value: each function gives what a value of its kind stands for, or the rule that the
//! value breaks first. None takes memory.
ghost use Rattle.std.specs.Prelude.{◌≡◌, ◌≤◌, map, length, IfOk, IfSome};
ghost use Rattle.std.specs.List.{list_all};
ghost use Rattle.std.specs.Result.{result_ok};
ghost use Rattle.hex.specs.Hex.{decode_sized};
ghost use Rattle.serde_json.specs.View.{view, items_view, members_view};
ghost use Rattle.json_fields.specs.Kinds.{within};
ghost use Rattle.campaign_json.specs.Reading.{here};
ghost use Rattle.campaign_json.specs.Kinds.{whole as whole_lem, text as text_lem, list as list_lem, object as object_lem, only as only_lem, seed as seed_lem, seed_of, is_lower_hex as is_lower_hex_lem, integer as integer_lem, boolean as boolean_lem, members as members_lem, tag as tag_lem, mode as mode_lem, layer as layer_lem, format as format_lem, id as id_lem, items as items_lem, entries as entries_lem, name as name_lem};

use crate::faults::Rule;
use crate::formats::Format;
use hex::FromHex;
use json_fields::fields::unknown_key;
use names::{Layer, Mode, Tag, TokenId};
use serde_json::{Map, Value};

/// A whole number from `least` to `most`.
pub fn whole(value: &Value, least: u64, most: u64) -> Result<u64, Rule>
    ensures value { here (λ n. n) result ≡ whole_lem least most (view value.now) }
    ensures most { IfOk result (λ n. n ≤ most) }
{
    if value.as_i64().is_none() {
        return Err(Rule::Kind);
    }
    json_fields::kinds::whole(value, least, most).ok_or(Rule::Range)
}

/// A text of `least` to `most` bytes.
pub fn text(value: &Value, least: usize, most: usize) -> Result<&str, Rule>
    ensures value { here (λ s. s.now) result ≡ text_lem least most (view value.now) }
    ensures most { IfOk result (λ s. length s.now ≤ most) }
{
    if !value.is_string() {
        return Err(Rule::Kind);
    }
    json_fields::kinds::text(value, least, most).ok_or(Rule::Range)
}

/// The items of a list of `least` to `most` items.
#[tactic(auto, using(json_fields::proofs::Reading::items_len_view))]
pub fn list(value: &Value, least: usize, most: usize) -> Result<&[Value], Rule>
    ensures value { here (λ s. items_view s.now) result ≡ list_lem least most (view value.now) }
    ensures least { IfOk result (λ s. least ≤ length s.now) }
    ensures most { IfOk result (λ s. length s.now ≤ most) }
{
    let Some(items) = value.as_array() else {
        return Err(Rule::Kind);
    };
    let items = items.as_slice();
    if items.len() < least || items.len() > most {
        return Err(Rule::Range);
    }
    Ok(items)
}

/// An object.
pub fn object(value: &Value) -> Result<(), Rule>
    ensures { here (λ u. u) result ≡ object_lem (view value.now) }
{
    if value.is_object() {
        Ok(())
    } else {
        Err(Rule::Kind)
    }
}

/// An object has no keys beside the known ones.
pub fn only(value: &Value, known: &[&str]) -> Result<(), Rule>
    ensures { here (λ u. u) result ≡ only_lem (map (λ key. key.now) known.now) (view value.now) }
{
    match unknown_key(value, known) {
        Some(_) => Err(Rule::Unknown),
        None => Ok(()),
    }
}

/// A whole number.
pub fn integer(value: &Value) -> Result<i64, Rule>
    ensures { here (λ z. z) result ≡ integer_lem (view value.now) }
{
    value.as_i64().ok_or(Rule::Kind)
}

/// True or false.
pub fn boolean(value: &Value) -> Result<bool, Rule>
    ensures { here (λ b. b) result ≡ boolean_lem (view value.now) }
{
    value.as_bool().ok_or(Rule::Kind)
}

/// The members of an object that has at most so many.
#[tactic(auto, using(crate::proofs::Lists::members_len_view))]
pub fn members(value: &Value, most: usize) -> Result<&Map<String, Value>, Rule>
    ensures { here (λ m. members_view m.now.entries) result ≡ members_lem most (view value.now) }
{
    let Some(members) = value.as_object() else {
        return Err(Rule::Kind);
    };
    if members.len() > most {
        return Err(Rule::Range);
    }
    Ok(members)
}

/// The items of a list.
pub fn items(value: &Value) -> Result<&[Value], Rule>
    ensures { here (λ s. items_view s.now) result ≡ items_lem (view value.now) }
{
    match value.as_array() {
        Some(items) => Ok(items.as_slice()),
        None => Err(Rule::Kind),
    }
}

/// The members of an object.
pub fn entries(value: &Value) -> Result<&Map<String, Value>, Rule>
    ensures { here (λ m. members_view m.now.entries) result ≡ entries_lem (view value.now) }
{
    value.as_object().ok_or(Rule::Kind)
}

/// A whole number, where it is at most `most`.
pub fn up_to(number: i64, most: u8) -> Option<u8>
    ensures value { result ≡ within 0 most number }
    ensures most { IfSome result (λ n. n ≤ most) }
{
    let number = u64::try_from(number).ok()?;
    if number > u64::from(most) {
        return None;
    }
    Some(number as u8)
}

/// The name of something that was read before.
pub fn name(value: &Value) -> Result<Tag, Rule>
    ensures { here (λ t. t) result ≡ name_lem (view value.now) }
{
    let text = value.as_str().ok_or(Rule::Kind)?;
    match Tag::read(text.as_bytes()) {
        Ok(name) => Ok(name),
        Err(_) => Err(Rule::Cross),
    }
}

/// A tag.
pub fn tag(value: &Value) -> Result<Tag, Rule>
    ensures { here (λ t. t) result ≡ tag_lem (view value.now) }
{
    let text = value.as_str().ok_or(Rule::Kind)?;
    match Tag::read(text.as_bytes()) {
        Ok(tag) => Ok(tag),
        Err(_) => Err(Rule::Form),
    }
}

/// The word of a mode.
pub fn mode(value: &Value) -> Result<Mode, Rule>
    ensures { here (λ m. m) result ≡ mode_lem (view value.now) }
{
    let text = value.as_str().ok_or(Rule::Kind)?;
    Mode::read(text).ok_or(Rule::Form)
}

/// The word of a layer.
pub fn layer(value: &Value) -> Result<Layer, Rule>
    ensures { here (λ l. l) result ≡ layer_lem (view value.now) }
{
    let text = value.as_str().ok_or(Rule::Kind)?;
    Layer::read(text).ok_or(Rule::Form)
}

/// The number of a format.
pub fn format(value: &Value) -> Result<Format, Rule>
    ensures { here (λ f. f) result ≡ format_lem (view value.now) }
{
    if whole(value, 1, 2)? == 1 {
        Ok(Format::First)
    } else {
        Ok(Format::Second)
    }
}

/// The text of a token's id.
pub fn id(value: &Value) -> Result<TokenId, Rule>
    ensures { here (λ i. i) result ≡ id_lem (view value.now) }
{
    let text = value.as_str().ok_or(Rule::Kind)?;
    match TokenId::read(text.as_bytes()) {
        Ok(id) => Ok(id),
        Err(_) => Err(Rule::Form),
    }
}

/// A seed: 32 bytes as 64 digits in lower case.
#[tactic(auto, unfolding(crate::specs::Kinds::seed))]
pub fn seed(value: &Value) -> Result<[u8; 32], Rule>
    ensures { here (λ s. s) result ≡ seed_lem (view value.now) }
{
    let digits = text(value, 64, 64)?;
    decoded_lower(digits).ok_or(Rule::Form)
}

#[tactic(auto, unfolding(crate::specs::Kinds::seed_of))]
fn decoded_lower(digits: &str) -> Option<[u8; 32]>
    ensures { result ≡ seed_of digits.now }
{
    if !are_lower_hex(digits.as_bytes()) {
        return None;
    }
    decoded(digits)
}

fn decoded(digits: &str) -> Option<[u8; 32]>
    ensures { result ≡ result_ok (decode_sized digits.now 32) }
{
    match <[u8; 32] as FromHex>::from_hex(digits) {
        Ok(seed) => Some(seed),
        Err(_) => None,
    }
}

fn are_lower_hex(digits: &[u8]) -> bool
    ensures { result ≡ list_all is_lower_hex_lem digits.now }
{
    digits.iter().all(|byte| is_lower_hex(*byte))
}

fn is_lower_hex(byte: u8) -> bool
    ensures { result ≡ is_lower_hex_lem byte }
{
    matches!(byte, b'0'..=b'9' | b'a'..=b'f')
}
