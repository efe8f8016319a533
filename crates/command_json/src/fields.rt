//! The fields of a command. Each function gives the value at a key, of its kind; where the key is missing or its
//! value is of another kind, the fault names the key.
ghost use Rattle.std.specs.Prelude.{◌≡◌, [], map, option_map, IfOk};
ghost use Rattle.serde_json.specs.View.{view, items_view};
ghost use Rattle.chat.specs.declared.to.To.TheVariants.{All, Seat};
ghost use Rattle.serde_json.specs.Find.{as_bool};
ghost use Rattle.json_fields.specs.Fields.{field_in, unknown_in};
ghost use Rattle.json_fields.specs.Kinds.{integer_from, whole_from, text_from, tag_from, id_from, mode_from, layer_from, wall_kind_from, class_from, word_from, or_null};
ghost use Rattle.json_fields.specs.Objects.{Gives, needed, unless_unknown};
ghost use Rattle.command_json.specs.declared.command.LineFault.TheVariants.{BadField};
ghost use Rattle.command_json.specs.Faults.{Fails};
ghost use Rattle.command_json.specs.Fields.{field as field_lem, field_else, args_from, texts_from, place_from, places_from, path_from, rect_from, letter_of as letter_of_lem, letter_from, to_words, to_from};

use crate::command::{CellPath, Command, LineFault};
use chat::To;
use json_fields::{fields, kinds};
use names::{
    Layer, Memory, Mode, PropClass, SeatNo, Tag, Text, Texts, TokenId, WallKind, is_letter,
};
use serde_json::Value;
use std::alloc::Global;

/// The least and the most x or y of a cell or a point.
const LEAST_PLACE: i32 = -1000;

const MOST_PLACE: i32 = 1000;

fn bad_field(alloc: Global, key: &str) -> LineFault
    ensures { Fails result (needed {A = Unit {0}} BadField key.now None) }
{
    match Text::copy(alloc, key) {
        Ok(name) => LineFault::BadField { name },
        Err(_) => LineFault::Memory,
    }
}

fn found<T>(alloc: Global, key: &str, read: Option<T>) -> Result<T, LineFault>
    ensures { Gives Fails (λ field. field) result (needed BadField key.now read) }
{
    match read {
        Some(field) => Ok(field),
        None => Err(bad_field(alloc, key)),
    }
}

/// The command, unless the object has a key that isn't known.
pub(crate) fn only(
    alloc: Global,
    value: &Value,
    known: &[&str],
    command: Command,
) -> Result<Command, LineFault>
    ensures { Gives Fails (λ c. c) result (unless_unknown BadField
        (unknown_in (map (λ key. key.now) known.now) (view value.now)) command) }
{
    match fields::unknown_key(value, known) {
        Some(key) => Err(bad_field(alloc, key)),
        None => Ok(command),
    }
}

/// A whole number from `least` to `most`.
pub(crate) fn integer(
    alloc: Global,
    value: &Value,
    key: &str,
    least: i32,
    most: i32,
) -> Result<i32, LineFault>
    ensures { Gives Fails (λ n. n) result (field_lem key.now (integer_from least most) (view value.now)) }
{
    match fields::integer(value, key, i64::from(least), i64::from(most)) {
        Some(number) => Ok(number as i32),
        None => Err(bad_field(alloc, key)),
    }
}

/// A whole number from `least` to `most`, of 16 bits.
pub(crate) fn small(
    alloc: Global,
    value: &Value,
    key: &str,
    least: i16,
    most: i16,
) -> Result<i16, LineFault>
    ensures { Gives Fails (λ n. n) result (field_lem key.now (integer_from least most) (view value.now)) }
{
    match fields::integer(value, key, i64::from(least), i64::from(most)) {
        Some(number) => Ok(number as i16),
        None => Err(bad_field(alloc, key)),
    }
}

/// A whole number from `least` to `most`, or `default` where the key is missing.
pub(crate) fn integer_or(
    alloc: Global,
    value: &Value,
    key: &str,
    default: i32,
    least: i32,
    most: i32,
) -> Result<i32, LineFault>
    ensures { Gives Fails (λ n. n) result (field_else default key.now (integer_from least most) (view value.now)) }
{
    match value.get(key) {
        Some(_) => integer(alloc, value, key, least, most),
        None => Ok(default),
    }
}

/// The number of a seat.
pub(crate) fn seat(alloc: Global, value: &Value, key: &str) -> Result<SeatNo, LineFault>
    ensures { Gives Fails (λ n. n) result (field_lem key.now (whole_from 0 32) (view value.now)) }
{
    let number = fields::whole_u8(value, key, 0, 32);
    found(alloc, key, number.and_then(SeatNo::new))
}

/// A text of `least` to `most` bytes.
pub(crate) fn text(
    alloc: Global,
    value: &Value,
    key: &str,
    least: usize,
    most: usize,
) -> Result<Text, LineFault>
    ensures { Gives Fails (λ t. t) result (field_lem key.now (text_from least most) (view value.now)) }
{
    match fields::text(value, key, least, most) {
        Some(text) => Ok(Text::copy(alloc, text)?),
        None => Err(bad_field(alloc, key)),
    }
}

/// A tag.
pub(crate) fn tag(alloc: Global, value: &Value, key: &str) -> Result<Tag, LineFault>
    ensures { Gives Fails (λ t. t) result (field_lem key.now tag_from (view value.now)) }
{
    found(alloc, key, fields::tag(value, key))
}

/// A token's id.
pub(crate) fn id(alloc: Global, value: &Value, key: &str) -> Result<TokenId, LineFault>
    ensures { Gives Fails (λ id. id) result (field_lem key.now id_from (view value.now)) }
{
    found(alloc, key, fields::id(value, key))
}

/// True or false.
pub(crate) fn boolean(alloc: Global, value: &Value, key: &str) -> Result<bool, LineFault>
    ensures { Gives Fails (λ field. field) result (field_lem key.now as_bool (view value.now)) }
{
    found(alloc, key, fields::boolean(value, key))
}

/// A text of `least` to `most` bytes, or null, which gives none.
pub(crate) fn text_or_null(
    alloc: Global,
    value: &Value,
    key: &str,
    least: usize,
    most: usize,
) -> Result<Option<Text>, LineFault>
    ensures { Gives Fails (λ t. t) result (field_lem key.now (or_null (text_from least most)) (view value.now)) }
{
    match fields::text_or_null(value, key, least, most) {
        Some(Some(text)) => Ok(Some(Text::copy(alloc, text)?)),
        Some(None) => Ok(None),
        None => Err(bad_field(alloc, key)),
    }
}

/// A tag, or null, which gives none.
pub(crate) fn tag_or_null(alloc: Global, value: &Value, key: &str) -> Result<Option<Tag>, LineFault>
    ensures { Gives Fails (λ field. field) result (field_lem key.now (or_null tag_from) (view value.now)) }
{
    found(alloc, key, fields::tag_or_null(value, key))
}

/// The word of a mode.
pub(crate) fn mode(alloc: Global, value: &Value, key: &str) -> Result<Mode, LineFault>
    ensures { Gives Fails (λ field. field) result (field_lem key.now mode_from (view value.now)) }
{
    found(alloc, key, fields::mode(value, key))
}

/// The word of a layer.
pub(crate) fn layer(alloc: Global, value: &Value, key: &str) -> Result<Layer, LineFault>
    ensures { Gives Fails (λ field. field) result (field_lem key.now layer_from (view value.now)) }
{
    found(alloc, key, fields::layer(value, key))
}

/// The word of a layer, or `default` where the key is missing.
pub(crate) fn layer_or(
    alloc: Global,
    value: &Value,
    key: &str,
    default: Layer,
) -> Result<Layer, LineFault>
    ensures { Gives Fails (λ layer. layer) result (field_else default key.now layer_from (view value.now)) }
{
    found(alloc, key, fields::layer_or(value, key, default))
}

/// The word of a kind of wall.
pub(crate) fn wall_kind(alloc: Global, value: &Value, key: &str) -> Result<WallKind, LineFault>
    ensures { Gives Fails (λ field. field) result (field_lem key.now wall_kind_from (view value.now)) }
{
    found(alloc, key, fields::wall_kind(value, key))
}

/// The word of a class of property that a command may name.
pub(crate) fn class(alloc: Global, value: &Value, key: &str) -> Result<PropClass, LineFault>
    ensures { Gives Fails (λ field. field) result (field_lem key.now class_from (view value.now)) }
{
    found(alloc, key, fields::class(value, key))
}

/// x and y of a cell or a point.
pub(crate) fn place(alloc: Global, value: &Value, key: &str) -> Result<(i32, i32), LineFault>
    ensures { Gives Fails (λ field. field) result (field_lem key.now place_from (view value.now)) }
{
    found(
        alloc,
        key,
        fields::pair(value, key, LEAST_PLACE, MOST_PLACE),
    )
}

/// x, y, width and height of a rectangle; the sides are 1 to 96.
pub(crate) fn rect(
    alloc: Global,
    value: &Value,
    key: &str,
) -> Result<(i32, i32, i32, i32), LineFault>
    ensures { Gives Fails (λ rect. rect) result (field_lem key.now rect_from (view value.now)) }
{
    match fields::rectangle(value, key, LEAST_PLACE, MOST_PLACE, 1, 96) {
        Some(((x, y), (w, h))) => Ok((x, y, i32::from(w), i32::from(h))),
        None => Err(bad_field(alloc, key)),
    }
}

/// A letter of terrain: `a` to `z`, or `.`.
pub(crate) fn letter(alloc: Global, value: &Value, key: &str) -> Result<u8, LineFault>
    ensures { Gives Fails (λ letter. letter) result (field_lem key.now letter_from (view value.now)) }
{
    found(alloc, key, letter_in(value, key))
}

fn letter_in(value: &Value, key: &str) -> Option<u8>
    ensures { result ≡ field_in letter_from key.now (view value.now) }
{
    letter_of(value.get(key)?.as_str()?.as_bytes())
}

fn letter_of(text: &[u8]) -> Option<u8>
    ensures { result ≡ letter_of_lem text.now }
{
    match text {
        [letter] if is_letter(*letter) => Some(*letter),
        _ => None,
    }
}

/// An address, or every seat where the key is missing.
pub(crate) fn to(alloc: Global, value: &Value, key: &str) -> Result<To, LineFault>
    ensures { Gives Fails (λ to. to) result (field_else All key.now to_from (view value.now)) }
{
    match value.get(key) {
        Some(field) => found(alloc, key, to_of(field)),
        None => Ok(To::All),
    }
}

#[tactic(auto, unfolding(crate::specs::Fields::to_from))]
fn to_of(value: &Value) -> Option<To>
    ensures { result ≡ to_from (view value.now) }
{
    to_word(value).or(to_seat(value))
}

fn to_word(value: &Value) -> Option<To>
    ensures { result ≡ word_from to_words (view value.now) }
{
    let table = [
        ("self", To::SelfOnly),
        ("gm", To::Gm),
        ("gmself", To::GmSelf),
        ("all", To::All),
    ];
    kinds::word(value, &table)
}

fn to_seat(value: &Value) -> Option<To>
    ensures { result ≡ option_map Seat (whole_from 0 32 (view value.now)) }
{
    let number = kinds::whole_u8(value, 0, 32)?;
    Some(To::Seat(SeatNo::new(number)?))
}

/// A path of 1 to 64 cells.
#[tactic(auto, unfolding(crate::specs::Fields::path_from))]
pub(crate) fn path(alloc: Global, value: &Value, key: &str) -> Result<CellPath, LineFault>
    ensures { Gives Fails (λ p. p) result (field_lem key.now path_from (view value.now)) }
{
    match fields::list(value, key, 1, 64) {
        Some(items) => {
            let cells = places(alloc, items)?;
            found(alloc, key, cells)
        }
        None => Err(bad_field(alloc, key)),
    }
}

fn places(alloc: Global, items: &[Value]) -> Result<Option<CellPath>, Memory>
    ensures { IfOk result (λ path. path ≡ places_from (items_view items.now)) }
{
    let mut list = Vec::new(alloc);
    for item in items {
        let Some(place) = kinds::pair(item, LEAST_PLACE, MOST_PLACE) else {
            return Ok(None);
        };
        if list.push(place).is_err() {
            return Err(Memory);
        }
    }
    Ok(Some(CellPath { list }))
}

/// At most 8 texts of 0 to 200 bytes; none where the key is missing.
pub(crate) fn args(alloc: Global, value: &Value, key: &str) -> Result<Texts, LineFault>
    ensures { Gives Fails (λ texts. texts) result (field_else [] key.now args_from (view value.now)) }
{
    match value.get(key) {
        Some(field) => args_of(alloc, key, field),
        None => Ok(Texts {
            list: Vec::new(alloc),
        }),
    }
}

#[tactic(auto, unfolding(crate::specs::Fields::args_from))]
fn args_of(alloc: Global, key: &str, value: &Value) -> Result<Texts, LineFault>
    ensures { Gives Fails (λ texts. texts) result (needed BadField key.now (args_from (view value.now))) }
{
    match kinds::list(value, 0, 8) {
        Some(items) => {
            let args = texts(alloc, items)?;
            found(alloc, key, args)
        }
        None => Err(bad_field(alloc, key)),
    }
}

fn texts(alloc: Global, items: &[Value]) -> Result<Option<Texts>, Memory>
    ensures { IfOk result (λ texts. texts ≡ texts_from (items_view items.now)) }
{
    let mut list = Vec::new(alloc);
    for item in items {
        let Some(text) = kinds::text(item, 0, 200) else {
            return Ok(None);
        };
        if list.push(Text::copy(alloc, text)?).is_err() {
            return Err(Memory);
        }
    }
    Ok(Some(Texts { list }))
}
