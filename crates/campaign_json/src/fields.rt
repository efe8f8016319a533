//! The fields of an object. Each function reads the value at a key, and gives its first breach as one of
//! the object.
ghost use Rattle.std.specs.Fmt.{decimal};
ghost use Rattle.std.specs.Prelude.{◌≡◌, ◌≤◌, [], length, map, Some, None, IfOk, IfErr};
ghost use Rattle.serde_json.specs.Find.{get, at};
ghost use Rattle.serde_json.specs.View.{view, items_view, members_view};
ghost use Rattle.json_fields.specs.Objects.{Gives};
ghost use Rattle.names.specs.Tag.{tag_of};
ghost use Rattle.campaign_json.specs.Reading.{pointer, needed as needed_lem, field, item_at, Fails, IsBreach};
ghost use Rattle.campaign_json.specs.Kinds.{list as list_lem, exactly, members as members_lem, boolean as boolean_lem, mode as mode_lem, layer as layer_lem, format as format_lem, integer as integer_lem, whole as whole_lem, text as text_lem, seed as seed_lem, only as only_lem, object as object_lem, items as items_lem, entries as entries_lem};

use crate::faults::{FileFault, Rule, broken, broken_at, broken_item};
use crate::formats::Format;
use crate::kinds;
use names::{Layer, Mode, Tag};
use serde_json::{Map, Value};
use std::alloc::Global;

/// The value is an object.
pub fn check_object(alloc: Global, value: &Value) -> Result<(), FileFault>
    ensures { Gives Fails (λ u. u) result (object_lem (view value.now)) }
{
    match kinds::object(value) {
        Ok(()) => Ok(()),
        Err(rule) => Err(broken(alloc, rule)),
    }
}

/// The value, an object, has no keys beside the known ones.
pub fn check_only(alloc: Global, value: &Value, known: &[&str]) -> Result<(), FileFault>
    ensures { Gives Fails (λ u. u) result (only_lem (map (λ key. key.now) known.now) (view value.now)) }
{
    match kinds::only(value, known) {
        Ok(()) => Ok(()),
        Err(rule) => Err(broken(alloc, rule)),
    }
}

/// The value at the key, or the breach that the key is missing.
pub fn needed<'v>(alloc: Global, value: &'v Value, key: &str) -> Result<&'v Value, FileFault>
    ensures ok { IfOk result (λ found. get key.now (view value.now) ≡ Some (view found.now)) }
    ensures err { IfErr result (λ fault. (get key.now (view value.now) ≡ None)
        × IsBreach (record { path = pointer key.now []; rule = Rule.Missing }) fault) }
{
    match value.get(key) {
        Some(found) => Ok(found),
        None => Err(broken_at(alloc, key, Rule::Missing)),
    }
}

/// A whole number from `least` to `most`.
pub fn whole(
    alloc: Global,
    value: &Value,
    key: &str,
    least: u64,
    most: u64,
) -> Result<u64, FileFault>
    ensures value { Gives Fails (λ n. n) result (field key.now (whole_lem least most) (view value.now)) }
    ensures most { IfOk result (λ n. n ≤ most) }
{
    let field = needed(alloc, value, key)?;
    match kinds::whole(field, least, most) {
        Ok(number) => Ok(number),
        Err(rule) => Err(broken_at(alloc, key, rule)),
    }
}

/// A text of `least` to `most` bytes.
pub fn text<'v>(
    alloc: Global,
    value: &'v Value,
    key: &str,
    least: usize,
    most: usize,
) -> Result<&'v str, FileFault>
    ensures { Gives Fails (λ s. s.now) result (field key.now (text_lem least most) (view value.now)) }
{
    let field = needed(alloc, value, key)?;
    match kinds::text(field, least, most) {
        Ok(text) => Ok(text),
        Err(rule) => Err(broken_at(alloc, key, rule)),
    }
}

/// A seed.
pub fn seed(alloc: Global, value: &Value, key: &str) -> Result<[u8; 32], FileFault>
    ensures { Gives Fails (λ s. s) result (field key.now seed_lem (view value.now)) }
{
    let field = needed(alloc, value, key)?;
    match kinds::seed(field) {
        Ok(seed) => Ok(seed),
        Err(rule) => Err(broken_at(alloc, key, rule)),
    }
}

/// The items of a list of `least` to `most` items.
pub fn list<'v>(
    alloc: Global,
    value: &'v Value,
    key: &str,
    least: usize,
    most: usize,
) -> Result<&'v [Value], FileFault>
    ensures value { Gives Fails (λ s. items_view s.now) result (field key.now (list_lem least most) (view value.now)) }
    ensures most { IfOk result (λ s. length s.now ≤ most) }
    ensures least { IfOk result (λ s. least ≤ length s.now) }
{
    let field = needed(alloc, value, key)?;
    match kinds::list(field, least, most) {
        Ok(found) => Ok(found),
        Err(rule) => Err(broken_at(alloc, key, rule)),
    }
}

/// The members of an object of at most `most`.
pub fn members<'v>(
    alloc: Global,
    value: &'v Value,
    key: &str,
    most: usize,
) -> Result<&'v Map<String, Value>, FileFault>
    ensures value { Gives Fails (λ m. members_view m.now.entries) result (field key.now (members_lem most) (view value.now)) }
{
    let field = needed(alloc, value, key)?;
    match kinds::members(field, most) {
        Ok(found) => Ok(found),
        Err(rule) => Err(broken_at(alloc, key, rule)),
    }
}

/// True or false.
pub fn boolean(alloc: Global, value: &Value, key: &str) -> Result<bool, FileFault>
    ensures value { Gives Fails (λ b. b) result (field key.now boolean_lem (view value.now)) }
{
    let field = needed(alloc, value, key)?;
    match kinds::boolean(field) {
        Ok(found) => Ok(found),
        Err(rule) => Err(broken_at(alloc, key, rule)),
    }
}

/// The word of a mode.
pub fn mode(alloc: Global, value: &Value, key: &str) -> Result<Mode, FileFault>
    ensures value { Gives Fails (λ m. m) result (field key.now mode_lem (view value.now)) }
{
    let field = needed(alloc, value, key)?;
    match kinds::mode(field) {
        Ok(found) => Ok(found),
        Err(rule) => Err(broken_at(alloc, key, rule)),
    }
}

/// The word of a layer.
pub fn layer(alloc: Global, value: &Value, key: &str) -> Result<Layer, FileFault>
    ensures value { Gives Fails (λ l. l) result (field key.now layer_lem (view value.now)) }
{
    let field = needed(alloc, value, key)?;
    match kinds::layer(field) {
        Ok(found) => Ok(found),
        Err(rule) => Err(broken_at(alloc, key, rule)),
    }
}

/// The number of a format.
pub fn format(alloc: Global, value: &Value, key: &str) -> Result<Format, FileFault>
    ensures { Gives Fails (λ f. f) result (field key.now format_lem (view value.now)) }
{
    let field = needed(alloc, value, key)?;
    match kinds::format(field) {
        Ok(found) => Ok(found),
        Err(rule) => Err(broken_at(alloc, key, rule)),
    }
}

/// The value at the place of a list, or the breach that it is missing.
pub fn needed_item<'v>(
    alloc: Global,
    value: &'v Value,
    place: usize,
) -> Result<&'v Value, FileFault>
    ensures ok { IfOk result (λ found. at place (view value.now) ≡ Some (view found.now)) }
    ensures err { IfErr result (λ fault. (at place (view value.now) ≡ None)
        × IsBreach (record { path = pointer (decimal place) []; rule = Rule.Missing }) fault) }
{
    match value.get(place) {
        Some(found) => Ok(found),
        None => Err(broken_item(alloc, place, Rule::Missing)),
    }
}

/// The item of a list at `place`: a whole number from `least` to `most`.
pub fn whole_item(
    alloc: Global,
    value: &Value,
    place: usize,
    least: u64,
    most: u64,
) -> Result<u64, FileFault>
    ensures value { Gives Fails (λ n. n) result (item_at place (whole_lem least most) (view value.now)) }
    ensures most { IfOk result (λ n. n ≤ most) }
{
    let item = needed_item(alloc, value, place)?;
    match kinds::whole(item, least, most) {
        Ok(found) => Ok(found),
        Err(rule) => Err(broken_item(alloc, place, rule)),
    }
}

/// The item of a list at `place`: a whole number.
pub fn integer_item(alloc: Global, value: &Value, place: usize) -> Result<i64, FileFault>
    ensures value { Gives Fails (λ z. z) result (item_at place integer_lem (view value.now)) }
{
    let item = needed_item(alloc, value, place)?;
    match kinds::integer(item) {
        Ok(found) => Ok(found),
        Err(rule) => Err(broken_item(alloc, place, rule)),
    }
}

/// The item of a list at `place`: a text of `least` to `most` bytes.
pub fn text_item<'v>(
    alloc: Global,
    value: &'v Value,
    place: usize,
    least: usize,
    most: usize,
) -> Result<&'v str, FileFault>
    ensures value { Gives Fails (λ s. s.now) result (item_at place (text_lem least most) (view value.now)) }
{
    let item = needed_item(alloc, value, place)?;
    match kinds::text(item, least, most) {
        Ok(found) => Ok(found),
        Err(rule) => Err(broken_item(alloc, place, rule)),
    }
}

/// The value is a list of `count` items.
pub fn check_count(alloc: Global, value: &Value, count: usize) -> Result<(), FileFault>
    ensures { Gives Fails (λ u. u) result (exactly count (view value.now)) }
{
    match kinds::list(value, count, count) {
        Ok(_) => Ok(()),
        Err(rule) => Err(broken(alloc, rule)),
    }
}

/// The items of a list.
pub fn items<'v>(alloc: Global, value: &'v Value, key: &str) -> Result<&'v [Value], FileFault>
    ensures { Gives Fails (λ s. items_view s.now) result (field key.now items_lem (view value.now)) }
{
    let field = needed(alloc, value, key)?;
    match kinds::items(field) {
        Ok(found) => Ok(found),
        Err(rule) => Err(broken_at(alloc, key, rule)),
    }
}

/// The members of an object.
pub fn entries<'v>(
    alloc: Global,
    value: &'v Value,
    key: &str,
) -> Result<&'v Map<String, Value>, FileFault>
    ensures { Gives Fails (λ m. members_view m.now.entries) result (field key.now entries_lem (view value.now)) }
{
    let field = needed(alloc, value, key)?;
    match kinds::entries(field) {
        Ok(found) => Ok(found),
        Err(rule) => Err(broken_at(alloc, key, rule)),
    }
}

/// The tag that a key of an object is.
pub fn tag_key(alloc: Global, key: &str) -> Result<Tag, FileFault>
    ensures { Gives Fails (λ t. t) result (needed_lem Rule.Form (tag_of key.now)) }
{
    match Tag::read(key.as_bytes()) {
        Ok(tag) => Ok(tag),
        Err(_) => Err(broken(alloc, Rule::Form)),
    }
}
