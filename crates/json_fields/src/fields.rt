//! The fields of an object. Each function gives the value at a key, of its kind, and none where the
//! key is missing or its value is of another kind: null isn't a missing key. A value that is no
//! object has no fields.
ghost use Rattle.std.specs.Prelude.{◌≡◌, ◌≤◌, ◌≤ℤ◌, map, option_map, IfSome};
ghost use Rattle.std.specs.List.{list_any};
ghost use Rattle.std.specs.Str.{bytes_eq};
ghost use Rattle.serde_json.specs.View.{view, items_view, members_view};
ghost use Rattle.json_fields.specs.Fields.{integer_in, whole_in, text_in, boolean_in, word_in, pair_in, rectangle_in, list_in, text_or_null_in, tag_in, tag_or_null_in, id_in, mode_in, layer_in, wall_kind_in, class_in, layer_or as layer_or_default, unknown_member, unknown_in, IsLeastUnknown, IsLeastUnknownIn};

use crate::kinds;
use names::{Layer, Mode, PropClass, Tag, TokenId, WallKind};
use serde_json::{Map, Value};

/// An integer from `least` to `most`.
pub fn integer(value: &Value, key: &str, least: i64, most: i64) -> Option<i64>
    ensures value { result ≡ integer_in key.now least most (view value.now) }
    ensures least { IfSome result (λ z. least ≤ℤ z) }
    ensures most { IfSome result (λ z. z ≤ℤ most) }
{
    kinds::integer(value.get(key)?, least, most)
}

/// A whole number from `least` to `most`.
pub fn whole(value: &Value, key: &str, least: u64, most: u64) -> Option<u64>
    ensures value { result ≡ whole_in key.now least most (view value.now) }
    ensures least { IfSome result (λ n. least ≤ n) }
    ensures most { IfSome result (λ n. n ≤ most) }
{
    kinds::whole(value.get(key)?, least, most)
}

/// A whole number from `least` to `most`.
pub fn whole_u8(value: &Value, key: &str, least: u8, most: u8) -> Option<u8>
    ensures value { result ≡ whole_in key.now least most (view value.now) }
    ensures least { IfSome result (λ n. least ≤ n) }
    ensures most { IfSome result (λ n. n ≤ most) }
{
    kinds::whole_u8(value.get(key)?, least, most)
}

/// A text of `least` to `most` bytes of UTF-8.
pub fn text<'v>(value: &'v Value, key: &str, least: usize, most: usize) -> Option<&'v str>
    ensures { option_map (λ s. s.now) result ≡ text_in key.now least most (view value.now) }
{
    kinds::text(value.get(key)?, least, most)
}

/// A tag.
pub fn tag(value: &Value, key: &str) -> Option<Tag>
    ensures { result ≡ tag_in key.now (view value.now) }
{
    kinds::tag(value.get(key)?)
}

/// A tag, or null, which gives `Some(None)`.
pub fn tag_or_null(value: &Value, key: &str) -> Option<Option<Tag>>
    ensures { result ≡ tag_or_null_in key.now (view value.now) }
{
    kinds::tag_or_null(value.get(key)?)
}

/// The text of a token's id.
pub fn id(value: &Value, key: &str) -> Option<TokenId>
    ensures { result ≡ id_in key.now (view value.now) }
{
    kinds::id(value.get(key)?)
}

/// The word of a mode.
pub fn mode(value: &Value, key: &str) -> Option<Mode>
    ensures { result ≡ mode_in key.now (view value.now) }
{
    kinds::mode(value.get(key)?)
}

/// The word of a layer.
pub fn layer(value: &Value, key: &str) -> Option<Layer>
    ensures { result ≡ layer_in key.now (view value.now) }
{
    kinds::layer(value.get(key)?)
}

/// The word of a kind of wall.
pub fn wall_kind(value: &Value, key: &str) -> Option<WallKind>
    ensures { result ≡ wall_kind_in key.now (view value.now) }
{
    kinds::wall_kind(value.get(key)?)
}

/// The word of a class that a command names.
pub fn class(value: &Value, key: &str) -> Option<PropClass>
    ensures { result ≡ class_in key.now (view value.now) }
{
    kinds::class(value.get(key)?)
}

/// True or false.
pub fn boolean(value: &Value, key: &str) -> Option<bool>
    ensures { result ≡ boolean_in key.now (view value.now) }
{
    value.get(key)?.as_bool()
}

/// A word of the table.
pub fn word<T: Copy>(value: &Value, key: &str, table: &[(&str, T)]) -> Option<T>
    ensures { result ≡ word_in key.now (map (λ row. (row.0.now, row.1)) table.now) (view value.now) }
{
    kinds::word(value.get(key)?, table)
}

/// A list of two integers from `least` to `most`.
pub fn pair(value: &Value, key: &str, least: i32, most: i32) -> Option<(i32, i32)>
    ensures { result ≡ pair_in key.now least most (view value.now) }
{
    kinds::pair(value.get(key)?, least, most)
}

/// A list of four numbers: integers x and y from `least` to `most`, and whole width and height from
/// `least_side` to `most_side`. It gives the place and the size.
pub fn rectangle(
    value: &Value,
    key: &str,
    least: i32,
    most: i32,
    least_side: u16,
    most_side: u16,
) -> Option<((i32, i32), (u16, u16))>
    ensures { result ≡ rectangle_in key.now least most least_side most_side (view value.now) }
{
    kinds::rectangle(value.get(key)?, least, most, least_side, most_side)
}

/// The items of a list that has `least` to `most` of them.
pub fn list<'v>(value: &'v Value, key: &str, least: usize, most: usize) -> Option<&'v [Value]>
    ensures { option_map (λ s. items_view s.now) result ≡ list_in key.now least most (view value.now) }
{
    kinds::list(value.get(key)?, least, most)
}

/// A text of `least` to `most` bytes of UTF-8, or null, which gives `Some(None)`.
pub fn text_or_null<'v>(
    value: &'v Value,
    key: &str,
    least: usize,
    most: usize,
) -> Option<Option<&'v str>>
    ensures { option_map (option_map (λ s. s.now)) result
        ≡ text_or_null_in key.now least most (view value.now) }
{
    kinds::text_or_null(value.get(key)?, least, most)
}

/// The word of a layer, or `default` where the key is missing.
pub fn layer_or(value: &Value, key: &str, default: Layer) -> Option<Layer>
    ensures { result ≡ layer_or_default key.now default (view value.now) }
{
    match value.get(key) {
        Some(field) => kinds::layer(field),
        None => Some(default),
    }
}

/// The first key, in the order of the keys' bytes, that isn't among `known`. A value that is no object
/// has none.
pub fn unknown_key<'v>(value: &'v Value, known: &[&str]) -> Option<&'v str>
    ensures first { option_map (λ s. s.now) result
        ≡ unknown_in (map (λ k. k.now) known.now) (view value.now) }
    ensures least { IfSome result
        (λ s. IsLeastUnknownIn (map (λ k. k.now) known.now) (view value.now) s.now) }
{
    first_unknown(value.as_object()?, known)
}

fn first_unknown<'v>(members: &'v Map<String, Value>, known: &[&str]) -> Option<&'v str>
    ensures first { option_map (λ s. s.now) result
        ≡ unknown_member (map (λ k. k.now) known.now) (members_view members.now.entries) }
    ensures least { IfSome result
        (λ s. IsLeastUnknown (map (λ k. k.now) known.now) (members_view members.now.entries) s.now) }
{
    for (key, _) in members {
        let name = key.as_str();
        if !is_known(known, name) {
            return Some(name);
        }
    }
    None
}

fn is_known(known: &[&str], key: &str) -> bool
    ensures { result ≡ list_any (λ k. bytes_eq k.now key.now) known.now }
{
    known.iter().any(|name| *name == key)
}
