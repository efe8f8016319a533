//! Kinds of value: each function gives what a value of its kind stands for, and none for another.
ghost use Rattle.std.specs.Prelude.{◌≡◌, ◌≤◌, ◌≤ℤ◌, map, option_map, IfSome};
ghost use Rattle.std.specs.Option.{option_zip};
ghost use Rattle.serde_json.specs.View.{view, items_view};
ghost use Rattle.json_fields.specs.Kinds.{integer_from, whole_from, text_from, word_from, word_among, list_from, is_counted as counted_test, has_items as items_test, item_in, pair_from, rectangle_from, or_null, tag_from, id_from, mode_from, layer_from, wall_kind_from, class_from};

use names::{Layer, Mode, PropClass, Tag, TokenId, WallKind};
use serde_json::Value;

/// An integer from `least` to `most`.
pub fn integer(value: &Value, least: i64, most: i64) -> Option<i64>
    ensures value { result ≡ integer_from least most (view value.now) }
    ensures least { IfSome result (λ z. least ≤ℤ z) }
    ensures most { IfSome result (λ z. z ≤ℤ most) }
{
    let number = value.as_i64()?;
    if number < least || number > most {
        return None;
    }
    Some(number)
}

/// A whole number from `least` to `most`.
pub fn whole(value: &Value, least: u64, most: u64) -> Option<u64>
    ensures value { result ≡ whole_from least most (view value.now) }
    ensures least { IfSome result (λ n. least ≤ n) }
    ensures most { IfSome result (λ n. n ≤ most) }
{
    let whole = u64::try_from(value.as_i64()?).ok()?;
    if whole < least || whole > most {
        return None;
    }
    Some(whole)
}

/// A whole number from `least` to `most`.
pub fn whole_u8(value: &Value, least: u8, most: u8) -> Option<u8>
    ensures value { result ≡ whole_from least most (view value.now) }
    ensures least { IfSome result (λ n. least ≤ n) }
    ensures most { IfSome result (λ n. n ≤ most) }
{
    let number = whole(value, u64::from(least), u64::from(most))?;
    Some(number as u8)
}

/// A whole number from `least` to `most`.
fn whole_u16(value: &Value, least: u16, most: u16) -> Option<u16>
    ensures value { result ≡ whole_from least most (view value.now) }
    ensures least { IfSome result (λ n. least ≤ n) }
    ensures most { IfSome result (λ n. n ≤ most) }
{
    let number = whole(value, u64::from(least), u64::from(most))?;
    Some(number as u16)
}

/// A text of `least` to `most` bytes of UTF-8.
pub fn text(value: &Value, least: usize, most: usize) -> Option<&str>
    ensures { option_map (λ s. s.now) result ≡ text_from least most (view value.now) }
{
    let text = value.as_str()?;
    if text.len() < least || text.len() > most {
        return None;
    }
    Some(text)
}

/// A tag.
pub fn tag(value: &Value) -> Option<Tag>
    ensures { result ≡ tag_from (view value.now) }
{
    Tag::read(value.as_str()?.as_bytes()).ok()
}

/// A tag, or null, which gives `Some(None)`.
pub fn tag_or_null(value: &Value) -> Option<Option<Tag>>
    ensures { result ≡ or_null tag_from (view value.now) }
{
    match value {
        Value::Null => Some(None),
        _ => Some(Some(tag(value)?)),
    }
}

/// The text of a token's id.
pub fn id(value: &Value) -> Option<TokenId>
    ensures { result ≡ id_from (view value.now) }
{
    TokenId::read(value.as_str()?.as_bytes()).ok()
}

/// The word of a mode.
pub fn mode(value: &Value) -> Option<Mode>
    ensures { result ≡ mode_from (view value.now) }
{
    Mode::read(value.as_str()?)
}

/// The word of a layer.
pub fn layer(value: &Value) -> Option<Layer>
    ensures { result ≡ layer_from (view value.now) }
{
    Layer::read(value.as_str()?)
}

/// The word of a kind of wall.
pub fn wall_kind(value: &Value) -> Option<WallKind>
    ensures { result ≡ wall_kind_from (view value.now) }
{
    WallKind::read(value.as_str()?)
}

/// The word of a class that a command names.
pub fn class(value: &Value) -> Option<PropClass>
    ensures { result ≡ class_from (view value.now) }
{
    PropClass::read(value.as_str()?)
}

/// A word of the table.
pub fn word<T: Copy>(value: &Value, table: &[(&str, T)]) -> Option<T>
    ensures { result ≡ word_from (map (λ row. (row.0.now, row.1)) table.now) (view value.now) }
{
    find_word(table, value.as_str()?)
}

fn find_word<T: Copy>(table: &[(&str, T)], word: &str) -> Option<T>
    ensures { result ≡ word_among (map (λ row. (row.0.now, row.1)) table.now) word.now }
{
    for row in table {
        if row.0 == word {
            return Some(row.1);
        }
    }
    None
}

/// The items of a list that has `least` to `most` of them.
pub fn list(value: &Value, least: usize, most: usize) -> Option<&[Value]>
    ensures { option_map (λ s. items_view s.now) result ≡ list_from least most (view value.now) }
{
    let items = value.as_array()?.as_slice();
    if is_counted(items, least, most) {
        Some(items)
    } else {
        None
    }
}

#[tactic(auto, using(crate::proofs::Reading::items_len_view))]
fn is_counted(items: &[Value], least: usize, most: usize) -> bool
    ensures { result ≡ counted_test least most (items_view items.now) }
{
    least <= items.len() && items.len() <= most
}

/// Whether the value is a list of `count` items.
fn has_items(value: &Value, count: usize) -> bool
    ensures { result ≡ items_test count (view value.now) }
{
    list(value, count, count).is_some()
}

/// The item of a list at `index`: an integer from `least` to `most`.
fn integer_item(value: &Value, index: usize, least: i32, most: i32) -> Option<i32>
    ensures { result ≡ item_in (integer_from least most) index (view value.now) }
{
    let number = integer(value.get(index)?, i64::from(least), i64::from(most))?;
    Some(number as i32)
}

/// The item of a list at `index`: a whole number from `least` to `most`.
fn whole_item(value: &Value, index: usize, least: u16, most: u16) -> Option<u16>
    ensures { result ≡ item_in (whole_from least most) index (view value.now) }
{
    whole_u16(value.get(index)?, least, most)
}

/// A list of two integers from `least` to `most`: x and y of a cell or a point.
pub fn pair(value: &Value, least: i32, most: i32) -> Option<(i32, i32)>
    ensures { result ≡ pair_from least most (view value.now) }
{
    if !has_items(value, 2) {
        return None;
    }
    place(value, least, most)
}

/// A list of four numbers: integers x and y from `least` to `most`, and whole width and height from
/// `least_side` to `most_side`. It gives the place and the size.
pub fn rectangle(
    value: &Value,
    least: i32,
    most: i32,
    least_side: u16,
    most_side: u16,
) -> Option<((i32, i32), (u16, u16))>
    ensures { result ≡ rectangle_from least most least_side most_side (view value.now) }
{
    if !has_items(value, 4) {
        return None;
    }
    place(value, least, most).zip(size(value, least_side, most_side))
}

fn place(value: &Value, least: i32, most: i32) -> Option<(i32, i32)>
    ensures { result ≡ option_zip (item_in (integer_from least most) 0 (view value.now))
        (item_in (integer_from least most) 1 (view value.now)) }
{
    integer_item(value, 0, least, most).zip(integer_item(value, 1, least, most))
}

fn size(value: &Value, least: u16, most: u16) -> Option<(u16, u16)>
    ensures { result ≡ option_zip (item_in (whole_from least most) 2 (view value.now))
        (item_in (whole_from least most) 3 (view value.now)) }
{
    whole_item(value, 2, least, most).zip(whole_item(value, 3, least, most))
}

/// A text of `least` to `most` bytes of UTF-8, or null, which gives `Some(None)`.
pub fn text_or_null(value: &Value, least: usize, most: usize) -> Option<Option<&str>>
    ensures { option_map (option_map (λ s. s.now)) result
        ≡ or_null (text_from least most) (view value.now) }
{
    match value {
        Value::Null => Some(None),
        _ => Some(Some(text(value, least, most)?)),
    }
}
