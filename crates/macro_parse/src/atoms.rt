//! The parts of an expression that nest nothing, each as a function that moves a cursor.

ghost use Rattle.std.specs.Prelude.{◌≡◌, ◌<◌, ◌≤◌, ◌^◌, ℕ, List, Some, IfOk, IfSome, length};
ghost use Rattle.reading.specs.Reading.{item};
ghost use Rattle.macro_grammar.specs.Readers.{blanks_at, number_or_dice_at, is_letter, is_name_byte, name_at, quoted_at};
ghost use Rattle.macro_parse.specs.Found.{numeral_tree, bytes_of, InsideStep, quoted_tree};

use dice_parse::{Group, die};
use reading::Cursor;
use std::alloc::{AllocError, Global};

/// A number, or dice with their count.
#[derive(Clone, Copy, Debug, PartialEq, Eq)]
pub(crate) enum Numeral {
    Number(u64),
    Dice(Group),
}

/// Blanks, which are left out.
pub(crate) fn blanks(cursor: &mut Cursor<'_>)
    ensures value { (w : List ℕ) × (blanks_at cursor.old.rest.now ≡ (Some w, cursor.new.rest.now)) }
    ensures shrinks { length cursor.new.rest.now ≤ length cursor.old.rest.now }
{
    while cursor.takes(b' ') {}
}

/// A number, or dice where a `d` stands behind at most nine digits.
#[tactic(auto, unfolding(macro_grammar::specs::Readers::number_or_dice_at))]
pub(crate) fn number_or_dice(cursor: &mut Cursor<'_>) -> Option<Numeral>
    ensures { (at : ℕ) → number_or_dice_at at cursor.old.rest.now ≡ (numeral_tree at result, cursor.new.rest.now) }
{
    let before = cursor.rest.len();
    let number = cursor.number(17)?;
    let digits = before - cursor.rest.len();
    if digits > 9 || !cursor.takes(b'd') {
        return Some(Numeral::Number(number));
    }
    let group = die(cursor, number as u32)?;
    Some(Numeral::Dice(group))
}

/// Takes the next byte, if it is a letter from a to z.
fn letter(cursor: &mut Cursor<'_>) -> Option<u8>
    ensures value { item is_letter cursor.old.rest.now ≡ (result, cursor.new.rest.now) }
    ensures shrinks { length cursor.new.rest.now ≤ length cursor.old.rest.now }
{
    let (first, rest) = cursor.rest.split_first()?;
    if !first.is_ascii_lowercase() {
        return None;
    }
    cursor.rest = rest;
    Some(*first)
}

/// Takes the next byte, if it may stand in a name.
fn name_byte(cursor: &mut Cursor<'_>) -> Option<u8>
    ensures value { item is_name_byte cursor.old.rest.now ≡ (result, cursor.new.rest.now) }
    ensures shrinks { length cursor.new.rest.now ≤ length cursor.old.rest.now }
{
    let (first, rest) = cursor.rest.split_first()?;
    if !(first.is_ascii_lowercase() || first.is_ascii_digit() || *first == b'_') {
        return None;
    }
    cursor.rest = rest;
    Some(*first)
}

/// The name that comes next, of at most 24 bytes.
pub(crate) fn name(alloc: Global, cursor: &mut Cursor<'_>) -> Result<Option<Vec<u8>>, AllocError>
    ensures value { IfOk result (λ found. name_at cursor.old.rest.now ≡ (bytes_of found, cursor.new.rest.now)) }
    ensures shrinks { length cursor.new.rest.now ≤ length cursor.old.rest.now }
{
    let Some(first) = letter(cursor) else {
        return Ok(None);
    };
    let mut name = Vec::new(alloc);
    name.push(first)?;
    for _place in 0..23u32 {
        let Some(byte) = name_byte(cursor) else {
            return Ok(Some(name));
        };
        name.push(byte)?;
    }
    Ok(Some(name))
}

/// One step inside quotes: None where nothing may come, Some(None) at the closing quote, else the byte that is meant.
fn quoted_byte(cursor: &mut Cursor<'_>) -> Option<Option<u8>>
    ensures step { InsideStep cursor.old.rest.now result cursor.new.rest.now }
    ensures shorter { IfSome result (λ _. length cursor.new.rest.now < length cursor.old.rest.now) }
    ensures shrinks { length cursor.new.rest.now ≤ length cursor.old.rest.now }
{
    let (first, rest) = cursor.rest.split_first()?;
    if *first == b'"' {
        cursor.rest = rest;
        return Some(None);
    }
    if *first != b'\\' {
        cursor.rest = rest;
        return Some(Some(*first));
    }
    cursor.rest = rest;
    let (second, rest) = cursor.rest.split_first()?;
    if *second != b'"' && *second != b'\\' {
        return None;
    }
    cursor.rest = rest;
    Some(Some(*second))
}

/// The quoted text that comes next, with its escapes undone.
pub(crate) fn quoted(alloc: Global, cursor: &mut Cursor<'_>) -> Result<Option<Vec<u8>>, AllocError>
    ensures value { IfOk result (λ found. (at : ℕ) → quoted_at at cursor.old.rest.now ≡ (quoted_tree at found, cursor.new.rest.now)) }
    ensures shrinks { length cursor.new.rest.now ≤ length cursor.old.rest.now }
{
    if !cursor.takes(b'"') {
        return Ok(None);
    }
    let mut text = Vec::new(alloc);
    loop {
        let Some(step) = quoted_byte(cursor) else {
            return Ok(None);
        };
        let Some(byte) = step else {
            return Ok(Some(text));
        };
        text.push(byte)?;
    }
}
