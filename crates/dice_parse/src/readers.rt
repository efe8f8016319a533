//! The grammar's rules, each as a function that moves a cursor. At what can't be read the cursor stands at the failing
//! place.

ghost use Rattle.std.specs.Prelude.{◌≡◌, ◌<◌, ◌≤◌, ◌+◌, ◌^◌, Some, None, IfSome, IfOk, length, nat_eq, true, false, ℕ, []};
ghost use Rattle.reading.specs.Reading.{item, bind, on_head, done};
ghost use Rattle.reading.specs.Number.{is_digit, number_at};
ghost use Rattle.dice_parse.specs.Readers.{is_kind, kind_of, num_at, explode_at, again_at, tail_at, die_at, group_at, part_at, is_sign, dice_at, items_of};

use crate::parts::{Group, Part, Tail, Term};
use reading::Cursor;
use std::alloc::{AllocError, Global};

/// The next number, of at most nine digits.
fn number(cursor: &mut Cursor<'_>) -> Option<u32>
    ensures { num_at cursor.old.rest.now ≡ (result, cursor.new.rest.now) }
{
    let number = cursor.number(8)?;
    Some(number as u32)
}

/// Whether an `e` comes next, which is then taken.
#[tactic(auto, unfolding(crate::specs::Readers::explode_at))]
fn explode(cursor: &mut Cursor<'_>) -> bool
    ensures { explode_at cursor.old.rest.now ≡ (Some result, cursor.new.rest.now) }
{
    cursor.takes(b'e')
}

/// The number behind an `r`, where there is one.
#[tactic(auto, unfolding(crate::specs::Readers::again_at))]
fn again(cursor: &mut Cursor<'_>) -> Option<Option<u32>>
    ensures { again_at cursor.old.rest.now ≡ (result, cursor.new.rest.now) }
{
    if !cursor.takes(b'r') {
        return Some(None);
    }
    let number = number(cursor)?;
    Some(Some(number))
}

/// The letter of a tail.
fn kind(cursor: &mut Cursor<'_>) -> Option<Tail>
    ensures { on_head is_kind (bind (item is_kind) (λ b. done (Some (kind_of b)))) (done None) cursor.old.rest.now
        ≡ (Some result, cursor.new.rest.now) }
{
    let (first, rest) = cursor.rest.split_first()?;
    let kind = match *first {
        b'k' => Tail::Keep,
        b'd' => Tail::Lose,
        b's' => Tail::Succeed,
        _ => return None,
    };
    cursor.rest = rest;
    Some(kind)
}

#[tactic(auto, unfolding(crate::specs::Readers::tail_at))]
fn tail(cursor: &mut Cursor<'_>) -> Option<Option<(Tail, u32)>>
    ensures { tail_at cursor.old.rest.now ≡ (result, cursor.new.rest.now) }
{
    let Some(kind) = kind(cursor) else {
        return Some(None);
    };
    let number = number(cursor)?;
    Some(Some((kind, number)))
}

/// What stands behind the `d` of a group of so many dice: None where it isn't of the grammar, and then the cursor stands
/// at the failing place. The numbers may be off the limits.
#[tactic(auto, unfolding(crate::specs::Readers::die_at))]
pub fn die(cursor: &mut Cursor<'_>, count: u32) -> Option<Group>
    ensures { die_at count cursor.old.rest.now ≡ (result, cursor.new.rest.now) }
{
    let sides = number(cursor)?;
    let explode = explode(cursor);
    let again = again(cursor)?;
    let tail = tail(cursor)?;
    Some(Group {
        count,
        sides,
        explode,
        again,
        tail,
    })
}

#[tactic(auto, unfolding(crate::specs::Readers::part_at, crate::specs::Readers::group_at))]
fn part(cursor: &mut Cursor<'_>) -> Option<Part>
    ensures { part_at cursor.old.rest.now ≡ (result, cursor.new.rest.now) }
{
    let (first, _) = cursor.rest.split_first()?;
    if first.is_ascii_digit() {
        let number = number(cursor)?;
        if !cursor.takes(b'd') {
            return Some(Part::Number(number));
        }
        let group = die(cursor, number)?;
        return Some(Part::Group(group));
    }
    if !cursor.takes(b'd') {
        return None;
    }
    let group = die(cursor, 1)?;
    Some(Part::Group(group))
}

/// The sign before a further term: whether it is a minus.
fn sign(cursor: &mut Cursor<'_>) -> Option<bool>
    ensures { bind (item is_sign) (λ b. done (nat_eq 45 b)) cursor.old.rest.now ≡ (result, cursor.new.rest.now) }
{
    let (first, rest) = cursor.rest.split_first()?;
    let minus = match *first {
        b'+' => false,
        b'-' => true,
        _ => return None,
    };
    cursor.rest = rest;
    Some(minus)
}

/// All terms up to the text's end.
pub(crate) fn terms(alloc: Global, cursor: &mut Cursor<'_>) -> Result<Option<Vec<Term>>, AllocError>
    ensures value { IfOk result (λ found. (turns : ℕ) → length cursor.old.rest.now < turns
        → dice_at turns cursor.old.rest.now ≡ (items_of found, cursor.new.rest.now)) }
    ensures ended { IfOk result (λ found. IfSome found (λ _. cursor.new.rest.now ≡ [])) }
{
    let mut terms = Vec::new(alloc);
    let Some(part) = part(cursor) else {
        return Ok(None);
    };
    terms.push(Term { minus: false, part })?;
    while !cursor.rest.is_empty() {
        let Some(minus) = sign(cursor) else {
            return Ok(None);
        };
        let Some(part) = self::part(cursor) else {
            return Ok(None);
        };
        terms.push(Term { minus, part })?;
    }
    Ok(Some(terms))
}
