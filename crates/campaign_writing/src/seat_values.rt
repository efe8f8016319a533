//! Seats as values of the campaign text.
ghost use Rattle.std.specs.Prelude.{◌≡◌, length, IfOk, OnOk};
ghost use Rattle.std.specs.List.{AllByRecursion};
ghost use Rattle.serde_json.specs.Data.{string};
ghost use Rattle.serde_json.specs.View.{view, members_view};
ghost use Rattle.hex.specs.Hex.{encode_lower, IsBytes};
ghost use Rattle.campaign_writing.specs.Canonical.{macros_tree, seat_members as seat_members_lem, seat_tree, seats_tree, tags_tree};
ghost use Rattle.campaign_writing.specs.Kept.{AreKeptMacros, AreKeptTags, IsKeptBook};

use crate::fog_values::fog_value;
use crate::values::{name, put_member, put_named, text_value};
use seats::SeatBook;
use serde_json::{Map, Value, json};
use std::alloc::{AllocError, Global};
use world::Scene;

/// The seed in lower-case digits.
fn seed(alloc: Global, book: &SeatBook) -> Result<Value, AllocError>
    ensures tree { IfOk result (λ v. view v ≡ string (encode_lower book.now.seed)) }
    ensures kept { OnOk result ((length book.now.seed ≡ 32) × IsBytes book.now.seed) }
{
    Ok(Value::String(hex::encode(alloc, book.seed())?))
}

/// The tags, in order of use.
fn tags(alloc: Global, book: &SeatBook) -> Result<Value, AllocError>
    ensures tree { IfOk result (λ v. view v ≡ tags_tree book.now.tags) }
    ensures kept { OnOk result (AreKeptTags book.now.seat book.now.tags) }
{
    let mut list = Vec::new(alloc);
    for place in 0..book.tag_count() {
        list.push(name(alloc, book.tag_at(place))?)?;
    }
    Ok(Value::Array(list))
}

/// The macros, in byte order of their names.
fn macros(alloc: Global, book: &SeatBook) -> Result<Value, AllocError>
    ensures tree { IfOk result (λ v. view v ≡ macros_tree book.now.macros) }
    ensures kept { OnOk result (AreKeptMacros book.now.macros) }
{
    let mut members = Map::new(alloc);
    for place in 0..book.macro_count() {
        let (tag, text) = book.macro_at(place);
        put_named(&mut members, alloc, tag, text_value(alloc, text)?)?;
    }
    Ok(Value::Object(members))
}

/// The members of a seat.
#[tactic(auto, unfolding(crate::specs::Canonical::seat_members))]
fn seat_members(
    alloc: Global,
    scene: &Scene,
    book: &SeatBook,
) -> Result<Map<String, Value>, AllocError>
    ensures tree { IfOk result (λ members. members_view members.entries ≡ seat_members_lem scene.now book.now) }
    ensures kept { OnOk result (IsKeptBook book.now) }
{
    let mut members = Map::new(alloc);
    put_member(&mut members, alloc, "drawn", Value::from(book.drawn()))?;
    let fog = fog_value(alloc, scene, book.seat())?;
    put_member(&mut members, alloc, "fog", fog)?;
    put_member(&mut members, alloc, "key", text_value(alloc, book.key())?)?;
    put_member(&mut members, alloc, "macros", macros(alloc, book)?)?;
    put_member(&mut members, alloc, "seed", seed(alloc, book)?)?;
    put_member(&mut members, alloc, "tags", tags(alloc, book)?)?;
    Ok(members)
}

/// A seat.
fn seat_value(alloc: Global, scene: &Scene, book: &SeatBook) -> Result<Value, AllocError>
    ensures tree { IfOk result (λ v. view v ≡ seat_tree scene.now book.now) }
    ensures kept { OnOk result (IsKeptBook book.now) }
{
    let members = seat_members(alloc, scene, book)?;
    Ok(Value::Object(members))
}

/// The seats, in order of their numbers.
pub(crate) fn seats_value(
    alloc: Global,
    scene: &Scene,
    books: &[SeatBook],
) -> Result<Value, AllocError>
    ensures tree { IfOk result (λ v. view v ≡ seats_tree scene.now books.now) }
    ensures kept { OnOk result (AllByRecursion IsKeptBook books.now) }
{
    let mut list = Vec::new(alloc);
    for book in books {
        list.push(seat_value(alloc, scene, book)?)?;
    }
    Ok(Value::Array(list))
}
