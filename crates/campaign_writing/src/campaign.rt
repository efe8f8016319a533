//! The campaign text of a world.
ghost use Rattle.std.specs.Prelude.{◌≡◌, Ok, IfOk, OnOk};
ghost use Rattle.serde_json.specs.View.{view, members_view};
ghost use Rattle.campaign_file.specs.Campaign.{campaign_of};
ghost use Rattle.campaign_writing.specs.Canonical.{campaign_members as campaign_members_lem, campaign_tree, campaign_tree_in, canonical, canonical_in, first_canonical, reopened};
ghost use Rattle.campaign_writing.specs.Kept.{IsKept};
ghost use Rattle.campaign_writing.specs.Laws.{ReadIsWritten};
ghost use Rattle.campaign_writing.specs.Written.{IsOfFirst, IsOfFormat, IsWritten};
ghost use Rattle.world.specs.World.{IsWorld};

use crate::map_values::maps_value;
use crate::seat_values::seats_value;
use crate::token_values::tokens_value;
use crate::type_values::{lights_value, sights_value};
use crate::values::put_member;
use campaign_json::Format;
use json_fields::compact_line;
use names::{LineText, Memory};
use seats::SeatBook;
use serde_json::{Map, Value};
use std::alloc::{AllocError, Global};
use world::{Scene, World};

/// The members of the campaign text of a format.
#[tactic(auto, unfolding(crate::specs::Canonical::campaign_members))]
fn campaign_members(
    alloc: Global,
    format: Format,
    scene: &Scene,
    books: &[SeatBook],
) -> Result<Map<String, Value>, AllocError>
    ensures tree { IfOk result (λ members. members_view members.entries
        ≡ campaign_members_lem format (record { scene = scene.now; books = books.now })) }
    ensures kept { IsWorld (record { scene = scene.now; books = books.now })
        → OnOk result (IsKept (record { scene = scene.now; books = books.now })) }
{
    let mut members = Map::new(alloc);
    put_member(&mut members, alloc, "format", Value::from(format.number()))?;
    let lights = lights_value(alloc, scene.lights())?;
    put_member(&mut members, alloc, "lights", lights)?;
    let maps = maps_value(alloc, format, scene.maps())?;
    put_member(&mut members, alloc, "maps", maps)?;
    let seats = seats_value(alloc, scene, books)?;
    put_member(&mut members, alloc, "seats", seats)?;
    let sights = sights_value(alloc, scene.sights())?;
    put_member(&mut members, alloc, "sights", sights)?;
    let tokens = tokens_value(alloc, scene.tokens())?;
    put_member(&mut members, alloc, "tokens", tokens)?;
    Ok(members)
}

fn value_in(
    alloc: Global,
    format: Format,
    scene: &Scene,
    books: &[SeatBook],
) -> Result<Value, AllocError>
    ensures tree { IfOk result (λ v. view v ≡ campaign_tree_in format (record { scene = scene.now; books = books.now })) }
    ensures kept { IsWorld (record { scene = scene.now; books = books.now })
        → OnOk result (IsKept (record { scene = scene.now; books = books.now })) }
{
    let members = campaign_members(alloc, format, scene, books)?;
    Ok(Value::Object(members))
}

/// The campaign text of a scene and its seats' books as a JSON value, or want of memory.
#[tactic(auto, unfolding(crate::specs::Canonical::campaign_tree))]
pub fn campaign_value(alloc: Global, scene: &Scene, books: &[SeatBook]) -> Result<Value, AllocError>
    ensures tree { IfOk result (λ v. view v ≡ campaign_tree (record { scene = scene.now; books = books.now })) }
    ensures kept { IsWorld (record { scene = scene.now; books = books.now })
        → OnOk result (IsKept (record { scene = scene.now; books = books.now })) }
{
    value_in(alloc, Format::Second, scene, books)
}

/// The text of a world in a format, in one line without its end.
fn text_in(alloc: Global, format: Format, world: &World) -> Result<LineText, Memory>
    ensures text { IfOk result (λ line. line ≡ canonical_in format world.now) }
    ensures reads_back { IsWritten world.now → IsOfFormat format world.now
        → IfOk result (λ line. campaign_of line ≡ Ok (reopened world.now)) }
{
    match value_in(alloc, format, world.scene(), world.seats()) {
        Ok(value) => compact_line(alloc, &value),
        Err(_) => Err(Memory),
    }
}

/// The canonical campaign text of a world, of the second format, in one line without its end. `Memory` is want of memory.
///
/// It is read back as the same world, in which no line was counted, all seats are Free, and there is no fight, where keys,
/// macros, names and sizes are those that the campaign text takes, as they are in each world that was read.
#[tactic(auto, unfolding(crate::specs::Canonical::canonical))]
pub fn write_campaign(alloc: Global, world: &World) -> Result<LineText, Memory>
    ensures text { IfOk result (λ line. line ≡ canonical world.now) }
    ensures reads_back { IsWritten world.now → IfOk result (λ line. campaign_of line ≡ Ok (reopened world.now)) }
{
    text_in(alloc, Format::Second, world)
}

/// The campaign text of the first format, canonical but for that: what it has no word of, trails and darknesses of light
/// types, isn't told. `Memory` is want of memory.
///
/// It is read back as the same world, as what `write_campaign` gives, where no map has a trail, and no light type is a
/// darkness.
#[tactic(auto, unfolding(crate::specs::Canonical::first_canonical))]
pub fn write_first(alloc: Global, world: &World) -> Result<LineText, Memory>
    ensures text { IfOk result (λ line. line ≡ first_canonical world.now) }
    ensures reads_back { IsWritten world.now → IsOfFirst world.now → IfOk result (λ line. campaign_of line ≡ Ok (reopened world.now)) }
{
    text_in(alloc, Format::First, world)
}

/// The law of campaign texts: in each world that is read from one, keys, macros, names and sizes are those that it takes.
pub fn read_worlds_are_written()
    ensures { ReadIsWritten }
{}
