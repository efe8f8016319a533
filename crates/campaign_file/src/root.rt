//! The campaign text whole.
ghost use Rattle.std.specs.Prelude.{◌≡◌, ◌≤◌, IfOk, IfSome};
ghost use Rattle.serde_json.specs.View.{view};
ghost use Rattle.json_fields.specs.Objects.{Gives};
ghost use Rattle.json_fields.specs.Values.{value_of};
ghost use Rattle.campaign_json.specs.Reading.{Fails};
ghost use Rattle.campaign_file.specs.Campaign.{campaign as campaign_lem, campaign_of, players_in as players_in_lem, IsOpening, IsReadInKeyOrder};

use crate::seat::read_seats;
use campaign_json::fields::{self, check_object, check_only};
use campaign_json::{FileFault, Rule, broken};
use campaign_scene::{read_lights, read_maps, read_sights, read_tokens};
use json_fields::{ReadFault, read_value};
use serde_json::Value;
use std::alloc::Global;
use world::{Scene, World};

/// The keys of the whole.
const CAMPAIGN_KEYS: [&str; 6] = ["format", "lights", "sights", "maps", "seats", "tokens"];

/// The world that a campaign text opens with. Its books are 1 to 33 fresh ones, each numbered by its place. Seat 0 is
/// the game master's.
///
/// `Bad` comes exactly where the text is off the format, with the path and the rule of its first breach. Free keys, such
/// as the names of types, are read in the order of their bytes.
/// `Memory` is want of memory.
#[tactic(auto, using(json_fields::proofs::Rising::rising_keys), unfolding(crate::specs::Campaign::campaign_of))]
pub fn read_campaign(alloc: Global, text: &[u8]) -> Result<World, FileFault>
    ensures exact { Gives Fails (λ world. world) result (campaign_of text.now) }
    ensures key_order { IfSome (value_of text.now) (IsReadInKeyOrder result) }
    ensures opening { IfOk result (λ world. IsOpening world.books) }
{
    match read_value(alloc, text) {
        Ok(value) => read_root(alloc, &value),
        Err(ReadFault::NotJson) => Err(broken(alloc, Rule::Json)),
        Err(ReadFault::Memory) => Err(FileFault::Memory),
    }
}

#[tactic(auto, using(crate::proofs::Opening::is_world), unfolding(crate::specs::Campaign::campaign))]
fn read_root(alloc: Global, value: &Value) -> Result<World, FileFault>
    ensures exact { Gives Fails (λ world. world) result (campaign_lem (view value.now)) }
    ensures opening { IfOk result (λ world. IsOpening world.books) }
{
    check_object(alloc, value)?;
    let format = fields::format(alloc, value, "format")?;
    let scene = Scene::open(alloc, players_in(value))?;
    let scene = read_lights(alloc, format, value, scene)?;
    let scene = read_sights(alloc, value, scene)?;
    let scene = read_maps(alloc, format, value, scene)?;
    let (scene, books) = read_seats(alloc, value, scene)?;
    let scene = read_tokens(alloc, &books, value, scene)?;
    check_only(alloc, value, &CAMPAIGN_KEYS)?;
    Ok(World::from_parts(scene, books))
}

/// How many players a campaign has, at most 32: none where its seats aren't a list of 1 to 33.
#[tactic(auto, using(json_fields::proofs::Reading::items_len_view))]
fn players_in(value: &Value) -> u8
    ensures value { result ≡ players_in_lem (view value.now) }
    ensures most { result ≤ 32 }
{
    match json_fields::fields::list(value, "seats", 1, 33) {
        Some(seats) => (seats.len() - 1) as u8,
        None => 0,
    }
}
