//! The types of lights and sights.
ghost use Rattle.std.specs.Prelude.{◌≡◌, IfOk, OnOk, codes};
ghost use Rattle.serde_json.specs.View.{view, members_view};
ghost use Rattle.json_fields.specs.Objects.{Gives};
ghost use Rattle.campaign_json.specs.Reading.{Fails, here, under, each_member};
ghost use Rattle.campaign_scene.specs.Kept.{kept};
ghost use Rattle.campaign_scene.specs.Types.{is_radius_in as is_radius_in_lem, radius as radius_lem, light as light_lem, sight as sight_lem, sight_of as sight_of_lem, lights as lights_lem, sights as sights_lem};

use campaign_json::fields::{self, check_count};
use campaign_json::{FileFault, Format, Rule, broken, kinds};
use lights::{LightFault, MOST_RADIUS};
use serde_json::{Map, Value};
use sight_types::{Sight, SightFault};
use std::alloc::Global;
use world::Scene;

/// How many types of a kind there are at most.
const MOST_TYPES: usize = 32;

/// The scene with the light types of a campaign of that format.
pub fn read_lights(
    alloc: Global,
    format: Format,
    value: &Value,
    mut scene: Scene,
) -> Result<Scene, FileFault>
    ensures exact { Gives Fails (λ s. s) result (lights_lem format scene (view value.now)) }
    ensures kept { IfOk result (λ s. kept s ≡ kept scene) }
{
    add_lights(alloc, format, value, &mut scene)?;
    Ok(scene)
}

#[tactic(auto, unfolding(crate::specs::Types::lights))]
fn add_lights(
    alloc: Global,
    format: Format,
    value: &Value,
    scene: &mut Scene,
) -> Result<(), FileFault>
    ensures exact { Gives Fails (λ u. scene.new) result (lights_lem format scene.old (view value.now)) }
    ensures kept { OnOk result (kept scene.new ≡ kept scene.old) }
{
    let members = fields::members(alloc, value, "lights", MOST_TYPES)?;
    each_light(alloc, format, members, scene)
}

fn each_light(
    alloc: Global,
    format: Format,
    members: &Map<String, Value>,
    scene: &mut Scene,
) -> Result<(), FileFault>
    ensures exact { Gives Fails (λ u. scene.new) result
        (under (codes "lights") (each_member (light_lem format) scene.old (members_view members.now.entries))) }
    ensures kept { OnOk result (kept scene.new ≡ kept scene.old) }
{
    for (key, value) in members {
        match read_light(alloc, format, key.as_str(), value, scene) {
            Ok(()) => {}
            Err(fault) => return Err(fault.under_member(alloc, "lights", key.as_str())),
        }
    }
    Ok(())
}

#[tactic(auto, unfolding(crate::specs::Types::light))]
fn read_light(
    alloc: Global,
    format: Format,
    key: &str,
    value: &Value,
    scene: &mut Scene,
) -> Result<(), FileFault>
    ensures exact { Gives Fails (λ u. scene.new) result (light_lem format key.now scene.old (view value.now)) }
    ensures kept { OnOk result (kept scene.new ≡ kept scene.old) }
{
    let name = fields::tag_key(alloc, key)?;
    let radius = match radius(format, value) {
        Ok(radius) => radius,
        Err(rule) => return Err(broken(alloc, rule)),
    };
    match scene.set_light_type(name, radius) {
        Ok(()) => Ok(()),
        Err(LightFault::Memory) => Err(FileFault::Memory),
        Err(_) => Err(broken(alloc, Rule::Range)),
    }
}

/// The radius of a light type, negative for a darkness, which a campaign of the first format hasn't.
#[tactic(auto, unfolding(crate::specs::Types::radius))]
fn radius(format: Format, value: &Value) -> Result<i32, Rule>
    ensures { here (λ r. r) result ≡ radius_lem format (view value.now) }
{
    let radius = kinds::integer(value)?;
    if is_radius_in(format, radius) {
        Ok(radius as i32)
    } else {
        Err(Rule::Range)
    }
}

/// Whether a light type of the format may have the radius.
fn is_radius_in(format: Format, radius: i64) -> bool
    ensures { result ≡ is_radius_in_lem format radius }
{
    let size = radius.unsigned_abs();
    let fits = 1 <= size && size <= u64::from(MOST_RADIUS);
    match format {
        Format::First => fits && radius > 0,
        Format::Second => fits,
    }
}

/// The scene with the sight types of the campaign.
pub fn read_sights(alloc: Global, value: &Value, mut scene: Scene) -> Result<Scene, FileFault>
    ensures exact { Gives Fails (λ s. s) result (sights_lem scene (view value.now)) }
    ensures kept { IfOk result (λ s. kept s ≡ kept scene) }
{
    add_sights(alloc, value, &mut scene)?;
    Ok(scene)
}

#[tactic(auto, unfolding(crate::specs::Types::sights))]
fn add_sights(alloc: Global, value: &Value, scene: &mut Scene) -> Result<(), FileFault>
    ensures exact { Gives Fails (λ u. scene.new) result (sights_lem scene.old (view value.now)) }
    ensures kept { OnOk result (kept scene.new ≡ kept scene.old) }
{
    let members = fields::members(alloc, value, "sights", MOST_TYPES)?;
    each_sight(alloc, members, scene)
}

fn each_sight(
    alloc: Global,
    members: &Map<String, Value>,
    scene: &mut Scene,
) -> Result<(), FileFault>
    ensures exact { Gives Fails (λ u. scene.new) result
        (under (codes "sights") (each_member sight_lem scene.old (members_view members.now.entries))) }
    ensures kept { OnOk result (kept scene.new ≡ kept scene.old) }
{
    for (key, value) in members {
        match read_sight(alloc, key.as_str(), value, scene) {
            Ok(()) => {}
            Err(fault) => return Err(fault.under_member(alloc, "sights", key.as_str())),
        }
    }
    Ok(())
}

#[tactic(auto, unfolding(crate::specs::Types::sight))]
fn read_sight(alloc: Global, key: &str, value: &Value, scene: &mut Scene) -> Result<(), FileFault>
    ensures exact { Gives Fails (λ u. scene.new) result (sight_lem key.now scene.old (view value.now)) }
    ensures kept { OnOk result (kept scene.new ≡ kept scene.old) }
{
    let name = fields::tag_key(alloc, key)?;
    let Sight { range, night, mult } = sight_of(alloc, value)?;
    match scene.set_sight_type(name, u32::from(range), u32::from(night), u32::from(mult)) {
        Ok(()) => Ok(()),
        Err(SightFault::Memory) => Err(FileFault::Memory),
        Err(_) => Err(broken(alloc, Rule::Range)),
    }
}

/// What a token of a sight type sees.
#[tactic(auto, unfolding(crate::specs::Types::sight_of))]
fn sight_of(alloc: Global, value: &Value) -> Result<Sight, FileFault>
    ensures { Gives Fails (λ s. s) result (sight_of_lem (view value.now)) }
{
    check_count(alloc, value, 3)?;
    let range = fields::whole_item(alloc, value, 0, 0, 40)? as u8;
    let night = fields::whole_item(alloc, value, 1, 0, 40)? as u8;
    let mult = fields::whole_item(alloc, value, 2, 1, 4)? as u8;
    Ok(Sight { range, night, mult })
}
