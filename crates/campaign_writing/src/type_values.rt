//! The types of lights and sights as values of the campaign text.
ghost use Rattle.std.specs.Prelude.{◌≡◌, IfOk, OnOk};
ghost use Rattle.serde_json.specs.View.{view};
ghost use Rattle.campaign_writing.specs.Kept.{AreKeptLights, AreKeptSights};
ghost use Rattle.campaign_writing.specs.Scenes.{lights_tree, sight_tree, sights_tree};

use crate::values::put_named;
use lights::LightTable;
use serde_json::{Map, Value, json};
use sight_types::{Sight, SightTable};
use std::alloc::{AllocError, Global};

pub(crate) fn lights_value(alloc: Global, lights: &LightTable) -> Result<Value, AllocError>
    ensures tree { IfOk result (λ v. view v ≡ lights_tree lights.now) }
    ensures kept { OnOk result (AreKeptLights lights.now) }
{
    let mut members = Map::new(alloc);
    for place in 0..lights.len() {
        let (name, radius) = lights.at(place);
        put_named(&mut members, alloc, name, Value::from(radius))?;
    }
    Ok(Value::Object(members))
}

fn sight(alloc: Global, sight: Sight) -> Result<Value, AllocError>
    ensures { IfOk result (λ v. view v ≡ sight_tree sight) }
{
    json!(in alloc; [sight.range, sight.night, sight.mult])
}

pub(crate) fn sights_value(alloc: Global, sights: &SightTable) -> Result<Value, AllocError>
    ensures tree { IfOk result (λ v. view v ≡ sights_tree sights.now) }
    ensures kept { OnOk result (AreKeptSights sights.now) }
{
    let mut members = Map::new(alloc);
    for place in 0..sights.len() {
        let (name, one) = sights.at(place);
        put_named(&mut members, alloc, name, sight(alloc, one)?)?;
    }
    Ok(Value::Object(members))
}
