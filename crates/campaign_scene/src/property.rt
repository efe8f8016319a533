//! Properties of tokens.
ghost use Rattle.std.specs.Prelude.{◌≡◌, []};
ghost use Rattle.serde_json.specs.View.{view, items_view};
ghost use Rattle.json_fields.specs.Objects.{Gives};
ghost use Rattle.campaign_json.specs.Reading.{Fails, here, under, each, item_at};
ghost use Rattle.campaign_scene.specs.Tokens.{new_name as new_name_lem, property as property_lem, properties as properties_lem};

use campaign_json::fields::{self, check_count};
use campaign_json::{FileFault, Rule, broken_item, kinds};
use names::{Tag, Text};
use serde_json::Value;
use std::alloc::Global;
use tokens::Props;

/// How many properties of a class a token has at most.
const NAME_LIMIT: usize = 64;

/// The properties at the key.
#[tactic(auto, unfolding(crate::specs::Tokens::properties))]
pub(crate) fn read_properties(alloc: Global, value: &Value, key: &str) -> Result<Props, FileFault>
    ensures { Gives Fails (λ p. p) result (properties_lem key.now (view value.now)) }
{
    let values = fields::list(alloc, value, key, 0, NAME_LIMIT)?;
    each_property(alloc, key, values)
}

fn each_property(alloc: Global, key: &str, values: &[Value]) -> Result<Props, FileFault>
    ensures { Gives Fails (λ p. p) result
        (under key.now (each (λ place. property_lem) 0 [] (items_view values.now))) }
{
    let mut props = Props::new(alloc);
    for (place, value) in values.iter().enumerate() {
        props = match read_property(alloc, value, props) {
            Ok(next) => next,
            Err(fault) => return Err(fault.under_item(alloc, key, place)),
        };
    }
    Ok(props)
}

#[tactic(auto, unfolding(crate::specs::Tokens::property))]
fn read_property(alloc: Global, value: &Value, mut props: Props) -> Result<Props, FileFault>
    ensures { Gives Fails (λ p. p) result (property_lem props (view value.now)) }
{
    check_count(alloc, value, 2)?;
    let name = new_name(alloc, &props, value)?;
    let text = fields::text_item(alloc, value, 1, 0, 200)?;
    match props.set(name, Text::copy(alloc, text)?) {
        Ok(()) => Ok(props),
        Err(_) => Err(FileFault::Memory),
    }
}

/// The name of a new property.
fn new_name(alloc: Global, props: &Props, value: &Value) -> Result<Tag, FileFault>
    ensures { Gives Fails (λ t. t) result (item_at 0 (new_name_lem props.now) (view value.now)) }
{
    match checked_name(props, fields::needed_item(alloc, value, 0)?) {
        Ok(name) => Ok(name),
        Err(rule) => Err(broken_item(alloc, 0, rule)),
    }
}

#[tactic(auto, unfolding(crate::specs::Tokens::new_name))]
fn checked_name(props: &Props, value: &Value) -> Result<Tag, Rule>
    ensures { here (λ t. t) result ≡ new_name_lem props.now (view value.now) }
{
    let name = kinds::tag(value)?;
    if props.find(name).is_some() {
        return Err(Rule::Twice);
    }
    if props.len() >= NAME_LIMIT {
        return Err(Rule::Range);
    }
    Ok(name)
}
