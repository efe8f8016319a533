//! The commands that the game master alone may give.
ghost use Rattle.serde_json.specs.View.{view};
ghost use Rattle.json_fields.specs.Objects.{Gives};
ghost use Rattle.command_json.specs.Faults.{Fails};
ghost use Rattle.command_json.specs.GameMaster.{map_in, mode_in, show_in, trail_in, terrain_in, wall_in, unwall_in, lighttype_in, sighttype_in, token_in, own_in, layer_in, visible_in, sight_in, place_in, secret_in, expose_in, hide_in, turn_in, endfight_in, dump_in, gm_fields_in};

use crate::command::{Command, LineFault};
use crate::fields;
use crate::verbs::GmVerb;
use names::Layer;
use serde_json::Value;
use std::alloc::Global;

/// The least and the most radius that a command names; that of a darkness is negative.
const LEAST_RADIUS: i32 = -1000;

const MOST_RADIUS: i32 = 1000;

#[tactic(auto, unfolding(crate::specs::GameMaster::map_in))]
fn map_of(alloc: Global, object: &Value) -> Result<Command, LineFault>
    ensures { Gives Fails (λ c. c) result (map_in (view object.now)) }
{
    let name = fields::tag(alloc, object, "name")?;
    let w = fields::integer(alloc, object, "w", 1, 96)?;
    let h = fields::integer(alloc, object, "h", 1, 96)?;
    fields::only(
        alloc,
        object,
        &["do", "name", "w", "h"],
        Command::Map { name, w, h },
    )
}

#[tactic(auto, unfolding(crate::specs::GameMaster::mode_in))]
fn mode_of(alloc: Global, object: &Value) -> Result<Command, LineFault>
    ensures { Gives Fails (λ c. c) result (mode_in (view object.now)) }
{
    let map = fields::tag(alloc, object, "map")?;
    let mode = fields::mode(alloc, object, "mode")?;
    fields::only(
        alloc,
        object,
        &["do", "map", "mode"],
        Command::Mode { map, mode },
    )
}

#[tactic(auto, unfolding(crate::specs::GameMaster::show_in))]
fn show_of(alloc: Global, object: &Value) -> Result<Command, LineFault>
    ensures { Gives Fails (λ c. c) result (show_in (view object.now)) }
{
    let map = fields::tag(alloc, object, "map")?;
    let on = fields::boolean(alloc, object, "on")?;
    fields::only(
        alloc,
        object,
        &["do", "map", "on"],
        Command::Show { map, on },
    )
}

#[tactic(auto, unfolding(crate::specs::GameMaster::trail_in))]
fn trail_of(alloc: Global, object: &Value) -> Result<Command, LineFault>
    ensures { Gives Fails (λ c. c) result (trail_in (view object.now)) }
{
    let map = fields::tag(alloc, object, "map")?;
    let on = fields::boolean(alloc, object, "on")?;
    fields::only(
        alloc,
        object,
        &["do", "map", "on"],
        Command::Trail { map, on },
    )
}

#[tactic(auto, unfolding(crate::specs::GameMaster::terrain_in))]
fn terrain_of(alloc: Global, object: &Value) -> Result<Command, LineFault>
    ensures { Gives Fails (λ c. c) result (terrain_in (view object.now)) }
{
    let map = fields::tag(alloc, object, "map")?;
    let rect = fields::rect(alloc, object, "rect")?;
    let kind = fields::letter(alloc, object, "kind")?;
    fields::only(
        alloc,
        object,
        &["do", "map", "rect", "kind"],
        Command::Terrain { map, rect, kind },
    )
}

#[tactic(auto, unfolding(crate::specs::GameMaster::wall_in))]
fn wall_of(alloc: Global, object: &Value) -> Result<Command, LineFault>
    ensures { Gives Fails (λ c. c) result (wall_in (view object.now)) }
{
    let map = fields::tag(alloc, object, "map")?;
    let kind = fields::wall_kind(alloc, object, "kind")?;
    let a = fields::place(alloc, object, "a")?;
    let b = fields::place(alloc, object, "b")?;
    fields::only(
        alloc,
        object,
        &["do", "map", "kind", "a", "b"],
        Command::Wall { map, kind, a, b },
    )
}

#[tactic(auto, unfolding(crate::specs::GameMaster::unwall_in))]
fn unwall_of(alloc: Global, object: &Value) -> Result<Command, LineFault>
    ensures { Gives Fails (λ c. c) result (unwall_in (view object.now)) }
{
    let map = fields::tag(alloc, object, "map")?;
    let kind = fields::wall_kind(alloc, object, "kind")?;
    let a = fields::place(alloc, object, "a")?;
    let b = fields::place(alloc, object, "b")?;
    fields::only(
        alloc,
        object,
        &["do", "map", "kind", "a", "b"],
        Command::Unwall { map, kind, a, b },
    )
}

#[tactic(auto, unfolding(crate::specs::GameMaster::lighttype_in))]
fn lighttype_of(alloc: Global, object: &Value) -> Result<Command, LineFault>
    ensures { Gives Fails (λ c. c) result (lighttype_in (view object.now)) }
{
    let name = fields::tag(alloc, object, "name")?;
    let radius = fields::integer(alloc, object, "radius", LEAST_RADIUS, MOST_RADIUS)?;
    fields::only(
        alloc,
        object,
        &["do", "name", "radius"],
        Command::Lighttype { name, radius },
    )
}

#[tactic(auto, unfolding(crate::specs::GameMaster::sighttype_in))]
fn sighttype_of(alloc: Global, object: &Value) -> Result<Command, LineFault>
    ensures { Gives Fails (λ c. c) result (sighttype_in (view object.now)) }
{
    let name = fields::tag(alloc, object, "name")?;
    let range = fields::integer(alloc, object, "range", 0, 1000)?;
    let night = fields::integer(alloc, object, "night", 0, 1000)?;
    let mult = fields::integer(alloc, object, "mult", 0, 1000)?;
    fields::only(
        alloc,
        object,
        &["do", "name", "range", "night", "mult"],
        Command::Sighttype {
            name,
            range,
            night,
            mult,
        },
    )
}

#[tactic(auto, unfolding(crate::specs::GameMaster::token_in))]
fn token_of(alloc: Global, object: &Value) -> Result<Command, LineFault>
    ensures { Gives Fails (λ c. c) result (token_in (view object.now)) }
{
    let tag = fields::tag(alloc, object, "tag")?;
    let map = fields::tag(alloc, object, "map")?;
    let cell = fields::place(alloc, object, "cell")?;
    let name = fields::text(alloc, object, "name", 1, 40)?;
    let size = fields::integer_or(alloc, object, "size", 1, 1, 4)?;
    let layer = fields::layer_or(alloc, object, "layer", Layer::Token)?;
    fields::only(
        alloc,
        object,
        &["do", "tag", "map", "cell", "name", "size", "layer"],
        Command::Token {
            tag,
            map,
            cell,
            name,
            size,
            layer,
        },
    )
}

#[tactic(auto, unfolding(crate::specs::GameMaster::own_in))]
fn own_of(alloc: Global, object: &Value) -> Result<Command, LineFault>
    ensures { Gives Fails (λ c. c) result (own_in (view object.now)) }
{
    let token = fields::id(alloc, object, "token")?;
    let seat = fields::seat(alloc, object, "seat")?;
    let on = fields::boolean(alloc, object, "on")?;
    fields::only(
        alloc,
        object,
        &["do", "token", "seat", "on"],
        Command::Own { token, seat, on },
    )
}

#[tactic(auto, unfolding(crate::specs::GameMaster::layer_in))]
fn layer_of(alloc: Global, object: &Value) -> Result<Command, LineFault>
    ensures { Gives Fails (λ c. c) result (layer_in (view object.now)) }
{
    let token = fields::id(alloc, object, "token")?;
    let layer = fields::layer(alloc, object, "layer")?;
    fields::only(
        alloc,
        object,
        &["do", "token", "layer"],
        Command::Layer { token, layer },
    )
}

#[tactic(auto, unfolding(crate::specs::GameMaster::visible_in))]
fn visible_of(alloc: Global, object: &Value) -> Result<Command, LineFault>
    ensures { Gives Fails (λ c. c) result (visible_in (view object.now)) }
{
    let token = fields::id(alloc, object, "token")?;
    let on = fields::boolean(alloc, object, "on")?;
    fields::only(
        alloc,
        object,
        &["do", "token", "on"],
        Command::Visible { token, on },
    )
}

#[tactic(auto, unfolding(crate::specs::GameMaster::sight_in))]
fn sight_of(alloc: Global, object: &Value) -> Result<Command, LineFault>
    ensures { Gives Fails (λ c. c) result (sight_in (view object.now)) }
{
    let token = fields::id(alloc, object, "token")?;
    let sight = fields::tag_or_null(alloc, object, "sight")?;
    fields::only(
        alloc,
        object,
        &["do", "token", "sight"],
        Command::Sight { token, sight },
    )
}

#[tactic(auto, unfolding(crate::specs::GameMaster::place_in))]
fn place_of(alloc: Global, object: &Value) -> Result<Command, LineFault>
    ensures { Gives Fails (λ c. c) result (place_in (view object.now)) }
{
    let token = fields::id(alloc, object, "token")?;
    let map = fields::tag(alloc, object, "map")?;
    let cell = fields::place(alloc, object, "cell")?;
    fields::only(
        alloc,
        object,
        &["do", "token", "map", "cell"],
        Command::Place { token, map, cell },
    )
}

#[tactic(auto, unfolding(crate::specs::GameMaster::secret_in))]
fn secret_of(alloc: Global, object: &Value) -> Result<Command, LineFault>
    ensures { Gives Fails (λ c. c) result (secret_in (view object.now)) }
{
    let token = fields::id(alloc, object, "token")?;
    let name = fields::tag(alloc, object, "name")?;
    let value = fields::text(alloc, object, "value", 0, 200)?;
    fields::only(
        alloc,
        object,
        &["do", "token", "name", "value"],
        Command::Secret { token, name, value },
    )
}

#[tactic(auto, unfolding(crate::specs::GameMaster::expose_in))]
fn expose_of(alloc: Global, object: &Value) -> Result<Command, LineFault>
    ensures { Gives Fails (λ c. c) result (expose_in (view object.now)) }
{
    let seat = fields::seat(alloc, object, "seat")?;
    let map = fields::tag(alloc, object, "map")?;
    let rect = fields::rect(alloc, object, "rect")?;
    fields::only(
        alloc,
        object,
        &["do", "seat", "map", "rect"],
        Command::Expose { seat, map, rect },
    )
}

#[tactic(auto, unfolding(crate::specs::GameMaster::hide_in))]
fn hide_of(alloc: Global, object: &Value) -> Result<Command, LineFault>
    ensures { Gives Fails (λ c. c) result (hide_in (view object.now)) }
{
    let seat = fields::seat(alloc, object, "seat")?;
    let map = fields::tag(alloc, object, "map")?;
    let rect = fields::rect(alloc, object, "rect")?;
    fields::only(
        alloc,
        object,
        &["do", "seat", "map", "rect"],
        Command::Hide { seat, map, rect },
    )
}

#[tactic(auto, unfolding(crate::specs::GameMaster::turn_in))]
fn turn_of(alloc: Global, object: &Value) -> Result<Command, LineFault>
    ensures { Gives Fails (λ c. c) result (turn_in (view object.now)) }
{
    fields::only(alloc, object, &["do"], Command::Turn)
}

#[tactic(auto, unfolding(crate::specs::GameMaster::endfight_in))]
fn endfight_of(alloc: Global, object: &Value) -> Result<Command, LineFault>
    ensures { Gives Fails (λ c. c) result (endfight_in (view object.now)) }
{
    fields::only(alloc, object, &["do"], Command::Endfight)
}

#[tactic(auto, unfolding(crate::specs::GameMaster::dump_in))]
fn dump_of(alloc: Global, object: &Value) -> Result<Command, LineFault>
    ensures { Gives Fails (λ c. c) result (dump_in (view object.now)) }
{
    fields::only(alloc, object, &["do"], Command::Dump)
}

/// The command that the word names, with its fields.
#[tactic(auto, unfolding(crate::specs::GameMaster::gm_fields_in))]
pub(crate) fn read_gm_fields(
    alloc: Global,
    object: &Value,
    verb: GmVerb,
) -> Result<Command, LineFault>
    ensures { Gives Fails (λ c. c) result (gm_fields_in (view object.now) verb) }
{
    match verb {
        GmVerb::Map => map_of(alloc, object),
        GmVerb::Mode => mode_of(alloc, object),
        GmVerb::Show => show_of(alloc, object),
        GmVerb::Trail => trail_of(alloc, object),
        GmVerb::Terrain => terrain_of(alloc, object),
        GmVerb::Wall => wall_of(alloc, object),
        GmVerb::Unwall => unwall_of(alloc, object),
        GmVerb::Lighttype => lighttype_of(alloc, object),
        GmVerb::Sighttype => sighttype_of(alloc, object),
        GmVerb::Token => token_of(alloc, object),
        GmVerb::Own => own_of(alloc, object),
        GmVerb::Layer => layer_of(alloc, object),
        GmVerb::Visible => visible_of(alloc, object),
        GmVerb::Sight => sight_of(alloc, object),
        GmVerb::Place => place_of(alloc, object),
        GmVerb::Secret => secret_of(alloc, object),
        GmVerb::Expose => expose_of(alloc, object),
        GmVerb::Hide => hide_of(alloc, object),
        GmVerb::Turn => turn_of(alloc, object),
        GmVerb::Endfight => endfight_of(alloc, object),
        GmVerb::Dump => dump_of(alloc, object),
    }
}
