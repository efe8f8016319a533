//! The commands that every seat may give.
ghost use Rattle.serde_json.specs.View.{view};
ghost use Rattle.json_fields.specs.Objects.{Gives};
ghost use Rattle.command_json.specs.Faults.{Fails};
ghost use Rattle.command_json.specs.EverySeat.{hello_in, bye_in, look_in, say_in, roll_in, macro_in, setmacro_in, move_in, setprop_in, light_in, make_in, remove_in, init_in, uninit_in, fields_in};

use crate::command::{Command, LineFault};
use crate::fields;
use crate::verbs::Verb;
use serde_json::Value;
use std::alloc::Global;

/// The least and the most value of an entry in the fight.
const LEAST_VALUE: i16 = -1000;

const MOST_VALUE: i16 = 1000;

#[tactic(auto, unfolding(crate::specs::EverySeat::hello_in))]
fn hello_of(alloc: Global, object: &Value) -> Result<Command, LineFault>
    ensures { Gives Fails (λ c. c) result (hello_in (view object.now)) }
{
    let seat = fields::seat(alloc, object, "seat")?;
    let key = fields::text(alloc, object, "key", 1, 64)?;
    fields::only(
        alloc,
        object,
        &["do", "seat", "key"],
        Command::Hello { seat, key },
    )
}

#[tactic(auto, unfolding(crate::specs::EverySeat::bye_in))]
fn bye_of(alloc: Global, object: &Value) -> Result<Command, LineFault>
    ensures { Gives Fails (λ c. c) result (bye_in (view object.now)) }
{
    fields::only(alloc, object, &["do"], Command::Bye)
}

#[tactic(auto, unfolding(crate::specs::EverySeat::look_in))]
fn look_of(alloc: Global, object: &Value) -> Result<Command, LineFault>
    ensures { Gives Fails (λ c. c) result (look_in (view object.now)) }
{
    fields::only(alloc, object, &["do"], Command::Look)
}

#[tactic(auto, unfolding(crate::specs::EverySeat::say_in))]
fn say_of(alloc: Global, object: &Value) -> Result<Command, LineFault>
    ensures { Gives Fails (λ c. c) result (say_in (view object.now)) }
{
    let text = fields::text(alloc, object, "text", 1, 1000)?;
    let to = fields::to(alloc, object, "to")?;
    fields::only(
        alloc,
        object,
        &["do", "text", "to"],
        Command::Say { text, to },
    )
}

#[tactic(auto, unfolding(crate::specs::EverySeat::roll_in))]
fn roll_of(alloc: Global, object: &Value) -> Result<Command, LineFault>
    ensures { Gives Fails (λ c. c) result (roll_in (view object.now)) }
{
    let dice = fields::text(alloc, object, "dice", 1, 200)?;
    let to = fields::to(alloc, object, "to")?;
    fields::only(
        alloc,
        object,
        &["do", "dice", "to"],
        Command::Roll { dice, to },
    )
}

#[tactic(auto, unfolding(crate::specs::EverySeat::macro_in))]
fn macro_of(alloc: Global, object: &Value) -> Result<Command, LineFault>
    ensures { Gives Fails (λ c. c) result (macro_in (view object.now)) }
{
    let name = fields::tag(alloc, object, "name")?;
    let args = fields::args(alloc, object, "args")?;
    let to = fields::to(alloc, object, "to")?;
    fields::only(
        alloc,
        object,
        &["do", "name", "args", "to"],
        Command::Macro { name, args, to },
    )
}

#[tactic(auto, unfolding(crate::specs::EverySeat::setmacro_in))]
fn setmacro_of(alloc: Global, object: &Value) -> Result<Command, LineFault>
    ensures { Gives Fails (λ c. c) result (setmacro_in (view object.now)) }
{
    let name = fields::tag(alloc, object, "name")?;
    let text = fields::text_or_null(alloc, object, "text", 0, 2000)?;
    fields::only(
        alloc,
        object,
        &["do", "name", "text"],
        Command::Setmacro { name, text },
    )
}

#[tactic(auto, unfolding(crate::specs::EverySeat::move_in))]
fn move_of(alloc: Global, object: &Value) -> Result<Command, LineFault>
    ensures { Gives Fails (λ c. c) result (move_in (view object.now)) }
{
    let token = fields::id(alloc, object, "token")?;
    let path = fields::path(alloc, object, "path")?;
    fields::only(
        alloc,
        object,
        &["do", "token", "path"],
        Command::Move { token, path },
    )
}

#[tactic(auto, unfolding(crate::specs::EverySeat::setprop_in))]
fn setprop_of(alloc: Global, object: &Value) -> Result<Command, LineFault>
    ensures { Gives Fails (λ c. c) result (setprop_in (view object.now)) }
{
    let token = fields::id(alloc, object, "token")?;
    let class = fields::class(alloc, object, "class")?;
    let name = fields::tag(alloc, object, "name")?;
    let value = fields::text(alloc, object, "value", 0, 200)?;
    fields::only(
        alloc,
        object,
        &["do", "token", "class", "name", "value"],
        Command::Setprop {
            token,
            class,
            name,
            value,
        },
    )
}

#[tactic(auto, unfolding(crate::specs::EverySeat::light_in))]
fn light_of(alloc: Global, object: &Value) -> Result<Command, LineFault>
    ensures { Gives Fails (λ c. c) result (light_in (view object.now)) }
{
    let token = fields::id(alloc, object, "token")?;
    let light = fields::tag_or_null(alloc, object, "light")?;
    fields::only(
        alloc,
        object,
        &["do", "token", "light"],
        Command::Light { token, light },
    )
}

#[tactic(auto, unfolding(crate::specs::EverySeat::make_in))]
fn make_of(alloc: Global, object: &Value) -> Result<Command, LineFault>
    ensures { Gives Fails (λ c. c) result (make_in (view object.now)) }
{
    let tag = fields::tag(alloc, object, "tag")?;
    let map = fields::tag(alloc, object, "map")?;
    let cell = fields::place(alloc, object, "cell")?;
    let name = fields::text(alloc, object, "name", 1, 40)?;
    fields::only(
        alloc,
        object,
        &["do", "tag", "map", "cell", "name"],
        Command::Make {
            tag,
            map,
            cell,
            name,
        },
    )
}

#[tactic(auto, unfolding(crate::specs::EverySeat::remove_in))]
fn remove_of(alloc: Global, object: &Value) -> Result<Command, LineFault>
    ensures { Gives Fails (λ c. c) result (remove_in (view object.now)) }
{
    let token = fields::id(alloc, object, "token")?;
    fields::only(alloc, object, &["do", "token"], Command::Remove { token })
}

#[tactic(auto, unfolding(crate::specs::EverySeat::init_in))]
fn init_of(alloc: Global, object: &Value) -> Result<Command, LineFault>
    ensures { Gives Fails (λ c. c) result (init_in (view object.now)) }
{
    let token = fields::id(alloc, object, "token")?;
    let value = fields::small(alloc, object, "value", LEAST_VALUE, MOST_VALUE)?;
    fields::only(
        alloc,
        object,
        &["do", "token", "value"],
        Command::Init { token, value },
    )
}

#[tactic(auto, unfolding(crate::specs::EverySeat::uninit_in))]
fn uninit_of(alloc: Global, object: &Value) -> Result<Command, LineFault>
    ensures { Gives Fails (λ c. c) result (uninit_in (view object.now)) }
{
    let token = fields::id(alloc, object, "token")?;
    fields::only(alloc, object, &["do", "token"], Command::Uninit { token })
}

/// The command that the word names, with its fields.
#[tactic(auto, unfolding(crate::specs::EverySeat::fields_in))]
pub(crate) fn read_fields(alloc: Global, object: &Value, verb: Verb) -> Result<Command, LineFault>
    ensures { Gives Fails (λ c. c) result (fields_in (view object.now) verb) }
{
    match verb {
        Verb::Hello => hello_of(alloc, object),
        Verb::Bye => bye_of(alloc, object),
        Verb::Look => look_of(alloc, object),
        Verb::Say => say_of(alloc, object),
        Verb::Roll => roll_of(alloc, object),
        Verb::Macro => macro_of(alloc, object),
        Verb::Setmacro => setmacro_of(alloc, object),
        Verb::Move => move_of(alloc, object),
        Verb::Setprop => setprop_of(alloc, object),
        Verb::Light => light_of(alloc, object),
        Verb::Make => make_of(alloc, object),
        Verb::Remove => remove_of(alloc, object),
        Verb::Init => init_of(alloc, object),
        Verb::Uninit => uninit_of(alloc, object),
    }
}
