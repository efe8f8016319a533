//! From a line to its command.
ghost use Rattle.std.specs.Prelude.{IfErr, IfOk};
ghost use Rattle.serde_json.specs.View.{view};
ghost use Rattle.json_fields.specs.Objects.{Gives};
ghost use Rattle.command_json.specs.Commands.{command_in, command_of, NamesBadKey};
ghost use Rattle.command_json.specs.Faults.{Fails};
ghost use Rattle.command_json.specs.Limits.{IsCommand};

use crate::command::{Command, LineFault};
use crate::every_seat::read_fields;
use crate::game_master::read_gm_fields;
use crate::verbs::{read_gm_verb, read_verb};
use json_fields::{ReadFault, read_value};
use serde_json::Value;
use std::alloc::Global;

#[tactic(auto, unfolding(crate::specs::Commands::command_in))]
fn read_command(alloc: Global, value: &Value, gm: bool) -> Result<Command, LineFault>
    ensures { Gives Fails (λ c. c) result (command_in (view value.now) gm) }
{
    if let Some(verb) = read_verb(value) {
        return read_fields(alloc, value, verb);
    }
    match read_gm_verb(value) {
        Some(verb) if gm => read_gm_fields(alloc, value, verb),
        Some(_) => Err(LineFault::GmOnly),
        None => Err(LineFault::BadCommand),
    }
}

/// The command that a line is, of the game master where `gm`, else of a player. All rules speak of the value that
/// `serde_json` reads, and of nothing else in the line. The first of these that holds is the answer:
///
/// - `BadJson`: the bytes are no JSON;
/// - `BadCommand`: the value isn't an object whose `do` names a command;
/// - `GmOnly`: a player gave a command of the game master;
/// - `BadField`: a field is missing, of another kind or out of its range, the first in the command's order; else a
///   key isn't known, the least in the order of bytes. A key whose value is null isn't missing.
///
/// `Memory` is want of memory. The numbers and texts of a command are in their limits.
pub fn read_line(alloc: Global, line: &[u8], gm: bool) -> Result<Command, LineFault>
    ensures value { Gives Fails (λ c. c) result (command_of line.now gm) }
    ensures limits { IfOk result IsCommand }
    ensures key { IfErr result (NamesBadKey line.now) }
{
    read_known(alloc, line, gm)
}

#[tactic(auto, unfolding(crate::specs::Commands::command_of))]
fn read_known(alloc: Global, line: &[u8], gm: bool) -> Result<Command, LineFault>
    ensures { Gives Fails (λ c. c) result (command_of line.now gm) }
{
    match read_value(alloc, line) {
        Ok(value) => read_command(alloc, &value, gm),
        Err(ReadFault::NotJson) => Err(LineFault::BadJson),
        Err(ReadFault::Memory) => Err(LineFault::Memory),
    }
}
