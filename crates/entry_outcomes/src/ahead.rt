//! A line that is read before its turn.
ghost use Rattle.std.specs.Prelude.{◌≡◌, true};
ghost use Rattle.json_fields.specs.Objects.{Gives};
ghost use Rattle.command_json.specs.Commands.{command_of};
ghost use Rattle.command_json.specs.Faults.{Fails};

use command_json::{Command, LineFault, read_line};
use names::LineText;
use std::alloc::Global;
use std::marker::Model;

/// A line with the command that it is, which was read while others had their turns. What an entry of the line does is the same with
/// it and without it.
#[derive(Drop)]
pub struct ReadLine {
    bytes: LineText,
    gm: bool,
    read: Result<Command, LineFault>,
}

// Contracts see the line, and whether the game master's commands are read.
impl Model for ReadLine {
    ghost use Rattle.std.specs.Prelude.{Bool, ℕ, List};
    ghost use Rattle.json_fields.specs.Objects.{Gives};
    ghost use Rattle.command_json.specs.Commands.{command_of};
    ghost use Rattle.command_json.specs.Faults.{Fails};

    ghost Value = { List ℕ × Bool };

    ghost view = { λ r. (r.bytes, r.gm) };

    ghost invariant = { λ r. Gives Fails (λ c. c) r.read (command_of r.bytes r.gm) };
}

impl ReadLine {
    /// Reads a line of the game master where `gm`, else of a player. `None` is want of memory.
    pub fn of(alloc: Global, line: &[u8], gm: bool) -> Option<ReadLine> {
        let Ok(bytes) = LineText::copy(alloc, line) else {
            return None;
        };
        match read_line(alloc, line, gm) {
            Err(LineFault::Memory) => None,
            read => Some(ReadLine { bytes, gm, read }),
        }
    }

    // Whether it is this line, read for the same.
    fn is_of(&self, line: &[u8], gm: bool) -> bool
        ensures { result ≡ true → self.now ≡ (line.now, gm) }
    {
        self.gm == gm && self.bytes.bytes() == line
    }

    fn into_read(self) -> Result<Command, LineFault>
        ensures { Gives Fails (λ c. c) result (command_of self.0 self.1) }
    {
        self.read
    }
}

/// The command that the line is, read now where it wasn't read ahead.
pub(crate) fn read_once(
    alloc: Global,
    line: &[u8],
    gm: bool,
    ahead: Option<ReadLine>,
) -> Result<Command, LineFault>
    ensures { Gives Fails (λ c. c) result (command_of line.now gm) }
{
    if let Some(ahead) = ahead {
        if ahead.is_of(line, gm) {
            return ahead.into_read();
        }
    }
    read_line(alloc, line, gm)
}
