//! Lists of lines.
ghost use Rattle.std.specs.Prelude.{◌≡◌, ◌++◌, ◌∷◌, [], IfOk, OnOk, map};
ghost use Rattle.campaign_law.specs.World.{addressed};

use entry_outcomes::{Message, is_to};
use names::{LineText, Memory, SeatNo};
use std::alloc::Global;

pub(crate) fn add_line(lines: &mut Vec<LineText>, line: LineText) -> Result<(), Memory>
    ensures { OnOk result (lines.new.items ≡ lines.old.items ++ line ∷ []) }
{
    lines.push(line)?;
    Ok(())
}

/// Adds the lines of the messages that reach the seat.
#[tactic(auto, unfolding(campaign_law::specs::World::addressed))]
pub(crate) fn add_messages(
    lines: &mut Vec<LineText>,
    alloc: Global,
    messages: &[Message],
    seat: SeatNo,
) -> Result<(), Memory>
    ensures { OnOk result (lines.new.items ≡ lines.old.items ++ addressed seat messages.now) }
{
    for message in messages {
        if is_to(seat, message) {
            add_line(lines, LineText::copy(alloc, message.line.bytes())?)?;
        }
    }
    Ok(())
}

/// The line with its LF.
fn ended_line(alloc: Global, line: &LineText) -> Result<LineText, Memory>
    ensures { IfOk result (λ t. t ≡ line.now ++ 10 ∷ []) }
{
    let mut bytes = LineText::copy(alloc, line.bytes())?.into_bytes();
    bytes.push(b'\n')?;
    Ok(LineText::new(bytes))
}

/// The lines, each with its LF.
pub(crate) fn ended(alloc: Global, lines: &[LineText]) -> Result<Vec<LineText>, Memory>
    ensures { IfOk result (λ v. v.items ≡ map (λ line. line ++ 10 ∷ []) lines.now) }
{
    let mut texts = Vec::new(alloc);
    for line in lines {
        add_line(&mut texts, ended_line(alloc, line)?)?;
    }
    Ok(texts)
}
