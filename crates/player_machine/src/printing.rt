//! What a machine prints over a whole trace.
ghost use Rattle.std.specs.Prelude.{◌≡◌, ◌≤◌, ◌++◌, IfOk, OnOk};
ghost use Rattle.campaign_law.specs.Feeding.{MayFeedAll};
ghost use Rattle.campaign_law.specs.Law.{bytes_of};
ghost use Rattle.campaign_law.specs.Player.{machine, started};
ghost use Rattle.player_machine.specs.Items.{items_in};
ghost use Rattle.std.specs.List.{flat_map};

use crate::item::TraceItem;
use crate::machine::{Machine, Opening};
use names::{LineText, Memory};
use std::alloc::Global;

/// Adds the texts' bytes.
fn add_texts(bytes: &mut Vec<u8>, texts: &[LineText]) -> Result<(), Memory>
    ensures { OnOk result (bytes.new.items ≡ bytes.old.items ++ flat_map (λ text. text) texts.now) }
{
    for text in texts {
        if bytes.extend_from_slice(text.bytes()).is_err() {
            return Err(Memory);
        }
    }
    Ok(())
}

/// The bytes that the machine which begins with this opening prints over a trace, each line with its LF. Item by item the trace is what the
/// machine asks for, as every player's trace is (`campaign_law::traces_feed`). A campaign has at most 33 seats.
///
/// `Memory` is want of memory, or of a number for the lines that are queued.
pub fn printed_bytes(
    alloc: Global,
    opening: Opening,
    items: &[TraceItem],
) -> Result<Vec<u8>, Memory>
    requires seats { opening.seats ≤ 33 }
    requires feed { MayFeedAll (started opening) (items_in items.now) }
    ensures { IfOk result (λ bytes. bytes.items ≡ bytes_of (machine opening (items_in items.now))) }
{
    let mut machine = Machine::new(alloc, opening);
    let mut bytes = Vec::new(alloc);
    for item in items {
        let lines = machine.feed(item)?;
        add_texts(&mut bytes, lines.as_slice())?;
    }
    Ok(bytes)
}
