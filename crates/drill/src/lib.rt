//! Drills: a generated campaign and a script for it, always the same for a number. They serve as a benchmark.
//!
//! All numbers of a drill are dice of one stream, whose seed is the drill's number. The rules are this project's own
//! (`docs/CAMPAIGN.md`).
#![tactic(auto)]

mod campaign;
mod commands;
mod course;
mod draws;
mod script;
mod seat_books;
mod tags;

ghost use Rattle.std.specs.Prelude.{◌≡◌, ◌≤◌, Ok, IfOk};
ghost use Rattle.campaign_file.specs.Campaign.{campaign_of};
ghost use Rattle.campaign_writing.specs.Canonical.{first_canonical, reopened};
ghost use Rattle.drill.specs.Campaign.{drill_world};
ghost use Rattle.drill.specs.Script.{drill_script};
ghost use Rattle.drill.specs.Playable.{IsOfLines};

use campaign::draw_world;
use campaign_writing::write_first;
use course::Course;
use draws::Draws;
use names::{LineText, Memory};
use script::script;
use std::alloc::Global;

/// The campaign text of the drill of a number, in the first format and in one line without its end, and its script of so
/// many lines, 5 to 10,000. A campaign opens with the text, and each line of the script is of one of its seats. `Memory` is
/// want of memory.
#[tactic(auto, using(crate::proofs::Written::drill_is_written, crate::proofs::Written::drill_is_of_first))]
pub fn make_drill(alloc: Global, number: u32, lines: u32) -> Result<(LineText, LineText), Memory>
    requires least { 5 ≤ lines }
    requires most { lines ≤ 10000 }
    ensures campaign { IfOk result (λ drill. drill.0 ≡ first_canonical (drill_world number)) }
    ensures opens { IfOk result (λ drill. campaign_of drill.0 ≡ Ok (reopened (drill_world number))) }
    ensures script { IfOk result (λ drill. drill.1 ≡ drill_script number lines) }
    ensures playable { IfOk result (λ drill. IsOfLines lines drill.1) }
{
    let mut draws = Draws::new(number);
    let (world, cells) = draw_world(alloc, &mut draws)?;
    let campaign = write_first(alloc, &world)?;
    let script = script(alloc, Course::new(draws, cells), lines)?;
    Ok((campaign, script))
}
