//! Histories against each other.
ghost use Rattle.std.specs.Prelude.{◌≡◌, IfOk, IfErr, IfNone, IfSome};
ghost use Rattle.player_machine.specs.Items.{items_in};
ghost use Rattle.transcript_check.specs.Checks.{DifferAt, IsAgreement, IsFaultOfPair};

use crate::fault::CheckFault;
use crate::tracing::trace_in;
use names::SeatNo;
use player_machine::{TraceItem, same_item, same_opening};
use std::alloc::Global;
use std::cmp::min;

/// Whether what a player may know is the same in two histories.
#[derive(Clone, Copy, Debug, PartialEq, Eq)]
pub enum Agreement {
    Agree,
    /// What it may know before the game begins differs.
    OpeningDiffers,
    /// The first place, from 0, at which the traces differ or one has ended.
    TraceDiffers { item: u64 },
}

/// The first place at which they differ or one has ended.
fn first_difference(items: &[TraceItem], others: &[TraceItem]) -> Option<usize>
    ensures none { IfNone result (items_in items.now ≡ items_in others.now) }
    ensures some { IfSome result (DifferAt (items_in items.now) (items_in others.now)) }
{
    let common = min(items.len(), others.len());
    for place in 0..common {
        if !same_item(&items[place], &others[place]) {
            return Some(place);
        }
    }
    if items.len() == others.len() {
        None
    } else {
        Some(common)
    }
}

/// Whether what a player may know is the same in two histories, those of two scripts that are played each on the campaign of a text: the
/// openings, and the traces.
///
/// `Bad` exactly where a campaign text is off the format, with its first breach; else `BadLine` or `TooLarge` exactly where its script stops
/// so; else `Memory` for want of memory. The first campaign and its script come before the second ones, for which `second` is true.
pub fn compare(
    alloc: Global,
    campaign: &[u8],
    script: &[u8],
    campaign2: &[u8],
    script2: &[u8],
    seat: SeatNo,
) -> Result<Agreement, CheckFault>
    ensures agreement { IfOk result (IsAgreement campaign.now script.now campaign2.now script2.now seat) }
    ensures fault { IfErr result (IsFaultOfPair campaign.now script.now campaign2.now script2.now) }
{
    let first = trace_in(alloc, campaign, script, seat, false)?;
    let second = trace_in(alloc, campaign2, script2, seat, true)?;
    if !same_opening(&first.opening, &second.opening) {
        return Ok(Agreement::OpeningDiffers);
    }
    match first_difference(&first.items, &second.items) {
        Some(place) => Ok(Agreement::TraceDiffers { item: place as u64 }),
        None => Ok(Agreement::Agree),
    }
}
