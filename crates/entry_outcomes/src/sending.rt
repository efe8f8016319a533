//! Whom messages reach, the line on a view, and when a seat is let go.
ghost use Rattle.std.specs.Prelude.{◌≡◌, ◌&&◌, ◌||◌, ◌==◌, true, false, All, IfOk};
ghost use Rattle.seats.specs.SeatState.{is_free as is_free_lem, is_closing as is_closing_lem};
ghost use Rattle.view_change.specs.Views.{FitsAmong};
ghost use Rattle.views.specs.Views.{KeepLetters};
ghost use Rattle.campaign_law.specs.Views.{change_line as change_text};
ghost use Rattle.campaign_law.specs.World.{is_to as is_to_lem, some_to_list, view_lines};

use crate::messages::Message;
use chat::receivers;
use names::{LineText, Memory, SeatNo};
use seats::SeatState;
use std::alloc::Global;
use view_change::{change_by, change_line, full_line};
use views::View;

/// How many seats a campaign has at most.
const MOST_SEATS: u8 = 33;

/// Whether the message reaches the seat.
#[tactic(auto, using(crate::proofs::Reached::reaches_none))]
pub fn is_to(seat: SeatNo, message: &Message) -> bool
    ensures { result ≡ is_to_lem seat message.now }
{
    let _from = message.from.number();
    if !message.to.is_within(MOST_SEATS) {
        return false;
    }
    receivers(message.to, message.from, MOST_SEATS).has(seat)
}

/// The change line between two views, where they differ.
#[tactic(auto, unfolding(campaign_law::specs::Views::change_line))]
fn changed_line(
    alloc: Global,
    before: &View,
    after: &View,
    by_exposed: bool,
) -> Result<Option<LineText>, Memory>
    requires fit { All (FitsAmong before.now.maps) after.now.maps }
    requires letters { by_exposed ≡ true → KeepLetters before.now.maps after.now.maps }
    ensures { IfOk result (λ line. line ≡ change_text before.now after.now) }
{
    match change_by(alloc, before, after, by_exposed)? {
        Some(change) => Ok(Some(change_line(alloc, &change)?)),
        None => Ok(None),
    }
}

/// The line on a new view: where it is due, the full one, else the change line where the views differ.
pub fn view_line(
    alloc: Global,
    full: bool,
    before: &View,
    after: &View,
    by_exposed: bool,
) -> Result<Option<LineText>, Memory>
    requires fit { full ≡ false → All (FitsAmong before.now.maps) after.now.maps }
    requires letters { by_exposed ≡ true → KeepLetters before.now.maps after.now.maps }
    ensures { IfOk result (λ line. some_to_list line ≡ view_lines full before.now after.now) }
{
    if full {
        return Ok(Some(full_line(alloc, after)?));
    }
    changed_line(alloc, before, after, by_exposed)
}

/// Nothing waits for a seat that is Free, and a Closing seat is Free once nothing waits for it.
pub fn is_let_go(state: SeatState, queued: u64, taken: u64) -> bool
    ensures { result ≡ (is_free_lem state || (is_closing_lem state && (taken == queued))) }
{
    match state {
        SeatState::Free => true,
        SeatState::Joined { .. } => false,
        SeatState::Closing { .. } => taken == queued,
    }
}
