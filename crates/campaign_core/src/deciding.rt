//! What an entry does to its own seat, in a campaign: what the seat is shown decides.
ghost use Rattle.std.specs.Prelude.{◌≡◌, ◌&&◌, Some, None, IfOk, option_map, if◌then◌else◌};
ghost use Rattle.std.specs.Option.{option_copied};
ghost use Rattle.player_view.specs.View.{is_gm};
ghost use Rattle.entry_outcomes.specs.Steps.{report_line, told};
ghost use Rattle.campaign_law.specs.Outcome.{of_steps, outcome_at, present_outcome as present_outcome_lem, seat_of};
ghost use Rattle.campaign_law.specs.World.{asked_of, dumped_of, steps_of, outcome_of, seat_at};
ghost use Rattle.campaign_law.specs.Texts.{dump_line};
ghost use Rattle.campaign_law.specs.Worlds.{FitsTogether, opened_of};
ghost use Rattle.campaign_writing.specs.Canonical.{campaign_tree};
ghost use Rattle.campaign_core.specs.Places.{world_at};
ghost use Rattle.campaign_core.specs.Shown.{AreShown, answers_by};
ghost use Rattle.campaign_core.specs.Steps.{is_dumped as is_dumped_lem};

use crate::dumps::dumped_line;
use crate::state::State;
use campaign_law::Entry;
use command_effects::steps_by;
use command_json::Command;
use entry_outcomes::{Outcome, ReadLine, absent_outcome, present_outcome, with_steps};
use names::{Memory, SeatNo};
use seats::SeatBook;
use std::alloc::Global;
use view_keep::Keep;
use view_rules::{Asking, no_view};
use views::View;
use world::Scene;

/// What the entry does to its own seat, and the steps of an accepted move, else 0.
pub(crate) fn decide(
    alloc: Global,
    state: &State,
    keep: &Keep,
    entry: &Entry,
    ahead: Option<ReadLine>,
) -> Result<(u32, Outcome), Memory>
    requires fits { FitsTogether (world_at state.now) }
    requires views { AreShown (world_at state.now) keep.now.views }
    ensures steps { IfOk result (λ d. d.0 ≡ steps_of (world_at state.now) entry.now) }
    ensures outcome { IfOk result (λ d. d.1 ≡ outcome_of (world_at state.now) entry.now) }
{
    let still = still_outcome(alloc, state, keep, entry, ahead)?;
    let steps = done_steps(alloc, state, entry, &still)?;
    let outcome = with_report(alloc, state, entry.seat(), still, steps)?;
    Ok((steps, outcome))
}

/// What the entry does to its own seat, but that the reply reports nothing yet.
fn still_outcome(
    alloc: Global,
    state: &State,
    keep: &Keep,
    entry: &Entry,
    ahead: Option<ReadLine>,
) -> Result<Outcome, Memory>
    requires fits { FitsTogether (world_at state.now) }
    requires views { AreShown (world_at state.now) keep.now.views }
    ensures { IfOk result (λ o. o ≡ outcome_at (asked_of (world_at state.now) (seat_of entry.now)) (of_steps 0)
        (seat_at (world_at state.now) (seat_of entry.now)) entry.now) }
{
    let seat = entry.seat();
    let Some(post) = state.post(seat.number()) else {
        return absent_outcome(alloc, entry);
    };
    if post.book.state().is_joined() {
        return shown_outcome(alloc, state, keep.view(seat), &post.book, entry, ahead);
    }
    // Its rules ask for the number of seats alone.
    let nothing = no_view(alloc);
    shown_outcome(alloc, state, &nothing, &post.book, entry, ahead)
}

/// What the entry does to its seat, which has this book and is shown this, but that the reply reports nothing yet.
fn shown_outcome(
    alloc: Global,
    state: &State,
    view: &View,
    book: &SeatBook,
    entry: &Entry,
    ahead: Option<ReadLine>,
) -> Result<Outcome, Memory>
    requires seat { book.now.seat ≡ seat_of entry.now }
    ensures { IfOk result (λ o. o ≡ present_outcome_lem (answers_by (world_at state.now) (seat_of entry.now) view.now)
        (of_steps 0) book.now entry.now) }
{
    let asking = Asking {
        seats: state.seats(),
        view,
        whole: whole_for(state, entry.seat()),
    };
    present_outcome(alloc, &asking, book, entry, ahead)
}

/// The whole scene, for the game master.
fn whole_for(state: &State, seat: SeatNo) -> Option<&Scene>
    ensures { option_copied result ≡ (if is_gm seat then Some state.now.scene else None) }
{
    if seat.number() == 0 {
        Some(state.scene())
    } else {
        None
    }
}

/// The steps of an accepted move, else 0.
fn done_steps(alloc: Global, state: &State, entry: &Entry, outcome: &Outcome) -> Result<u32, Memory>
    requires { outcome.now ≡ outcome_at (asked_of (world_at state.now) (seat_of entry.now)) (of_steps 0)
        (seat_at (world_at state.now) (seat_of entry.now)) entry.now }
    ensures { IfOk result (λ steps. steps ≡ steps_of (world_at state.now) entry.now) }
{
    match &outcome.done {
        Some(command) => steps_by(alloc, state.scene(), entry.seat(), command),
        None => Ok(0),
    }
}

/// Whether a dump of the seat was accepted that is given the campaign.
fn is_dumped(seat: SeatNo, outcome: &Outcome) -> bool
    ensures { result ≡ (is_gm seat && is_dumped_lem outcome.now.done) }
{
    seat.number() == 0 && matches!(&outcome.done, Some(Command::Dump))
}

/// The outcome whose reply has the campaign as it is now.
fn with_campaign(alloc: Global, state: &State, mut outcome: Outcome) -> Result<Outcome, Memory>
    ensures { IfOk result (λ o. o ≡ told (option_map (λ b. dump_line b.lines (campaign_tree (opened_of (world_at state.now))))
        outcome.book) outcome) }
{
    if let Some(book) = &outcome.book {
        let line = dumped_line(alloc, state, book.lines())?;
        outcome.reply = Some(line);
    }
    Ok(outcome)
}

/// The outcome whose reply reports the steps of an accepted move, and what a dump gives to the seat.
fn with_report(
    alloc: Global,
    state: &State,
    seat: SeatNo,
    outcome: Outcome,
    steps: u32,
) -> Result<Outcome, Memory>
    ensures { IfOk result (λ o. o ≡ told (report_line (record { steps = steps; dumped = dumped_of (world_at state.now) seat }) outcome)
        outcome) }
{
    if is_dumped(seat, &outcome) {
        with_campaign(alloc, state, outcome)
    } else {
        with_steps(alloc, outcome, steps)
    }
}
