//! What an entry of its own makes of a machine.
ghost use Rattle.std.specs.Prelude.{◌≡◌, ◌++◌, ◌+◌, true, IfOk, IfSome, length, option_map};
ghost use Rattle.campaign_law.specs.Outcome.{seat_of};
ghost use Rattle.campaign_law.specs.Seat.{settled};
ghost use Rattle.campaign_law.specs.World.{changed, is_present as is_present_lem, queued_reply};
ghost use Rattle.campaign_law.specs.Player.{after, own, own_messages, own_outcome as own_outcome_lem, printed};

use crate::feeding::Made;
use crate::lines::{add_line, add_messages};
use crate::machine::Machine;
use crate::machine_seat::MachineSeat;
use campaign_law::Entry;
use entry_outcomes::{Outcome, absent_outcome, present_outcome, with_steps};
use names::{LineText, Memory, SeatNo};
use std::alloc::Global;
use view_rules::Asking;

/// What the entry does to the machine's seat, as what it was last shown answers the rules; but the reply to a move reports no steps
/// yet.
#[tactic(auto, unfolding(player_view::specs::Asked::asked_of_view))]
fn still_outcome(alloc: Global, machine: &Machine, entry: &Entry) -> Result<Outcome, Memory>
    requires { IfSome machine.now.seat (λ s. s.book.seat ≡ seat_of entry.now) }
    ensures { IfOk result (λ o. o ≡ own_outcome_lem machine.now entry.now 0) }
{
    match &machine.seat {
        Some(seat) => {
            let asking = Asking {
                seats: machine.seats,
                view: &machine.last,
                whole: None,
            };
            present_outcome(alloc, &asking, &seat.book, entry, None)
        }
        None => absent_outcome(alloc, entry),
    }
}

/// What the entry, whose move took so many steps, does to the machine's seat.
#[tactic(auto, unfolding(player_view::specs::Asked::asked_of_view))]
fn own_outcome(
    alloc: Global,
    machine: &Machine,
    entry: &Entry,
    steps: u32,
) -> Result<Outcome, Memory>
    requires { IfSome machine.now.seat (λ s. s.book.seat ≡ seat_of entry.now) }
    ensures { IfOk result (λ o. o ≡ own_outcome_lem machine.now entry.now steps) }
{
    let still = still_outcome(alloc, machine, entry)?;
    with_steps(alloc, still, steps)
}

// ---- its lines

/// Whether the seat is there at its own entry.
fn is_present(seat: &Option<MachineSeat>, outcome: &Outcome) -> bool
    ensures { result ≡ is_present_lem true seat.now outcome.now }
{
    match seat {
        Some(seat) => seat.book.state().is_joined() || outcome.joins,
        None => outcome.joins,
    }
}

/// The reply, if there is one.
fn reply_lines(alloc: Global, outcome: &Outcome) -> Result<Vec<LineText>, Memory>
    ensures { IfOk result (λ v. v.items ≡ outcome.now.reply) }
{
    let mut lines = Vec::new(alloc);
    if let Some(reply) = &outcome.reply {
        add_line(&mut lines, LineText::copy(alloc, reply.bytes())?)?;
    }
    Ok(lines)
}

/// The reply, and then what the seat says to itself.
fn own_lines(
    alloc: Global,
    before: &Option<MachineSeat>,
    seat: SeatNo,
    outcome: &Outcome,
) -> Result<Vec<LineText>, Memory>
    ensures { IfOk result (λ v. v.items ≡ outcome.now.reply ++ own_messages before.now seat outcome.now) }
{
    let mut lines = reply_lines(alloc, outcome)?;
    if is_present(before, outcome) {
        add_messages(&mut lines, alloc, outcome.messages.as_slice(), seat)?;
    }
    Ok(lines)
}

/// How many of the outcome's lines stand in no queue.
fn direct_count(outcome: &Outcome) -> usize
    ensures { result + length (queued_reply outcome.now) ≡ length outcome.now.reply }
{
    if outcome.direct && outcome.reply.is_some() {
        1
    } else {
        0
    }
}

// ---- its seat

/// The seat after its own entry, once so many lines of it are queued.
fn seat_after(
    seat: &Option<MachineSeat>,
    outcome: &mut Outcome,
    queued: u64,
) -> Result<Option<MachineSeat>, Memory>
    ensures { IfOk result (λ s. s ≡ option_map (λ s. settled queued (changed outcome.old true s)) seat.now) }
{
    match seat {
        Some(seat) => {
            let book = outcome.book.take();
            let next = seat.changed(book, outcome.taken)?;
            Ok(Some(next.settled(queued)?))
        }
        None => Ok(None),
    }
}

/// What the entry, whose move took so many steps, makes of the machine.
pub(crate) fn own_made(
    alloc: Global,
    machine: &Machine,
    entry: &Entry,
    steps: u32,
) -> Result<Made, Memory>
    requires { IfSome machine.now.seat (λ s. s.book.seat ≡ seat_of entry.now) }
    ensures lines { IfOk result (λ made. made.lines.items ≡ printed machine.now (own entry.now steps)) }
    ensures seat { IfOk result (λ made. made.seat ≡ (after machine.now (own entry.now steps)).seat) }
    ensures due { IfOk result (λ made. made.due ≡ (after machine.now (own entry.now steps)).due) }
{
    let mut outcome = own_outcome(alloc, machine, entry, steps)?;
    let lines = own_lines(alloc, &machine.seat, entry.seat(), &outcome)?;
    let queued = lines.len() - direct_count(&outcome);
    let due = machine.due || outcome.full;
    let seat = seat_after(&machine.seat, &mut outcome, queued as u64)?;
    Ok(Made { lines, seat, due })
}
