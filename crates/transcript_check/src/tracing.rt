//! The trace of a script's history for a player.
ghost use Rattle.std.specs.Prelude.{◌≡◌, ◌≤◌, ◌++◌, ◌∷◌, [], ℕ, false, List, length, Some, IfOk, IfErr, OnOk};
ghost use Rattle.player_view.specs.Tables.{HasTables};
ghost use Rattle.campaign_law.specs.Law.{IsOpening, world_of};
ghost use Rattle.campaign_law.specs.Player.{opening};
ghost use Rattle.campaign_law.specs.World.{World};
ghost use Rattle.campaign_law.specs.Worlds.{FitsTogether};
ghost use Rattle.campaign_core.specs.Opening.{world_of_text};
ghost use Rattle.player_machine.specs.Items.{items_in};
ghost use Rattle.script_play.specs.Script.{done, is_past_limits as is_past_limits_lem, script_from, script_of, with_takens};
ghost use Rattle.transcript_check.specs.Checks.{IsFaultOf, IsTraceOf};
ghost use Rattle.transcript_check.specs.Tracing.{Follows, IsStopOf, IsTraced, PlaysLine};

use crate::entering::{add_others_items, add_own_items, is_joined, own_part};
use crate::fault::CheckFault;
use crate::lines::first_line;
use campaign_core::{Campaign, OpenFault};
use campaign_law::Entry;
use names::{LineText, Memory, SeatNo};
use player_machine::{Opening, TraceItem};
use script_play::{LINE_BYTES, LINE_LIMIT, entry_of_line, takens_due};
use sight_sweep::SweepEye;
use std::alloc::Global;
use topology::Eye;
use view_rules::no_view;
use views::View;

/// Why a script isn't played on.
#[derive(Clone, Copy, Debug, PartialEq, Eq)]
pub(crate) enum Stop {
    /// The line of this number, from 1, is no line of a seat of the campaign.
    BadLine(u64),
    /// A line is too long, or there are too many.
    TooLarge,
    /// Want of memory.
    Memory,
}

/// Whether the line of this number is one too many, or too long.
fn is_past_limits(number: u64, line: &[u8]) -> bool
    ensures { result ≡ is_past_limits_lem number line.now }
{
    number > LINE_LIMIT || line.len() > LINE_BYTES as usize
}

/// A player's seat that follows a campaign.
#[derive(Drop)]
pub(crate) struct Follower {
    seat: SeatNo,
    /// What it was last shown.
    last: View,
    /// Its trace so far.
    items: Vec<TraceItem>,
}

impl Follower {
    /// The seat at a campaign that opened.
    fn new(alloc: Global, seat: SeatNo) -> Follower
        ensures seat { result.seat ≡ seat }
        ensures items { result.items.items ≡ [] }
    {
        Follower {
            seat,
            last: no_view(alloc),
            items: Vec::new(alloc),
        }
    }

    /// Enters the entry, and adds its items.
    fn enter<E: Eye + Drop>(
        &mut self,
        alloc: Global,
        campaign: &mut Campaign<E>,
        entry: Entry,
    ) -> Result<(), Memory>
        requires { Follows campaign.old self.old }
        ensures origin { campaign.new.origin ≡ campaign.old.origin }
        ensures history { OnOk result (campaign.new.history ≡ campaign.old.history ++ entry ∷ []) }
        ensures follows { OnOk result (Follows campaign.new self.new) }
        ensures seat { self.new.seat ≡ self.old.seat }
    {
        let seat = self.seat;
        let joined = is_joined(campaign, seat);
        let own = own_part(alloc, seat, &entry)?;
        let Ok(answer) = campaign.step(entry) else {
            return Err(Memory);
        };
        let items = &mut self.items;
        let last = &mut self.last;
        match own {
            Some(own) => {
                let accepted = answer.refusal.is_none();
                add_own_items(
                    items,
                    campaign,
                    seat,
                    own,
                    joined,
                    accepted,
                    answer.taken,
                    last,
                )
            }
            None => add_others_items(items, alloc, campaign, seat, joined, last),
        }
    }

    /// Enters them one after the other.
    fn enter_all<E: Eye + Drop>(
        &mut self,
        alloc: Global,
        campaign: &mut Campaign<E>,
        entries: Vec<Entry>,
    ) -> Result<(), Memory>
        requires { Follows campaign.old self.old }
        ensures origin { campaign.new.origin ≡ campaign.old.origin }
        ensures history { OnOk result (campaign.new.history ≡ campaign.old.history ++ entries.items) }
        ensures follows { OnOk result (Follows campaign.new self.new) }
        ensures seat { self.new.seat ≡ self.old.seat }
    {
        for entry in entries {
            self.enter(alloc, campaign, entry)?;
        }
        Ok(())
    }

    /// Enters a line's entry, and then the Takens that are due.
    fn enter_with_takens<E: Eye + Drop>(
        &mut self,
        alloc: Global,
        campaign: &mut Campaign<E>,
        entry: Entry,
    ) -> Result<(), Memory>
        requires { Follows campaign.old self.old }
        ensures origin { campaign.new.origin ≡ campaign.old.origin }
        ensures history { OnOk result (campaign.new.history ≡ campaign.old.history ++ with_takens (world_of campaign.old) entry) }
        ensures follows { OnOk result (Follows campaign.new self.new) }
        ensures seat { self.new.seat ≡ self.old.seat }
    {
        self.enter(alloc, campaign, entry)?;
        let due = takens_due(alloc, campaign)?;
        self.enter_all(alloc, campaign, due)
    }

    /// Plays the script line of this number, from 1.
    fn play_line<E: Eye + Drop>(
        &mut self,
        alloc: Global,
        campaign: &mut Campaign<E>,
        number: u64,
        line: &[u8],
    ) -> Result<(), Stop>
        requires { Follows campaign.old self.old }
        ensures origin { campaign.new.origin ≡ campaign.old.origin }
        ensures played { OnOk result (PlaysLine campaign.old campaign.new number line.now) }
        ensures stopped { IfErr result (λ stop. (lines : List (List ℕ))
            → IsStopOf (script_from (world_of campaign.old) number (line.now ∷ lines)) stop) }
        ensures follows { OnOk result (Follows campaign.new self.new) }
        ensures seat { self.new.seat ≡ self.old.seat }
    {
        if is_past_limits(number, line) {
            return Err(Stop::TooLarge);
        }
        let Ok(line) = LineText::copy(alloc, line) else {
            return Err(Stop::Memory);
        };
        let seats = campaign.seat_count();
        match entry_of_line(alloc, campaign, seats, line) {
            Ok(Some(entry)) => match self.enter_with_takens(alloc, campaign, entry) {
                Ok(()) => Ok(()),
                Err(_) => Err(Stop::Memory),
            },
            Ok(None) => Err(Stop::BadLine(number)),
            Err(_) => Err(Stop::Memory),
        }
    }

    /// Plays the script on a campaign that has no entry yet.
    fn play<E: Eye + Drop>(
        &mut self,
        alloc: Global,
        campaign: &mut Campaign<E>,
        script: &[u8],
    ) -> Result<(), Stop>
        requires follows { Follows campaign.old self.old }
        requires fresh { campaign.old.history ≡ [] }
        ensures origin { campaign.new.origin ≡ campaign.old.origin }
        ensures played { OnOk result (script_of campaign.old.origin script.now ≡ record { entries = campaign.new.history; ending = done }) }
        ensures stopped { IfErr result (IsStopOf (script_of campaign.old.origin script.now)) }
        ensures follows { OnOk result (Follows campaign.new self.new) }
        ensures seat { self.new.seat ≡ self.old.seat }
    {
        let mut rest = script;
        let mut number = 1;
        'lines: loop {
            let Some((line, behind)) = first_line(rest) else {
                return Ok(());
            };
            self.play_line(alloc, campaign, number, line)?;
            number += 1;
            rest = behind;
        }
    }
}

// ---- a campaign text and a script

/// What a player may know of a history.
#[derive(Drop)]
pub(crate) struct Traced {
    pub(crate) opening: Opening,
    pub(crate) items: Vec<TraceItem>,
}

fn opened(alloc: Global, text: &[u8], second: bool) -> Result<Campaign<SweepEye>, CheckFault>
    ensures world { IfOk result (λ c. world_of_text text.now ≡ Some c.origin) }
    ensures fresh { IfOk result (λ c. IsOpening c.origin) }
    ensures fits { IfOk result (λ c. FitsTogether c.origin) }
    ensures tables { IfOk result (λ c. HasTables c.origin.scene) }
    ensures history { IfOk result (λ c. c.history ≡ []) }
    ensures seats { IfOk result (λ c. length c.origin.seats ≤ 33) }
    ensures fault { IfErr result (λ fault. (script : List ℕ) → IsFaultOf second text.now script fault) }
{
    match Campaign::open(alloc, text, SweepEye::new(alloc)) {
        Ok(campaign) => Ok(campaign),
        Err(OpenFault::Bad(fault)) => Err(CheckFault::Bad { second, fault }),
        Err(OpenFault::Memory) => Err(CheckFault::Memory),
    }
}

/// The opening of a campaign that has no entry yet, for the seat.
fn opening_of<E: Eye + Drop>(campaign: &Campaign<E>, seat: SeatNo) -> Result<Opening, Memory>
    requires { campaign.now.history ≡ [] }
    ensures { IfOk result (λ o. o ≡ opening campaign.now.origin seat) }
{
    let book = match campaign.book(seat) {
        Some(book) => Some(book.copy()?),
        None => None,
    };
    let seats = campaign.seat_count();
    Ok(Opening { book, seats })
}

fn fault_of(second: bool, stop: Stop) -> CheckFault
    ensures { (text script : List ℕ) (w : World) → world_of_text text ≡ Some w → IsStopOf (script_of w script) stop
        → IsFaultOf second text script result }
{
    match stop {
        Stop::BadLine(line) => CheckFault::BadLine { second, line },
        Stop::TooLarge => CheckFault::TooLarge { second },
        Stop::Memory => CheckFault::Memory,
    }
}

/// What a player may know of the history of a script on a campaign that has no entry yet. The campaign is borrowed: who holds one drops it at
/// each return, and each of these is proved.
fn trace_on<E: Eye + Drop>(
    alloc: Global,
    campaign: &mut Campaign<E>,
    script: &[u8],
    seat: SeatNo,
) -> Result<Traced, Stop>
    requires fresh { IsOpening campaign.old.origin }
    requires history { campaign.old.history ≡ [] }
    ensures traced { IfOk result (λ traced. (text : List ℕ) → world_of_text text ≡ Some campaign.old.origin
        → FitsTogether campaign.old.origin → HasTables campaign.old.origin.scene → length campaign.old.origin.seats ≤ 33
        → IsTraced text script.now seat traced.opening (items_in traced.items.items)) }
    ensures stopped { IfErr result (IsStopOf (script_of campaign.old.origin script.now)) }
{
    let Ok(opening) = opening_of(campaign, seat) else {
        return Err(Stop::Memory);
    };
    let mut follower = Follower::new(alloc, seat);
    match follower.play(alloc, campaign, script) {
        Ok(()) => Ok(Traced {
            opening,
            items: follower.items,
        }),
        Err(stop) => Err(stop),
    }
}

/// What a player may know of the history of a script; `second` stands in the faults.
pub(crate) fn trace_in(
    alloc: Global,
    text: &[u8],
    script: &[u8],
    seat: SeatNo,
    second: bool,
) -> Result<Traced, CheckFault>
    ensures traced { IfOk result (λ traced. IsTraced text.now script.now seat traced.opening (items_in traced.items.items)) }
    ensures fault { IfErr result (IsFaultOf second text.now script.now) }
{
    let mut campaign = opened(alloc, text, second)?;
    let traced = trace_on(alloc, &mut campaign, script, seat);
    // In a call, so that its steps aren't this function's.
    drop(campaign);
    match traced {
        Ok(traced) => Ok(traced),
        Err(stop) => Err(fault_of(second, stop)),
    }
}

/// What a player may know of the history of a script that is played on the campaign of a text: the opening, and the trace.
///
/// `Bad` exactly where the campaign text is off the format, with its first breach; else `BadLine` or `TooLarge` exactly where the script
/// stops so; else `Memory` for want of memory. `second` is false.
pub fn trace_of(
    alloc: Global,
    campaign: &[u8],
    script: &[u8],
    seat: SeatNo,
) -> Result<(Opening, Vec<TraceItem>), CheckFault>
    ensures traced { IfOk result (λ traced. IsTraceOf campaign.now script.now seat traced.0 (items_in traced.1.items)) }
    ensures fault { IfErr result (IsFaultOf false campaign.now script.now) }
{
    let traced = trace_in(alloc, campaign, script, seat, false)?;
    Ok((traced.opening, traced.items))
}
