//! The turn of the writing half: how many lines were written, and those that wait.
ghost use Rattle.std.specs.Prelude.{◌≡◌, ◌++◌, ◌∷◌, [], ℕ, if◌then◌else◌, false, length};
ghost use Rattle.campaign_law.specs.declared.entry.Entry.TheVariants.{Taken};
ghost use Rattle.session.specs.Exchanged.{Exchanged, Finds};
ghost use Rattle.session.specs.Held.{is_held as is_held_lem};

use crate::Table;
use crate::hold::{Hold, is_cut, is_held};
use campaign_law::Entry;
use names::LineText;
use turn_lock::{Job, Object};

/// What a turn of the writing half finds.
#[derive(Drop)]
pub(crate) enum Found {
    /// Its passes hold the seat, and so many lines wait. The text is these lines, each with its LF.
    Lines { text: LineText, lines: u64 },
    /// Its passes no longer hold the seat.
    Gone,
    /// Its passes no longer hold the seat, and the session was cut.
    Cut,
    /// Want of memory.
    Memory,
}

/// Enters a Taken of the first `count` lines, where that is news, and finds the lines that wait behind them.
#[derive(Drop)]
pub(crate) struct Exchange {
    pub(crate) hold: Hold,
    pub(crate) count: u64,
    // Whether more lines were written than the last Taken said.
    pub(crate) news: bool,
    pub(crate) entered: bool,
    pub(crate) found: Found,
    // How long the history is after the turn.
    pub(crate) length: u64,
}

impl Job<Table> for Exchange {
    ghost entries = { λ before after. if after.entered then Taken before.hold.seat before.count ∷ [] else [] };

    ghost ran = { λ origin before found after left. Exchanged origin before.hold before.count found after.entered after.found left
        × (after.length ≡ length left) };

    fn run(&mut self, campaign: &mut Table) {
        self.entered = false;
        self.found = self.exchanged(campaign);
        self.length = campaign.length();
    }
}

impl Exchange {
    pub(crate) fn of(hold: Hold, count: u64, news: bool) -> Exchange
        ensures hold { result.hold ≡ hold }
        ensures count { result.count ≡ count }
    {
        Exchange {
            hold,
            count,
            news,
            entered: false,
            found: Found::Gone,
            length: 0,
        }
    }

    fn exchanged(&mut self, campaign: &mut Table) -> Found
        requires { self.old.entered ≡ false }
        ensures origin { campaign.new.origin ≡ campaign.old.origin }
        ensures history { campaign.new.history ≡ campaign.old.history
            ++ (if self.new.entered then Taken self.old.hold.seat self.old.count ∷ [] else []) }
        ensures ran { Exchanged campaign.old.origin self.old.hold self.old.count campaign.old.history self.new.entered result
            campaign.new.history }
    {
        if !is_held(campaign, &self.hold) {
            return gone(campaign, &self.hold);
        }
        if self.news {
            if campaign.step(self.taken()).is_err() {
                return Found::Memory;
            }
            self.entered = true;
        }
        waiting(campaign, &self.hold, self.count)
    }

    fn taken(&self) -> Entry
        ensures { result ≡ Taken self.now.hold.seat self.now.count }
    {
        Entry::Taken {
            seat: self.hold.seat,
            count: self.count,
        }
    }
}

// The lines that wait behind the first `count`.
#[tactic(auto, using(crate::proofs::Holds::text_waits))]
fn waiting(campaign: &Table, hold: &Hold, count: u64) -> Found
    ensures { Finds campaign.now.origin hold.now count campaign.now.history result }
{
    if !is_held(campaign, hold) {
        return gone(campaign, hold);
    }
    match campaign.text_for(hold.seat, count) {
        Ok((text, lines)) => Found::Lines { text, lines },
        Err(_) => Found::Memory,
    }
}

// How it is gone.
fn gone(campaign: &Table, hold: &Hold) -> Found
    requires { is_held_lem campaign.now.origin campaign.now.history hold.now ≡ false }
    ensures { (count : ℕ) → Finds campaign.now.origin hold.now count campaign.now.history result }
{
    if is_cut(campaign, hold) {
        Found::Cut
    } else {
        Found::Gone
    }
}
