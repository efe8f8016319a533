//! One fight.
ghost use Rattle.std.specs.Prelude.{◌≡◌, ◌<◌, ◌↔◌, ◌+◌, ◌^◌, [], true, false, Some, IfOk, OnOk, OnErr, IfSome, length, slice_get, position};
ghost use Rattle.std.specs.List.Sorted.{IsStrictlySortedBy};
ghost use Rattle.initiative.specs.Fights.{IsFight, PassesTurn, SetsEntry, entry_cmp, following, has_turn, is_listed, is_of, left_with, list_with, no_fight, passed, passed_by, token_at, with_entry, without, without_entry};

use crate::entry::Entry;
use names::{Memory, TokenId};
use std::alloc::Global;
use std::collections::BTreeSet;
use std::marker::Model;

/// The last number of a round.
pub const MOST_ROUND: u32 = 999_999_999;

/// The list of a fight, the token whose turn it is, and the round.
#[derive(Drop)]
pub struct Fight {
    entries: BTreeSet<Entry>,
    turn: Option<TokenId>,
    round: u32,
}

impl Model for Fight {
    ghost use Rattle.initiative.specs.Fights.{IsFight, Rounds};

    ghost Value = { Rounds };

    ghost view = { λ f. record { list = f.entries.keys; turn = f.turn; round = f.round } };

    ghost invariant = { λ f. IsFight (record { list = f.entries.keys; turn = f.turn; round = f.round }) };
}

impl Fight {
    /// A fight that hasn't begun: an empty list, no turn, round 0.
    pub fn new(alloc: Global) -> Fight
        ensures { result ≡ no_fight }
    {
        Fight {
            entries: BTreeSet::new(alloc),
            turn: None,
            round: 0,
        }
    }

    /// An equal fight, or `Memory` for want of memory.
    pub fn copy(&self) -> Result<Fight, Memory>
        ensures { IfOk result (λ f. f ≡ self.now) }
    {
        Ok(Fight {
            entries: copy_of(&self.entries)?,
            turn: self.turn,
            round: self.round,
        })
    }

    /// Gives the token an entry with that value, or changes its entry's value; turn and round stay.
    ///
    /// After `Memory` the fight is as before.
    pub fn set(&mut self, id: TokenId, value: i16) -> Result<(), Memory>
        ensures value { OnOk result (self.new ≡ with_entry id value self.old) }
        ensures sets { OnOk result (SetsEntry id value self.old self.new) }
        ensures unchanged { OnErr result (self.new ≡ self.old) }
    {
        let mut entries = copy_of(&self.entries)?;
        put_in(&mut entries, Entry { value, id })?;
        self.entries = entries;
        Ok(())
    }

    /// Takes the token's entry out; false exactly where it has none, and then the fight is as before.
    ///
    /// If the token has the turn, the turn first passes on as by `next`. A fight whose list is empty after it has no turn,
    /// and its round is 0. No memory is taken.
    pub fn drop_entry(&mut self, id: TokenId) -> bool
        ensures there { result ≡ is_listed id self.old.list }
        ensures value { self.new ≡ without_entry id self.old }
        ensures gone { is_listed id self.new.list ≡ false }
    {
        let own = &id;
        if !is_listed(&self.entries, own) {
            return false;
        }
        self.pass_by(own);
        self.leave(own);
        true
    }

    // Passes the turn on, if the token has it.
    fn pass_by(&mut self, id: &TokenId)
        ensures { self.new ≡ passed_by id.now self.old }
    {
        if self.has_turn(id) {
            self.next();
        }
    }

    fn has_turn(&self, id: &TokenId) -> bool
        ensures { result ≡ has_turn id.now self.now.turn }
    {
        match &self.turn {
            Some(turn) => *turn == *id,
            None => false,
        }
    }

    // Takes the token's entry out, where that leaves a fight.
    fn leave(&mut self, id: &TokenId)
        requires { IsFight (left_with (without id.now self.old.list) self.old) }
        ensures { self.new ≡ left_with (without id.now self.old.list) self.old }
    {
        take_out(&mut self.entries, id);
        if self.entries.is_empty() {
            self.turn = None;
            self.round = 0;
        }
    }

    /// Passes the turn on; false exactly where the list is empty, and then the fight is as before.
    ///
    /// Where nobody has the turn, the first entry gets it, and the round is 1. Else the entry that follows gets it, and after
    /// the last one the first gets it and the round rises by one, but stays at 999,999,999. No memory is taken.
    pub fn next(&mut self) -> bool
        ensures there { (result ≡ false) ↔ (length self.old.list ≡ 0) }
        ensures value { self.new ≡ passed self.old }
        ensures passes { PassesTurn self.old self.new }
    {
        let is_empty = self.entries.is_empty();
        self.pass_on();
        !is_empty
    }

    // Passes the turn on, unless the list is empty.
    fn pass_on(&mut self)
        ensures { self.new ≡ passed self.old }
    {
        if let Some(next) = self.following() {
            self.turn = Some(next);
            return;
        }
        if let Some(first) = token_at(&self.entries, 0) {
            self.turn = Some(first);
            self.round = (self.round + 1).min(MOST_ROUND);
        }
    }

    // Whose entry follows that of the token that has the turn.
    fn following(&self) -> Option<TokenId>
        ensures { result ≡ following self.now.turn self.now.list }
    {
        let turn = self.turn?;
        let place = place_of(&self.entries, &turn)?;
        token_at(&self.entries, place + 1)
    }

    /// Ends the fight: no entry, no turn, round 0. No memory is taken.
    pub fn clear(&mut self)
        ensures { self.new ≡ no_fight }
    {
        self.entries.clear();
        self.turn = None;
        self.round = 0;
    }

    /// How many entries there are.
    pub fn len(&self) -> usize
        ensures value { result ≡ length self.now.list }
        ensures valid { IsFight self.now }
    {
        self.entries.len()
    }

    /// The entry at that place: the greatest value first, and of equal values the least id first.
    pub fn at(&self, place: usize) -> (TokenId, i16)
        requires { place < length self.now.list }
        ensures { slice_get self.now.list place ≡ Some (record { value = result.1; id = result.0 }) }
    {
        match self.entries.iter().nth(place) {
            Some(entry) => (entry.id, entry.value),
            None => unreachable!(),
        }
    }

    /// The entries in their order: the greatest value first, and of equal values the least id first.
    ///
    /// To go over all of them takes one walk, which places given to `at` don't.
    pub fn entries(&self) -> &BTreeSet<Entry>
        ensures value { result.now.keys ≡ self.now.list }
        ensures valid { IsFight self.now }
    {
        &self.entries
    }

    /// Whether the token has an entry.
    pub fn has(&self, id: TokenId) -> bool
        ensures { result ≡ is_listed id self.now.list }
    {
        is_listed(&self.entries, &id)
    }

    /// The token whose turn it is; `None` exactly where nobody has the turn.
    pub fn turn(&self) -> Option<TokenId>
        ensures { result ≡ self.now.turn }
    {
        self.turn
    }

    /// The round, 0 exactly where nobody has the turn, and at most 999,999,999.
    pub fn round(&self) -> u32
        ensures { result ≡ self.now.round }
    {
        self.round
    }
}

fn copy_of(entries: &BTreeSet<Entry>) -> Result<BTreeSet<Entry>, Memory>
    ensures { IfOk result (λ copy. copy.keys ≡ entries.now.keys) }
{
    Ok(entries.clone()?)
}

// Puts the entry in, in place of the one that its token has.
fn put_in(entries: &mut BTreeSet<Entry>, entry: Entry) -> Result<(), Memory>
    ensures in_order { IsStrictlySortedBy entry_cmp entries.new.keys }
    ensures keys { OnOk result (entries.new.keys ≡ list_with entry entries.old.keys) }
{
    take_out(entries, &entry.id);
    entries.insert(entry)?;
    Ok(())
}

fn take_out(entries: &mut BTreeSet<Entry>, id: &TokenId)
    ensures { entries.new.keys ≡ without id.now entries.old.keys }
{
    entries.retain(|entry| entry.id != *id);
}

fn is_listed(entries: &BTreeSet<Entry>, id: &TokenId) -> bool
    ensures { result ≡ is_listed id.now entries.now.keys }
{
    entries.iter().any(|entry| entry.id == *id)
}

fn place_of(entries: &BTreeSet<Entry>, id: &TokenId) -> Option<usize>
    ensures place { result ≡ position (is_of id.now) entries.now.keys }
    ensures fits { IfSome result (λ place. place + 1 < 2 ^ 64) }
{
    entries.iter().position(|entry| entry.id == *id)
}

fn token_at(entries: &BTreeSet<Entry>, place: usize) -> Option<TokenId>
    ensures { result ≡ token_at entries.now.keys place }
{
    match entries.iter().nth(place) {
        Some(entry) => Some(entry.id),
        None => None,
    }
}
