//! The fight of a seat's view.
ghost use Rattle.std.specs.Prelude.{◌≡◌, ◌++◌, ◌∷◌, [], None, Some, IfOk, OnOk, map, if◌then◌else◌};
ghost use Rattle.std.specs.List.{last_or, list_any};
ghost use Rattle.names.specs.TokenId.{id_eq};
ghost use Rattle.player_view.specs.Fights.{entry_text, entries_in, fight_in as part_of, stands_in as stands_among, turn_in as turn_among, up_to};

use initiative::{Entry, Fight};
use names::{Memory, TokenId};
use std::alloc::Global;
use views::{FightList, FightView, TokenView};

/// Whether one of the tokens has that id.
fn has_token(tokens: &[TokenView], id: &TokenId) -> bool
    ensures { result ≡ list_any (λ t. id_eq t.id id.now) tokens.now }
{
    tokens.iter().any(|token| token.id == *id)
}

/// Whether a token of that id stands in the view, or the view is the game master's.
fn stands_in(gm: bool, tokens: &[TokenView], id: &TokenId) -> bool
    ensures { result ≡ stands_among gm tokens.now id.now }
{
    gm || has_token(tokens, id)
}

/// Adds the entry, if its token stands in the view.
fn add_entry(
    gm: bool,
    tokens: &[TokenView],
    entry: &Entry,
    list: &mut Vec<(TokenId, i16)>,
) -> Result<(), Memory>
    ensures { OnOk result (list.new.items ≡ list.old.items ++
        (if stands_among gm tokens.now entry.now.id then entry_text entry.now ∷ [] else [])) }
{
    if stands_in(gm, tokens, &entry.id) && list.push((entry.id, entry.value)).is_err() {
        return Err(Memory);
    }
    Ok(())
}

/// The entries whose tokens stand in the view.
fn entries_in(
    alloc: Global,
    gm: bool,
    tokens: &[TokenView],
    fight: &Fight,
) -> Result<FightList, Memory>
    ensures { IfOk result (λ list. list ≡ map entry_text (entries_in gm tokens.now fight.now.list)) }
{
    let mut list = Vec::new(alloc);
    for entry in fight.entries() {
        add_entry(gm, tokens, entry, &mut list)?;
    }
    Ok(FightList { list })
}

/// The entry's token, if it stands in the view, or else the one before.
fn last_with(
    gm: bool,
    tokens: &[TokenView],
    entry: &Entry,
    before: Option<TokenId>,
) -> Option<TokenId>
    ensures { result ≡ (if stands_among gm tokens.now entry.now.id then Some entry.now.id else before) }
{
    if stands_in(gm, tokens, &entry.id) {
        Some(entry.id)
    } else {
        before
    }
}

/// The last token of the view at or before that one in the list.
#[tactic(auto, using(crate::proofs::FightLemmas::last_here, crate::proofs::FightLemmas::last_on))]
fn last_up_to(gm: bool, tokens: &[TokenView], fight: &Fight, id: &TokenId) -> Option<TokenId>
    ensures { result ≡ last_or None (map (λ e. e.id) (entries_in gm tokens.now (up_to id.now fight.now.list))) }
{
    let mut last = None;
    for entry in fight.entries() {
        last = last_with(gm, tokens, entry, last);
        if entry.id == *id {
            return last;
        }
    }
    last
}

/// The last token of the view at or before the one that has the turn.
fn turn_in(gm: bool, tokens: &[TokenView], fight: &Fight) -> Option<TokenId>
    ensures { result ≡ turn_among gm tokens.now fight.now.list fight.now.turn }
{
    let turn = fight.turn()?;
    last_up_to(gm, tokens, fight, &turn)
}

/// The part of the fight, where there is an entry in its list, for a view with these tokens.
#[tactic(auto, unfolding(crate::specs::Fights::fight_in), using(crate::proofs::FightLemmas::part_none, crate::proofs::FightLemmas::part_some))]
pub(crate) fn fight_in(
    alloc: Global,
    gm: bool,
    tokens: &[TokenView],
    fight: &Fight,
) -> Result<Option<FightView>, Memory>
    ensures { IfOk result (λ part. part ≡ part_of gm tokens.now fight.now) }
{
    let list = entries_in(alloc, gm, tokens, fight)?;
    if list.items().is_empty() {
        return Ok(None);
    }
    Ok(Some(FightView {
        list,
        round: fight.round(),
        turn: turn_in(gm, tokens, fight),
    }))
}
