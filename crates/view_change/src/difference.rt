//! The change from one view to another.
ghost use Rattle.std.specs.Prelude.{◌≡◌, map, ◌↔◌, ◌++◌, [], None, Some, IfOk, OnOk, IsTrue, All, cond, true};
ghost use Rattle.std.specs.List.{cons_option, list_all};
ghost use Rattle.std.specs.Str.{bytes_eq};
ghost use Rattle.names.specs.TokenId.{id_eq};
ghost use Rattle.names.specs.Tag.{tag_cmp};
ghost use Rattle.views.specs.Keys.{map_name, change_name, token_id};
ghost use Rattle.view_change.specs.Keyed.{has_key, gone_from, news as news_list, puts_from, delta_from, deltas};
ghost use Rattle.views.specs.Same.{same_light, same_bytes, same_letter, same_map as same_map_test, same_token as same_token_test};
ghost use Rattle.views.specs.Views.{at_name, KeepLetters, KeepsLetters};
ghost use Rattle.view_change.specs.Views.{fits_test, HaveOneSize, FitsAmong};
ghost use Rattle.view_change.specs.Change.{minus as minus_cells, mode_change as mode_change_of, shown_change as shown_change_of, map_change as map_change_of, difference as difference_of, change_of as change_between, fight_change};

use crate::news::news;
use cells::CellSet;
use names::{Memory, Mode, Tag, TokenId};
use std::alloc::Global;
use views::{
    Change, FightView, Letters, LightTexts, MapChange, MapChanges, MapView, MapViews, SightTexts,
    Tags, TokenIds, TokenView, TokenViews, View, copy_fight, same_fight, same_map_by, same_mode,
    same_shown, same_view_by,
};

fn new_lights(alloc: Global, before: &LightTexts, after: &LightTexts) -> Result<LightTexts, Memory>
    ensures { IfOk result (λ lights. lights ≡ puts_from same_light before.now after.now) }
{
    Ok(LightTexts {
        list: news(alloc, before.items(), after.items())?,
    })
}

fn new_sights(alloc: Global, before: &SightTexts, after: &SightTexts) -> Result<SightTexts, Memory>
    ensures { IfOk result (λ sights. sights ≡ puts_from same_bytes before.now after.now) }
{
    Ok(SightTexts {
        list: news(alloc, before.items(), after.items())?,
    })
}

fn other_letters(alloc: Global, before: &Letters, after: &Letters) -> Result<Letters, Memory>
    ensures { IfOk result (λ letters. letters ≡ puts_from same_letter before.now after.now) }
{
    Letters::new(news(alloc, before.items(), after.items())?)
}

#[tactic(auto, using(crate::proofs::KeptLetters::none_where_kept))]
fn new_letters(
    alloc: Global,
    before: &MapView,
    after: &MapView,
    by_exposed: bool,
) -> Result<Letters, Memory>
    requires sizes { HaveOneSize before.now after.now }
    requires letters { by_exposed ≡ true → before.now.exposed ≡ after.now.exposed → before.now.letters ≡ after.now.letters }
    ensures { IfOk result (λ letters. letters ≡ puts_from same_letter before.now.letters after.now.letters) }
{
    if by_exposed && before.exposed.equals(&after.exposed) {
        return Letters::new(Vec::new(alloc));
    }
    other_letters(alloc, &before.letters, &after.letters)
}

fn new_tokens(alloc: Global, before: &TokenViews, after: &TokenViews) -> Result<TokenViews, Memory>
    ensures { IfOk result (λ tokens. tokens ≡ puts_from same_token_test before.now after.now) }
{
    Ok(TokenViews {
        list: news(alloc, before.items(), after.items())?,
    })
}

fn ids(alloc: Global, tokens: &[TokenView]) -> Result<Vec<TokenId>, Memory>
    ensures { IfOk result (λ list. list.items ≡ map token_id tokens.now) }
{
    let mut list = Vec::new(alloc);
    for token in tokens {
        if list.push(token.id).is_err() {
            return Err(Memory);
        }
    }
    Ok(list)
}

#[tactic(auto, using(crate::proofs::GoneLemmas::gone_ids))]
fn gone_tokens(alloc: Global, before: &TokenViews, after: &TokenViews) -> Result<TokenIds, Memory>
    ensures { IfOk result (λ ids. ids ≡ gone_from id_eq token_id before.now after.now) }
{
    let before_ids = ids(alloc, before.items())?;
    let after_ids = ids(alloc, after.items())?;
    Ok(TokenIds {
        list: news(alloc, &after_ids, &before_ids)?,
    })
}

fn has_map(list: &[MapView], name: Tag) -> bool
    ensures { result ≡ has_key bytes_eq map_name list.now name }
{
    list.iter().any(|map| name == map.name)
}

fn gone_maps(alloc: Global, before: &MapViews, after: &MapViews) -> Result<Tags, Memory>
    ensures { IfOk result (λ names. names ≡ gone_from bytes_eq map_name before.now after.now) }
{
    let mut list = Vec::new(alloc);
    for map in before.items() {
        if !has_map(after.items(), map.name) && list.push(map.name).is_err() {
            return Err(Memory);
        }
    }
    Ok(Tags { list })
}

fn new_maps(alloc: Global, before: &MapViews, after: &MapViews) -> Result<MapViews, Memory>
    ensures { IfOk result (λ maps. maps ≡ news_list bytes_eq map_name before.now after.now) }
{
    let mut list = Vec::new(alloc);
    for map in after.items() {
        if !has_map(before.items(), map.name) && list.push(map.copy()?).is_err() {
            return Err(Memory);
        }
    }
    Ok(MapViews { list })
}

fn minus(a: &CellSet, b: &CellSet) -> Result<CellSet, Memory>
    requires { b.now.extent ≡ a.now.extent }
    ensures { IfOk result (λ cells. cells ≡ minus_cells a.now b.now) }
{
    let mut cells = a.copy()?;
    cells.minus_with(b);
    Ok(cells)
}

fn new_mode(before: Mode, after: Mode) -> Option<Mode>
    ensures { result ≡ mode_change_of before after }
{
    if same_mode(before, after) {
        None
    } else {
        Some(after)
    }
}

fn new_shown(before: Option<bool>, after: Option<bool>) -> Option<bool>
    ensures { result ≡ shown_change_of before after }
{
    if same_shown(before, after) {
        None
    } else {
        after
    }
}

fn new_fight(
    before: &Option<FightView>,
    after: &Option<FightView>,
) -> Result<Option<Option<FightView>>, Memory>
    ensures { IfOk result (λ fight. fight ≡ fight_change before.now after.now) }
{
    if same_fight(before, after) {
        return Ok(None);
    }
    Ok(Some(copy_fight(after)?))
}

fn map_change(
    alloc: Global,
    before: &MapView,
    after: &MapView,
    by_exposed: bool,
) -> Result<MapChange, Memory>
    requires sizes { HaveOneSize before.now after.now }
    requires letters { by_exposed ≡ true → before.now.exposed ≡ after.now.exposed → before.now.letters ≡ after.now.letters }
    ensures { IfOk result (λ change. change ≡ map_change_of before.now after.now) }
{
    Ok(MapChange {
        name: after.name,
        mode: new_mode(before.mode, after.mode),
        shown: new_shown(before.shown, after.shown),
        dark: minus(&before.seen, &after.seen)?,
        letters: new_letters(alloc, before, after, by_exposed)?,
        hidden: minus(&before.exposed, &after.exposed)?,
        lit: minus(&after.seen, &before.seen)?,
    })
}

fn changed_map(
    alloc: Global,
    before: &MapView,
    after: &MapView,
    by_exposed: bool,
) -> Result<Option<MapChange>, Memory>
    requires sizes { HaveOneSize before.now after.now }
    requires name { before.now.name ≡ after.now.name }
    requires letters { by_exposed ≡ true → KeepsLetters before.now after.now }
    ensures { IfOk result (λ change. change ≡ cond (same_map_test before.now after.now) None (Some (map_change_of before.now after.now))) }
{
    if same_map_by(before, after, by_exposed) {
        return Ok(None);
    }
    Ok(Some(map_change(alloc, before, after, by_exposed)?))
}

/// How the map differs from the one with its name.
fn map_delta(
    alloc: Global,
    before: &[MapView],
    map: &MapView,
    by_exposed: bool,
) -> Result<Option<MapChange>, Memory>
    requires fits { FitsAmong before.now map.now }
    requires letters { by_exposed ≡ true → All (λ old. KeepsLetters old map.now) before.now }
    ensures { IfOk result (λ change. change ≡ delta_from tag_cmp map_name change_name same_map_test map_change_of
        (at_name map_name map.now.name before.now) map.now) }
{
    for old in before {
        if map.name == old.name {
            return changed_map(alloc, old, map, by_exposed);
        }
    }
    Ok(None)
}

fn add_delta(list: &mut Vec<MapChange>, change: Option<MapChange>) -> Result<(), Memory>
    ensures { OnOk result (list.new.items ≡ list.old.items ++ cons_option change []) }
{
    match change {
        None => Ok(()),
        Some(change) => match list.push(change) {
            Ok(()) => Ok(()),
            Err(_) => Err(Memory),
        },
    }
}

fn changed_maps(
    alloc: Global,
    before: &[MapView],
    after: &[MapView],
    by_exposed: bool,
) -> Result<MapChanges, Memory>
    requires fit { All (FitsAmong before.now) after.now }
    requires letters { by_exposed ≡ true → KeepLetters before.now after.now }
    ensures { IfOk result (λ changes. changes ≡ deltas tag_cmp map_name change_name same_map_test map_change_of before.now after.now) }
{
    let mut list = Vec::new(alloc);
    for map in after {
        add_delta(&mut list, map_delta(alloc, before, map, by_exposed)?)?;
    }
    Ok(MapChanges { list })
}

#[tactic(auto, unfolding(crate::specs::Change::difference))]
fn difference(
    alloc: Global,
    before: &View,
    after: &View,
    by_exposed: bool,
) -> Result<Change, Memory>
    requires fit { All (FitsAmong before.now.maps) after.now.maps }
    requires letters { by_exposed ≡ true → KeepLetters before.now.maps after.now.maps }
    ensures { IfOk result (λ change. change ≡ difference_of before.now after.now) }
{
    Ok(Change {
        changed: changed_maps(alloc, before.maps.items(), after.maps.items(), by_exposed)?,
        fight: new_fight(&before.fight, &after.fight)?,
        gone: gone_tokens(alloc, &before.tokens, &after.tokens)?,
        lights: new_lights(alloc, &before.lights, &after.lights)?,
        maps: new_maps(alloc, &before.maps, &after.maps)?,
        sights: new_sights(alloc, &before.sights, &after.sights)?,
        tokens: new_tokens(alloc, &before.tokens, &after.tokens)?,
        unmapped: gone_maps(alloc, &before.maps, &after.maps)?,
    })
}

/// The change from one view to another; `None` exactly where the views are equal.
///
/// The sets of a map that is in both views have one size.
pub fn change_of(alloc: Global, before: &View, after: &View) -> Result<Option<Change>, Memory>
    requires { All (FitsAmong before.now.maps) after.now.maps }
    ensures value { IfOk result (λ change. change ≡ change_between before.now after.now) }
    ensures none { IfOk result (λ change. change ≡ None ↔ (before.now ≡ after.now)) }
{
    change_by(alloc, before, after, false)
}

/// The same, where it is known of the two views, with `by_exposed`, that the letters of a map follow from what is exposed
/// of it: then letters are compared only of maps of which other cells are exposed.
#[tactic(auto, using(crate::proofs::ChangeShape::none_where_same, crate::proofs::ChangeShape::change_where_other))]
pub fn change_by(
    alloc: Global,
    before: &View,
    after: &View,
    by_exposed: bool,
) -> Result<Option<Change>, Memory>
    requires fit { All (FitsAmong before.now.maps) after.now.maps }
    requires letters { by_exposed ≡ true → KeepLetters before.now.maps after.now.maps }
    ensures value { IfOk result (λ change. change ≡ change_between before.now after.now) }
    ensures none { IfOk result (λ change. change ≡ None ↔ (before.now ≡ after.now)) }
{
    if same_view_by(before, after, by_exposed) {
        return Ok(None);
    }
    Ok(Some(difference(alloc, before, after, by_exposed)?))
}

fn has_one_size(before: &MapView, after: &MapView) -> bool
    ensures { result ≡ fits_test before.now after.now }
{
    after.name != before.name
        || after.seen.size() == before.seen.size() && after.exposed.size() == before.exposed.size()
}

fn fits_among(before: &[MapView], map: &MapView) -> bool
    ensures { result ≡ list_all (λ old. fits_test old map.now) before.now }
{
    before.iter().all(|old| has_one_size(old, map))
}

fn all_fit(before: &[MapView], after: &[MapView]) -> bool
    ensures { result ≡ list_all (λ map. list_all (λ old. fits_test old map) before.now) after.now }
{
    after.iter().all(|map| fits_among(before, map))
}

/// Whether the sets of each map that is in both views have one size, as `change_of` asks.
pub fn fit(before: &View, after: &View) -> bool
    ensures test { result ≡ list_all (λ map. list_all (λ old. fits_test old map) before.now.maps) after.now.maps }
    ensures fits { IsTrue result → All (FitsAmong before.now.maps) after.now.maps }
{
    all_fit(before.maps.items(), after.maps.items())
}
