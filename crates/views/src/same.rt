//! Whether two views, or two parts of views, are equal.
ghost use Rattle.std.specs.Prelude.{◌≡◌, ◌↔◌, IsTrue, true};
ghost use Rattle.std.specs.Option.{option_eq};
ghost use Rattle.std.specs.Str.{bytes_eq};
ghost use Rattle.std.specs.Cmp.Lexicographic.{pointwise};
ghost use Rattle.cells.specs.Cells.{cells_eq};
ghost use Rattle.names.specs.TokenId.{id_eq};
ghost use Rattle.views.specs.Same as same;
ghost use Rattle.views.specs.Views.{KeepLetters, KeepsLetters};

use crate::lists::{FightList, Letters, LightTexts, SightTexts};
use crate::view::{FightView, GmPart, MapView, OwnedPart, TokenView, View};
use cells::CellSet;
use names::{Layer, Mode, Tag, Text, TokenId};

/// Whether the two modes are equal.
pub fn same_mode(a: Mode, b: Mode) -> bool
    ensures test { result ≡ same.same_mode a b }
    ensures tells { IsTrue result ↔ (a ≡ b) }
{
    same_number(a, b)
}

fn same_number(a: Mode, b: Mode) -> bool
    ensures { result ≡ same.same_mode a b }
{
    a == b
}

fn same_layer(a: Layer, b: Layer) -> bool
    ensures { result ≡ same.same_layer a b }
{
    a == b
}

fn same_flag(a: Option<bool>, b: Option<bool>) -> bool
    ensures { result ≡ option_eq same.same_bool a b }
{
    match (a, b) {
        (None, None) => true,
        (Some(a), Some(b)) => a == b,
        _ => false,
    }
}

/// Whether the two are equal: what a view says of whether players are shown a map.
pub fn same_shown(a: Option<bool>, b: Option<bool>) -> bool
    ensures test { result ≡ option_eq same.same_bool a b }
    ensures tells { IsTrue result ↔ (a ≡ b) }
{
    same_flag(a, b)
}

fn same_name(a: Option<Tag>, b: Option<Tag>) -> bool
    ensures { result ≡ option_eq bytes_eq a b }
{
    match (a, b) {
        (None, None) => true,
        (Some(a), Some(b)) => a == b,
        _ => false,
    }
}

fn same_cells(a: &CellSet, b: &CellSet) -> bool
    ensures { result ≡ cells_eq a.now b.now }
{
    a.size() == b.size() && a.equals(b)
}

fn same_prop(a: &(Tag, Text), b: &(Tag, Text)) -> bool
    ensures { result ≡ same.same_bytes a.now b.now }
{
    a.0 == b.0 && a.1.text() == b.1.text()
}

#[tactic(auto, using(crate::proofs::SameLoops::same_length, crate::proofs::SameLoops::same_next, crate::proofs::SameLoops::same_end))]
fn same_props(a: &[(Tag, Text)], b: &[(Tag, Text)]) -> bool
    ensures { result ≡ same.same_props a.now b.now }
{
    if a.len() != b.len() {
        return false;
    }
    for i in 0..a.len() {
        if !same_prop(&a[i], &b[i]) {
            return false;
        }
    }
    true
}

fn same_lights(a: &LightTexts, b: &LightTexts) -> bool
    ensures { result ≡ pointwise same.same_light a.now b.now }
{
    a.items() == b.items()
}

fn same_sights(a: &SightTexts, b: &SightTexts) -> bool
    ensures { result ≡ pointwise same.same_bytes a.now b.now }
{
    a.items() == b.items()
}

fn same_list(a: &FightList, b: &FightList) -> bool
    ensures { result ≡ pointwise same.same_entry a.now b.now }
{
    a.items() == b.items()
}

fn same_turn(a: Option<TokenId>, b: Option<TokenId>) -> bool
    ensures { result ≡ option_eq id_eq a b }
{
    match (a, b) {
        (None, None) => true,
        (Some(a), Some(b)) => a == b,
        _ => false,
    }
}

fn same_fight_part(a: &FightView, b: &FightView) -> bool
    ensures { result ≡ same.same_fight a.now b.now }
{
    same_list(&a.list, &b.list) && a.round == b.round && same_turn(a.turn, b.turn)
}

fn same_part(a: &Option<FightView>, b: &Option<FightView>) -> bool
    ensures { result ≡ option_eq same.same_fight a.now b.now }
{
    match (a, b) {
        (None, None) => true,
        (Some(a), Some(b)) => same_fight_part(a, b),
        _ => false,
    }
}

/// Whether the two are equal: what a view says of a fight.
pub fn same_fight(a: &Option<FightView>, b: &Option<FightView>) -> bool
    ensures test { result ≡ option_eq same.same_fight a.now b.now }
    ensures tells { IsTrue result ↔ (a.now ≡ b.now) }
{
    same_part(a, b)
}

fn same_letters(a: &Letters, b: &Letters) -> bool
    ensures { result ≡ pointwise same.same_letter a.now b.now }
{
    a.items() == b.items()
}

fn same_owned_part(a: &OwnedPart, b: &OwnedPart) -> bool
    ensures { result ≡ same.same_owned a.now b.now }
{
    same_name(a.sight, b.sight)
        && same_name(a.light, b.light)
        && same_props(a.own.items(), b.own.items())
}

fn same_owned(a: &Option<OwnedPart>, b: &Option<OwnedPart>) -> bool
    ensures { result ≡ option_eq same.same_owned a.now b.now }
{
    match (a, b) {
        (None, None) => true,
        (Some(a), Some(b)) => same_owned_part(a, b),
        _ => false,
    }
}

fn same_gm_part(a: &GmPart, b: &GmPart) -> bool
    ensures { result ≡ same.same_whole a.now b.now }
{
    a.owners.items() == b.owners.items()
        && same_props(a.secret.items(), b.secret.items())
        && a.visible == b.visible
}

fn same_whole(a: &Option<GmPart>, b: &Option<GmPart>) -> bool
    ensures { result ≡ option_eq same.same_whole a.now b.now }
{
    match (a, b) {
        (None, None) => true,
        (Some(a), Some(b)) => same_gm_part(a, b),
        _ => false,
    }
}

fn same_token_parts(a: &TokenView, b: &TokenView) -> bool
    ensures { result ≡ same.same_token a.now b.now }
{
    a.id == b.id
        && a.name.text() == b.name.text()
        && a.map == b.map
        && a.cell == b.cell
        && a.size == b.size
        && same_layer(a.layer, b.layer)
        && same_props(a.props.items(), b.props.items())
        && same_owned(&a.owned, &b.owned)
        && same_whole(&a.whole, &b.whole)
}

/// Whether the two tokens are equal.
pub fn same_token(a: &TokenView, b: &TokenView) -> bool
    ensures test { result ≡ same.same_token a.now b.now }
    ensures tells { IsTrue result ↔ (a.now ≡ b.now) }
{
    same_token_parts(a, b)
}

/// Whether two views of a map that expose the same cells have the same letters.
#[tactic(auto, using(crate::proofs::KeptLetters::kept_letters))]
fn same_exposed_letters(a: &MapView, b: &MapView, by_exposed: bool) -> bool
    requires letters { by_exposed ≡ true → KeepsLetters a.now b.now }
    requires name { bytes_eq a.now.name b.now.name ≡ true }
    requires exposed { cells_eq a.now.exposed b.now.exposed ≡ true }
    ensures { result ≡ pointwise same.same_letter a.now.letters b.now.letters }
{
    by_exposed || same_letters(&a.letters, &b.letters)
}

fn same_map_parts(a: &MapView, b: &MapView, by_exposed: bool) -> bool
    requires letters { by_exposed ≡ true → KeepsLetters a.now b.now }
    ensures { result ≡ same.same_map a.now b.now }
{
    a.name == b.name
        && a.size == b.size
        && same_mode(a.mode, b.mode)
        && same_shown(a.shown, b.shown)
        && same_cells(&a.seen, &b.seen)
        && same_cells(&a.exposed, &b.exposed)
        && same_exposed_letters(a, b, by_exposed)
}

/// Whether the two maps are equal.
pub fn same_map(a: &MapView, b: &MapView) -> bool
    ensures test { result ≡ same.same_map a.now b.now }
    ensures tells { IsTrue result ↔ (a.now ≡ b.now) }
{
    same_map_parts(a, b, false)
}

/// The same, where it is known of the two, with `by_exposed`, that their letters follow from what they expose: then no
/// letter is compared.
pub fn same_map_by(a: &MapView, b: &MapView, by_exposed: bool) -> bool
    requires letters { by_exposed ≡ true → KeepsLetters a.now b.now }
    ensures test { result ≡ same.same_map a.now b.now }
    ensures tells { IsTrue result ↔ (a.now ≡ b.now) }
{
    same_map_parts(a, b, by_exposed)
}

#[tactic(auto, using(crate::proofs::SameLoops::same_length, crate::proofs::SameLoops::same_next, crate::proofs::SameLoops::same_end))]
fn same_maps(a: &[MapView], b: &[MapView], by_exposed: bool) -> bool
    requires letters { by_exposed ≡ true → KeepLetters a.now b.now }
    ensures { result ≡ pointwise same.same_map a.now b.now }
{
    if a.len() != b.len() {
        return false;
    }
    for i in 0..a.len() {
        if !same_map_parts(&a[i], &b[i], by_exposed) {
            return false;
        }
    }
    true
}

#[tactic(auto, using(crate::proofs::SameLoops::same_length, crate::proofs::SameLoops::same_next, crate::proofs::SameLoops::same_end))]
fn same_tokens(a: &[TokenView], b: &[TokenView]) -> bool
    ensures { result ≡ pointwise same.same_token a.now b.now }
{
    if a.len() != b.len() {
        return false;
    }
    for i in 0..a.len() {
        if !same_token_parts(&a[i], &b[i]) {
            return false;
        }
    }
    true
}

#[tactic(auto, unfolding(crate::specs::Same::same_view))]
fn same_view_parts(a: &View, b: &View, by_exposed: bool) -> bool
    requires letters { by_exposed ≡ true → KeepLetters a.now.maps b.now.maps }
    ensures { result ≡ same.same_view a.now b.now }
{
    a.gm == b.gm
        && same_lights(&a.lights, &b.lights)
        && same_sights(&a.sights, &b.sights)
        && same_part(&a.fight, &b.fight)
        // A token that moved differs soon, and maps with many letters take long.
        && same_tokens(a.tokens.items(), b.tokens.items())
        && same_maps(a.maps.items(), b.maps.items(), by_exposed)
}

/// Whether the two views are equal.
pub fn same_view(a: &View, b: &View) -> bool
    ensures test { result ≡ same.same_view a.now b.now }
    ensures tells { IsTrue result ↔ (a.now ≡ b.now) }
{
    same_view_parts(a, b, false)
}

/// The same, where it is known of the two, with `by_exposed`, that the letters of a map follow from what is exposed of it:
/// then no letter is compared.
pub fn same_view_by(a: &View, b: &View, by_exposed: bool) -> bool
    requires letters { by_exposed ≡ true → KeepLetters a.now.maps b.now.maps }
    ensures test { result ≡ same.same_view a.now b.now }
    ensures tells { IsTrue result ↔ (a.now ≡ b.now) }
{
    same_view_parts(a, b, by_exposed)
}
