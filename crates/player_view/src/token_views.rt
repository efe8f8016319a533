//! The tokens of a seat's view.
ghost use Rattle.std.specs.Prelude.{◌≡◌, ◌<◌, ◌≤◌, ◌+◌, ◌-◌, ◌++◌, ◌∷◌, ◌&&◌, ◌||◌, [], Some, None, true, false, IfOk, OnOk, map, take, find, slice_get, length, if◌then◌else◌};
ghost use Rattle.std.specs.List.{filter, list_any, range_with_len};
ghost use Rattle.std.specs.Option.{option_copied};
ghost use Rattle.std.specs.Str.{bytes_eq};
ghost use Rattle.tokens.specs.Owners.{has_owner, seats_of};
ghost use Rattle.player_view.specs.Shown.{is_in, touches};
ghost use Rattle.player_view.specs.Sight.{owns};
ghost use Rattle.player_view.specs.View.{gm_part, has_map, has_token, map_view, owned_part, token_view};
ghost use Rattle.player_view.specs.Walk.{is_open_by, is_open_in};

use crate::map_views::{find_view, room_for};
use crate::reads::{acts_on, is_gm, owns, token_at};
use cells::{Cell, CellSet};
use names::{Layer, Memory, SeatNo, Tag, Text};
use std::alloc::Global;
use tokens::{Owners, Props, Token};
use views::{GmPart, MapView, MapViews, OwnedPart, PropTexts, SeatNos, TokenView, TokenViews};
use world::Scene;

fn add_prop(props: &Props, place: usize, list: &mut Vec<(Tag, Text)>) -> Result<(), Memory>
    requires place { place < length props.now }
    requires so_far { list.old.items ≡ take place props.now }
    ensures { OnOk result (list.new.items ≡ take (place + 1) props.now) }
{
    let (name, value) = props.at(place);
    let value = value.share()?;
    push_prop(list, (name, value))?;
    Ok(())
}

fn push_prop(list: &mut Vec<(Tag, Text)>, prop: (Tag, Text)) -> Result<(), Memory>
    ensures { OnOk result (list.new.items ≡ list.old.items ++ prop ∷ []) }
{
    list.push(prop)?;
    Ok(())
}

/// The names with their values.
fn prop_texts(alloc: Global, props: &Props) -> Result<PropTexts, Memory>
    ensures { IfOk result (λ texts. texts ≡ props.now) }
{
    let mut list = Vec::new(alloc);
    for place in 0..props.len() {
        add_prop(props, place, &mut list)?;
    }
    Ok(PropTexts { list })
}

fn add_owner(owners: Owners, number: u8, list: &mut Vec<SeatNo>) -> Result<(), Memory>
    requires number { number ≤ 32 }
    ensures { OnOk result (list.new.items ≡ list.old.items ++ (if has_owner owners number then number ∷ [] else [])) }
{
    let Some(seat) = SeatNo::new(number) else {
        unreachable!();
    };
    if owners.has(seat) {
        list.push(seat)?;
        Ok(())
    } else {
        Ok(())
    }
}

/// The owners, ascending.
fn owner_numbers(alloc: Global, owners: Owners) -> Result<SeatNos, Memory>
    ensures { IfOk result (λ seats. seats ≡ seats_of owners) }
{
    // Most tokens have none, which needs no look at each seat.
    if owners == Owners::none() {
        return Ok(no_owners(alloc));
    }
    all_owners(alloc, owners)
}

fn no_owners(alloc: Global) -> SeatNos
    ensures { result ≡ seats_of 0 }
{
    SeatNos {
        list: Vec::new(alloc),
    }
}

#[tactic(auto, using(crate::proofs::ListLemmas::filter_range_next))]
fn all_owners(alloc: Global, owners: Owners) -> Result<SeatNos, Memory>
    ensures { IfOk result (λ seats. seats ≡ seats_of owners) }
{
    let mut list = Vec::new(alloc);
    for number in 0..33 {
        add_owner(owners, number, &mut list)?;
    }
    Ok(SeatNos { list })
}

fn owned_part(alloc: Global, token: &Token) -> Result<OwnedPart, Memory>
    ensures { IfOk result (λ part. part ≡ owned_part token.now) }
{
    Ok(OwnedPart {
        sight: token.sight,
        light: token.light,
        own: prop_texts(alloc, &token.own)?,
    })
}

fn gm_part(alloc: Global, token: &Token) -> Result<GmPart, Memory>
    ensures { IfOk result (λ part. part ≡ gm_part token.now) }
{
    Ok(GmPart {
        owners: owner_numbers(alloc, token.owners)?,
        secret: prop_texts(alloc, &token.secret)?,
        visible: token.visible,
    })
}

fn owned_if(alloc: Global, acts: bool, token: &Token) -> Result<Option<OwnedPart>, Memory>
    ensures { IfOk result (λ part. part ≡ (if acts then Some (owned_part token.now) else None)) }
{
    if acts {
        Ok(Some(owned_part(alloc, token)?))
    } else {
        Ok(None)
    }
}

fn whole_if(alloc: Global, gm: bool, token: &Token) -> Result<Option<GmPart>, Memory>
    ensures { IfOk result (λ part. part ≡ (if gm then Some (gm_part token.now) else None)) }
{
    if gm {
        Ok(Some(gm_part(alloc, token)?))
    } else {
        Ok(None)
    }
}

/// The token as the seat is shown it.
fn token_view(
    alloc: Global,
    scene: &Scene,
    seat: SeatNo,
    token: &Token,
) -> Result<TokenView, Memory>
    ensures { IfOk result (λ view. view ≡ token_view scene.now seat token.now) }
{
    Ok(TokenView {
        id: token.id,
        name: token.name.share()?,
        map: token.map,
        cell: token.cell,
        size: token.size,
        layer: token.layer,
        props: prop_texts(alloc, &token.public)?,
        owned: owned_if(alloc, acts_on(scene, seat, token), token)?,
        whole: whole_if(alloc, is_gm(seat), token)?,
    })
}

/// Whether the cell is on the map of the set, and in it.
fn is_in(cells: &CellSet, x: u16, y: u16) -> bool
    ensures { result ≡ is_in cells.now x y }
{
    let size = cells.size();
    x < u16::from(size.w())
        && y < u16::from(size.h())
        && cells.has(Cell {
            x: x as u8,
            y: y as u8,
        })
}

#[tactic(auto, using(crate::proofs::ListLemmas::range_steps))]
fn touches_column(cells: &CellSet, x: u16, top: u8, size: u8) -> bool
    ensures { result ≡ list_any (λ y. is_in cells.now x y) (range_with_len top size) }
{
    let bottom = u16::from(top) + u16::from(size);
    for y in u16::from(top)..bottom {
        if is_in(cells, x, y) {
            return true;
        }
    }
    false
}

/// Whether the token covers a cell of the set.
#[tactic(auto, using(crate::proofs::ListLemmas::range_steps))]
fn touches(token: &Token, cells: &CellSet) -> bool
    ensures { result ≡ touches token.now cells.now }
{
    let right = u16::from(token.cell.x) + u16::from(token.size);
    for x in u16::from(token.cell.x)..right {
        if touches_column(cells, x, token.cell.y, token.size) {
            return true;
        }
    }
    false
}

fn is_open_by(token: &Token, view: &MapView) -> bool
    ensures { result ≡ is_open_by token.now.layer token.now view.now }
{
    match token.layer {
        Layer::Token => touches(token, &view.seen),
        Layer::Hidden => false,
        Layer::Object => touches(token, &view.exposed),
        Layer::Background => touches(token, &view.exposed),
    }
}

fn is_open_in(token: &Token, views: &MapViews) -> bool
    ensures { result ≡ is_open_in token.now (find (λ view. bytes_eq view.name token.now.map) views.now) }
{
    match find_view(views.list.as_slice(), token.map) {
        Some(view) => is_open_by(token, view),
        None => false,
    }
}

/// Whether the seat, with these maps in its view, is shown the token.
fn has_token(scene: &Scene, seat: SeatNo, token: &Token, views: &MapViews) -> bool
    requires { views.now ≡ map (map_view scene.now seat) (filter (has_map seat) scene.now.maps) }
    ensures { result ≡ has_token scene.now seat token.now }
{
    if is_gm(seat) {
        return true;
    }
    // The table tells with its length that no name of a map is there twice.
    let _count = scene.maps().len();
    passes_has_token(scene, seat, token, views)
}

fn passes_has_token(scene: &Scene, seat: SeatNo, token: &Token, views: &MapViews) -> bool
    ensures { result ≡ (owns scene.now seat token.now || (token.now.visible && is_open_in token.now
        (find (λ view. bytes_eq view.name token.now.map) views.now))) }
{
    owns(scene, seat, token) || token.visible && is_open_in(token, views)
}

fn add_token(
    alloc: Global,
    scene: &Scene,
    seat: SeatNo,
    place: usize,
    views: &MapViews,
    list: &mut Vec<TokenView>,
) -> Result<(), Memory>
    requires place { place < length scene.now.tokens }
    requires views { views.now ≡ map (map_view scene.now seat) (filter (has_map seat) scene.now.maps) }
    requires so_far { list.old.items ≡ map (token_view scene.now seat) (filter (has_token scene.now seat) (take place scene.now.tokens)) }
    ensures { OnOk result (list.new.items ≡ map (token_view scene.now seat)
        (filter (has_token scene.now seat) (take (place + 1) scene.now.tokens))) }
{
    let token = token_at(scene, place);
    if !has_token(scene, seat, token, views) {
        return Ok(());
    }
    let view = token_view(alloc, scene, seat, token)?;
    push_token(list, view)?;
    Ok(())
}

fn push_token(list: &mut Vec<TokenView>, view: TokenView) -> Result<(), Memory>
    ensures { OnOk result (list.new.items ≡ list.old.items ++ view ∷ []) }
{
    list.push(view)?;
    Ok(())
}

/// The tokens that the seat, with these maps in its view, is shown.
pub(crate) fn token_views(
    alloc: Global,
    scene: &Scene,
    seat: SeatNo,
    views: &MapViews,
) -> Result<TokenViews, Memory>
    requires { views.now ≡ map (map_view scene.now seat) (filter (has_map seat) scene.now.maps) }
    ensures { IfOk result (λ tokens. tokens ≡ map (token_view scene.now seat) (filter (has_token scene.now seat) scene.now.tokens)) }
{
    let mut list = room_for(alloc, scene.tokens().len())?;
    for place in 0..scene.tokens().len() {
        add_token(alloc, scene, seat, place, views, &mut list)?;
    }
    Ok(TokenViews { list })
}
