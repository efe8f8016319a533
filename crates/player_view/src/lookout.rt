//! What is found of a map once for all its players.
ghost use Rattle.std.specs.Prelude.{◌≡◌, ◌<◌, ◌≤◌, ◌+◌, ◌++◌, ◌∷◌, [], Some, None, IfOk, OnOk, take, length};
ghost use Rattle.std.specs.List.{filter_map};
ghost use Rattle.player_view.specs.Lookouts.{IsLookout, places_among};
ghost use Rattle.player_view.specs.Sight.{lamp_on, lamp_with, lamps_on, named_type};

use crate::reads::{is_hidden, radius_of, token_at};
use names::{Memory, Tag};
use std::alloc::Global;
use tokens::Token;
use vision::Lamp;
use world::Scene;

/// What is found of the map of a name once for all its players: its lamps, and the places of the tokens that stand on it.
#[derive(Drop)]
pub struct Lookout {
    pub name: Tag,
    pub lamps: Vec<Lamp>,
    pub places: Vec<usize>,
}

/// The lamp that the token is on the map of that name, if it is one.
fn lamp_on(scene: &Scene, name: Tag, token: &Token) -> Option<Lamp>
    requires column { token.now.cell.x + token.now.size ≤ 96 }
    requires row { token.now.cell.y + token.now.size ≤ 96 }
    ensures { result ≡ lamp_on scene.now name token.now }
{
    // Most tokens have no light, which is known without a look at names.
    if token.light.is_none() {
        return None;
    }
    if !is_hidden(token.layer) && name == token.map {
        lamp_with(scene, token)
    } else {
        None
    }
}

fn lamp_with(scene: &Scene, token: &Token) -> Option<Lamp>
    requires column { token.now.cell.x + token.now.size ≤ 96 }
    requires row { token.now.cell.y + token.now.size ≤ 96 }
    ensures { result ≡ lamp_with token.now (named_type scene.now.lights token.now.light) }
{
    match radius_of(scene, token) {
        None => None,
        Some(radius) => Some(Lamp {
            id: token.id,
            eye: token.eye(),
            radius: radius.unsigned_abs(),
            dark: radius < 0,
        }),
    }
}

fn add_lamp(scene: &Scene, name: Tag, place: usize, lamps: &mut Vec<Lamp>) -> Result<(), Memory>
    requires place { place < length scene.now.tokens }
    requires so_far { lamps.old.items ≡ filter_map (lamp_on scene.now name) (take place scene.now.tokens) }
    ensures { OnOk result (lamps.new.items ≡ filter_map (lamp_on scene.now name) (take (place + 1) scene.now.tokens)) }
{
    match lamp_on(scene, name, token_at(scene, place)) {
        None => Ok(()),
        Some(lamp) => {
            push_lamp(lamps, lamp)?;
            Ok(())
        }
    }
}

fn push_lamp(lamps: &mut Vec<Lamp>, lamp: Lamp) -> Result<(), Memory>
    ensures { OnOk result (lamps.new.items ≡ lamps.old.items ++ lamp ∷ []) }
{
    lamps.push(lamp)?;
    Ok(())
}

/// The lamps on the map of that name.
fn lamps_on(alloc: Global, scene: &Scene, name: Tag) -> Result<Vec<Lamp>, Memory>
    ensures value { IfOk result (λ lamps. lamps.items ≡ lamps_on scene.now name) }
{
    let mut lamps = Vec::new(alloc);
    for place in 0..scene.tokens().len() {
        add_lamp(scene, name, place, &mut lamps)?;
    }
    Ok(lamps)
}

fn add_place(scene: &Scene, name: Tag, place: usize, places: &mut Vec<usize>) -> Result<(), Memory>
    requires place { place < length scene.now.tokens }
    requires so_far { places.old.items ≡ places_among scene.now name place }
    ensures { OnOk result (places.new.items ≡ places_among scene.now name (place + 1)) }
{
    if name == token_at(scene, place).map {
        push_place(places, place)?;
    }
    Ok(())
}

fn push_place(places: &mut Vec<usize>, place: usize) -> Result<(), Memory>
    ensures { OnOk result (places.new.items ≡ places.old.items ++ place ∷ []) }
{
    places.push(place)?;
    Ok(())
}

/// The places of the tokens that stand on the map of that name.
fn places_on(alloc: Global, scene: &Scene, name: Tag) -> Result<Vec<usize>, Memory>
    ensures value { IfOk result (λ places. places.items ≡ places_among scene.now name (length scene.now.tokens)) }
{
    let mut places = Vec::new(alloc);
    for place in 0..scene.tokens().len() {
        add_place(scene, name, place, &mut places)?;
    }
    Ok(places)
}

/// What is found once of the map of that name.
pub fn lookout_on(alloc: Global, scene: &Scene, name: Tag) -> Result<Lookout, Memory>
    ensures value { IfOk result (IsLookout scene.now) }
    ensures name { IfOk result (λ lookout. lookout.name ≡ name) }
{
    let lamps = lamps_on(alloc, scene, name)?;
    let places = places_on(alloc, scene, name)?;
    Ok(Lookout {
        name,
        lamps,
        places,
    })
}
