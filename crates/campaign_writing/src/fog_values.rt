//! What is exposed to a seat, as a value of the campaign text.
ghost use Rattle.std.specs.Prelude.{◌≡◌, map, IfOk, IsTrue};
ghost use Rattle.serde_json.specs.View.{view};
ghost use Rattle.cells.specs.Runs.{runs_of};
ghost use Rattle.campaign_writing.specs.Scenes.{fog_tree, run_tree};
ghost use Rattle.world.specs.Rules.{IsScene, is_player as is_player_lem};

use crate::values::put_named;
use cells::{CellSet, Run};
use names::SeatNo;
use serde_json::{Map, Value, json};
use std::alloc::{AllocError, Global};
use world::Scene;

fn run(alloc: Global, run: Run) -> Result<Value, AllocError>
    ensures { IfOk result (λ v. view v ≡ run_tree run) }
{
    json!(in alloc; [run.y, run.x0, run.x1])
}

/// The maximal runs of the cells.
fn runs(alloc: Global, cells: &CellSet) -> Result<Vec<Value>, AllocError>
    ensures { IfOk result (λ vs. map view vs.items ≡ map run_tree (runs_of cells.now)) }
{
    let mut list = Vec::new(alloc);
    for one in cells.runs() {
        list.push(run(alloc, one)?)?;
    }
    Ok(list)
}

/// What is exposed to a player: runs under the names of the maps with exposed cells.
fn fog_of_player(alloc: Global, scene: &Scene, seat: SeatNo) -> Result<Value, AllocError>
    requires { IsTrue (is_player_lem scene.now.fog.players seat) }
    ensures { IfOk result (λ v. view v ≡ fog_tree scene.now seat) }
{
    let mut members = Map::new(alloc);
    for place in 0..scene.maps().len() {
        let name = scene.maps().at(place).name();
        let list = runs(alloc, scene.fog().exposed(seat, name))?;
        if !list.is_empty() {
            put_named(&mut members, alloc, name, Value::Array(list))?;
        }
    }
    Ok(Value::Object(members))
}

/// Whether the seat is one of the scene's players.
fn is_player(scene: &Scene, seat: SeatNo) -> bool
    ensures value { result ≡ is_player_lem scene.now.fog.players seat }
    ensures fitting { IsScene scene.now }
{
    let players = scene.fog().players();
    1 <= seat.number() && seat.number() <= players
}

/// What is exposed to a seat: nothing to one that is no player.
pub(crate) fn fog_value(alloc: Global, scene: &Scene, seat: SeatNo) -> Result<Value, AllocError>
    ensures { IfOk result (λ v. view v ≡ fog_tree scene.now seat) }
{
    if is_player(scene, seat) {
        fog_of_player(alloc, scene, seat)
    } else {
        Ok(Value::Object(Map::new(alloc)))
    }
}
