//! What is exposed to the seats.
ghost use Rattle.std.specs.Prelude.{◌≡◌, ◌<◌, true, Some, IfOk, OnOk, codes};
ghost use Rattle.serde_json.specs.View.{view, items_view, members_view};
ghost use Rattle.json_fields.specs.Objects.{Gives};
ghost use Rattle.world.specs.Rules.{is_player as is_player_lem};
ghost use Rattle.campaign_json.specs.Reading.{Fails, under, each, each_member};
ghost use Rattle.campaign_scene.specs.Kept.{kept};
ghost use Rattle.campaign_scene.specs.Fog.{run_from, run_on as run_on_lem, exposed_at as exposed_at_lem, run as run_lem, run_numbers as run_numbers_lem, fog_of_map as fog_of_map_lem, fog_of_player as fog_of_player_lem, no_fog as no_fog_lem, fog as fog_lem};

use campaign_json::fields::{self, check_count};
use campaign_json::kinds::{self, up_to};
use campaign_json::{FileFault, Rule, broken};
use cells::{Rect, Size};
use names::{SeatNo, Tag};
use serde_json::{Map, Value};
use std::alloc::Global;
use world::Scene;

/// The scene with what is exposed to the seat.
pub fn read_fog(
    alloc: Global,
    seat: SeatNo,
    value: &Value,
    mut scene: Scene,
) -> Result<Scene, FileFault>
    ensures exact { Gives Fails (λ s. s) result (fog_lem seat scene (view value.now)) }
    ensures kept { IfOk result (λ s. kept s ≡ kept scene) }
{
    add_fog(alloc, seat, value, &mut scene)?;
    Ok(scene)
}

#[tactic(auto, unfolding(crate::specs::Fog::fog))]
fn add_fog(alloc: Global, seat: SeatNo, value: &Value, scene: &mut Scene) -> Result<(), FileFault>
    ensures exact { Gives Fails (λ u. scene.new) result (fog_lem seat scene.old (view value.now)) }
    ensures kept { OnOk result (kept scene.new ≡ kept scene.old) }
{
    if is_player(scene, seat) {
        fog_of_player(alloc, seat, value, scene)
    } else {
        no_fog(alloc, value, scene)
    }
}

fn is_player(scene: &Scene, seat: SeatNo) -> bool
    ensures { result ≡ is_player_lem scene.now.fog.players seat }
{
    1 <= seat.number() && seat.number() <= scene.fog().players()
}

#[tactic(auto, unfolding(crate::specs::Fog::no_fog))]
fn no_fog(alloc: Global, value: &Value, scene: &mut Scene) -> Result<(), FileFault>
    ensures exact { Gives Fails (λ u. scene.new) result (no_fog_lem scene.old (view value.now)) }
    ensures kept { OnOk result (kept scene.new ≡ kept scene.old) }
{
    fields::members(alloc, value, "fog", 0)?;
    Ok(())
}

#[tactic(auto, unfolding(crate::specs::Fog::fog_of_player))]
fn fog_of_player(
    alloc: Global,
    seat: SeatNo,
    value: &Value,
    scene: &mut Scene,
) -> Result<(), FileFault>
    requires { is_player_lem scene.old.fog.players seat ≡ true }
    ensures exact { Gives Fails (λ u. scene.new) result (fog_of_player_lem seat scene.old (view value.now)) }
    ensures kept { OnOk result (kept scene.new ≡ kept scene.old) }
{
    let members = fields::entries(alloc, value, "fog")?;
    each_map(alloc, seat, members, scene)
}

fn each_map(
    alloc: Global,
    seat: SeatNo,
    members: &Map<String, Value>,
    scene: &mut Scene,
) -> Result<(), FileFault>
    requires { is_player_lem scene.old.fog.players seat ≡ true }
    ensures exact { Gives Fails (λ u. scene.new) result
        (under (codes "fog") (each_member (fog_of_map_lem seat) scene.old (members_view members.now.entries))) }
    ensures kept { OnOk result (kept scene.new ≡ kept scene.old) }
{
    for (key, value) in members {
        match fog_of_map(alloc, seat, key.as_str(), value, scene) {
            Ok(()) => {}
            Err(fault) => return Err(fault.under_member(alloc, "fog", key.as_str())),
        }
    }
    Ok(())
}

#[tactic(auto, unfolding(crate::specs::Fog::fog_of_map))]
fn fog_of_map(
    alloc: Global,
    seat: SeatNo,
    key: &str,
    value: &Value,
    scene: &mut Scene,
) -> Result<(), FileFault>
    requires { is_player_lem scene.old.fog.players seat ≡ true }
    ensures exact { Gives Fails (λ u. scene.new) result (fog_of_map_lem seat key.now scene.old (view value.now)) }
    ensures kept { OnOk result (kept scene.new ≡ kept scene.old) }
{
    let Ok(name) = Tag::read(key.as_bytes()) else {
        return Err(broken(alloc, Rule::Cross));
    };
    if scene.maps().get(name).is_none() {
        return Err(broken(alloc, Rule::Cross));
    }
    match kinds::items(value) {
        Ok(values) => each_run(alloc, seat, name, values, scene),
        Err(rule) => Err(broken(alloc, rule)),
    }
}

fn each_run(
    alloc: Global,
    seat: SeatNo,
    name: Tag,
    values: &[Value],
    scene: &mut Scene,
) -> Result<(), FileFault>
    requires { is_player_lem scene.old.fog.players seat ≡ true }
    ensures exact { Gives Fails (λ u. scene.new) result
        (each (λ place. run_lem seat name) 0 scene.old (items_view values.now)) }
    ensures kept { OnOk result (kept scene.new ≡ kept scene.old) }
{
    for (place, value) in values.iter().enumerate() {
        match read_run(alloc, seat, name, value, scene) {
            Ok(()) => {}
            Err(fault) => return Err(fault.under_place(alloc, place)),
        }
    }
    Ok(())
}

#[tactic(auto, unfolding(crate::specs::Fog::run))]
fn read_run(
    alloc: Global,
    seat: SeatNo,
    name: Tag,
    value: &Value,
    scene: &mut Scene,
) -> Result<(), FileFault>
    requires { is_player_lem scene.old.fog.players seat ≡ true }
    ensures exact { Gives Fails (λ u. scene.new) result (run_lem seat name scene.old (view value.now)) }
    ensures kept { OnOk result (kept scene.new ≡ kept scene.old) }
{
    let run = run_numbers(alloc, value)?;
    expose_run(alloc, seat, name, run, scene)
}

/// The row of a run, its first column and its last.
#[tactic(auto, unfolding(crate::specs::Fog::run_numbers))]
fn run_numbers(alloc: Global, value: &Value) -> Result<(i64, i64, i64), FileFault>
    ensures { Gives Fails (λ n. (n.0, (n.1, n.2))) result (run_numbers_lem (view value.now)) }
{
    check_count(alloc, value, 3)?;
    let y = fields::integer_item(alloc, value, 0)?;
    let x0 = fields::integer_item(alloc, value, 1)?;
    let x1 = fields::integer_item(alloc, value, 2)?;
    Ok((y, x0, x1))
}

/// Exposes a row's cells from one column to another to the player.
#[tactic(auto, unfolding(crate::specs::Fog::exposed_at))]
fn expose_run(
    alloc: Global,
    seat: SeatNo,
    name: Tag,
    run: (i64, i64, i64),
    scene: &mut Scene,
) -> Result<(), FileFault>
    requires { is_player_lem scene.old.fog.players seat ≡ true }
    ensures exact { Gives Fails (λ u. scene.new) result (exposed_at_lem seat name run.0 run.1 run.2 scene.old) }
    ensures kept { OnOk result (kept scene.new ≡ kept scene.old) }
{
    let Some(grid) = scene.maps().get(name) else {
        return Err(broken(alloc, Rule::Cross));
    };
    let Some(rect) = run_on(grid.size(), run.0, run.1, run.2) else {
        return Err(broken(alloc, Rule::Cross));
    };
    scene.expose(seat, name, rect);
    Ok(())
}

/// The cells of row `y` from column `x0` to column `x1` of a map of that size.
#[tactic(auto, unfolding(crate::specs::Fog::run_on))]
fn run_on(size: Size, y: i64, x0: i64, x1: i64) -> Option<Rect>
    ensures { result ≡ run_on_lem size y x0 x1 }
{
    let y = up_to(y, size.h() - 1)?;
    let x0 = up_to(x0, size.w() - 1)?;
    let x1 = up_to(x1, size.w() - 1)?;
    run_rect(y, x0, x1)
}

/// The cells of row `y` from column `x0` to column `x1`, which is below 96.
fn run_rect(y: u8, x0: u8, x1: u8) -> Option<Rect>
    requires { x1 < 96 }
    ensures { result ≡ run_from (Some y) (Some x0) (Some x1) }
{
    if x0 > x1 {
        return None;
    }
    Some(Rect {
        x: x0,
        y,
        w: x1 + 1 - x0,
        h: 1,
    })
}
