//! The way of a move.
ghost use Rattle.std.specs.Prelude.{◌≡◌, ◌-◌, ◌∷◌, ◌++◌, [], map, take, Some, IfOk, OnOk, true};
ghost use Rattle.std.specs.List.{list_all};
ghost use Rattle.maps.specs.Maps.{map_of};
ghost use Rattle.world.specs.Rules.{fits};
ghost use Rattle.command_rules.specs.Places.{fits_at as fits_at_lem, cell_at as cell_at_lem};
ghost use Rattle.command_effects.specs.Allowed.{IsAllowed, MayMove};
ghost use Rattle.command_effects.specs.Effects.{own_token};
ghost use Rattle.command_effects.specs.Way.{IsWay, way_by as way_by_lem, way_of as way_of_lem};

use crate::effects::{cell_after, told};
use cells::{Cell, Size};
use command_json::{CellPath, Command};
use command_rules::cell_at;
use names::{Memory, SeatNo, Tag, TokenId};
use player_view::mine;
use std::alloc::Global;
use world::Scene;

/// The way of a token on a map that has a trail: the cells to which its steps led, all but the last.
#[derive(Drop)]
pub struct Way {
    /// The token that moves.
    pub id: TokenId,
    /// The map on which it moves.
    pub map: Tag,
    /// The cells to which its steps led, in their order, all but the last.
    pub cells: Vec<Cell>,
    /// The cell where it ends.
    pub last: Cell,
}

fn push_cell(cells: &mut Vec<Cell>, cell: Cell) -> Result<(), Memory>
    ensures { OnOk result (cells.new.items ≡ cells.old.items ++ cell ∷ []) }
{
    match cells.push(cell) {
        Ok(()) => Ok(()),
        Err(_) => Err(Memory),
    }
}

/// The cells to which the first of so many steps lead, all but the last.
fn passed_cells(
    alloc: Global,
    size: Size,
    side: u8,
    path: &[(i32, i32)],
    steps: u32,
) -> Result<Vec<Cell>, Memory>
    requires { list_all (fits_at_lem size side) path.now ≡ true }
    ensures { IfOk result (λ v. v.items ≡ map cell_at_lem (take (steps - 1) path.now)) }
{
    let mut cells = Vec::new(alloc);
    let mut left = steps.saturating_sub(1);
    for place in path {
        if left == 0 {
            return Ok(cells);
        }
        push_cell(&mut cells, cell_at(size, side, *place))?;
        left -= 1;
    }
    Ok(cells)
}

fn way_by(
    alloc: Global,
    scene: &Scene,
    seat: SeatNo,
    id: &TokenId,
    path: &CellPath,
    steps: u32,
) -> Result<Option<Way>, Memory>
    requires { MayMove scene.now seat id.now path.now }
    ensures { IfOk result (IsWay scene.now (way_by_lem scene.now steps id.now path.now (own_token scene.now seat id.now))) }
{
    let Some(token) = mine(scene, seat, *id) else {
        unreachable!();
    };
    let Some(map) = scene.maps().get(token.map) else {
        unreachable!();
    };
    if !map.trail() {
        return Ok(None);
    }
    let size = map.size();
    let cells = passed_cells(alloc, size, token.size, path.cells(), steps)?;
    Ok(Some(Way {
        id: *id,
        map: token.map,
        cells,
        last: cell_after(size, token.size, token.cell, path.cells(), steps),
    }))
}

/// The way that an accepted command takes by so many steps; none, where it is no move, or its map has no trail.
#[tactic(auto, unfolding(crate::specs::Way::way_of))]
pub fn way_of(
    alloc: Global,
    scene: &Scene,
    seat: SeatNo,
    command: &Command,
    steps: u32,
) -> Result<Option<Way>, Memory>
    requires { IsAllowed scene.now seat command.now }
    ensures { IfOk result (IsWay scene.now (way_of_lem steps seat scene.now (Some command.now))) }
{
    let _told = told(scene);
    match command {
        Command::Move { token, path } => way_by(alloc, scene, seat, token, path, steps),
        _ => Ok(None),
    }
}
