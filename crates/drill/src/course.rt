//! The lines of a drill's script, one after the other.
ghost use Rattle.std.specs.Prelude.{◌≡◌, ◌+◌, ◌<◌, ◌≤◌, length, All, IfOk, OnOk};
ghost use Rattle.serde_json.specs.View.{view};
ghost use Rattle.drill.specs.Script.{IsOnMap, gm_line, line_after, move_line, player_line, step_from, stepped as stepped_lem};

use crate::commands::{move_to, place, roll, say, wall};
use crate::draws::Draws;
use cells::Cell;
use serde_json::Value;
use std::alloc::{AllocError, Global};
use std::marker::Model;

/// How far a script has come: the draws that are left, and the cells of the eight owned tokens.
#[derive(Drop)]
pub(crate) struct Course {
    draws: Draws,
    cells: Vec<Cell>,
}

impl Model for Course {
    ghost use Rattle.std.specs.Prelude.{◌≡◌, length, All};
    ghost use Rattle.drill.specs.Script.{Course, IsOnMap};

    ghost Value = { Course };

    ghost view = { λ c. record { number = c.draws.number; next = c.draws.next; cells = c.cells.items } };

    ghost invariant = { λ c. (length c.cells.items ≡ 8) × All IsOnMap c.cells.items };
}

impl Course {
    /// The draws from here on, and the cells of the eight owned tokens, each of a map of 96 by 96 cells.
    pub(crate) fn new(draws: Draws, cells: Vec<Cell>) -> Course
        requires count { length cells.items ≡ 8 }
        requires on { All IsOnMap cells.items }
        ensures { result ≡ record { number = draws.number; next = draws.next; cells = cells.items } }
    {
        Course { draws, cells }
    }

    /// The next line: a seat, and its command.
    #[tactic(auto, unfolding(crate::specs::Script::line_after))]
    pub(crate) fn line(&mut self, alloc: Global) -> Result<(u32, Value), AllocError>
        requires { self.old.next < 100000 }
        ensures seat { IfOk result (λ line. line.0 ≡ (line_after self.old).seat) }
        ensures command { IfOk result (λ line. view line.1 ≡ (line_after self.old).command) }
        ensures course { OnOk result (self.new ≡ (line_after self.old).course) }
        ensures few { IfOk result (λ line. line.0 < 5) }
    {
        let seat = self.draws.draw(5);
        let kind = self.draws.draw(4);
        let command = if seat == 0 {
            self.gm_command(alloc, kind)?
        } else {
            self.player_command(alloc, seat, kind)?
        };
        Ok((seat, command))
    }

    /// The game master's command of a kind.
    fn gm_command(&mut self, alloc: Global, kind: u32) -> Result<Value, AllocError>
        requires { self.old.next < 200000 }
        ensures command { IfOk result (λ v. view v ≡ (gm_line self.old kind).command) }
        ensures course { OnOk result (self.new ≡ (gm_line self.old kind).course) }
    {
        match kind {
            0 => {
                let number = 8 + self.draws.draw(32);
                let x = self.draws.draw(96);
                let y = self.draws.draw(96);
                place(alloc, number, x, y)
            }
            1 => {
                let x = self.draws.draw(191);
                let y = self.draws.draw(191);
                wall(alloc, x, y)
            }
            2 => say(alloc),
            _ => roll(alloc, "2d6", "gm"),
        }
    }

    /// A player's command of a kind.
    fn player_command(&mut self, alloc: Global, seat: u32, kind: u32) -> Result<Value, AllocError>
        requires near { self.old.next < 200000 }
        requires player { 1 ≤ seat }
        requires few { seat < 5 }
        ensures command { IfOk result (λ v. view v ≡ (player_line self.old seat kind).command) }
        ensures course { OnOk result (self.new ≡ (player_line self.old seat kind).course) }
    {
        match kind {
            2 => roll(alloc, "4d6k3", "self"),
            3 => say(alloc),
            _ => self.move_command(alloc, seat),
        }
    }

    /// A player moves one of its two tokens by a step.
    fn move_command(&mut self, alloc: Global, seat: u32) -> Result<Value, AllocError>
        requires near { self.old.next < 200000 }
        requires player { 1 ≤ seat }
        requires few { seat < 5 }
        ensures command { IfOk result (λ v. view v ≡ (move_line self.old seat).command) }
        ensures course { OnOk result (self.new ≡ (move_line self.old seat).course) }
    {
        let number = seat - 1 + 4 * self.draws.draw(2);
        let dx = self.draws.draw(3);
        let dy = self.draws.draw(3);
        let cell = step_from(self.cells[number as usize], dx, dy);
        self.cells[number as usize] = cell;
        move_to(alloc, number, cell)
    }
}

/// The cell after a step by two drawn parts.
fn step_from(cell: Cell, dx: u32, dy: u32) -> Cell
    requires { IsOnMap cell }
    ensures value { result ≡ step_from cell dx dy }
    ensures on { IsOnMap result }
{
    let dx = if dx == 1 && dy == 1 { 2 } else { dx };
    Cell {
        x: stepped(cell.x, dx),
        y: stepped(cell.y, dy),
    }
}

/// A part of a cell after a drawn part of a step: 0 is one back, 1 none, 2 one on. One that would leave the map is
/// negated.
fn stepped(at: u8, part: u32) -> u8
    requires { at < 96 }
    ensures value { result ≡ stepped_lem at part }
    ensures on { result < 96 }
{
    if part == 1 {
        at
    } else if part == 0 {
        if at == 0 { 1 } else { at - 1 }
    } else if at == 95 {
        94
    } else {
        at + 1
    }
}
