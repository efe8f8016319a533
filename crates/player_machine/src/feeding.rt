//! What each item of a trace makes of a machine.
ghost use Rattle.std.specs.Prelude.{◌≡◌, ◌++◌, ◌∷◌, [], false, All, IfOk, OnOk, OnErr, map, option_map};
ghost use Rattle.campaign_law.specs.Feeding.{MayFeed};
ghost use Rattle.campaign_law.specs.Player.{after, message, printed, view};
ghost use Rattle.campaign_law.specs.Seat.{settled as settled_lem};
ghost use Rattle.campaign_law.specs.World.{view_lines};
ghost use Rattle.player_machine.specs.Items.{item_of};
ghost use Rattle.view_change.specs.Views.{FitsAmong};

use crate::item::TraceItem;
use crate::lines::{add_line, ended};
use crate::machine::Machine;
use crate::machine_seat::MachineSeat;
use crate::own_entry::own_made;
use entry_outcomes::view_line;
use names::{LineText, Memory};
use std::alloc::Global;
use views::View;

/// What an item makes of a machine: the lines that it prints, without their LFs, its seat, and whether the full line is due.
#[derive(Drop)]
pub(crate) struct Made {
    pub(crate) lines: Vec<LineText>,
    pub(crate) seat: Option<MachineSeat>,
    pub(crate) due: bool,
}

/// The seat once so many further lines are queued.
fn settled(seat: &Option<MachineSeat>, more: u64) -> Result<Option<MachineSeat>, Memory>
    ensures { IfOk result (λ s. s ≡ option_map (settled_lem more) seat.now) }
{
    match seat {
        Some(seat) => Ok(Some(seat.copy()?.settled(more)?)),
        None => Ok(None),
    }
}

fn message_made(alloc: Global, machine: &Machine, line: &LineText) -> Result<Made, Memory>
    ensures lines { IfOk result (λ made. made.lines.items ≡ printed machine.now (message line.now)) }
    ensures seat { IfOk result (λ made. made.seat ≡ (after machine.now (message line.now)).seat) }
    ensures due { IfOk result (λ made. made.due ≡ machine.now.due) }
{
    let mut lines = Vec::new(alloc);
    add_line(&mut lines, LineText::copy(alloc, line.bytes())?)?;
    Ok(Made {
        lines,
        seat: settled(&machine.seat, 1)?,
        due: machine.due,
    })
}

/// The line on what the machine is shown: the full one where it is due, else that of the change, if there is one.
fn seen_lines(alloc: Global, machine: &Machine, seen: &View) -> Result<Vec<LineText>, Memory>
    requires { machine.now.due ≡ false → All (FitsAmong machine.now.last.maps) seen.now.maps }
    ensures { IfOk result (λ v. v.items ≡ view_lines machine.now.due machine.now.last seen.now) }
{
    let mut lines = Vec::new(alloc);
    if let Some(line) = view_line(alloc, machine.due, &machine.last, seen, false)? {
        add_line(&mut lines, line)?;
    }
    Ok(lines)
}

fn seen_made(alloc: Global, machine: &Machine, seen: &View) -> Result<Made, Memory>
    requires { machine.now.due ≡ false → All (FitsAmong machine.now.last.maps) seen.now.maps }
    ensures lines { IfOk result (λ made. made.lines.items ≡ printed machine.now (view seen.now)) }
    ensures seat { IfOk result (λ made. made.seat ≡ (after machine.now (view seen.now)).seat) }
    ensures due { IfOk result (λ made. made.due ≡ false) }
{
    let lines = seen_lines(alloc, machine, seen)?;
    let count = lines.len() as u64;
    Ok(Made {
        lines,
        seat: settled(&machine.seat, count)?,
        due: false,
    })
}

impl Machine {
    /// The machine becomes what was made of it, and the lines get their LFs.
    fn apply(&mut self, made: Made) -> Result<Vec<LineText>, Memory>
        ensures lines { IfOk result (λ v. v.items ≡ map (λ line. line ++ 10 ∷ []) made.lines.items) }
        ensures next { OnOk result (self.new ≡ record self.old { seat = made.seat; due = made.due }) }
        ensures unchanged { OnErr result (self.new ≡ self.old) }
    {
        let lines = ended(self.alloc, made.lines.as_slice())?;
        self.seat = made.seat;
        self.due = made.due;
        Ok(lines)
    }

    /// The lines that the machine prints at an item, in order, each with its LF.
    ///
    /// An own entry is one of the machine's seat, where it has one. The maps of a view that comes where no full line is due have the
    /// sizes of those of the same names in the last view. Every trace of a player is so (`campaign_law::traces_feed`).
    ///
    /// `Memory` is the one error: want of memory, or of a number for the lines that are queued. After it the machine is as before.
    pub fn feed(&mut self, item: &TraceItem) -> Result<Vec<LineText>, Memory>
        requires { MayFeed self.old (item_of item.now) }
        ensures lines { IfOk result (λ v. v.items ≡ map (λ line. line ++ 10 ∷ []) (printed self.old (item_of item.now))) }
        ensures next { OnOk result (self.new ≡ after self.old (item_of item.now)) }
        ensures unchanged { OnErr result (self.new ≡ self.old) }
    {
        match item {
            TraceItem::Own { entry, steps } => {
                let made = own_made(self.alloc, self, entry, *steps)?;
                self.apply(made)
            }
            TraceItem::Message(line) => {
                let made = message_made(self.alloc, self, line)?;
                self.apply(made)
            }
            TraceItem::Seen(seen) => {
                let made = seen_made(self.alloc, self, seen)?;
                let last = seen.copy()?;
                let lines = self.apply(made)?;
                self.last = last;
                Ok(lines)
            }
        }
    }
}
