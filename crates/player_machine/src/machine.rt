//! The machine, and what it begins with.
ghost use Rattle.std.specs.Prelude.{◌≡◌, ◌≤◌, option_map};
ghost use Rattle.campaign_law.specs.Player.{started};
ghost use Rattle.campaign_law.specs.Seat.{fresh_seat};

use crate::machine_seat::MachineSeat;
use seats::SeatBook;
use std::alloc::Global;
use std::marker::Model;
use view_rules::no_view;
use views::View;

/// What a player may know before the game begins.
#[derive(Drop)]
pub struct Opening {
    /// The seat's book; none, where the campaign has no such seat.
    pub book: Option<SeatBook>,
    /// How many seats the campaign has, the game master's among them.
    pub seats: u8,
}

impl Model for Opening {
    ghost use Rattle.campaign_law.specs.Player.{Opening};

    ghost Value = { Opening };

    ghost view = { λ o. record { book = o.book; seats = o.seats } };
}

/// A player machine.
#[derive(Drop)]
pub struct Machine {
    pub(crate) alloc: Global,
    pub(crate) seat: Option<MachineSeat>,
    pub(crate) seats: u8,
    /// What it was last shown.
    pub(crate) last: View,
    /// The full line is due.
    pub(crate) due: bool,
}

impl Model for Machine {
    ghost use Rattle.std.specs.Prelude.{◌≤◌};
    ghost use Rattle.campaign_law.specs.Player.{Machine};

    ghost Value = { Machine };

    ghost view = { λ m. record { seat = m.seat; seats = m.seats; last = m.last; due = m.due } };

    ghost invariant = { λ m. m.seats ≤ 33 };
}

fn fresh(book: Option<SeatBook>) -> Option<MachineSeat>
    ensures { result ≡ option_map fresh_seat book }
{
    match book {
        Some(book) => Some(MachineSeat::fresh(book)),
        None => None,
    }
}

impl Machine {
    /// The machine that begins with this opening: nothing was queued, and it was shown nothing. A campaign has at most 33 seats.
    pub fn new(alloc: Global, opening: Opening) -> Machine
        requires { opening.seats ≤ 33 }
        ensures { result ≡ started opening }
    {
        let Opening { book, seats } = opening;
        Machine {
            alloc,
            seat: fresh(book),
            seats,
            last: no_view(alloc),
            due: false,
        }
    }
}
