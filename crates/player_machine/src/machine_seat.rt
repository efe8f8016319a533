//! A machine's seat.
ghost use Rattle.std.specs.Prelude.{◌≡◌, IfOk, unwrap_or};
ghost use Rattle.campaign_law.specs.Seat.{fresh_seat, settled as settled_lem, taken_to};

use entry_outcomes::is_let_go;
use names::Memory;
use seats::SeatBook;
use std::cmp::{max, min};
use std::marker::Model;

/// A seat: its book, how many lines were queued for it since its Join, and how many of them were taken.
#[derive(Drop)]
pub(crate) struct MachineSeat {
    pub(crate) book: SeatBook,
    pub(crate) queued: u64,
    pub(crate) taken: u64,
}

impl Model for MachineSeat {
    ghost use Rattle.campaign_law.specs.Seat.{Seat};

    ghost Value = { Seat };

    ghost view = { λ s. record { book = s.book; queued = s.queued; taken = s.taken } };
}

impl MachineSeat {
    /// The seat of this book, for which nothing was queued.
    pub(crate) fn fresh(book: SeatBook) -> MachineSeat
        ensures { result ≡ fresh_seat book }
    {
        MachineSeat {
            book,
            queued: 0,
            taken: 0,
        }
    }

    /// The same seat once more.
    pub(crate) fn copy(&self) -> Result<MachineSeat, Memory>
        ensures { IfOk result (λ s. s ≡ self.now) }
    {
        Ok(MachineSeat {
            book: self.book.copy()?,
            queued: self.queued,
            taken: self.taken,
        })
    }

    /// The seat with this book, if there is one, once so many of its lines were taken, as far as they were queued.
    pub(crate) fn changed(&self, book: Option<SeatBook>, taken: u64) -> Result<MachineSeat, Memory>
        ensures { IfOk result (λ s. s ≡ record self.now {
          book = unwrap_or book self.now.book;
          taken = taken_to taken self.now.queued self.now.taken;
        }) }
    {
        let book = match book {
            Some(book) => book,
            None => self.book.copy()?,
        };
        Ok(MachineSeat {
            book,
            queued: self.queued,
            taken: max(self.taken, min(taken, self.queued)),
        })
    }

    /// The seat once so many further lines are queued. `Memory` also where they can't be counted.
    pub(crate) fn settled(mut self, more: u64) -> Result<MachineSeat, Memory>
        ensures { IfOk result (λ s. s ≡ settled_lem more self) }
    {
        let Some(queued) = self.queued.checked_add(more) else {
            return Err(Memory);
        };
        self.queued = queued;
        if is_let_go(self.book.state(), queued, self.taken) {
            self.book.free();
            self.queued = 0;
            self.taken = 0;
        }
        Ok(self)
    }
}
