use names::{LineText, SeatNo};

/// A step of a campaign's history.
#[derive(Drop)]
pub enum Entry {
    /// A try to take the seat. `reader` and `writer` are the pass numbers of a session.
    Join {
        seat: SeatNo,
        key: LineText,
        reader: u64,
        writer: u64,
    },
    /// A line of the seat, without its LF.
    Line {
        seat: SeatNo,
        bytes: LineText,
    },
    /// A Joined seat's lines are no longer read. With `drop` the lines that wait for a Joined or a
    /// Closing seat are dropped, and it becomes Free.
    Leave {
        seat: SeatNo,
        drop: bool,
    },
    /// The first `count` lines of the seat's session were taken and no longer wait.
    Taken {
        seat: SeatNo,
        count: u64,
    },
    /// A Joined seat's lines that wait are dropped, and it becomes Free. A seat in another state stays as it is.
    Cut {
        seat: SeatNo,
    },
}

impl Entry {
    ghost use Rattle.std.specs.Prelude.{◌≡◌};
    ghost use Rattle.campaign_law.specs.Outcome.{seat_of};

    /// The seat whose entry it is.
    pub fn seat(&self) -> SeatNo
        ensures { result ≡ seat_of self.now }
    {
        match self {
            Entry::Join { seat, .. } => *seat,
            Entry::Line { seat, .. } => *seat,
            Entry::Leave { seat, .. } => *seat,
            Entry::Taken { seat, .. } => *seat,
            Entry::Cut { seat } => *seat,
        }
    }
}
