//! The states of a seat, and why one can't be taken.
ghost use Rattle.std.specs.Prelude.{◌≡◌};
ghost use Rattle.seats.specs.SeatState.{closed as closed_lem, is_closing as is_closing_lem, is_free as is_free_lem, is_joined as is_joined_lem};

/// Whether a session sits in a seat. The two numbers are those of the passes that the session reads
/// and writes by.
#[derive(Clone, Copy, Debug, PartialEq, Eq)]
pub enum SeatState {
    /// Nobody sits in it.
    Free,
    /// A session sits in it, and its lines are read.
    Joined { reader: u64, writer: u64 },
    /// Its lines are no longer read; it is freed once no line waits for the session.
    Closing { reader: u64, writer: u64 },
}

impl SeatState {
    pub fn is_free(self) -> bool
        ensures { result ≡ is_free_lem self }
    {
        matches!(self, SeatState::Free)
    }

    pub fn is_joined(self) -> bool
        ensures { result ≡ is_joined_lem self }
    {
        matches!(self, SeatState::Joined { .. })
    }

    pub fn is_closing(self) -> bool
        ensures { result ≡ is_closing_lem self }
    {
        matches!(self, SeatState::Closing { .. })
    }

    /// The state once the seat's lines are no longer read: a Joined seat becomes Closing.
    pub fn closed(self) -> SeatState
        ensures { result ≡ closed_lem self }
    {
        match self {
            SeatState::Joined { reader, writer } => SeatState::Closing { reader, writer },
            SeatState::Free | SeatState::Closing { .. } => self,
        }
    }
}

/// Why a session can't join a seat, in the order in which the causes are asked.
#[derive(Clone, Copy, Debug, PartialEq, Eq)]
pub enum JoinRefusal {
    /// The key isn't the seat's, or there is no such seat.
    BadKey,
    /// The seat isn't Free.
    SeatTaken,
    /// The seat has had all its lines.
    Spent,
    /// What was to be a join is none.
    NoHello,
}
