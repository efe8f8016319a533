//! How a script was played and logged.
ghost use Rattle.std.specs.Prelude.{◌≡◌};
ghost use Rattle.log_play.specs.Logged.{logged_by as logged_by_lem};

use script_play::Played;

/// How a script was played and logged.
#[derive(Clone, Copy, Debug, PartialEq, Eq)]
pub enum Logged {
    /// The script was read to its end, and all its lines entered.
    Done,
    /// The script failed, and counted it.
    ReadFault,
    /// The sink failed, and counted it.
    WriteFault,
    /// The line of this number, from 1, isn't a seat's number, one space and a command of at most 4,096
    /// bytes, or the campaign has no such seat.
    BadLine(u64),
    /// A line has more than `LINE_BYTES` bytes, or there are more than `LINE_LIMIT` lines.
    TooLarge,
    /// The disk failed, and counted it. The log is recovered again before it takes an entry.
    DiskFault,
    /// The log can't take the next entry.
    Full,
    /// Want of memory.
    Memory,
}

/// What playing a script without a log answers, as an answer with one.
pub(crate) fn logged_by(played: Played) -> Logged
    ensures { result ≡ logged_by_lem played }
{
    match played {
        Played::Done => Logged::Done,
        Played::ReadFault => Logged::ReadFault,
        Played::WriteFault => Logged::WriteFault,
        Played::BadLine(number) => Logged::BadLine(number),
        Played::TooLarge => Logged::TooLarge,
        Played::Memory => Logged::Memory,
    }
}
