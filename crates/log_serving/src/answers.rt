//! How an evening ended.
ghost use Rattle.std.specs.Prelude.{◌≡◌};
ghost use Rattle.log_serving.specs.Evening.{as_served as as_served_lem, ended_by as ended_by_lem, lacking as lacking_lem};

use crash_log::LogFault;
use serving::Served;

/// How an evening ended that was served with a log.
#[derive(Clone, Copy, Debug, PartialEq, Eq)]
pub enum LogServed {
    /// So many connections were served, or all up to the door's end, all was printed, and the log has the whole history.
    Done,
    /// The output failed, and counted it.
    WriteFault,
    /// The door failed, and counted it.
    DoorFault,
    /// Want of memory.
    Memory,
    /// The disk failed. The log has each entry of whose lines a byte was sent.
    DiskFault,
    /// The log can't take the next entry. It has each entry of whose lines a byte was sent.
    Full,
}

/// How it ended. What became of the log is told first.
pub(crate) fn ended_by(served: Served, settled: Result<(), LogFault>) -> LogServed
    ensures { result ≡ ended_by_lem served settled }
{
    match settled {
        Ok(()) => as_served(served),
        Err(LogFault::DiskFault) => LogServed::DiskFault,
        Err(LogFault::Full) => LogServed::Full,
        Err(LogFault::BadLog { .. } | LogFault::Memory) => lacking(as_served(served)),
    }
}

/// As what serving the hall ended.
pub(crate) fn as_served(served: Served) -> LogServed
    ensures { result ≡ as_served_lem served }
{
    match served {
        Served::Done => LogServed::Done,
        Served::WriteFault => LogServed::WriteFault,
        Served::DoorFault => LogServed::DoorFault,
        Served::Memory => LogServed::Memory,
    }
}

// Want of memory for the last entries of a log is told where all else was done.
fn lacking(served: LogServed) -> LogServed
    ensures { result ≡ lacking_lem served }
{
    match served {
        LogServed::Done => LogServed::Memory,
        _ => served,
    }
}
