ghost use Rattle.std.specs.Prelude.{◌≡◌};
ghost use Rattle.line_io.specs.Counts.{next_count, CountRose};
ghost use Rattle.crash_log.specs.declared.faults.LogFault.TheVariants.{DiskFault, Memory};

use line_io::Failed;

/// Why a log isn't made, written or read.
#[derive(Clone, Copy, Debug, PartialEq, Eq)]
pub enum LogFault {
    /// The disk failed, and counted it.
    DiskFault,
    /// The file is no log; it breaks the format at this place.
    BadLog { at: u64 },
    /// The log can take no further entry.
    Full,
    /// Want of memory.
    Memory,
}

impl From<Failed> for LogFault {
    ghost from_gives = { λ _ e. e ≡ DiskFault };

    fn from(_: Failed) -> LogFault {
        LogFault::DiskFault
    }
}

impl From<names::Memory> for LogFault {
    ghost from_gives = { λ _ e. e ≡ Memory };

    fn from(_: names::Memory) -> LogFault {
        LogFault::Memory
    }
}

/// The count after one more. It stands still at its last value.
pub(crate) fn counted(count: u64) -> u64
    ensures value { result ≡ next_count count }
    ensures rose { CountRose count result }
{
    count.saturating_add(1)
}
