//! A log of a run's entries that survives a crash: it is made on a disk, entries are put behind it, and what a crash left is read. A
//! disk is a trait whose clauses say what a crash may leave; one in memory meets it, and a file of the system stands behind it.
#![tactic(auto)]

ghost use Rattle.crash_log.specs.Laws.{LogTellsOne, NoLogIsBad, EntriesAreReadBack};
ghost use Rattle.crash_log.specs.Runs.{KeptIsRead, OutlivesCrashes};

mod calls;
mod disk;
mod entry_bytes;
mod faults;
mod file_disk;
mod journal;
mod mem_disk;
mod recovery;
#[cfg(test)]
mod tests;

pub use calls::Call;
pub use disk::Disk;
pub use entry_bytes::is_short;
pub use faults::LogFault;
pub use file_disk::FileDisk;
pub use journal::{GATE_LIMIT, Journal, TEXT_BYTES, append, append_all, create};
pub use mem_disk::MemDisk;
pub use recovery::{Entries, Recovered, recover};

/// The laws of the format: a log tells one text and one list of entries, no log is bad, and an entry is read back from its bytes.
pub fn log_laws()
    ensures one { LogTellsOne }
    ensures good { NoLogIsBad }
    ensures back { EntriesAreReadBack }
{}

/// The laws of the calls of a log, over each disk and each run of calls since a log was made or recovered. Whatever a crash leaves
/// at any moment of it, inside a call too, is a log of the text: its entries are first those that the log had, then all that were
/// acknowledged before that moment, in order, and besides all or none of at most one group whose append was under way or answered
/// `DiskFault`. Such a file is read as just these, and is bad at no place.
pub fn outlives_crashes<K: Disk>()
    ensures any_moment { OutlivesCrashes K.seen K.may_leave K.moment K.left_since }
    ensures read { KeptIsRead }
{}
