use names::LineText;

/// A call that a disk in memory did.
#[derive(Drop)]
pub enum Call {
    /// It changed nothing.
    Asked,
    /// These bytes were written at this place.
    Wrote { at: u64, bytes: LineText },
    /// All that was written is safe from a crash.
    Synced,
}
