//! What a player machine is fed.
use campaign_law::Entry;
use names::LineText;
use views::View;

/// An item of a trace: what a player may know of one entry.
#[derive(Drop)]
pub enum TraceItem {
    /// The seat's own entry, without pass numbers, and how many steps an accepted move took, else 0.
    Own { entry: Entry, steps: u32 },
    /// A line that another seat's entry addressed to the seat, without its LF.
    Message(LineText),
    /// What the seat is shown, where this differs from before or the full line is due.
    Seen(View),
}
