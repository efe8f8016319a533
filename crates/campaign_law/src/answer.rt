use command_rules::Refusal;
use names::LineText;

/// What an entry's caller is told.
#[derive(Drop)]
pub struct Answer {
    /// Why the entry is refused; none, where it isn't.
    pub refusal: Option<Refusal>,
    /// The steps of a move, else 0.
    pub taken: u32,
    /// The reply that stands in no queue.
    pub line: Option<LineText>,
}
