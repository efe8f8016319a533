use crate::refusal::Refusal;
use macro_eval::Intents;
use names::Texts;
use seat_random::SeatStream;

/// What the run of a macro comes to.
#[derive(Drop)]
pub struct MacroRun {
    /// A text for each seat, empty where it gets no message.
    pub texts: Texts,
    /// What is to be set, in order.
    pub intents: Intents,
    /// The stream of the seat's dice, from which the run's words are drawn.
    pub stream: SeatStream,
}

/// What becomes of the run that a command asks for.
#[derive(Drop)]
pub enum Called {
    /// The command asks for no run.
    NoRun,
    /// There is no macro of that name, or the run stops.
    Stopped(Refusal),
    /// The run doesn't stop.
    Ran(MacroRun),
}
