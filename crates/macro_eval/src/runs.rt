//! Runs of macros.

ghost use Rattle.std.specs.Prelude.{◌≡◌, ◌≤◌, ◌<◌, ◌+◌, ◌%◌, ◌^◌, ◌++◌, ◌∷◌, [], ℕ, List, All, IfOk, IfErr, OnOk, OnErr, map, take, string_bytes, if◌then◌else◌};
ghost use Rattle.std.specs.List.{range_with_len};
ghost use Rattle.chat.specs.Addresses.{is_addressed as is_addressed_lem};
ghost use Rattle.seat_random.specs.Stream.{word_of, after};
ghost use Rattle.macro_parse.specs.Flat.{NodesFit};
ghost use Rattle.macro_eval.specs.Settings.{given};
ghost use Rattle.macro_eval.specs.Runs.{reaches as reaches_lem, text_for as text_for_lem, run_over, words_drawn, IsOutcomeOf, IsStopOf};
ghost use Rattle.macro_eval.specs.Answers.{RunsTo};
ghost use Rattle.macro_parse.specs.Trees.{pieces_at, pieces_of, MacroStands};

use crate::outcome::{Intents, Outcome};
use crate::said::Said;
use crate::setting::Setting;
use crate::state::State;
use crate::stop::MacroStop;
use crate::texts::{keep, put_behind, text_of};
use chat::To;
use macro_parse::{Macro, Node, Piece};
use names::{SeatNo, Text, Texts};
use readable::Readable;
use seat_random::SeatStream;
use std::alloc::Global;

/// Whether a message of `from` to this address reaches the seat, in a campaign of so many seats.
fn is_addressed(to: To, from: SeatNo, seats: u8, seat: u8) -> bool
    ensures { result ≡ is_addressed_lem to from seats seat }
{
    match to {
        To::SelfOnly => seat == from.number(),
        To::Gm => seat == 0,
        To::GmSelf => seat == 0 || seat == from.number(),
        To::All => seat < seats,
        To::Seat(named) => seat == named.number(),
    }
}

impl Setting<'_> {
    /// Whether a piece that is for these reaches the seat.
    fn reaches(&self, to: Option<To>, seat: u8) -> bool
        ensures { result ≡ reaches_lem (given self.now) seat to }
    {
        match to {
            None => false,
            Some(to) => is_addressed(to, self.from, self.readable.seats(), seat),
        }
    }

    /// Puts a piece behind what a seat gets before it, if it gets it.
    fn add_said(&self, said: &Said, seat: u8, whole: &mut String) -> Result<(), MacroStop>
        ensures text { OnOk result (string_bytes whole.new ≡ string_bytes whole.old ++
            (if reaches_lem (given self.now) seat said.now.to then said.now.text else [])) }
        ensures memory { IfErr result (λ stop. stop ≡ MacroStop.Memory) }
    {
        if self.reaches(said.to, seat) {
            put_behind(whole, said.text.text())
        } else {
            Ok(())
        }
    }

    /// All pieces addressed to the seat, joined in order.
    #[tactic(auto, using(crate::proofs::Reached::text_next))]
    fn text_for(&self, output: &[Said], seat: u8) -> Result<Text, MacroStop>
        ensures text { IfOk result (λ t. t ≡ text_for_lem (given self.now) output.now seat) }
        ensures memory { IfErr result (λ stop. stop ≡ MacroStop.Memory) }
    {
        let mut whole = String::new(self.alloc);
        for said in output {
            self.add_said(said, seat, &mut whole)?;
        }
        text_of(whole)
    }

    /// The text of each seat.
    #[tactic(auto, using(crate::proofs::Reached::seat_next))]
    fn texts(&self, output: &[Said]) -> Result<Texts, MacroStop>
        ensures texts { IfOk result (λ ts. ts ≡ map (text_for_lem (given self.now) output.now)
            (range_with_len 0 self.now.readable.now.seats)) }
        ensures memory { IfErr result (λ stop. stop ≡ MacroStop.Memory) }
    {
        let mut list = Vec::new(self.alloc);
        for seat in 0..self.readable.seats() {
            keep(&mut list, self.text_for(output, seat)?)?;
        }
        Ok(Texts { list })
    }
}

/// The stream when so many words were drawn.
#[tactic(auto, using(crate::proofs::Reached::moved_is))]
fn moved(stream: &SeatStream, used: u32) -> SeatStream
    ensures { result ≡ after stream.now used }
{
    SeatStream::new(
        stream.seed(),
        (stream.drawn() + u64::from(used)) % (1 << 62),
    )
}

/// Runs pieces over these nodes.
fn run_pieces(
    alloc: Global,
    nodes: &[Node],
    pieces: &[Piece],
    readable: &Readable,
    args: &[Text],
    from: SeatNo,
    to: To,
    stream: &mut SeatStream,
) -> Result<Outcome, MacroStop>
    requires stands { MacroStands nodes.now pieces.now }
    requires seats { readable.now.seats ≤ 33 }
    ensures { RunsTo (run_over (pieces_at nodes.now pieces.now) readable.now args.now from to stream.old) result stream.old stream.new }
{
    let mut state = State::new(alloc, stream.seed(), stream.drawn());
    let setting = Setting {
        alloc,
        nodes,
        readable,
        args,
        from,
        to,
    };
    let output = match setting.output(pieces, &mut state) {
        Ok(output) => output,
        Err(stop) => return Err(stop),
    };
    let texts = setting.texts(output.said())?;
    *stream = moved(stream, state.used());
    Ok(Outcome {
        texts,
        intents: Intents {
            list: state.into_intents(),
        },
    })
}

/// Runs a macro of the seat `from`, to an address: the text that each seat of the table's campaign gets, empty where it gets none,
/// and the properties that are to be set, in order. The words of its dice are drawn from the stream. It stops at the first unit past
/// its 10,000th, at the first fault and at the first number that leaves 64 bits, and for want of memory; the stream is then as before.
#[tactic(auto, using(crate::proofs::Ended::ran_of, crate::proofs::Ended::drawn_of, crate::proofs::Ended::stopped_of, crate::proofs::Ended::refused_of))]
pub fn run(
    alloc: Global,
    macro_text: &Macro,
    readable: &Readable,
    args: &[Text],
    from: SeatNo,
    to: To,
    stream: &mut SeatStream,
) -> Result<Outcome, MacroStop>
    requires { readable.now.seats ≤ 33 }
    ensures ran { IfOk result (IsOutcomeOf (run_over (pieces_of macro_text.now) readable.now args.now from to stream.old)) }
    ensures drawn { OnOk result (stream.new ≡ after stream.old
        (words_drawn (run_over (pieces_of macro_text.now) readable.now args.now from to stream.old))) }
    ensures stopped { IfErr result (IsStopOf (run_over (pieces_of macro_text.now) readable.now args.now from to stream.old)) }
    ensures refused { OnErr result (stream.new ≡ stream.old) }
{
    run_pieces(
        alloc,
        macro_text.nodes(),
        macro_text.pieces(),
        readable,
        args,
        from,
        to,
        stream,
    )
}
