//! The rules of setting, removing and running a seat's macros.

ghost use Rattle.std.specs.Prelude.{◌≡◌, ◌≤◌, ℕ, List, IfOk, is_some};
ghost use Rattle.seats.specs.Book.{macro_of, stream_of};
ghost use Rattle.macro_parse.specs.Answers.{macro_of as pieces_of_text};
ghost use Rattle.macro_parse.specs.Trees.{pieces_of};
ghost use Rattle.macro_eval.specs.Runs.{run_over};
ghost use Rattle.command_rules.specs.declared.refusal.Refusal.TheVariants.{NoSuchMacro};
ghost use Rattle.command_rules.specs.GmRules.{unless};
ghost use Rattle.command_rules.specs.MacroRules.{spelling_refusal as spelling_refusal_lem, spelling_rule as spelling_rule_lem, name_rule as name_rule_lem, new_text_rule as new_text_rule_lem, new_text_in, setting_rule as setting_rule_lem, by_answer, by_pieces, called};

use crate::calls::{Called, MacroRun};
use crate::refusal::Refusal;
use chat::To;
use command_json::Command;
use macro_eval::{MacroStop, Outcome, Readable, run};
use macro_parse::{Macro, MacroParseFault, read_macro};
use names::{Memory, SeatNo, Tag, Text, Texts};
use seat_random::SeatStream;
use seats::SeatBook;
use std::alloc::Global;

/// How many macros a seat has at most.
const MACRO_LIMIT: usize = 32;

// ---- new texts

/// The text has to be one of a macro.
fn spelling_rule(alloc: Global, text: &Text) -> Result<Option<Refusal>, Memory>
    ensures { IfOk result (λ rule. rule ≡ spelling_rule_lem (pieces_of_text text.now)) }
{
    match read_macro(alloc, text.text()) {
        Ok(_) => Ok(None),
        Err(MacroParseFault::MacroSyntax { at }) => Ok(Some(Refusal::MacroSyntax { at })),
        Err(MacroParseFault::DiceLimit) => Ok(Some(Refusal::DiceLimit)),
        Err(MacroParseFault::Memory) => Err(Memory),
    }
}

/// The name has to be there, or there has to be room for it.
fn name_rule(book: &SeatBook, name: Tag) -> Option<Refusal>
    ensures { result ≡ name_rule_lem book.now.macros name }
{
    if book.macro_text(name).is_none() && book.macro_count() >= MACRO_LIMIT {
        Some(Refusal::MacroLimit)
    } else {
        None
    }
}

/// A macro that is to go has to be there.
fn there_rule(book: &SeatBook, name: Tag) -> Option<Refusal>
    ensures { result ≡ unless (is_some (macro_of name book.now.macros)) NoSuchMacro }
{
    if book.macro_text(name).is_some() {
        None
    } else {
        Some(Refusal::NoSuchMacro)
    }
}

fn new_text_rule(
    alloc: Global,
    book: &SeatBook,
    name: Tag,
    text: &Option<Text>,
) -> Result<Option<Refusal>, Memory>
    ensures { IfOk result (λ rule. rule ≡ new_text_rule_lem book.now.macros name text.now) }
{
    match text {
        None => Ok(there_rule(book, name)),
        Some(text) => match name_rule(book, name) {
            Some(refusal) => Ok(Some(refusal)),
            None => spelling_rule(alloc, text),
        },
    }
}

/// The first broken rule of the macro that a command sets or removes, if it does: a macro that is to go isn't there; a new
/// name would be the seat's 33rd; a text has dice off their limits, or is off the grammar. `Memory` for want of memory.
pub fn setting_rule(
    alloc: Global,
    book: &SeatBook,
    command: &Command,
) -> Result<Option<Refusal>, Memory>
    ensures { IfOk result (λ rule. rule ≡ setting_rule_lem book.now.macros (new_text_in command.now)) }
{
    match command {
        Command::Setmacro { name, text } => new_text_rule(alloc, book, *name, text),
        _ => Ok(None),
    }
}

// ---- runs

fn ran(outcome: Outcome, stream: SeatStream) -> Called
    ensures { result ≡ Called.Ran (record { texts = outcome.texts; intents = outcome.intents; stream = stream }) }
{
    let Outcome { texts, intents } = outcome;
    Called::Ran(MacroRun {
        texts,
        intents,
        stream,
    })
}

/// Runs a macro over a stream.
#[tactic(auto, using(crate::proofs::RunLemmas::answered, crate::proofs::RunLemmas::stopped))]
fn run_read(
    alloc: Global,
    macro_text: &Macro,
    readable: &Readable,
    args: &Texts,
    seat: SeatNo,
    to: To,
    mut stream: SeatStream,
) -> Result<Called, Memory>
    requires { readable.now.seats ≤ 33 }
    ensures { IfOk result (λ c. c ≡ by_answer stream (run_over (pieces_of macro_text.now) readable.now args.now seat to stream)) }
{
    match run(
        alloc,
        macro_text,
        readable,
        args.texts(),
        seat,
        to,
        &mut stream,
    ) {
        Ok(outcome) => Ok(ran(outcome, stream)),
        Err(MacroStop::Budget) => Ok(Called::Stopped(Refusal::MacroBudget)),
        Err(MacroStop::Fault { kind, at }) => {
            Ok(Called::Stopped(Refusal::MacroFault { kind, at }))
        }
        Err(MacroStop::Overflow) => Ok(Called::Stopped(Refusal::Overflow)),
        Err(MacroStop::Memory) => Err(Memory),
    }
}

/// Reads a macro's text and runs it over a stream.
#[tactic(auto, using(crate::proofs::RunLemmas::spelt, crate::proofs::RunLemmas::misspelt))]
fn run_text(
    alloc: Global,
    text: &Text,
    readable: &Readable,
    args: &Texts,
    seat: SeatNo,
    to: To,
    stream: SeatStream,
) -> Result<Called, Memory>
    requires { readable.now.seats ≤ 33 }
    ensures { (name : List ℕ) → IfOk result (λ c. c ≡ by_pieces readable.now seat stream
        (record { name = name; args = args.now; to = to }) (pieces_of_text text.now)) }
{
    match read_macro(alloc, text.text()) {
        Ok(read) => run_read(alloc, &read, readable, args, seat, to, stream),
        Err(MacroParseFault::MacroSyntax { at }) => {
            Ok(Called::Stopped(Refusal::MacroSyntax { at }))
        }
        Err(MacroParseFault::DiceLimit) => Ok(Called::Stopped(Refusal::DiceLimit)),
        Err(MacroParseFault::Memory) => Err(Memory),
    }
}

/// What the run that a command of the book's seat asks for comes to, where its macros can read this table. The book stays as
/// it is. `Memory` for want of memory.
#[tactic(auto, unfolding(crate::specs::MacroRules::called))]
pub fn run_called(
    alloc: Global,
    readable: &Readable,
    seat: SeatNo,
    book: &SeatBook,
    command: &Command,
) -> Result<Called, Memory>
    requires { readable.now.seats ≤ 33 }
    ensures { IfOk result (λ c. c ≡ called readable.now seat book.now.macros (stream_of book.now) command.now) }
{
    let Command::Macro { name, args, to } = command else {
        return Ok(Called::NoRun);
    };
    let Some(text) = book.macro_text(*name) else {
        return Ok(Called::Stopped(Refusal::NoSuchMacro));
    };
    let stream = SeatStream::new(book.seed(), book.drawn());
    run_text(alloc, text, readable, args, seat, *to, stream)
}
