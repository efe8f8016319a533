//! A seat's macros.
ghost use Rattle.std.specs.Prelude.{◌≡◌, OnOk, codes};
ghost use Rattle.serde_json.specs.View.{view, members_view};
ghost use Rattle.json_fields.specs.Objects.{Gives};
ghost use Rattle.macro_parse.specs.Answers.{macro_of};
ghost use Rattle.campaign_json.specs.Reading.{Fails, under, each_member};
ghost use Rattle.campaign_file.specs.Macros.{macros as macros_lem, spelled, unfilled, with_read};

use campaign_json::{FileFault, Rule, broken, fields, kinds};
use macro_parse::{MacroParseFault, read_macro};
use names::Text;
use seats::{BookFault, SeatBook};
use serde_json::{Map, Value};
use std::alloc::Global;

/// How many macros a seat has at most.
const MOST_MACROS: usize = 32;

/// How many bytes the text of a macro has at most.
const MOST_BYTES: usize = 2000;

/// Reads the macros of the book's seat.
#[tactic(auto, unfolding(crate::specs::Macros::macros))]
pub(crate) fn read_macros(
    alloc: Global,
    value: &Value,
    book: &mut SeatBook,
) -> Result<(), FileFault>
    ensures exact { Gives Fails (λ u. book.new) result (macros_lem book.old (view value.now)) }
    ensures rest { OnOk result (unfilled book.new ≡ unfilled book.old) }
{
    let members = fields::members(alloc, value, "macros", MOST_MACROS)?;
    each_macro(alloc, members, book)
}

fn each_macro(
    alloc: Global,
    members: &Map<String, Value>,
    book: &mut SeatBook,
) -> Result<(), FileFault>
    ensures exact { Gives Fails (λ u. book.new) result
        (under (codes "macros") (each_member with_read book.old (members_view members.now.entries))) }
    ensures rest { OnOk result (unfilled book.new ≡ unfilled book.old) }
{
    for (key, value) in members {
        match read_one(alloc, key.as_str(), value, book) {
            Ok(()) => {}
            Err(fault) => return Err(fault.under_member(alloc, "macros", key.as_str())),
        }
    }
    Ok(())
}

/// Reads a macro into the book.
#[tactic(auto, unfolding(crate::specs::Macros::with_read))]
fn read_one(alloc: Global, key: &str, value: &Value, book: &mut SeatBook) -> Result<(), FileFault>
    ensures exact { Gives Fails (λ u. book.new) result (with_read key.now book.old (view value.now)) }
    ensures rest { OnOk result (unfilled book.new ≡ unfilled book.old) }
{
    let name = fields::tag_key(alloc, key)?;
    let text = match kinds::text(value, 0, MOST_BYTES) {
        Ok(text) => text,
        Err(rule) => return Err(broken(alloc, rule)),
    };
    check_spelling(alloc, text)?;
    let text = Text::copy(alloc, text)?;
    match book.set_macro(name, text) {
        Ok(()) => Ok(()),
        Err(BookFault::MacroLimit) => Err(broken(alloc, Rule::Range)),
        Err(BookFault::Memory) => Err(FileFault::Memory),
    }
}

/// The text is one of a macro, with dice within their limits.
fn check_spelling(alloc: Global, text: &str) -> Result<(), FileFault>
    ensures { Gives Fails (λ u. u) result (spelled (macro_of text.now)) }
{
    match read_macro(alloc, text) {
        Ok(_) => Ok(()),
        Err(MacroParseFault::MacroSyntax { .. }) => Err(broken(alloc, Rule::Form)),
        Err(MacroParseFault::DiceLimit) => Err(broken(alloc, Rule::Range)),
        Err(MacroParseFault::Memory) => Err(FileFault::Memory),
    }
}
