//! Whole dice texts.

ghost use Rattle.std.specs.Prelude.{◌≡◌, IfOk, IfErr, Ok, List, ℕ};
ghost use Rattle.dice_parse.specs.declared.parts.Term.{Term};
ghost use Rattle.dice_parse.specs.Grammar.{IsWithin, IsDice};
ghost use Rattle.dice_parse.specs.Faults.{IsFaultOf};
ghost use Rattle.dice_parse.specs.Answers.{dice_of, IsFaultIn};

use crate::parts::{Term, within};
use crate::readers::terms;
use reading::Cursor;
use std::alloc::Global;
use std::marker::Model;

/// Terms within the limits: 1 to 16 of them, groups of 1 to 100 dice of 1 to 1,000 sides. Contracts see the list.
#[derive(Drop)]
pub struct Dice {
    terms: Vec<Term>,
}

impl Model for Dice {
    ghost use Rattle.std.specs.Prelude.{List};
    ghost use Rattle.dice_parse.specs.declared.parts.Term.{Term};
    ghost use Rattle.dice_parse.specs.Grammar.{IsWithin};

    ghost Value = { List Term };

    ghost view = { λ d. d.terms.items };

    ghost invariant = { λ d. IsWithin d.terms.items };
}

impl Dice {
    /// The terms in their order: 1 to 16, within the limits.
    pub fn terms(&self) -> &[Term]
        ensures terms { result.now ≡ self.now }
        ensures within { IsWithin self.now }
    {
        self.terms.as_slice()
    }
}

/// Why a text isn't read as dice.
#[derive(Clone, Copy, Debug, PartialEq, Eq)]
pub enum DiceFault {
    /// The text is off the grammar. `at` counts the bytes of its longest front that begins some text of the grammar.
    BadDice { at: u32 },
    /// The text is of the grammar, and off the limits.
    DiceLimit,
    /// Want of memory, or a text whose places are past 32 bits.
    Memory,
}

/// Reads a dice text. It is refused exactly where it is off the grammar or off the limits, and where memory wants.
pub fn read_dice(alloc: Global, text: &str) -> Result<Dice, DiceFault>
    // What is read is what the text spells, within the limits.
    ensures read { IfOk result (λ dice. IsDice text.now dice) }
    ensures within { IfOk result IsWithin }
    ensures fault { IfErr result (IsFaultOf text.now) }

    // The same as a function of the text, for definitions that roll.
    ensures ok { IfOk result (λ dice. dice_of text.now ≡ Ok dice) }
    ensures refused { IfErr result (IsFaultIn (dice_of text.now)) }
{
    let bytes = text.as_bytes();
    let mut cursor = Cursor { rest: bytes };
    let Ok(found) = terms(alloc, &mut cursor) else {
        return Err(DiceFault::Memory);
    };
    let Some(terms) = found else {
        let place = bytes.len() - cursor.rest.len();
        let Ok(at) = u32::try_from(place) else {
            return Err(DiceFault::Memory);
        };
        return Err(DiceFault::BadDice { at });
    };
    if !within(&terms) {
        return Err(DiceFault::DiceLimit);
    }
    Ok(Dice { terms })
}

/// A law without a step: a text spells one list of terms at most.
#[tactic(auto, using(crate::proofs::Exact::one_reading))]
pub fn one_reading()
    ensures { (text : List ℕ) (a b : List Term) → IsDice text a → IsDice text b → a ≡ b }
{}
