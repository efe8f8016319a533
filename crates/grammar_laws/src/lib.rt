//! The answers that definitions have of dice and macro texts, held to the grammars alone.
//!
//! `dice_of` and `macro_of` are defined by readers that take a number of turns. The laws here say what they answer of every
//! text in the words of the grammars, so that whoever reads a theorem above need not follow a reader.
#![tactic(auto)]

ghost use Rattle.grammar_laws.specs.Laws.{DiceAreTheSpelled, BadDiceAreOffTheGrammar, LimitedDiceAreOffTheLimits, DiceWantNoMemory};
ghost use Rattle.grammar_laws.specs.Laws.{DiceAreTheWritten};
ghost use Rattle.grammar_laws.specs.Laws.{MacrosAreTheSpelled, BadMacrosAreOffTheGrammar, LimitedMacrosAreOffTheLimits, MacrosWantNoMemory};

/// The laws of dice texts. A text's answer is the terms that it spells, where these are within the limits; `DiceLimit` where
/// they aren't; and `BadDice` where it spells none, with the length in bytes of its longest front that begins some dice. Each
/// comes exactly there, and want of memory never. The texts of given terms are just their writings, in which each count of 1
/// may be left out.
pub fn dice_laws()
    ensures spelled { DiceAreTheSpelled }
    ensures off { BadDiceAreOffTheGrammar }
    ensures limit { LimitedDiceAreOffTheLimits }
    ensures memory { DiceWantNoMemory }
    ensures written { DiceAreTheWritten }
{}

/// The laws of macro texts. A text's answer is the pieces that it spells, where all their dice are within the limits;
/// `DiceLimit` where some aren't; and `MacroSyntax` where it spells none, with the length in bytes of its longest front that
/// begins some macro. Each comes exactly there, and want of memory never.
pub fn macro_laws()
    ensures spelled { MacrosAreTheSpelled }
    ensures off { BadMacrosAreOffTheGrammar }
    ensures limit { LimitedMacrosAreOffTheLimits }
    ensures memory { MacrosWantNoMemory }
{}
