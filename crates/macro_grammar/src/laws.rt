//! What holds of every macro text.

ghost use Rattle.std.specs.Prelude.{◌≡◌, ℕ, List};
ghost use Rattle.macro_grammar.specs.Tree.{Piece};
ghost use Rattle.macro_grammar.specs.Grammar.{IsMacro};

/// A law without a step: a text spells one list of pieces at most, in which 32 may nest.
pub fn one_reading()
    ensures { (text : List ℕ) (a b : List Piece) → IsMacro 32 0 text a → IsMacro 32 0 text b → a ≡ b }
{}
