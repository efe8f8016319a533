//! Whole macro texts.

ghost use Rattle.std.specs.Prelude.{◌≡◌, ◌↔◌, IsTrue, IfOk, IfErr, Ok};
ghost use Rattle.macro_parse.specs.Flat.{NodeFits, NodesFit};
ghost use Rattle.macro_parse.specs.Trees.{pieces_of};
ghost use Rattle.macro_parse.specs.Faults.{IsReadFrom, IsFaultOf};
ghost use Rattle.macro_parse.specs.Answers.{macro_of, IsFaultIn};

use crate::macros::Macro;
use crate::nodes::Node;
use crate::reader::{Reader, Stop};
use reading::Cursor;
use std::alloc::Global;

/// Why a text isn't read as a macro.
#[derive(Clone, Copy, Debug, PartialEq, Eq)]
pub enum MacroParseFault {
    /// The text is off the grammar. `at` counts the bytes of its longest front that begins some text of the grammar.
    MacroSyntax { at: u32 },
    /// The text is of the grammar, and has dice off their limits.
    DiceLimit,
    /// Want of memory, or a text whose places are past 32 bits.
    Memory,
}

/// How many parentheses, calls, `-` and `!` an atom may stand in.
const DEPTH: u32 = 32;

/// Whether a node has no dice off the limits.
fn fits(node: &Node) -> bool
    ensures { IsTrue result ↔ NodeFits node.now }
{
    match node {
        Node::Dice { group, .. } => group.fits(),
        _ => true,
    }
}

fn all_fit(nodes: &[Node]) -> bool
    ensures { IsTrue result ↔ NodesFit nodes.now }
{
    nodes.iter().all(fits)
}

/// Reads a macro text. It is refused exactly where it is off the grammar or has dice off their limits, and where memory
/// wants.
pub fn read_macro(alloc: Global, text: &str) -> Result<Macro, MacroParseFault>
    // What is read shows what the text spells, within the limits.
    ensures read { IfOk result (λ m. IsReadFrom text.now (pieces_of m)) }
    ensures fault { IfErr result (IsFaultOf text.now) }

    // The same as a function of the text, for definitions that run macros.
    ensures ok { IfOk result (λ m. macro_of text.now ≡ Ok (pieces_of m)) }
    ensures refused { IfErr result (IsFaultIn (macro_of text.now)) }
{
    let bytes = text.as_bytes();
    let Ok(end) = u32::try_from(bytes.len()) else {
        return Err(MacroParseFault::Memory);
    };
    let mut reader = Reader {
        end,
        cursor: Cursor { rest: bytes },
        nodes: Vec::new(alloc),
    };
    let pieces = match reader.pieces(DEPTH) {
        Ok(pieces) => pieces,
        Err(Stop::Off) => {
            let at = reader.at();
            return Err(MacroParseFault::MacroSyntax { at });
        }
        Err(Stop::Memory) => return Err(MacroParseFault::Memory),
    };
    if !all_fit(&reader.nodes) {
        return Err(MacroParseFault::DiceLimit);
    }
    let Reader {
        nodes,
        end: _,
        cursor: _,
    } = reader;
    Ok(Macro { pieces, nodes })
}
