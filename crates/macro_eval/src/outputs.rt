//! What pieces say, one behind another.

ghost use Rattle.std.specs.Prelude.{◌≡◌, ◌≤◌, ◌<◌, ◌+◌, ◌++◌, ◌∷◌, [], ℕ, List, All, IfOk, IfErr, OnOk, Ok, map, length};
ghost use Rattle.macro_parse.specs.declared.nodes.Node.{Node};
ghost use Rattle.macro_parse.specs.Flat.{NodesFit};
ghost use Rattle.macro_eval.specs.Held.{Held, running};
ghost use Rattle.macro_eval.specs.Steps.{follow};
ghost use Rattle.macro_eval.specs.Settings.{given};
ghost use Rattle.macro_eval.specs.Pieces.{said_by, piece_by, pieces_of, options_of, body_of, place_of as place_of_lem};
ghost use Rattle.macro_parse.specs.Trees.{tree_at, second_at, options_at, piece_at, pieces_at, Stands, OptionsStand, SecondStands, PieceStands};
ghost use Rattle.macro_eval.specs.Answers.{Answers};

use crate::said::{Output, Said};
use crate::setting::Setting;
use crate::state::State;
use crate::stop::{FaultKind, MacroStop, fault};
use crate::texts::copied;
use macro_parse::{Options, Piece};

/// How many bytes all pieces have at most.
const MOST_OUTPUT: usize = 16000;

/// A piece's first byte.
fn place_of(piece: &Piece) -> u32
    ensures { (nodes : List Node) → result ≡ place_of_lem (piece_at nodes piece.now) }
{
    match piece {
        Piece::Plain { at, .. } => *at,
        Piece::Roll { at, .. } => *at,
    }
}

fn keep(output: &mut Vec<Said>, said: Said) -> Result<(), MacroStop>
    ensures text { OnOk result (output.new.items ≡ output.old.items ++ said ∷ []) }
    ensures memory { IfErr result (λ stop. stop ≡ MacroStop.Memory) }
{
    match output.push(said) {
        Ok(()) => Ok(()),
        Err(_) => Err(MacroStop::Memory),
    }
}

impl Setting<'_> {
    fn rolled(
        &self,
        options: &Options,
        first: usize,
        second: Option<usize>,
        state: &mut State,
    ) -> Result<Said, MacroStop>
        requires options { OptionsStand self.now.nodes.now options.now }
        requires first { Stands self.now.nodes.now first }
        requires second { SecondStands self.now.nodes.now second }
        requires fits { NodesFit self.now.nodes.now }
        requires seats { self.now.readable.now.seats ≤ 33 }
        ensures { Answers (follow (options_of (given self.now) (options_at self.now.nodes.now options.now) (running state.old))
            (λ chosen s. follow (body_of (given self.now) (tree_at self.now.nodes.now first)
            (second_at self.now.nodes.now second) chosen.1 s) (λ t s. Ok (record { to = chosen.0; text = t }, s)))) result state.new }
    {
        let (to, way) = self.options(options, state)?;
        let text = self.body(first, second, way, state)?;
        Ok(Said { to, text })
    }

    /// A piece's text, and whom it is for.
    fn said(&self, piece: &Piece, state: &mut State) -> Result<Said, MacroStop>
        requires stands { PieceStands self.now.nodes.now piece.now }
        requires fits { NodesFit self.now.nodes.now }
        requires seats { self.now.readable.now.seats ≤ 33 }
        ensures { Answers (said_by (given self.now) (piece_at self.now.nodes.now piece.now) (running state.old)) result state.new }
    {
        match piece {
            Piece::Plain { at: _, text } => {
                let text = copied(text)?;
                Ok(Said {
                    to: Some(self.to),
                    text,
                })
            }
            Piece::Roll {
                at: _,
                options,
                first,
                second,
            } => self.rolled(options, *first, *second, state),
        }
    }

    /// A piece behind pieces of so many bytes.
    fn piece(&self, long: usize, piece: &Piece, state: &mut State) -> Result<Said, MacroStop>
        requires long { long ≤ 16000 }
        requires stands { PieceStands self.now.nodes.now piece.now }
        requires fits { NodesFit self.now.nodes.now }
        requires seats { self.now.readable.now.seats ≤ 33 }
        ensures value { Answers (piece_by (given self.now) long (piece_at self.now.nodes.now piece.now)
            (running state.old)) result state.new }
        ensures short { IfOk result (λ m. long + length m.text ≤ 16000) }
    {
        let said = self.said(piece, state)?;
        if said.text.text().len() > MOST_OUTPUT - long {
            return Err(fault(FaultKind::LongOutput, place_of(piece)));
        }
        Ok(said)
    }

    /// All pieces in their order.
    pub(crate) fn output(&self, pieces: &[Piece], state: &mut State) -> Result<Output, MacroStop>
        requires stands { All (PieceStands self.now.nodes.now) pieces.now }
        requires fits { NodesFit self.now.nodes.now }
        requires seats { self.now.readable.now.seats ≤ 33 }
        ensures { Answers (pieces_of (given self.now) 0 (pieces_at self.now.nodes.now pieces.now) (running state.old)) result state.new }
    {
        let mut list = Vec::new(self.alloc);
        let mut long = 0;
        for piece in pieces {
            match self.piece(long, piece, state) {
                Ok(said) => {
                    long += said.text.text().len();
                    keep(&mut list, said)?;
                }
                Err(stop) => return Err(stop),
            }
        }
        Ok(Output { list })
    }
}
