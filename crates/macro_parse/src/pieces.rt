//! Pieces: plain text and rolls, one behind the other.

ghost use Rattle.std.specs.Prelude.{◌≡◌, ◌≤◌, ◌<◌, ◌-◌, ◌++◌, ◌∷◌, [], IfOk, IfErr, IfSome, OnOk, IsTrue, length};
ghost use Rattle.macro_parse.specs.Flat.{place};
ghost use Rattle.macro_parse.specs.Turns.{PlainStep, FindsBytes, FindsPlain, FindsPieces, TurnGives, RollGives};

use crate::nodes::Piece;
use crate::reader::{Reader, Stop, text_of};
use names::Text;
use reading::Cursor;
use std::alloc::Global;

/// One byte of plain text, with its escape undone: None where a roll or the end comes.
fn plain_byte(cursor: &mut Cursor<'_>) -> Result<Option<u8>, Stop>
    ensures step { PlainStep cursor.old.rest.now result cursor.new.rest.now }
    ensures shorter { IfOk result (λ found. IfSome found (λ _. length cursor.new.rest.now < length cursor.old.rest.now)) }
    ensures shrinks { length cursor.new.rest.now ≤ length cursor.old.rest.now }
{
    let Some((first, rest)) = cursor.rest.split_first() else {
        return Ok(None);
    };
    if *first == b'[' {
        return Ok(None);
    }
    if *first == b']' {
        return Err(Stop::Off);
    }
    cursor.rest = rest;
    if *first != b'\\' {
        return Ok(Some(*first));
    }
    let Some((second, rest)) = cursor.rest.split_first() else {
        return Err(Stop::Off);
    };
    if *second != b'[' && *second != b']' && *second != b'\\' {
        return Err(Stop::Off);
    }
    cursor.rest = rest;
    Ok(Some(*second))
}

/// The bytes of plain text up to a roll or the end, with their escapes undone.
fn plain_bytes(alloc: Global, cursor: &mut Cursor<'_>) -> Result<Vec<u8>, Stop>
    ensures value { FindsBytes result cursor.old.rest.now cursor.new.rest.now }
    ensures shrinks { length cursor.new.rest.now ≤ length cursor.old.rest.now }
{
    let mut text = Vec::new(alloc);
    while let Some(byte) = plain_byte(cursor)? {
        let Ok(()) = text.push(byte) else {
            return Err(Stop::Memory);
        };
    }
    Ok(text)
}

/// Plain text up to a roll or the end, with its escapes undone.
fn plain(alloc: Global, cursor: &mut Cursor<'_>) -> Result<Text, Stop>
    ensures value { FindsPlain result cursor.old.rest.now cursor.new.rest.now }
    ensures shrinks { length cursor.new.rest.now ≤ length cursor.old.rest.now }
{
    let bytes = plain_bytes(alloc, cursor)?;
    text_of(bytes)
}

/// Puts a piece behind the others.
fn put(pieces: &mut Vec<Piece>, piece: Piece) -> Result<(), Stop>
    ensures items { IfOk result (λ _. pieces.new.items ≡ pieces.old.items ++ piece ∷ []) }
    ensures memory { IfErr result (λ stop. stop ≡ Stop.Memory) }
{
    match pieces.push(piece) {
        Ok(()) => Ok(()),
        Err(_) => Err(Stop::Memory),
    }
}

impl Reader<'_> {
    /// Puts the roll that comes next behind the pieces.
    fn put_roll(&mut self, depth: u32, pieces: &mut Vec<Piece>) -> Result<(), Stop>
        requires nests { 0 < depth }
        requires place { length self.old.cursor.rest.now ≤ self.old.end }
        ensures value { RollGives (depth - 1) self.old.end pieces.old.items pieces.new.items self.old.nodes.items self.new.nodes.items
            result self.old.cursor.rest.now self.new.cursor.rest.now }
        ensures end { self.new.end ≡ self.old.end }
        ensures shorter { OnOk result (length self.new.cursor.rest.now < length self.old.cursor.rest.now) }
        ensures shrinks { length self.new.cursor.rest.now ≤ length self.old.cursor.rest.now }
    {
        let roll = self.roll(depth)?;
        put(pieces, roll)
    }

    /// Puts plain text, if some comes, and the roll behind it: whether a roll came, behind which more may come.
    fn turn(&mut self, depth: u32, pieces: &mut Vec<Piece>) -> Result<bool, Stop>
        requires nests { 0 < depth }
        requires place { length self.old.cursor.rest.now ≤ self.old.end }
        ensures value { TurnGives (depth - 1) self.old.end pieces.old.items pieces.new.items self.old.nodes.items self.new.nodes.items
            result self.old.cursor.rest.now self.new.cursor.rest.now }
        ensures end { self.new.end ≡ self.old.end }
        ensures shrinks { length self.new.cursor.rest.now ≤ length self.old.cursor.rest.now }
        ensures shorter { IfOk result (λ more. IsTrue more → length self.new.cursor.rest.now < length self.old.cursor.rest.now) }
    {
        if self.next_is(b'[') {
            self.put_roll(depth, pieces)?;
            return Ok(true);
        }
        if self.cursor.rest.is_empty() {
            return Ok(false);
        }
        let at = self.at();
        let text = plain(*self.nodes.allocator(), &mut self.cursor)?;
        put(pieces, Piece::Plain { at, text })?;
        if self.cursor.rest.is_empty() {
            return Ok(false);
        }
        self.put_roll(depth, pieces)?;
        Ok(true)
    }

    /// All pieces up to the text's end, in which so many may nest.
    pub(crate) fn pieces(&mut self, depth: u32) -> Result<Vec<Piece>, Stop>
        requires nests { 0 < depth }
        requires place { length self.old.cursor.rest.now ≤ self.old.end }
        ensures value { FindsPieces (depth - 1) self.old.end self.old.nodes.items self.new.nodes.items
            result self.old.cursor.rest.now self.new.cursor.rest.now }
        ensures end { self.new.end ≡ self.old.end }
        ensures shrinks { length self.new.cursor.rest.now ≤ length self.old.cursor.rest.now }
    {
        let mut pieces = Vec::new(*self.nodes.allocator());
        while self.turn(depth, &mut pieces)? {}
        Ok(pieces)
    }
}
