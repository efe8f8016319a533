//! Expressions, level by level. At what can't be read the cursor stands at the failing place.
//!
//! The calls among these functions go deeper at parentheses, calls of functions, `-` and `!` alone, and there `depth`, how
//! many may still nest, falls.

ghost use Rattle.std.specs.Prelude.{◌≡◌, ◌≤◌, ◌<◌, ℕ, IfOk, IfSome, length};
ghost use Rattle.reading.specs.Placed.{bind_at};
ghost use Rattle.macro_grammar.specs.Tree.{Tree};
ghost use Rattle.macro_grammar.specs.Grammar.{arity};
ghost use Rattle.macro_grammar.specs.Readers.{sum_at, compared_with, compared_at, number_or_dice_at, quoted_at, arguments_at, word_at, group_at, atom_at, inner_at, expression_at, unary_at, expr_at};
ghost use Rattle.macro_parse.specs.Flat.{Shows, Puts, PutsCall, Grows, Finds, place};
ghost use Rattle.macro_parse.specs.Levels.{operand_of, level_at, more_of, Steps, nests, nested_at};
ghost use Rattle.macro_parse.specs.Found.{FindsName, Prefixes, Argues, Calls, Closes};

use crate::atoms::{Numeral, blanks, name, number_or_dice, quoted};
use crate::levels::{Level, Next, operator};
use crate::nodes::{Arguments, Node};
use crate::reader::{Reader, Stop, keep, text_of};
use macro_grammar::{Function, function_of};
use reading::Cursor;

/// What stands before a unary.
#[derive(Clone, Copy, Debug, PartialEq, Eq)]
pub(crate) enum Sign {
    Minus,
    Not,
}

/// A `-` or `!` that comes next, where something may nest.
fn prefix(cursor: &mut Cursor<'_>, depth: u32) -> Option<Sign>
    ensures value { Prefixes depth cursor.old.rest.now result cursor.new.rest.now }
    ensures shrinks { length cursor.new.rest.now ≤ length cursor.old.rest.now }
{
    if depth == 0 {
        return None;
    }
    if cursor.takes(b'-') {
        return Some(Sign::Minus);
    }
    if cursor.takes(b'!') {
        return Some(Sign::Not);
    }
    None
}

impl Reader<'_> {
    /// A number, or dice with their count.
    fn number(&mut self) -> Result<usize, Stop>
        requires { length self.old.cursor.rest.now ≤ self.old.end }
        ensures value { Finds (Puts self.old.nodes.items self.new.nodes.items)
            (λ _. number_or_dice_at (place self.old.end self.old.cursor.rest.now))
            result self.old.cursor.rest.now self.new.cursor.rest.now }
        ensures end { self.new.end ≡ self.old.end }
        ensures shrinks { length self.new.cursor.rest.now ≤ length self.old.cursor.rest.now }
    {
        let at = self.at();
        match number_or_dice(&mut self.cursor) {
            None => Err(Stop::Off),
            Some(Numeral::Number(value)) => keep(&mut self.nodes, Node::Number { at, value }),
            Some(Numeral::Dice(group)) => keep(&mut self.nodes, Node::Dice { at, group }),
        }
    }

    /// A quoted text.
    fn text(&mut self) -> Result<usize, Stop>
        requires { length self.old.cursor.rest.now ≤ self.old.end }
        ensures value { Finds (Puts self.old.nodes.items self.new.nodes.items)
            (λ _. quoted_at (place self.old.end self.old.cursor.rest.now)) result self.old.cursor.rest.now self.new.cursor.rest.now }
        ensures end { self.new.end ≡ self.old.end }
        ensures shrinks { length self.new.cursor.rest.now ≤ length self.old.cursor.rest.now }
    {
        let at = self.at();
        let Ok(found) = quoted(*self.nodes.allocator(), &mut self.cursor) else {
            return Err(Stop::Memory);
        };
        let Some(bytes) = found else {
            return Err(Stop::Off);
        };
        let text = text_of(bytes)?;
        keep(&mut self.nodes, Node::Quoted { at, text })
    }

    /// The name that comes next, which isn't kept yet.
    pub(crate) fn name(&mut self) -> Result<Vec<u8>, Stop>
        ensures value { FindsName result self.old.cursor.rest.now self.new.cursor.rest.now }
        ensures nodes { self.new.nodes ≡ self.old.nodes }
        ensures end { self.new.end ≡ self.old.end }
        ensures shrinks { length self.new.cursor.rest.now ≤ length self.old.cursor.rest.now }
    {
        let Ok(found) = name(*self.nodes.allocator(), &mut self.cursor) else {
            return Err(Stop::Memory);
        };
        let Some(name) = found else {
            return Err(Stop::Off);
        };
        Ok(name)
    }

    /// The chain of a level: its operands with operators between them, grouped to the left.
    #[cycle(chain)]
    pub(crate) fn chain(&mut self, level: Level, depth: u32) -> Result<usize, Stop>
        requires { length self.old.cursor.rest.now ≤ self.old.end }
        ensures value { Finds (Puts self.old.nodes.items self.new.nodes.items)
            (λ turns. level_at level (unary_at turns depth) turns
            (place self.old.end self.old.cursor.rest.now)) result self.old.cursor.rest.now self.new.cursor.rest.now }
        ensures end { self.new.end ≡ self.old.end }
        ensures shrinks { length self.new.cursor.rest.now ≤ length self.old.cursor.rest.now }
    {
        let left = self.operand(level, depth)?;
        self.more(level, depth, left)
    }

    /// The rest of a level's chain behind its left side.
    #[cycle(chain)]
    pub(crate) fn more(&mut self, level: Level, depth: u32, left: usize) -> Result<usize, Stop>
        requires { length self.old.cursor.rest.now ≤ self.old.end }
        ensures value { (x : Tree) → Shows self.old.nodes.items left x
            → Finds (Grows x self.old.nodes.items self.new.nodes.items)
            (λ turns. more_of level (unary_at turns depth) turns
            (place self.old.end self.old.cursor.rest.now) x) result self.old.cursor.rest.now self.new.cursor.rest.now }
        ensures end { self.new.end ≡ self.old.end }
        ensures shrinks { length self.new.cursor.rest.now ≤ length self.old.cursor.rest.now }
    {
        let mut whole = left;
        while let Some(next) = self.step(level, depth, whole)? {
            whole = next;
        }
        Ok(whole)
    }

    /// An operator of the level with its right operand: the node of both sides, or None where no operator comes.
    #[cycle(chain)]
    fn step(&mut self, level: Level, depth: u32, left: usize) -> Result<Option<usize>, Stop>
        requires { length self.old.cursor.rest.now ≤ self.old.end }
        ensures value { (x : Tree) → Shows self.old.nodes.items left x
            → Steps level depth self.old.end x self.old.nodes.items self.new.nodes.items
            result self.old.cursor.rest.now self.new.cursor.rest.now }
        ensures end { self.new.end ≡ self.old.end }
        ensures shrinks { length self.new.cursor.rest.now ≤ length self.old.cursor.rest.now }
        ensures shorter { IfOk result (λ found. IfSome found (λ _. length self.new.cursor.rest.now < length self.old.cursor.rest.now)) }
    {
        let at = self.at();
        let operator = match operator(&mut self.cursor, level) {
            Next::Nothing => return Ok(None),
            Next::Fails => return Err(Stop::Off),
            Next::Found(operator) => operator,
        };
        let right = self.operand(level, depth)?;
        let whole = keep(
            &mut self.nodes,
            Node::Binary {
                at,
                operator,
                left,
                right,
            },
        )?;
        Ok(Some(whole))
    }

    /// What stands between the operators of a level.
    #[cycle(chain)]
    fn operand(&mut self, level: Level, depth: u32) -> Result<usize, Stop>
        requires { length self.old.cursor.rest.now ≤ self.old.end }
        ensures value { Finds (Puts self.old.nodes.items self.new.nodes.items)
            (λ turns. operand_of level (unary_at turns depth) turns
            (place self.old.end self.old.cursor.rest.now)) result self.old.cursor.rest.now self.new.cursor.rest.now }
        ensures end { self.new.end ≡ self.old.end }
        ensures shrinks { length self.new.cursor.rest.now ≤ length self.old.cursor.rest.now }
    {
        match level {
            Level::Or => self.chain(Level::And, depth),
            Level::And => self.compared(depth),
            Level::Compare => self.chain(Level::Sum, depth),
            Level::Sum => self.chain(Level::Product, depth),
            Level::Product => self.unary(depth),
        }
    }

    /// A sum, or two that are compared.
    #[cycle(chain)]
    fn compared(&mut self, depth: u32) -> Result<usize, Stop>
        requires { length self.old.cursor.rest.now ≤ self.old.end }
        ensures value { Finds (Puts self.old.nodes.items self.new.nodes.items)
            (λ turns. compared_at (unary_at turns depth) turns
            (place self.old.end self.old.cursor.rest.now)) result self.old.cursor.rest.now self.new.cursor.rest.now }
        ensures end { self.new.end ≡ self.old.end }
        ensures shrinks { length self.new.cursor.rest.now ≤ length self.old.cursor.rest.now }
    {
        let left = self.chain(Level::Sum, depth)?;
        self.compared_with(depth, left)
    }

    /// The sum on the left, or a comparison of it with what comes.
    #[cycle(chain)]
    pub(crate) fn compared_with(&mut self, depth: u32, left: usize) -> Result<usize, Stop>
        requires { length self.old.cursor.rest.now ≤ self.old.end }
        ensures value { (x : Tree) → Shows self.old.nodes.items left x
            → Finds (Grows x self.old.nodes.items self.new.nodes.items)
            (λ turns. compared_with (sum_at (unary_at turns depth) turns) turns
            (place self.old.end self.old.cursor.rest.now) x) result self.old.cursor.rest.now self.new.cursor.rest.now }
        ensures end { self.new.end ≡ self.old.end }
        ensures shrinks { length self.new.cursor.rest.now ≤ length self.old.cursor.rest.now }
    {
        match self.step(Level::Compare, depth, left)? {
            None => Ok(left),
            Some(whole) => Ok(whole),
        }
    }

    #[cycle(chain)]
    fn unary(&mut self, depth: u32) -> Result<usize, Stop>
        requires { length self.old.cursor.rest.now ≤ self.old.end }
        ensures value { Finds (Puts self.old.nodes.items self.new.nodes.items)
            (λ turns. unary_at turns depth (place self.old.end self.old.cursor.rest.now))
            result self.old.cursor.rest.now self.new.cursor.rest.now }
        ensures end { self.new.end ≡ self.old.end }
        ensures shrinks { length self.new.cursor.rest.now ≤ length self.old.cursor.rest.now }
    {
        blanks(&mut self.cursor);
        self.inner(depth)
    }

    /// A unary without the blanks before it.
    #[cycle(chain)]
    fn inner(&mut self, depth: u32) -> Result<usize, Stop>
        requires { length self.old.cursor.rest.now ≤ self.old.end }
        ensures value { Finds (Puts self.old.nodes.items self.new.nodes.items)
            (λ turns. inner_at (nests depth) (nested_at turns depth) (expression_at (nested_at turns depth) turns)
            (place self.old.end self.old.cursor.rest.now)) result self.old.cursor.rest.now self.new.cursor.rest.now }
        ensures end { self.new.end ≡ self.old.end }
        ensures shrinks { length self.new.cursor.rest.now ≤ length self.old.cursor.rest.now }
    {
        let at = self.at();
        let Some(prefix) = prefix(&mut self.cursor, depth) else {
            let atom = self.atom(depth)?;
            blanks(&mut self.cursor);
            return Ok(atom);
        };
        let of = self.unary(depth - 1)?;
        match prefix {
            Sign::Minus => keep(&mut self.nodes, Node::Negated { at, of }),
            Sign::Not => keep(&mut self.nodes, Node::Inverted { at, of }),
        }
    }

    #[cycle(chain)]
    fn atom(&mut self, depth: u32) -> Result<usize, Stop>
        requires { length self.old.cursor.rest.now ≤ self.old.end }
        ensures value { Finds (Puts self.old.nodes.items self.new.nodes.items)
            (λ turns. atom_at (nests depth) (expression_at (nested_at turns depth) turns)
            (place self.old.end self.old.cursor.rest.now)) result self.old.cursor.rest.now self.new.cursor.rest.now }
        ensures end { self.new.end ≡ self.old.end }
        ensures shrinks { length self.new.cursor.rest.now ≤ length self.old.cursor.rest.now }
    {
        let Some((first, _)) = self.cursor.rest.split_first() else {
            return Err(Stop::Off);
        };
        let first = *first;
        if b'0' <= first && first <= b'9' {
            return self.number();
        }
        if first == b'"' {
            return self.text();
        }
        if first == b'(' && depth > 0 {
            return self.group(depth - 1);
        }
        self.word(depth)
    }

    /// An expression between parentheses.
    #[cycle(chain)]
    pub(crate) fn group(&mut self, depth: u32) -> Result<usize, Stop>
        requires { length self.old.cursor.rest.now ≤ self.old.end }
        ensures value { Finds (Puts self.old.nodes.items self.new.nodes.items)
            (λ turns. group_at (expr_at depth turns)
            (place self.old.end self.old.cursor.rest.now)) result self.old.cursor.rest.now self.new.cursor.rest.now }
        ensures end { self.new.end ≡ self.old.end }
        ensures shrinks { length self.new.cursor.rest.now ≤ length self.old.cursor.rest.now }
    {
        let inner = self.argument(b'(', depth)?;
        if !self.cursor.takes(b')') {
            return Err(Stop::Off);
        }
        Ok(inner)
    }

    /// A separator and an expression behind it.
    #[cycle(chain)]
    fn argument(&mut self, separator: u8, depth: u32) -> Result<usize, Stop>
        requires { length self.old.cursor.rest.now ≤ self.old.end }
        ensures value { Argues separator depth self.old.end self.old.nodes.items self.new.nodes.items
            result self.old.cursor.rest.now self.new.cursor.rest.now }
        ensures end { self.new.end ≡ self.old.end }
        ensures shrinks { length self.new.cursor.rest.now ≤ length self.old.cursor.rest.now }
    {
        if !self.cursor.takes(separator) {
            return Err(Stop::Off);
        }
        self.chain(Level::Or, depth)
    }

    /// A call, or a name.
    #[cycle(chain)]
    fn word(&mut self, depth: u32) -> Result<usize, Stop>
        requires { length self.old.cursor.rest.now ≤ self.old.end }
        ensures value { Finds (Puts self.old.nodes.items self.new.nodes.items)
            (λ turns. word_at (nests depth) (expression_at (nested_at turns depth) turns)
            (place self.old.end self.old.cursor.rest.now)) result self.old.cursor.rest.now self.new.cursor.rest.now }
        ensures end { self.new.end ≡ self.old.end }
        ensures shrinks { length self.new.cursor.rest.now ≤ length self.old.cursor.rest.now }
    {
        let at = self.at();
        let name = self.name()?;
        let Some(function) = self.called(depth, name.as_slice()) else {
            return keep(&mut self.nodes, Node::Name { at, name });
        };
        self.arguments(depth, at, function)
    }

    /// The function that is called, where a name is followed by a bracket in which its arguments may stand.
    pub(crate) fn called(&self, depth: u32, name: &[u8]) -> Option<Function>
        ensures { Calls depth name.now result self.now.cursor.rest.now }
    {
        let function = function_of(name)?;
        if depth == 0 && function.arity() > 0 {
            return None;
        }
        let (first, _) = self.cursor.rest.split_first()?;
        if *first == b'(' { Some(function) } else { None }
    }

    /// The arguments of a function between their parentheses.
    #[cycle(chain)]
    pub(crate) fn arguments(
        &mut self,
        depth: u32,
        at: u32,
        function: Function,
    ) -> Result<usize, Stop>
        requires place { length self.old.cursor.rest.now ≤ self.old.end }
        requires nests { 0 < arity function → 0 < depth }
        ensures value { Finds (PutsCall self.old.nodes.items self.new.nodes.items)
            (λ turns. arguments_at (expression_at (nested_at turns depth) turns) at function
            (place self.old.end self.old.cursor.rest.now) (arity function)) result self.old.cursor.rest.now self.new.cursor.rest.now }
        ensures end { self.new.end ≡ self.old.end }
        ensures shrinks { length self.new.cursor.rest.now ≤ length self.old.cursor.rest.now }
    {
        let count = function.arity();
        if count == 0 {
            if !self.cursor.takes(b'(') {
                return Err(Stop::Off);
            }
            return self.close(at, function, Arguments::Nothing);
        }
        let first = self.argument(b'(', depth - 1)?;
        if count == 1 {
            return self.close(at, function, Arguments::One(first));
        }
        let second = self.argument(b',', depth - 1)?;
        if count == 2 {
            return self.close(at, function, Arguments::Two(first, second));
        }
        let third = self.argument(b',', depth - 1)?;
        self.close(at, function, Arguments::Three(first, second, third))
    }

    /// The parenthesis behind the arguments of a call.
    fn close(&mut self, at: u32, function: Function, arguments: Arguments) -> Result<usize, Stop>
        ensures value { Closes at function arguments self.old.nodes.items self.new.nodes.items
            result self.old.cursor.rest.now self.new.cursor.rest.now }
        ensures end { self.new.end ≡ self.old.end }
        ensures shrinks { length self.new.cursor.rest.now ≤ length self.old.cursor.rest.now }
    {
        if !self.cursor.takes(b')') {
            return Err(Stop::Off);
        }
        keep(
            &mut self.nodes,
            Node::Call {
                at,
                function,
                arguments,
            },
        )
    }
}
