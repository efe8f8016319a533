//! Statements: assignments, and expressions that may begin with a name.
//!
//! Only what stands behind a first name tells an assignment from a comparison or another expression. So the name is read
//! first, and the rest of an expression behind it then.

ghost use Rattle.std.specs.Prelude.{◌≡◌, ◌≤◌, ◌<◌, ◌-◌, ℕ, length};
ghost use Rattle.macro_grammar.specs.Tree.{Tree};
ghost use Rattle.macro_grammar.specs.Readers.{expression_from, equal_from, after_name, statement_at, unary_at};
ghost use Rattle.macro_parse.specs.Flat.{Shows, Puts, Grows, Finds, place};
ghost use Rattle.macro_parse.specs.Levels.{ands_from, compares_from, sums_from, named_at};

use crate::atoms::blanks;
use crate::levels::Level;
use crate::nodes::Node;
use crate::reader::{Reader, Stop, keep};
use macro_grammar::Operator;

impl Reader<'_> {
    /// The rest of an expression behind its first comparison.
    fn ands_from(&mut self, depth: u32, left: usize) -> Result<usize, Stop>
        requires { length self.old.cursor.rest.now ≤ self.old.end }
        ensures value { (x : Tree) → Shows self.old.nodes.items left x
            → Finds (Grows x self.old.nodes.items self.new.nodes.items)
            (λ turns. ands_from (unary_at turns depth) turns
            (place self.old.end self.old.cursor.rest.now) x) result self.old.cursor.rest.now self.new.cursor.rest.now }
        ensures end { self.new.end ≡ self.old.end }
        ensures shrinks { length self.new.cursor.rest.now ≤ length self.old.cursor.rest.now }
    {
        let conjunction = self.more(Level::And, depth, left)?;
        self.more(Level::Or, depth, conjunction)
    }

    /// The rest of an expression behind its first sum.
    fn compares_from(&mut self, depth: u32, left: usize) -> Result<usize, Stop>
        requires { length self.old.cursor.rest.now ≤ self.old.end }
        ensures value { (x : Tree) → Shows self.old.nodes.items left x
            → Finds (Grows x self.old.nodes.items self.new.nodes.items)
            (λ turns. compares_from (unary_at turns depth) turns
            (place self.old.end self.old.cursor.rest.now) x) result self.old.cursor.rest.now self.new.cursor.rest.now }
        ensures end { self.new.end ≡ self.old.end }
        ensures shrinks { length self.new.cursor.rest.now ≤ length self.old.cursor.rest.now }
    {
        let compared = self.compared_with(depth, left)?;
        self.ands_from(depth, compared)
    }

    /// The rest of an expression behind its first product.
    fn sums_from(&mut self, depth: u32, left: usize) -> Result<usize, Stop>
        requires { length self.old.cursor.rest.now ≤ self.old.end }
        ensures value { (x : Tree) → Shows self.old.nodes.items left x
            → Finds (Grows x self.old.nodes.items self.new.nodes.items)
            (λ turns. sums_from (unary_at turns depth) turns
            (place self.old.end self.old.cursor.rest.now) x) result self.old.cursor.rest.now self.new.cursor.rest.now }
        ensures end { self.new.end ≡ self.old.end }
        ensures shrinks { length self.new.cursor.rest.now ≤ length self.old.cursor.rest.now }
    {
        let sum = self.more(Level::Sum, depth, left)?;
        self.compares_from(depth, sum)
    }

    /// The rest of an expression behind its first unary.
    fn products_from(&mut self, depth: u32, left: usize) -> Result<usize, Stop>
        requires { length self.old.cursor.rest.now ≤ self.old.end }
        ensures value { (x : Tree) → Shows self.old.nodes.items left x
            → Finds (Grows x self.old.nodes.items self.new.nodes.items)
            (λ turns. expression_from (unary_at turns depth) turns
            (place self.old.end self.old.cursor.rest.now) x) result self.old.cursor.rest.now self.new.cursor.rest.now }
        ensures end { self.new.end ≡ self.old.end }
        ensures shrinks { length self.new.cursor.rest.now ≤ length self.old.cursor.rest.now }
    {
        let product = self.more(Level::Product, depth, left)?;
        self.sums_from(depth, product)
    }

    /// The rest of an expression behind its left side and the `==` at a place.
    fn equal_from(&mut self, depth: u32, at: u32, left: usize) -> Result<usize, Stop>
        requires { length self.old.cursor.rest.now ≤ self.old.end }
        ensures value { (x : Tree) → Shows self.old.nodes.items left x
            → Finds (Grows x self.old.nodes.items self.new.nodes.items)
            (λ turns. equal_from (unary_at turns depth) turns at
            (place self.old.end self.old.cursor.rest.now) x) result self.old.cursor.rest.now self.new.cursor.rest.now }
        ensures end { self.new.end ≡ self.old.end }
        ensures shrinks { length self.new.cursor.rest.now ≤ length self.old.cursor.rest.now }
    {
        let right = self.chain(Level::Sum, depth)?;
        let operator = Operator::Equal;
        let whole = keep(
            &mut self.nodes,
            Node::Binary {
                at,
                operator,
                left,
                right,
            },
        )?;
        self.ands_from(depth, whole)
    }

    /// What stands behind a name alone: a value for it, a comparison with it, or the rest of another expression.
    fn after_name(&mut self, depth: u32, at: u32, name: Vec<u8>) -> Result<usize, Stop>
        requires { length self.old.cursor.rest.now ≤ self.old.end }
        ensures value { Finds (Puts self.old.nodes.items self.new.nodes.items)
            (λ turns. after_name (unary_at turns depth) turns at name.items
            (place self.old.end self.old.cursor.rest.now)) result self.old.cursor.rest.now self.new.cursor.rest.now }
        ensures end { self.new.end ≡ self.old.end }
        ensures shrinks { length self.new.cursor.rest.now ≤ length self.old.cursor.rest.now }
    {
        let equals = self.at();
        if !self.cursor.takes(b'=') {
            let first = keep(&mut self.nodes, Node::Name { at, name })?;
            return self.products_from(depth, first);
        }
        if self.cursor.takes(b'=') {
            let left = keep(&mut self.nodes, Node::Name { at, name })?;
            return self.equal_from(depth, equals, left);
        }
        let value = self.chain(Level::Or, depth)?;
        keep(&mut self.nodes, Node::Assigned { at, name, value })
    }

    /// A statement that begins with a letter.
    fn named(&mut self, depth: u32) -> Result<usize, Stop>
        requires { length self.old.cursor.rest.now ≤ self.old.end }
        ensures value { Finds (Puts self.old.nodes.items self.new.nodes.items)
            (λ turns. named_at depth turns (place self.old.end self.old.cursor.rest.now))
            result self.old.cursor.rest.now self.new.cursor.rest.now }
        ensures end { self.new.end ≡ self.old.end }
        ensures shrinks { length self.new.cursor.rest.now ≤ length self.old.cursor.rest.now }
    {
        let at = self.at();
        let name = self.name()?;
        let Some(function) = self.called(depth, name.as_slice()) else {
            blanks(&mut self.cursor);
            return self.after_name(depth, at, name);
        };
        let call = self.arguments(depth, at, function)?;
        blanks(&mut self.cursor);
        self.products_from(depth, call)
    }

    /// A statement in which so many may nest.
    pub(crate) fn statement(&mut self, depth: u32) -> Result<usize, Stop>
        requires nests { 0 < depth }
        requires place { length self.old.cursor.rest.now ≤ self.old.end }
        ensures value { Finds (Puts self.old.nodes.items self.new.nodes.items)
            (λ turns. statement_at (depth - 1) turns
            (place self.old.end self.old.cursor.rest.now)) result self.old.cursor.rest.now self.new.cursor.rest.now }
        ensures end { self.new.end ≡ self.old.end }
        ensures shrinks { length self.new.cursor.rest.now ≤ length self.old.cursor.rest.now }
    {
        blanks(&mut self.cursor);
        if self.next_is_letter() {
            return self.named(depth);
        }
        self.chain(Level::Or, depth)
    }
}
