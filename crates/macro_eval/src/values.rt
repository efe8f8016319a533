//! What nodes are worth. A node stands behind its parts, so that the calls among these functions go down to lower nodes.

ghost use Rattle.std.specs.Prelude.{◌≡◌, ◌<◌, ◌≤◌, ℕ, true, slice_get, length, suc, Some, Err, IfOk, IfErr};
ghost use Rattle.macro_parse.specs.Flat.{NodesFit};
ghost use Rattle.macro_eval.specs.Held.{Held, running};
ghost use Rattle.macro_eval.specs.Steps.{State as StateLem, follow, text as text_lem};
ghost use Rattle.macro_eval.specs.Operators.{negated as negated_lem, inverted as inverted_lem, operated, short as short_lem, combined as combined_lem};
ghost use Rattle.macro_eval.specs.Settings.{given};
ghost use Rattle.macro_eval.specs.Functions.{Setting as SettingLem, called0 as called0_lem, called1 as called1_lem, called2 as called2_lem, called3 as called3_lem};
ghost use Rattle.macro_eval.specs.Nodes.{assigned as assigned_lem};
ghost use Rattle.macro_parse.specs.Trees.{tree_at, Stands};
ghost use Rattle.macro_eval.specs.Flat.{value_at, spent_of, called_of, NodeStands, ArgumentsStand, MeansSpent};
ghost use Rattle.macro_eval.specs.Answers.{Answers};

use crate::operators::{combined, decides, inverted, lastly, negated, number, text, truth, whole};
use crate::setting::Setting;
use crate::state::State;
use crate::stop::MacroStop;
use crate::texts::copied;
use crate::value::Value;
use macro_grammar::{Function, Operator};
use macro_parse::{Arguments, Node};
use names::Text;
use std::alloc::Global;

/// A node that stands, which means what its tree means once its unit is used.
fn standing(nodes: &[Node], place: usize) -> &Node
    requires stands { Stands nodes.now place }
    requires fits { NodesFit nodes.now }
    ensures stands { NodeStands nodes.now place result.now }
    ensures value { (g : SettingLem) (s : StateLem) → MeansSpent g nodes.now place result.now s }
{
    node_at(nodes, place)
}

fn node_at(nodes: &[Node], place: usize) -> &Node
    requires { place < length nodes.now }
    ensures { slice_get nodes.now place ≡ Some result.now }
{
    &nodes[place]
}

impl Setting<'_> {
    /// The value of a node.
    #[cycle(values)]
    pub(crate) fn value(&self, node: usize, state: &mut State) -> Result<Value, MacroStop>
        requires stands { Stands self.now.nodes.now node }
        requires fits { NodesFit self.now.nodes.now }
        ensures { Answers (value_at (given self.now) self.now.nodes.now node (running state.old)) result state.new }
    {
        match state.spend() {
            Ok(()) => self.spent(node, standing(self.nodes, node), state),
            Err(stop) => Err(stop),
        }
    }

    /// The value of a node whose unit is used.
    #[cycle(values)]
    fn spent(&self, place: usize, node: &Node, state: &mut State) -> Result<Value, MacroStop>
        requires stands { NodeStands self.now.nodes.now place node.now }
        requires fits { NodesFit self.now.nodes.now }
        ensures { Answers (spent_of (given self.now) self.now.nodes.now node.now (running state.old)) result state.new }
    {
        match node {
            Node::Number { at: _, value } => whole(i64::try_from(*value).ok()),
            Node::Dice { at: _, group } => state.roll(group),
            Node::Quoted { at, text } => self.quoted(*at, text),
            Node::Name { at, name } => state.known(*at, name.as_slice()),
            Node::Call {
                at,
                function,
                arguments,
            } => self.call(place, *at, *function, *arguments, state),
            Node::Negated { at, of } => self.negated(*at, *of, state),
            Node::Inverted { at, of } => self.inverted(*at, *of, state),
            Node::Binary {
                at,
                operator,
                left,
                right,
            } => self.binary(*at, *operator, *left, *right, state),
            Node::Assigned { at: _, name, value } => self.assigned(name.as_slice(), *value, state),
        }
    }
}

impl Setting<'_> {
    /// A quoted text.
    fn quoted(&self, at: u32, quoted: &Text) -> Result<Value, MacroStop>
        ensures { (h : Held) → Answers (text_lem at quoted.now (running h)) result h }
    {
        let copy = copied(quoted)?;
        text(at, copy)
    }

    #[cycle(values)]
    fn negated(&self, at: u32, of: usize, state: &mut State) -> Result<Value, MacroStop>
        requires stands { Stands self.now.nodes.now of }
        requires fits { NodesFit self.now.nodes.now }
        ensures { Answers (follow (value_at (given self.now) self.now.nodes.now of (running state.old))
            (λ a s. negated_lem at a s)) result state.new }
    {
        let value = self.value(of, state)?;
        negated(at, &value)
    }

    #[cycle(values)]
    fn inverted(&self, at: u32, of: usize, state: &mut State) -> Result<Value, MacroStop>
        requires stands { Stands self.now.nodes.now of }
        requires fits { NodesFit self.now.nodes.now }
        ensures { Answers (follow (value_at (given self.now) self.now.nodes.now of (running state.old))
            (λ a s. inverted_lem at a s)) result state.new }
    {
        let value = self.value(of, state)?;
        inverted(at, &value)
    }

    #[cycle(values)]
    fn assigned(&self, name: &[u8], of: usize, state: &mut State) -> Result<Value, MacroStop>
        requires stands { Stands self.now.nodes.now of }
        requires fits { NodesFit self.now.nodes.now }
        ensures { Answers (follow (value_at (given self.now) self.now.nodes.now of (running state.old))
            (λ a s. assigned_lem name.now a s)) result state.new }
    {
        let value = self.value(of, state)?;
        state.assigned(name, value)
    }

    /// An operator over its two sides.
    #[cycle(values)]
    fn binary(
        &self,
        at: u32,
        operator: Operator,
        left: usize,
        right: usize,
        state: &mut State,
    ) -> Result<Value, MacroStop>
        requires left { Stands self.now.nodes.now left }
        requires right { Stands self.now.nodes.now right }
        requires fits { NodesFit self.now.nodes.now }
        ensures { Answers (operated at operator (λ s. value_at (given self.now) self.now.nodes.now left s)
            (λ s. value_at (given self.now) self.now.nodes.now right s) (running state.old)) result state.new }
    {
        match operator {
            Operator::Or => self.either(at, true, left, right, state),
            Operator::And => self.either(at, false, left, right, state),
            _ => self.both(at, operator, left, right, state),
        }
    }

    #[cycle(values)]
    fn both(
        &self,
        at: u32,
        operator: Operator,
        left: usize,
        right: usize,
        state: &mut State,
    ) -> Result<Value, MacroStop>
        requires left { Stands self.now.nodes.now left }
        requires right { Stands self.now.nodes.now right }
        requires fits { NodesFit self.now.nodes.now }
        ensures { Answers (follow (value_at (given self.now) self.now.nodes.now left (running state.old))
            (λ a s. follow (value_at (given self.now) self.now.nodes.now right s)
            (λ b s. combined_lem at operator a b s))) result state.new }
    {
        let a = self.value(left, state)?;
        let b = self.value(right, state)?;
        combined(self.alloc, at, operator, &a, &b)
    }

    /// `||`, which true decides, or `&&`, which false does. The right side is evaluated only where the left one doesn't decide.
    #[cycle(values)]
    fn either(
        &self,
        at: u32,
        decider: bool,
        left: usize,
        right: usize,
        state: &mut State,
    ) -> Result<Value, MacroStop>
        requires left { Stands self.now.nodes.now left }
        requires right { Stands self.now.nodes.now right }
        requires fits { NodesFit self.now.nodes.now }
        ensures { Answers (follow (value_at (given self.now) self.now.nodes.now left (running state.old))
            (λ a s. short_lem at decider a (λ s. value_at (given self.now) self.now.nodes.now right s) s)) result state.new }
    {
        let a = self.value(left, state)?;
        let number = number(at, &a)?;
        if decides(decider, number) {
            return truth(decider);
        }
        let b = self.value(right, state)?;
        lastly(at, &b)
    }

    /// A call of a function.
    #[cycle(values)]
    fn call(
        &self,
        place: usize,
        at: u32,
        function: Function,
        arguments: Arguments,
        state: &mut State,
    ) -> Result<Value, MacroStop>
        requires stands { ArgumentsStand self.now.nodes.now place arguments }
        requires fits { NodesFit self.now.nodes.now }
        ensures { Answers (called_of (given self.now) self.now.nodes.now at function arguments (running state.old)) result state.new }
    {
        match arguments {
            Arguments::Nothing => self.called0(at, function),
            Arguments::One(first) => self.call1(at, function, first, state),
            Arguments::Two(first, second) => self.call2(at, function, first, second, state),
            Arguments::Three(first, second, third) => {
                self.call3(at, function, first, second, third, state)
            }
        }
    }

    #[cycle(values)]
    fn call1(
        &self,
        at: u32,
        function: Function,
        first: usize,
        state: &mut State,
    ) -> Result<Value, MacroStop>
        requires first { Stands self.now.nodes.now first }
        requires fits { NodesFit self.now.nodes.now }
        ensures { Answers (follow (value_at (given self.now) self.now.nodes.now first (running state.old))
            (λ a s. called1_lem (given self.now) at function a s)) result state.new }
    {
        let a = self.value(first, state)?;
        self.called1(at, function, &a)
    }

    #[cycle(values)]
    fn call2(
        &self,
        at: u32,
        function: Function,
        first: usize,
        second: usize,
        state: &mut State,
    ) -> Result<Value, MacroStop>
        requires first { Stands self.now.nodes.now first }
        requires second { Stands self.now.nodes.now second }
        requires fits { NodesFit self.now.nodes.now }
        ensures { Answers (follow (value_at (given self.now) self.now.nodes.now first (running state.old))
            (λ a s. follow (value_at (given self.now) self.now.nodes.now second s)
            (λ b s. called2_lem (given self.now) at function a b s))) result state.new }
    {
        let a = self.value(first, state)?;
        let b = self.value(second, state)?;
        self.called2(at, function, &a, &b)
    }

    #[cycle(values)]
    fn call3(
        &self,
        at: u32,
        function: Function,
        first: usize,
        second: usize,
        third: usize,
        state: &mut State,
    ) -> Result<Value, MacroStop>
        requires first { Stands self.now.nodes.now first }
        requires second { Stands self.now.nodes.now second }
        requires third { Stands self.now.nodes.now third }
        requires fits { NodesFit self.now.nodes.now }
        ensures { Answers (follow (value_at (given self.now) self.now.nodes.now first (running state.old))
            (λ a s. follow (value_at (given self.now) self.now.nodes.now second s)
            (λ b s. follow (value_at (given self.now) self.now.nodes.now third s)
            (λ c s. called3_lem (given self.now) at function a b c s)))) result state.new }
    {
        let a = self.value(first, state)?;
        let b = self.value(second, state)?;
        let c = self.value(third, state)?;
        self.called3(at, function, &a, &b, c, state)
    }
}
