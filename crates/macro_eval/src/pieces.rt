//! What the pieces of a macro say, and to whom.

ghost use Rattle.std.specs.Prelude.{◌≡◌, ◌≤◌, ◌++◌, ◌∷◌, [], ℕ, IfOk, IfErr, OnOk, Ok, pos, codes};
ghost use Rattle.macro_grammar.specs.Tree.{Number as TreeNumber, Addressed, Branched, AddressFirst, BranchFirst};
ghost use Rattle.macro_eval.specs.declared.way.Way.TheVariants.{Second as SecondWay};
ghost use Rattle.macro_parse.specs.Flat.{NodesFit};
ghost use Rattle.macro_eval.specs.Held.{Held, running};
ghost use Rattle.macro_eval.specs.Steps.{follow, shown as shown_lem, naming};
ghost use Rattle.macro_eval.specs.Settings.{given};
ghost use Rattle.macro_eval.specs.Pieces.{shown_of as shown_of_lem, rounds_of, joined as joined_lem, whispered as whispered_lem, address_of, counted as counted_lem, way_by as way_by_lem, way_of, options_of, body_of};
ghost use Rattle.macro_eval.specs.Operators.{number as number_lem};
ghost use Rattle.macro_eval.specs.Nodes.{value_of};
ghost use Rattle.macro_parse.specs.Trees.{tree_at, Stands, address_at, branch_at, options_at, second_at, AddressStands, BranchStands, OptionsStand, SecondStands};
ghost use Rattle.macro_eval.specs.Rounds.{round_of};
ghost use Rattle.macro_eval.specs.Answers.{Answers};

use crate::operators::{number, shown};
use crate::setting::Setting;
use crate::state::State;
use crate::stop::{FaultKind, MacroStop, fault};
use crate::texts::{joined, keep, text_of};
use crate::value::Value;
use crate::way::Way;
use chat::To;
use macro_parse::{Address, Branch, Options};
use names::{SeatNo, Text, Texts};

/// How often a statement is evaluated at most.
const MOST_TIMES: u32 = 1000;

impl Setting<'_> {
    /// The shown value of a statement.
    fn shown_of(&self, node: usize, state: &mut State) -> Result<Text, MacroStop>
        requires stands { Stands self.now.nodes.now node }
        requires fits { NodesFit self.now.nodes.now }
        ensures { Answers (shown_of_lem (given self.now) (tree_at self.now.nodes.now node) (running state.old)) result state.new }
    {
        let value = self.value(node, state)?;
        shown(self.alloc, &value)
    }

    /// A round of a `count`: its number is the name `count`, and its text is the shown value.
    fn round(&self, number: u32, node: usize, state: &mut State) -> Result<Text, MacroStop>
        requires stands { Stands self.now.nodes.now node }
        requires fits { NodesFit self.now.nodes.now }
        ensures { Answers (round_of (given self.now) (tree_at self.now.nodes.now node) number (running state.old)) result state.new }
    {
        state.set(b"count", Value::Whole(i64::from(number)))?;
        self.shown_of(node, state)
    }

    /// The texts of so many rounds.
    fn rounds(&self, times: u32, node: usize, state: &mut State) -> Result<Texts, MacroStop>
        requires stands { Stands self.now.nodes.now node }
        requires fits { NodesFit self.now.nodes.now }
        ensures { Answers (rounds_of (given self.now) (tree_at self.now.nodes.now node) 0 times (running state.old)) result state.new }
    {
        let mut texts = Vec::new(self.alloc);
        for number in 0..times {
            match self.round(number, node, state) {
                Ok(text) => keep(&mut texts, text)?,
                Err(stop) => return Err(stop),
            }
        }
        Ok(Texts { list: texts })
    }

    /// The seat that is whispered to.
    fn whispered(&self, at: u32, value: &Value) -> Result<Option<To>, MacroStop>
        requires { self.now.readable.now.seats ≤ 33 }
        ensures { (h : Held) → Answers (number_lem at value.now (λ z. whispered_lem (given self.now) at z (running h))) result h }
    {
        let number = number(at, value)?;
        let Ok(number) = u8::try_from(number) else {
            return Err(fault(FaultKind::NoSeat, at));
        };
        if number >= self.readable.seats() {
            return Err(fault(FaultKind::NoSeat, at));
        }
        match SeatNo::new(number) {
            Some(seat) => Ok(Some(To::Seat(seat))),
            None => Err(fault(FaultKind::NoSeat, at)),
        }
    }

    fn whisper(&self, at: u32, seat: usize, state: &mut State) -> Result<Option<To>, MacroStop>
        requires stands { Stands self.now.nodes.now seat }
        requires fits { NodesFit self.now.nodes.now }
        requires seats { self.now.readable.now.seats ≤ 33 }
        ensures { Answers (follow (value_of (given self.now) (tree_at self.now.nodes.now seat) (running state.old))
            (λ v s. number_lem at v (λ z. whispered_lem (given self.now) at z s))) result state.new }
    {
        let value = self.value(seat, state)?;
        self.whispered(at, &value)
    }

    /// Whom a roll is for: none, where it is for nobody.
    fn address(&self, address: &Address, state: &mut State) -> Result<Option<To>, MacroStop>
        requires stands { AddressStands self.now.nodes.now address.now }
        requires fits { NodesFit self.now.nodes.now }
        requires seats { self.now.readable.now.seats ≤ 33 }
        ensures { Answers (address_of (given self.now) (address_at self.now.nodes.now address.now) (running state.old)) result state.new }
    {
        match address {
            Address::Receivers { at: _ } => Ok(Some(self.to)),
            Address::Hidden { at: _ } => Ok(None),
            Address::Master { at: _ } => Ok(Some(To::Gm)),
            Address::Runner { at: _ } => Ok(Some(To::SelfOnly)),
            Address::Both { at: _ } => Ok(Some(To::GmSelf)),
            Address::Whisper { at, seat } => self.whisper(*at, *seat, state),
        }
    }

    fn counted(&self, at: u32, value: &Value) -> Result<Way, MacroStop>
        ensures { (h : Held) → Answers (number_lem at value.now (λ z. counted_lem at z (running h))) result h }
    {
        let number = number(at, value)?;
        let Ok(times) = u32::try_from(number) else {
            return Err(fault(FaultKind::BadCount, at));
        };
        if times > MOST_TIMES {
            return Err(fault(FaultKind::BadCount, at));
        }
        Ok(Way::Times(times))
    }

    fn chosen(&self, condition: usize, state: &mut State) -> Result<Way, MacroStop>
        requires stands { Stands self.now.nodes.now condition }
        requires fits { NodesFit self.now.nodes.now }
        ensures { Answers (follow (value_of (given self.now) (tree_at self.now.nodes.now condition) (running state.old))
            (λ v s. Ok (way_by_lem v, s))) result state.new }
    {
        let value = self.value(condition, state)?;
        Ok(way_by(&value))
    }

    fn times(&self, at: u32, times: usize, state: &mut State) -> Result<Way, MacroStop>
        requires stands { Stands self.now.nodes.now times }
        requires fits { NodesFit self.now.nodes.now }
        ensures { Answers (follow (value_of (given self.now) (tree_at self.now.nodes.now times) (running state.old))
            (λ v s. number_lem at v (λ z. counted_lem at z s))) result state.new }
    {
        let value = self.value(times, state)?;
        self.counted(at, &value)
    }

    /// What is evaluated of a roll.
    fn way(&self, branch: &Branch, state: &mut State) -> Result<Way, MacroStop>
        requires stands { BranchStands self.now.nodes.now branch.now }
        requires fits { NodesFit self.now.nodes.now }
        ensures { Answers (way_of (given self.now) (branch_at self.now.nodes.now branch.now) (running state.old)) result state.new }
    {
        match branch {
            Branch::If { at: _, condition } => self.chosen(*condition, state),
            Branch::Count { at, times } => self.times(*at, *times, state),
        }
    }

    fn addressed(
        &self,
        address: &Address,
        state: &mut State,
    ) -> Result<(Option<To>, Way), MacroStop>
        requires stands { AddressStands self.now.nodes.now address.now }
        requires fits { NodesFit self.now.nodes.now }
        requires seats { self.now.readable.now.seats ≤ 33 }
        ensures { Answers (options_of (given self.now) (Addressed (address_at self.now.nodes.now address.now))
            (running state.old)) result state.new }
    {
        let to = self.address(address, state)?;
        Ok((to, Way::First))
    }

    fn branched(&self, branch: &Branch, state: &mut State) -> Result<(Option<To>, Way), MacroStop>
        requires stands { BranchStands self.now.nodes.now branch.now }
        requires fits { NodesFit self.now.nodes.now }
        ensures { Answers (options_of (given self.now) (Branched (branch_at self.now.nodes.now branch.now))
            (running state.old)) result state.new }
    {
        let way = self.way(branch, state)?;
        Ok((Some(self.to), way))
    }

    fn address_first(
        &self,
        address: &Address,
        branch: &Branch,
        state: &mut State,
    ) -> Result<(Option<To>, Way), MacroStop>
        requires address { AddressStands self.now.nodes.now address.now }
        requires branch { BranchStands self.now.nodes.now branch.now }
        requires fits { NodesFit self.now.nodes.now }
        requires seats { self.now.readable.now.seats ≤ 33 }
        ensures { Answers (options_of (given self.now) (AddressFirst (address_at self.now.nodes.now address.now)
            (branch_at self.now.nodes.now branch.now)) (running state.old)) result state.new }
    {
        let to = self.address(address, state)?;
        let way = self.way(branch, state)?;
        Ok((to, way))
    }

    fn branch_first(
        &self,
        branch: &Branch,
        address: &Address,
        state: &mut State,
    ) -> Result<(Option<To>, Way), MacroStop>
        requires address { AddressStands self.now.nodes.now address.now }
        requires branch { BranchStands self.now.nodes.now branch.now }
        requires fits { NodesFit self.now.nodes.now }
        requires seats { self.now.readable.now.seats ≤ 33 }
        ensures { Answers (options_of (given self.now) (BranchFirst (branch_at self.now.nodes.now branch.now)
            (address_at self.now.nodes.now address.now)) (running state.old)) result state.new }
    {
        let way = self.way(branch, state)?;
        let to = self.address(address, state)?;
        Ok((to, way))
    }

    /// Whom a roll is for and what of it is evaluated, by its options in the order in which they stand.
    pub(crate) fn options(
        &self,
        options: &Options,
        state: &mut State,
    ) -> Result<(Option<To>, Way), MacroStop>
        requires stands { OptionsStand self.now.nodes.now options.now }
        requires fits { NodesFit self.now.nodes.now }
        requires seats { self.now.readable.now.seats ≤ 33 }
        ensures { Answers (options_of (given self.now) (options_at self.now.nodes.now options.now) (running state.old)) result state.new }
    {
        match options {
            Options::Addressed(address) => self.addressed(address, state),
            Options::Branched(branch) => self.branched(branch, state),
            Options::AddressFirst(address, branch) => self.address_first(address, branch, state),
            Options::BranchFirst(branch, address) => self.branch_first(branch, address, state),
        }
    }

    /// The second statement, or the empty text where there is none.
    fn second(&self, second: Option<usize>, state: &mut State) -> Result<Text, MacroStop>
        requires stands { SecondStands self.now.nodes.now second }
        requires fits { NodesFit self.now.nodes.now }
        ensures { Answers (body_of (given self.now) (TreeNumber 0 0) (second_at self.now.nodes.now second) SecondWay
            (running state.old)) result state.new }
    {
        match second {
            None => text_of(String::new(self.alloc)),
            Some(node) => self.shown_of(node, state),
        }
    }

    fn repeated(&self, times: u32, node: usize, state: &mut State) -> Result<Text, MacroStop>
        requires stands { Stands self.now.nodes.now node }
        requires fits { NodesFit self.now.nodes.now }
        ensures { Answers (follow (rounds_of (given self.now) (tree_at self.now.nodes.now node) 0 times (running state.old))
            (λ ts s. Ok (joined_lem ts, s))) result state.new }
    {
        let texts = self.rounds(times, node, state)?;
        joined(self.alloc, texts.list.as_slice())
    }

    /// The text of a roll.
    pub(crate) fn body(
        &self,
        first: usize,
        second: Option<usize>,
        way: Way,
        state: &mut State,
    ) -> Result<Text, MacroStop>
        requires first { Stands self.now.nodes.now first }
        requires second { SecondStands self.now.nodes.now second }
        requires fits { NodesFit self.now.nodes.now }
        ensures { Answers (body_of (given self.now) (tree_at self.now.nodes.now first) (second_at self.now.nodes.now second) way
            (running state.old)) result state.new }
    {
        match way {
            Way::First => self.shown_of(first, state),
            Way::Second => self.second(second, state),
            Way::Times(times) => self.repeated(times, first, state),
        }
    }
}

/// A text isn't 0.
fn way_by(value: &Value) -> Way
    ensures { result ≡ way_by_lem value.now }
{
    match value {
        Value::Whole(number) if *number == 0 => Way::Second,
        _ => Way::First,
    }
}
