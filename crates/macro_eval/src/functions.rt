//! What functions make of their arguments. `at` is the call's first byte.

ghost use Rattle.std.specs.Prelude.{◌≡◌, ◌≢◌, ℤ, List, ℕ, IfOk, IfErr, IfSome, Some, None, pos, is_some, ◌<◌, ◌≤◌, ◌^◌, length, true};
ghost use Rattle.reading.specs.Number.{value_after};
ghost use Rattle.names.specs.TokenId.{id_of};
ghost use Rattle.std.specs.Option.{option_copied};
ghost use Rattle.std.specs.List.{list_all};
ghost use Rattle.std.specs.Char.{is_ascii_digit};
ghost use Rattle.names.specs.declared.kinds.PropClass.TheVariants.{Public, Secret};
ghost use Rattle.macro_eval.specs.Held.{Held, running};
ghost use Rattle.macro_eval.specs.Steps.{whole as whole_lem};
ghost use Rattle.readable.specs.Table.{readable as readable_lem};
ghost use Rattle.macro_eval.specs.Settings.{given};
ghost use Rattle.macro_eval.specs.Functions.{called0 as called0_lem, called1 as called1_lem, called2 as called2_lem, called3 as called3_lem, property as property_lem, has_property as has_property_lem, argued as argued_lem, argument_of as argument_of_lem, number_in as number_in_lem, digits_of as digits_of_lem, are_digits as are_digits_lem, spelt as spelt_lem, least as least_lem, greatest as greatest_lem, set_property as set_property_lem, intends as intends_lem};
ghost use Rattle.macro_eval.specs.Operators.{number as number_lem};
ghost use Rattle.macro_eval.specs.Answers.{Answers, Worded};

use crate::intent::Intent;
use crate::operators::{number, shown, text, truth, whole};
use crate::setting::Setting;
use crate::state::State;
use crate::stop::{FaultKind, MacroStop, fault};
use crate::texts::copied;
use crate::value::Value;
use macro_grammar::Function;
use names::{PropClass, Tag, Text, TokenId};

/// How many bytes a property's value has at most.
const VALUE_LIMIT: usize = 200;

/// The value has to be a text.
fn words(at: u32, value: &Value) -> Result<&Text, MacroStop>
    ensures { Worded at value.now result }
{
    match value {
        Value::Text(text) => Ok(text),
        Value::Whole(_) => Err(MacroStop::Fault {
            kind: FaultKind::NotText,
            at,
        }),
    }
}

fn least(x: i64, y: i64) -> i64
    ensures { result ≡ least_lem x y }
{
    if x <= y { x } else { y }
}

fn greatest(x: i64, y: i64) -> i64
    ensures { result ≡ greatest_lem x y }
{
    if x <= y { y } else { x }
}

impl Setting<'_> {
    /// A property that can be read, by texts that need be no id and no tag.
    fn readable(&self, class: PropClass, token: &Text, name: &Text) -> Option<&Text>
        ensures { option_copied result ≡ readable_lem self.now.readable.now class token.now name.now }
    {
        let Ok(id) = TokenId::read(token.text().as_bytes()) else {
            return None;
        };
        let Ok(name) = Tag::read(name.text().as_bytes()) else {
            return None;
        };
        self.readable.find(id, class, name)
    }

    /// The value of a property that can be read.
    fn property(
        &self,
        at: u32,
        class: PropClass,
        token: &Value,
        name: &Value,
    ) -> Result<Value, MacroStop>
        ensures { (h : Held) → Answers (property_lem (given self.now) at class token.now name.now (running h)) result h }
    {
        let token = words(at, token)?;
        let name = words(at, name)?;
        let Some(value) = self.readable(class, token, name) else {
            return Err(fault(FaultKind::NoProp, at));
        };
        text(at, copied(value)?)
    }

    fn has_property(&self, at: u32, token: &Value, name: &Value) -> Result<Value, MacroStop>
        ensures { (h : Held) → Answers (has_property_lem (given self.now) at token.now name.now (running h)) result h }
    {
        let token = words(at, token)?;
        let name = words(at, name)?;
        truth(self.readable(PropClass::Public, token, name).is_some())
    }

    /// A function without arguments.
    pub(crate) fn called0(&self, at: u32, function: Function) -> Result<Value, MacroStop>
        ensures { (h : Held) → Answers (called0_lem (given self.now) at function (running h)) result h }
    {
        match function {
            Function::Argc => whole(i64::try_from(self.args.len()).ok()),
            _ => Err(fault(FaultKind::BadArg, at)),
        }
    }

    /// An argument of the macro.
    fn argument(&self, at: u32, value: &Value) -> Result<Value, MacroStop>
        ensures { (h : Held) → Answers (number_lem at value.now
            (λ k. argued_lem at (argument_of_lem self.now.args.now k) (running h))) result h }
    {
        let number = number(at, value)?;
        let Ok(place) = usize::try_from(number) else {
            return Err(fault(FaultKind::BadArg, at));
        };
        let Some(argument) = self.args.get(place) else {
            return Err(fault(FaultKind::BadArg, at));
        };
        text(at, copied(argument)?)
    }

    /// A function of one argument.
    pub(crate) fn called1(
        &self,
        at: u32,
        function: Function,
        value: &Value,
    ) -> Result<Value, MacroStop>
        ensures { (h : Held) → Answers (called1_lem (given self.now) at function value.now (running h)) result h }
    {
        match function {
            Function::Arg => self.argument(at, value),
            Function::Abs => {
                let number = number(at, value)?;
                whole(number.checked_abs())
            }
            Function::Len => {
                let text = words(at, value)?;
                whole(i64::try_from(text.text().len()).ok())
            }
            Function::Num => number_in(at, value),
            _ => Err(fault(FaultKind::BadArg, at)),
        }
    }

    /// A function of two arguments.
    pub(crate) fn called2(
        &self,
        at: u32,
        function: Function,
        first: &Value,
        second: &Value,
    ) -> Result<Value, MacroStop>
        ensures { (h : Held) → Answers (called2_lem (given self.now) at function first.now second.now (running h)) result h }
    {
        match function {
            Function::Prop => self.property(at, PropClass::Public, first, second),
            Function::Own => self.property(at, PropClass::Own, first, second),
            Function::Secret => self.property(at, PropClass::Secret, first, second),
            Function::Has => self.has_property(at, first, second),
            Function::Min => {
                let x = number(at, first)?;
                let y = number(at, second)?;
                Ok(Value::Whole(least(x, y)))
            }
            Function::Max => {
                let x = number(at, first)?;
                let y = number(at, second)?;
                Ok(Value::Whole(greatest(x, y)))
            }
            _ => Err(fault(FaultKind::BadArg, at)),
        }
    }

    /// A property is to be set, where the seat may change the token.
    fn intends(
        &self,
        at: u32,
        class: PropClass,
        token: &Text,
        name: &Text,
        value: Value,
        state: &mut State,
    ) -> Result<Value, MacroStop>
        requires { class ≢ Secret }
        ensures { Answers (intends_lem (given self.now) at class (id_of token.now) name.now value (running state.old)) result state.new }
    {
        let Ok(id) = TokenId::read(token.text().as_bytes()) else {
            return Err(fault(FaultKind::NotYours, at));
        };
        if !self.readable.is_yours(&id) {
            return Err(fault(FaultKind::NotYours, at));
        }
        let Ok(name) = Tag::read(name.text().as_bytes()) else {
            return Err(fault(FaultKind::BadName, at));
        };
        let shown = shown(self.alloc, &value)?;
        if shown.text().len() > VALUE_LIMIT {
            return Err(fault(FaultKind::LongValue, at));
        }
        state.intend(Intent {
            id,
            class,
            name,
            value: shown,
        })?;
        Ok(value)
    }

    /// A function of three arguments.
    pub(crate) fn called3(
        &self,
        at: u32,
        function: Function,
        token: &Value,
        name: &Value,
        value: Value,
        state: &mut State,
    ) -> Result<Value, MacroStop>
        ensures { Answers (called3_lem (given self.now) at function token.now name.now value (running state.old)) result state.new }
    {
        let class = match function {
            Function::SetProp => PropClass::Public,
            Function::SetOwn => PropClass::Own,
            _ => return Err(fault(FaultKind::BadArg, at)),
        };
        let token = words(at, token)?;
        let name = words(at, name)?;
        self.intends(at, class, token, name, value, state)
    }
}

/// Whether these are 1 to 18 digits.
fn are_digits(text: &[u8]) -> bool
    ensures { result ≡ are_digits_lem text.now }
{
    1 <= text.len() && text.len() <= 18 && all_digits(text)
}

fn all_digits(text: &[u8]) -> bool
    ensures { result ≡ list_all is_ascii_digit text.now }
{
    text.iter().all(|byte| byte.is_ascii_digit())
}

/// What 1 to 18 digits come to.
fn digits_of(text: &[u8]) -> Option<u64>
    ensures value { result ≡ digits_of_lem text.now }
    ensures bound { IfSome result (λ n. n < 10 ^ 18) }
{
    if !are_digits(text) {
        return None;
    }
    Some(value_of_digits(text))
}

/// What a few digits come to.
fn value_of_digits(text: &[u8]) -> u64
    requires digits { list_all is_ascii_digit text.now ≡ true }
    requires few { length text.now ≤ 18 }
    ensures value { result ≡ value_after 0 text.now }
    ensures bound { result < 10 ^ 18 }
{
    let mut value: u64 = 0;
    for byte in text {
        value = 10 * value + u64::from(*byte - b'0');
    }
    value
}

/// The number that a value is, or that its text spells.
fn number_in(at: u32, value: &Value) -> Result<Value, MacroStop>
    ensures { (h : Held) → Answers (number_in_lem at value.now (running h)) result h }
{
    match value {
        Value::Whole(number) => Ok(Value::Whole(*number)),
        Value::Text(text) => match spelt(text.text().as_bytes()) {
            Some(number) => Ok(Value::Whole(number)),
            None => Err(fault(FaultKind::NotNumber, at)),
        },
    }
}

/// The number that a text spells: a minus or none, and 1 to 18 digits.
fn spelt(text: &[u8]) -> Option<i64>
    ensures { result ≡ spelt_lem text.now }
{
    match text.split_first() {
        None => None,
        Some((first, rest)) => {
            if *first == b'-' {
                match digits_of(rest) {
                    Some(number) => Some(-(number as i64)),
                    None => None,
                }
            } else {
                match digits_of(text) {
                    Some(number) => Some(number as i64),
                    None => None,
                }
            }
        }
    }
}
