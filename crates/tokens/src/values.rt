//! Values under names.
ghost use Rattle.std.specs.Prelude.{◌≡◌, ◌<◌, ◌≤◌, ◌↔◌, true, [], length, slice_get, Some, None, Err, IfOk, OnOk, OnErr, IfSome, IfNone};
ghost use Rattle.std.specs.Option.{option_copied};
ghost use Rattle.std.specs.List.{IsDistinct};
ghost use Rattle.std.specs.Map.{keys_of};
ghost use Rattle.std.specs.Str.{bytes_eq};
ghost use Rattle.tokens.specs.Properties.{is_full_for, name_limit, value_limit, value_of, with_value};
ghost use Rattle.tokens.specs.declared.props.PropFault.TheVariants.{PropertyLimit};

use crate::prop_name::PropName;
use crate::props::PropFault;
use indexmap::IndexMap;
use names::{Memory, Tag, Text};
use std::alloc::Global;
use std::marker::Model;

/// How many names a class of properties has at most.
const NAME_LIMIT: usize = 64;

/// Values under names, in the order in which the names were first set: at most 64 names, and values
/// of at most 200 bytes.
#[derive(Drop)]
pub(crate) struct Values {
    values: IndexMap<PropName, Text>,
}

impl Model for Values {
    ghost use Rattle.std.specs.Prelude.{List};
    ghost use Rattle.tokens.specs.Properties.{AreInLimits, Property};

    ghost Value = { List Property };

    ghost view = { λ p. p.values.entries };

    ghost invariant = { λ p. AreInLimits p.values.entries };
}

impl Values {
    /// No values.
    pub(crate) fn new(alloc: Global) -> Values
        ensures { result ≡ [] }
    {
        Values {
            values: IndexMap::new(alloc),
        }
    }

    /// How many names there are, at most 64.
    pub(crate) fn len(&self) -> usize
        ensures value { result ≡ length self.now }
        ensures limit { result ≤ name_limit }
        ensures distinct { IsDistinct bytes_eq (keys_of self.now) }
    {
        self.values.len()
    }

    /// The name that was first set at that place, and its value.
    pub(crate) fn at(&self, place: usize) -> (Tag, &Text)
        requires { place < length self.now }
        ensures entry { slice_get self.now place ≡ Some (result.0, result.1.now) }
        ensures limit { length result.1.now ≤ value_limit }
    {
        value_at(&self.values, place)
    }

    /// The value under a name; `None` exactly where the name isn't there.
    pub(crate) fn find(&self, name: Tag) -> Option<&Text>
        ensures value { option_copied result ≡ value_of name self.now }
    {
        self.values.get(&PropName { tag: name })
    }

    /// Whether the name is new and there are 64 names, so that it can't be set.
    pub(crate) fn is_full_for(&self, name: Tag) -> bool
        ensures { result ≡ is_full_for name self.now }
    {
        self.find(name).is_none() && self.values.len() >= NAME_LIMIT
    }

    /// Sets a name to a value of at most 200 bytes. A name that is there keeps its place, and a new name goes last;
    /// all other names keep their places and values.
    ///
    /// `PropertyLimit` exactly where the name is new and there are 64 names. After a fault the properties are as
    /// before.
    pub(crate) fn set(&mut self, name: Tag, value: Text) -> Result<(), PropFault>
        requires { length value ≤ value_limit }
        ensures ok { OnOk result (self.new ≡ with_value name value self.old) }
        ensures limit { (result ≡ Err PropertyLimit) ↔ (is_full_for name self.old ≡ true) }
        ensures unchanged { OnErr result (self.new ≡ self.old) }
    {
        if self.is_full_for(name) {
            return Err(PropFault::PropertyLimit);
        }
        match put_value(&mut self.values, name, value) {
            Ok(()) => Ok(()),
            Err(Memory) => Err(PropFault::Memory),
        }
    }

    /// Equal values, or `Memory` for want of memory.
    pub(crate) fn copy(&self) -> Result<Values, Memory>
        ensures { IfOk result (λ p. p ≡ self.now) }
    {
        let values = copy_values(&self.values)?;
        Ok(Values { values })
    }
}

/// Puts a value under a name.
fn put_value(values: &mut IndexMap<PropName, Text>, name: Tag, value: Text) -> Result<(), Memory>
    ensures entries { OnOk result (values.new.entries ≡ with_value name value values.old.entries) }
    ensures unchanged { OnErr result (values.new.entries ≡ values.old.entries) }
{
    values.insert(PropName { tag: name }, value)?;
    Ok(())
}

/// The same values under the same names, in the same order.
fn copy_values(values: &IndexMap<PropName, Text>) -> Result<IndexMap<PropName, Text>, Memory>
    ensures { IfOk result (λ copy. copy.entries ≡ values.now.entries) }
{
    let alloc = *values.allocator();
    let mut copy = IndexMap::new(alloc);
    for place in 0..values.len() {
        let (name, value) = value_at(values, place);
        put_value(&mut copy, name, value.share()?)?;
    }
    Ok(copy)
}

fn value_at(values: &IndexMap<PropName, Text>, place: usize) -> (Tag, &Text)
    requires { place < length values.now.entries }
    ensures { slice_get values.now.entries place ≡ Some (result.0, result.1.now) }
{
    match values.get_index(place) {
        Some((name, value)) => (name.tag, value),
        None => unreachable!(),
    }
}
