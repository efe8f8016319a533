//! The properties of a token, of one class.
ghost use Rattle.std.specs.Prelude.{◌≡◌, ◌<◌, ◌≤◌, ◌↔◌, false, true, [], length, slice_get, Some, Err, IfOk, OnOk, OnErr};
ghost use Rattle.std.specs.Option.{option_copied};
ghost use Rattle.std.specs.List.{IsDistinct};
ghost use Rattle.std.specs.Map.{keys_of};
ghost use Rattle.std.specs.Str.{bytes_eq};
ghost use Rattle.tokens.specs.Properties.{is_full_for, name_limit, value_limit, value_of, with_value};
ghost use Rattle.tokens.specs.Shared.{values_in};
ghost use Rattle.tokens.specs.declared.props.PropFault.TheVariants.{PropertyLimit};

use crate::values::Values;
use names::{Memory, Tag, Text};
use std::alloc::Global;
use std::marker::Model;
use std::sync::Arc;

/// Why a property isn't set.
#[derive(Clone, Copy, Debug, PartialEq, Eq)]
pub enum PropFault {
    /// The name is new, and there are 64 names.
    PropertyLimit,
    /// Want of memory.
    Memory,
}

/// Values under names, in the order in which the names were first set: at most 64 names, and values
/// of at most 200 bytes.
///
/// A copy shares its values with the original, until one of them is set.
#[derive(Drop)]
pub struct Props {
    alloc: Global,
    /// None where no name was ever set.
    shared: Option<Arc<Values>>,
}

impl Model for Props {
    ghost use Rattle.std.specs.Prelude.{List};
    ghost use Rattle.tokens.specs.Properties.{Property};
    ghost use Rattle.tokens.specs.Shared.{values_in};

    ghost Value = { List Property };

    ghost view = { λ p. values_in p.shared };
}

impl Props {
    /// No properties.
    pub fn new(alloc: Global) -> Props
        ensures { result ≡ [] }
    {
        Props {
            alloc,
            shared: None,
        }
    }

    /// How many names there are, at most 64.
    pub fn len(&self) -> usize
        ensures value { result ≡ length self.now }
        ensures limit { result ≤ name_limit }
        ensures distinct { IsDistinct bytes_eq (keys_of self.now) }
    {
        match &self.shared {
            Some(values) => values.len(),
            None => 0,
        }
    }

    /// The name that was first set at that place, and its value.
    pub fn at(&self, place: usize) -> (Tag, &Text)
        requires { place < length self.now }
        ensures entry { slice_get self.now place ≡ Some (result.0, result.1.now) }
        ensures limit { length result.1.now ≤ value_limit }
    {
        match &self.shared {
            Some(values) => values.at(place),
            None => unreachable!(),
        }
    }

    /// The value under a name; `None` exactly where the name isn't there.
    pub fn find(&self, name: Tag) -> Option<&Text>
        ensures value { option_copied result ≡ value_of name self.now }
    {
        match &self.shared {
            Some(values) => values.find(name),
            None => None,
        }
    }

    /// Whether the name is new and there are 64 names, so that it can't be set.
    pub fn is_full_for(&self, name: Tag) -> bool
        ensures { result ≡ is_full_for name self.now }
    {
        match &self.shared {
            Some(values) => values.is_full_for(name),
            None => false,
        }
    }

    /// Sets a name to a value of at most 200 bytes. A name that is there keeps its place, and a new name goes last;
    /// all other names keep their places and values.
    ///
    /// `PropertyLimit` exactly where the name is new and there are 64 names. After a fault the properties are as
    /// before.
    pub fn set(&mut self, name: Tag, value: Text) -> Result<(), PropFault>
        requires { length value ≤ value_limit }
        ensures ok { OnOk result (self.new ≡ with_value name value self.old) }
        ensures limit { (result ≡ Err PropertyLimit) ↔ (is_full_for name self.old ≡ true) }
        ensures unchanged { OnErr result (self.new ≡ self.old) }
    {
        if self.is_full_for(name) {
            return Err(PropFault::PropertyLimit);
        }
        if let Some(shared) = &mut self.shared {
            if let Some(values) = Arc::get_mut(shared) {
                return values.set(name, value);
            }
        }
        match self.set_apart(name, value) {
            Ok(()) => Ok(()),
            Err(Memory) => Err(PropFault::Memory),
        }
    }

    /// Sets a name, for which there is room, in values that nothing else shares.
    fn set_apart(&mut self, name: Tag, value: Text) -> Result<(), Memory>
        requires short { length value ≤ value_limit }
        requires room { is_full_for name self.old ≡ false }
        ensures ok { OnOk result (self.new ≡ with_value name value self.old) }
        ensures unchanged { OnErr result (self.new ≡ self.old) }
    {
        let mut values = self.copied()?;
        if values.set(name, value).is_err() {
            return Err(Memory);
        }
        self.shared = Some(Arc::new(self.alloc, values)?);
        Ok(())
    }

    /// Equal values that nothing else shares.
    fn copied(&self) -> Result<Values, Memory>
        ensures { IfOk result (λ values. values ≡ self.now) }
    {
        match &self.shared {
            Some(values) => values.copy(),
            None => Ok(Values::new(self.alloc)),
        }
    }

    /// Equal properties, or `Memory` for want of memory.
    pub fn copy(&self) -> Result<Props, Memory>
        ensures { IfOk result (λ p. p ≡ self.now) }
    {
        Ok(Props {
            alloc: self.alloc,
            shared: share(&self.shared)?,
        })
    }

    pub(crate) fn allocator(&self) -> Global {
        self.alloc
    }
}

/// The same values once more, shared.
fn share(shared: &Option<Arc<Values>>) -> Result<Option<Arc<Values>>, Memory>
    ensures { IfOk result (λ again. values_in again ≡ values_in shared.now) }
{
    match shared {
        Some(values) => Ok(Some(Arc::try_clone(values)?)),
        None => Ok(None),
    }
}
