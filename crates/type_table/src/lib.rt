//! Tables of named types, such as a campaign's light types.
//!
//! A table has at most 32 types, in byte order of their names. Contracts see it as the list of its names with their
//! values.
#![tactic(auto)]

ghost use Rattle.std.specs.Prelude.{◌≡◌, ◌≢◌, ◌<◌, ℕ, List, [], false, length, slice_get, Some, IfOk, IfErr, OnOk, OnErr, if◌then◌else◌};
ghost use Rattle.type_table.specs.Types.{type_of, with_type, lacks_room, AreTypes, AreCopies};

use names::{Memory, Tag};
use std::alloc::Global;
use std::collections::BTreeMap;
use std::marker::Model;

/// How many types a table has at most.
pub const MOST_TYPES: usize = 32;

/// Why a type isn't set.
#[derive(Clone, Copy, Debug, PartialEq, Eq)]
pub enum TypeFault {
    /// The name is new, and the table has 32 types.
    TypeLimit,
    /// Want of memory.
    Memory,
}

/// Named types, at most 32, in byte order of their names.
#[derive(Drop)]
pub struct TypeTable<V> {
    types: BTreeMap<Tag, V>,
}

impl<V> Model for TypeTable<V> {
    ghost use Rattle.std.specs.Prelude.{◌≤◌, ℕ, List, length};
    ghost use Rattle.std.specs.Coded.{coded_list, coded×, coded_ℕ};

    ghost Value = { List (List ℕ × V) };

    ghost coded = { coded_list (coded× (coded_list coded_ℕ) V.code) };

    ghost view = { λ t. t.types.entries };

    ghost invariant = { λ t. length t.types.entries ≤ 32 };
}

impl<V: Copy> TypeTable<V> {
    /// No types.
    pub fn new(alloc: Global) -> TypeTable<V>
        ensures { result ≡ [] }
    {
        TypeTable {
            types: BTreeMap::new(alloc),
        }
    }

    /// The same table once more, or `Memory` for want of memory. Its values are clones.
    pub fn copy(&self) -> Result<TypeTable<V>, Memory>
        ensures { IfOk result (λ t. AreCopies V.is_clone self.now t) }
    {
        let types = self.types.clone()?;
        Ok(TypeTable { types })
    }

    /// How many types there are, at most 32.
    #[tactic(auto, using(crate::proofs::Entries::sorted))]
    pub fn len(&self) -> usize
        ensures value { result ≡ length self.now }
        ensures valid { AreTypes self.now }
    {
        self.types.len()
    }

    /// The value of the type with this name; `None` exactly where there is none.
    #[tactic(auto, using(crate::proofs::Entries::looked_up))]
    pub fn get(&self, name: Tag) -> Option<V>
        ensures { result ≡ type_of name self.now }
    {
        self.types.get(&name).copied()
    }

    /// The type at that place, by its name and its value. Types stand in byte order of their names.
    pub fn at(&self, place: usize) -> (Tag, V)
        requires { place < length self.now }
        ensures { slice_get self.now place ≡ Some result }
    {
        match self.types.iter().nth(place) {
            Some((name, value)) => (*name, *value),
            None => unreachable!(),
        }
    }

    /// Whether the name is new and the table has 32 types, so that it can't be set.
    #[tactic(auto, using(crate::proofs::Entries::looked_up))]
    pub fn lacks_room(&self, name: Tag) -> bool
        ensures { result ≡ lacks_room name self.now }
    {
        !self.types.contains_key(&name) && self.types.len() >= MOST_TYPES
    }

    /// Sets the type with this name, which is added where it is new. All other types stay.
    ///
    /// After a fault the table is as before.
    #[tactic(auto, using(crate::proofs::Entries::inserted))]
    pub fn set(&mut self, name: Tag, value: V) -> Result<(), TypeFault>
        ensures set { OnOk result (self.new ≡ with_type name value self.old) }
        ensures room { OnOk result (lacks_room name self.old ≡ false) }
        ensures fault { IfErr result (λ fault. fault ≡ (if lacks_room name self.old then TypeFault.TypeLimit else TypeFault.Memory)) }
        ensures unchanged { OnErr result (self.new ≡ self.old) }

        // What the new table says, name by name.
        ensures named { OnOk result (type_of name self.new ≡ Some value) }
        ensures others { OnOk result ((other : List ℕ) → other ≢ name → type_of other self.new ≡ type_of other self.old) }
    {
        if self.lacks_room(name) {
            return Err(TypeFault::TypeLimit);
        }
        match self.types.insert(name, value) {
            Ok(_) => Ok(()),
            Err(_) => Err(TypeFault::Memory),
        }
    }
}
