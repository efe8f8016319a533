//! A seat's macros.
ghost use Rattle.std.specs.Prelude.{◌≡◌, ◌<◌, [], IfOk, IfErr, OnOk, OnErr, Some, None, is_some, length, option_map, slice_get};
ghost use Rattle.std.specs.Map.{remove_entry};
ghost use Rattle.std.specs.BTreeMap.{is_at};
ghost use Rattle.names.specs.Tag.{tag_cmp};
ghost use Rattle.seats.specs.Book.{macro_fault, macro_of, IsBookFaultOf};
ghost use Rattle.type_table.specs.Types.{lacks_room, with_type, AreTypes};

use crate::book_fault::BookFault;
use names::{Memory, Tag, Text};
use std::alloc::Global;
use std::collections::BTreeMap;
use std::marker::Model;

/// How many macros a seat has at most.
const MACRO_LIMIT: usize = 32;

/// Macros by name, at most 32. Contracts see the list of their names with their texts, in byte order of the names.
#[derive(Drop)]
pub struct Macros {
    texts: BTreeMap<Tag, Text>,
}

impl Model for Macros {
    ghost use Rattle.std.specs.Prelude.{◌≤◌, ℕ, List, length};

    ghost Value = { List (List ℕ × List ℕ) };

    ghost view = { λ m. m.texts.entries };

    ghost invariant = { λ m. length m.texts.entries ≤ 32 };
}

impl Macros {
    /// No macros.
    pub fn new(alloc: Global) -> Macros
        ensures { result ≡ [] }
    {
        Macros {
            texts: BTreeMap::new(alloc),
        }
    }

    /// The same macros once more, or `Memory` for want of memory.
    #[tactic(auto, using(crate::proofs::Copies::same_macros))]
    pub fn copy(&self) -> Result<Macros, Memory>
        ensures { IfOk result (λ copy. copy ≡ self.now) }
    {
        let texts = self.texts.clone()?;
        Ok(Macros { texts })
    }

    /// How many macros there are, at most 32.
    #[tactic(auto, using(type_table::proofs::Entries::sorted))]
    pub fn len(&self) -> usize
        ensures value { result ≡ length self.now }
        ensures valid { AreTypes self.now }
    {
        self.texts.len()
    }

    /// The text of the macro with this name; `None` exactly where there is none.
    #[tactic(auto, using(type_table::proofs::Entries::looked_up))]
    pub fn text(&self, name: Tag) -> Option<&Text>
        ensures { option_map (λ text. text.now) result ≡ macro_of name self.now }
    {
        self.texts.get(&name)
    }

    /// The macro at that place, by its name and its text. Macros stand in byte order of their names.
    pub fn at(&self, place: usize) -> (Tag, &Text)
        requires { place < length self.now }
        ensures { slice_get self.now place ≡ Some (result.0, result.1.now) }
    {
        match self.texts.iter().nth(place) {
            Some((name, text)) => (*name, text),
            None => unreachable!(),
        }
    }

    /// Sets the macro with this name, which is added where it is new. All other macros stay.
    ///
    /// The checks are made in the order of `BookFault`; after a fault the macros are as before.
    #[tactic(auto, using(type_table::proofs::Entries::inserted))]
    pub fn set(&mut self, name: Tag, text: Text) -> Result<(), BookFault>
        ensures set { OnOk result (self.new ≡ with_type name text self.old) }
        ensures ok { OnOk result (macro_fault self.old name ≡ None) }
        ensures fault { IfErr result (IsBookFaultOf (macro_fault self.old name)) }
        ensures unchanged { OnErr result (self.new ≡ self.old) }
    {
        if self.lacks_room(name) {
            return Err(BookFault::MacroLimit);
        }
        match self.texts.insert(name, text) {
            Ok(_) => Ok(()),
            Err(_) => Err(BookFault::Memory),
        }
    }

    /// Removes the macro with this name; false exactly where there is none, and then nothing changes.
    #[tactic(auto, using(type_table::proofs::Entries::looked_up))]
    pub fn remove(&mut self, name: Tag) -> bool
        ensures there { result ≡ is_some (macro_of name self.old) }
        ensures value { self.new ≡ remove_entry (is_at (tag_cmp name)) self.old }
    {
        self.texts.remove(&name).is_some()
    }

    /// Whether the name is new and there are 32 macros, so that it can't be set.
    #[tactic(auto, using(type_table::proofs::Entries::looked_up))]
    fn lacks_room(&self, name: Tag) -> bool
        ensures { result ≡ lacks_room name self.now }
    {
        !self.texts.contains_key(&name) && self.texts.len() >= MACRO_LIMIT
    }
}
