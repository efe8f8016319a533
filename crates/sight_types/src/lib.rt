//! The sight types of a campaign.
//!
//! A sight type is a name with how far it sees by day, how far it sees in the dark, and a multiplier for lights.
//! Contracts see a table as the list of its names with their sights, in byte order of the names.
#![tactic(auto)]

ghost use Rattle.std.specs.Prelude.{◌≡◌, ◌<◌, [], None, Some, IfOk, IfErr, OnOk, OnErr, length, slice_get};
ghost use Rattle.type_table.specs.Types.{type_of, with_type};
ghost use Rattle.sight_types.specs.Ranges.{sight_of};
ghost use Rattle.sight_types.specs.Sights.{AreSightTypes, IsFaultOf, sight_fault};

use names::{Memory, Tag};
use std::alloc::Global;
use std::marker::Model;
use thiserror::Error;
use type_table::{TypeFault, TypeTable};

/// The greatest range and night range of a sight, in cells.
pub const MOST_RANGE: u32 = 40;

/// The greatest multiplier of a sight, in halves.
pub const MOST_MULTIPLIER: u32 = 4;

/// What a token with a sight type sees.
#[derive(Clone, Copy, Debug, PartialEq, Eq)]
pub struct Sight {
    /// How far it sees, 0 to 40 cells.
    pub range: u8,
    /// How far it sees at night where no light is, 0 to 40 cells.
    pub night: u8,
    /// By how much lights reach farther for it, 1 to 4 halves: at 2 a light reaches its radius.
    pub mult: u8,
}

/// Why a sight type isn't set. The checks are made in this order.
#[derive(Clone, Copy, Debug, PartialEq, Eq, Error)]
pub enum SightFault {
    /// A range isn't from 0 to 40, or the multiplier isn't from 1 to 4.
    #[error("the ranges of a sight are 0 to 40 cells, and its multiplier is 1 to 4 halves")]
    BadRange,
    /// The name is new, and there are 32 sight types.
    #[error("there are as many sight types as there may be")]
    TypeLimit,
    /// Want of memory.
    #[error("want of memory")]
    Memory,
}

/// The sight types, at most 32, by name.
#[derive(Drop)]
pub struct SightTable {
    types: TypeTable<Sight>,
}

impl Model for SightTable {
    ghost use Rattle.std.specs.Prelude.{ℕ, List};
    ghost use Rattle.sight_types.specs.declared.Sight.{Sight};
    ghost use Rattle.sight_types.specs.Ranges.{AreSights};

    ghost Value = { List (List ℕ × Sight) };

    ghost view = { λ t. t.types };

    ghost invariant = { λ t. AreSights t.types };
}

impl SightTable {
    /// No sight types.
    pub fn new(alloc: Global) -> SightTable
        ensures { result ≡ [] }
    {
        SightTable {
            types: TypeTable::new(alloc),
        }
    }

    /// The same sight types once more, or `Memory` for want of memory.
    pub fn copy(&self) -> Result<SightTable, Memory>
        ensures { IfOk result (λ t. t ≡ self.now) }
    {
        let types = copied(&self.types)?;
        Ok(SightTable { types })
    }

    /// How many sight types there are, at most 32.
    pub fn len(&self) -> usize
        ensures value { result ≡ length self.now }
        ensures valid { AreSightTypes self.now }
    {
        self.types.len()
    }

    /// The sight of the type with this name; `None` exactly where there is none.
    pub fn sight(&self, name: Tag) -> Option<Sight>
        ensures { result ≡ type_of name self.now }
    {
        self.types.get(name)
    }

    /// The sight type at that place, by its name and its sight. Types stand in byte order of their names.
    pub fn at(&self, place: usize) -> (Tag, Sight)
        requires { place < length self.now }
        ensures { slice_get self.now place ≡ Some result }
    {
        self.types.at(place)
    }

    /// The first check that a sight type to be set breaks: the fault that `set` gives, where it has memory.
    pub fn broken_check(&self, name: Tag, range: u32, night: u32, mult: u32) -> Option<SightFault>
        ensures { result ≡ sight_fault self.now name range night mult }
    {
        if sight_of(range, night, mult).is_none() {
            Some(SightFault::BadRange)
        } else if self.types.lacks_room(name) {
            Some(SightFault::TypeLimit)
        } else {
            None
        }
    }

    /// Adds the sight type with this name, or changes its sight. All other types stay.
    ///
    /// The checks are made in the order of `SightFault`; after a fault the sight types are as before.
    pub fn set(&mut self, name: Tag, range: u32, night: u32, mult: u32) -> Result<(), SightFault>
        ensures set { OnOk result (self.new ≡ with_type name (record { range = range; night = night; mult = mult }) self.old) }
        ensures ok { OnOk result (sight_fault self.old name range night mult ≡ None) }
        ensures fault { IfErr result (IsFaultOf (sight_fault self.old name range night mult)) }
        ensures unchanged { OnErr result (self.new ≡ self.old) }
    {
        let Some(sight) = sight_of(range, night, mult) else {
            return Err(SightFault::BadRange);
        };
        match self.types.set(name, sight) {
            Ok(()) => Ok(()),
            Err(TypeFault::TypeLimit) => Err(SightFault::TypeLimit),
            Err(TypeFault::Memory) => Err(SightFault::Memory),
        }
    }
}

/// The sight of these numbers; `None` exactly where one of them is off its limits.
fn sight_of(range: u32, night: u32, mult: u32) -> Option<Sight>
    ensures { result ≡ sight_of range night mult }
{
    if range <= MOST_RANGE && night <= MOST_RANGE && 1 <= mult && mult <= MOST_MULTIPLIER {
        Some(Sight {
            range: range as u8,
            night: night as u8,
            mult: mult as u8,
        })
    } else {
        None
    }
}

#[tactic(auto, using(crate::proofs::Sights::same_types))]
fn copied(types: &TypeTable<Sight>) -> Result<TypeTable<Sight>, Memory>
    ensures { IfOk result (λ t. t ≡ types.now) }
{
    types.copy()
}
