ghost use Rattle.std.specs.Prelude.{◌≡◌, [], IsSome, Some, None, IfOk, IfErr, IfSome, OnOk, OnErr, if◌then◌else◌};
ghost use Rattle.std.specs.Option.{option_copied};
ghost use Rattle.names.specs.declared.token_id.TokenId.{TokenId};
ghost use Rattle.names.specs.TokenId.{id_eq};
ghost use Rattle.vision.specs.Fields.{field_at, with_field, without_field};

use cells::CellSet;
use names::{Memory, TokenId};
use std::alloc::{AllocError, Global};
use std::collections::BTreeMap;
use std::marker::Model;
use std::sync::Arc;

// A field that several `Fields` may keep at once.
#[derive(Drop)]
struct SharedField {
    set: Arc<CellSet>,
}

impl Model for SharedField {
    ghost use Rattle.cells.specs.Cells.{Cells};
    ghost use Rattle.std.specs.Arc.{arc_value};

    ghost Value = { Cells };

    ghost view = { λ f. arc_value f.set };
}

impl Clone for SharedField {
    ghost is_clone = { λ field copy. copy ≡ field };

    fn clone(&self) -> Result<SharedField, AllocError> {
        Ok(SharedField {
            set: Arc::try_clone(&self.set)?,
        })
    }
}

impl SharedField {
    // The field comes back for want of memory.
    fn new(alloc: Global, field: CellSet) -> Result<SharedField, CellSet>
        ensures shared { IfOk result (λ shared. shared ≡ field) }
        ensures back { IfErr result (λ set. set ≡ field) }
    {
        match Arc::new(alloc, field) {
            Ok(set) => Ok(SharedField { set }),
            Err(failed) => Err(failed.value),
        }
    }

    // The same field once more, without a copy of its cells.
    fn share(&self) -> Result<SharedField, Memory>
        ensures { IfOk result (λ shared. shared ≡ self.now) }
    {
        Ok(self.clone()?)
    }

    fn get(&self) -> &CellSet
        ensures { result.now ≡ self.now }
    {
        &self.set
    }
}

/// Fields of tokens' eyes, by the ids of the tokens.
#[derive(Drop)]
pub struct Fields {
    alloc: Global,
    fields: BTreeMap<TokenId, SharedField>,
}

impl Model for Fields {
    ghost use Rattle.std.specs.Prelude.{List};
    ghost use Rattle.names.specs.declared.token_id.TokenId.{TokenId};
    ghost use Rattle.cells.specs.Cells.{Cells};

    ghost Value = { List (TokenId × Cells) };

    ghost view = { λ f. f.fields.entries };
}

impl Fields {
    /// No fields.
    pub fn new(alloc: Global) -> Fields
        ensures { result ≡ [] }
    {
        Fields {
            alloc,
            fields: BTreeMap::new(alloc),
        }
    }

    /// The same fields, without a copy of their cells.
    #[tactic(auto, using(crate::proofs::FieldLemmas::copied))]
    pub fn copy(&self) -> Result<Fields, Memory>
        ensures { IfOk result (λ fields. fields ≡ self.now) }
    {
        Ok(Fields {
            alloc: self.alloc,
            fields: self.fields.clone()?,
        })
    }

    /// Keeps the field of that id, in place of the one that was kept for it. The fields of other ids stay.
    ///
    /// The field comes back for want of memory alone, and the fields are then as before.
    pub fn put(&mut self, id: TokenId, field: CellSet) -> Result<(), CellSet>
        ensures value { OnOk result (self.new ≡ with_field id field self.old) }
        ensures told { OnOk result ((other : TokenId) → field_at other self.new
            ≡ (if id_eq id other then Some field else field_at other self.old)) }
        ensures back { IfErr result (λ set. set ≡ field) }
        ensures unchanged { OnErr result (self.new ≡ self.old) }
    {
        // What is shared can't be taken back, so a copy is what comes back where there is no place for it.
        let Ok(copy) = field.copy() else {
            return Err(field);
        };
        let shared = SharedField::new(self.alloc, field)?;
        match self.put_shared(id, shared) {
            Ok(()) => Ok(()),
            Err(Memory) => Err(copy),
        }
    }

    /// Keeps for that id the field that `from` keeps for it, as `put` would, without a copy of its cells.
    pub fn share(&mut self, id: TokenId, from: &Fields) -> Result<(), Memory>
        requires { IsSome (field_at id from.now) }
        ensures value { OnOk result (IfSome (field_at id from.now) (λ field. self.new ≡ with_field id field self.old)) }
        ensures told { OnOk result ((other : TokenId) → field_at other self.new
            ≡ (if id_eq id other then field_at id from.now else field_at other self.old)) }
        ensures unchanged { OnErr result (self.new ≡ self.old) }
    {
        let shared = from.shared(&id)?;
        self.put_shared(id, shared)
    }

    // The field that is kept for that id, once more; one is.
    #[tactic(auto, using(crate::proofs::FieldLemmas::looked_up))]
    fn shared(&self, id: &TokenId) -> Result<SharedField, Memory>
        requires { IsSome (field_at id.now self.now) }
        ensures { IfOk result (λ field. field_at id.now self.now ≡ Some field) }
    {
        match self.fields.get(id) {
            Some(field) => field.share(),
            None => unreachable!(),
        }
    }

    #[tactic(auto, using(crate::proofs::FieldLemmas::looked_up, crate::proofs::FieldLemmas::ties))]
    fn put_shared(&mut self, id: TokenId, field: SharedField) -> Result<(), Memory>
        ensures value { OnOk result (self.new ≡ with_field id field self.old) }
        ensures told { OnOk result ((other : TokenId) → field_at other self.new
            ≡ (if id_eq id other then Some field else field_at other self.old)) }
        ensures unchanged { OnErr result (self.new ≡ self.old) }
    {
        match self.fields.insert(id, field) {
            Ok(_) => Ok(()),
            Err(_) => Err(Memory),
        }
    }

    /// Drops the field of that id, if one is kept. The fields of other ids stay.
    #[tactic(auto, using(crate::proofs::FieldLemmas::looked_up, crate::proofs::FieldLemmas::ties, crate::proofs::FieldLemmas::removed))]
    pub fn drop_field(&mut self, id: TokenId)
        ensures value { self.new ≡ without_field id self.old }
        ensures told { (other : TokenId) → field_at other self.new ≡ (if id_eq id other then None else field_at other self.old) }
    {
        self.fields.remove(&id);
    }

    /// The field that is kept for that id; `None` exactly where none is.
    #[tactic(auto, using(crate::proofs::FieldLemmas::looked_up))]
    pub fn get(&self, id: TokenId) -> Option<&CellSet>
        ensures { option_copied result ≡ field_at id self.now }
    {
        let found = self.fields.get(&id)?;
        Some(found.get())
    }
}

/// The field that is kept for that id; one is.
pub(crate) fn kept_field(fields: &Fields, id: TokenId) -> &CellSet
    requires { IsSome (field_at id fields.now) }
    ensures { field_at id fields.now ≡ Some result.now }
{
    match fields.get(id) {
        Some(field) => field,
        None => unreachable!(),
    }
}
