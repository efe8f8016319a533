//! The key of the map of properties.
ghost use Rattle.std.specs.Cmp.Rules.{comparing, hashing};
ghost use Rattle.std.proofs.Common.{rules};
ghost use Rattle.std.specs.Hash as fed;
ghost use Rattle.std.specs.Str.{bytes_eq};

use names::Tag;
use std::hash::{Hash, Hasher};
use std::marker::Model;

/// A property's name: a tag that can be hashed.
#[derive(Clone, Copy)]
pub struct PropName {
    pub(crate) tag: Tag,
}

impl Model for PropName {
    ghost use Rattle.std.specs.Prelude.{List, ℕ};

    ghost Value = { List ℕ };

    ghost view = { λ n. n.tag };

    ghost inverse = { λ tag. record { tag = tag } };
}

impl PartialEq for PropName {
    ghost eq = { bytes_eq };

    ghost laws = { Prim.search (comparing, rules) };

    fn eq(&self, other: &PropName) -> bool {
        self.tag == other.tag
    }
}

impl Eq for PropName {
    ghost laws = { Prim.search (comparing, rules) };
}

impl Hash for PropName {
    ghost hash_input = { λ name. fed.str name };

    ghost respects_eq = { Prim.search (hashing, rules) };

    fn hash<H: Hasher>(&self, state: &mut H) {
        self.tag.text().hash(state);
    }
}
