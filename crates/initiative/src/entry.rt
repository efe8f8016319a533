//! The entries of a list, and their order.
ghost use Rattle.std.proofs.Common.{rules};
ghost use Rattle.std.specs.Cmp.{partial_order_from_own_ties, partial_order_from_total};
ghost use Rattle.std.specs.Cmp.Rules.{comparing};
ghost use Rattle.std.specs.Ordering.{as_partial_cmp};
ghost use Rattle.initiative.specs.Fights.{entry_cmp};

use names::TokenId;
use std::cmp::Ordering;

/// A token's entry. The entry with the greater value is first, and of equal values that of the lesser id.
#[derive(Clone, Copy, Debug, PartialEq, Eq)]
pub struct Entry {
    pub value: i16,
    pub id: TokenId,
}

impl PartialOrd for Entry {
    ghost partial_cmp = { as_partial_cmp entry_cmp };

    ghost laws = { partial_order_from_own_ties (partial_order_from_total {R = entry_cmp} (Prim.search (comparing, rules)))
        (Prim.search (comparing, rules)) };

    fn partial_cmp(&self, other: &Entry) -> Option<Ordering> {
        Some(self.cmp(other))
    }
}

impl Ord for Entry {
    ghost cmp = { entry_cmp };

    ghost total = { Prim.search (comparing, rules) };

    ghost matches_partial_cmp = { Prim.search (comparing, rules) };

    ghost matches_eq = { Prim.search (comparing, rules) };

    fn cmp(&self, other: &Entry) -> Ordering {
        other.value.cmp(&self.value).then(self.id.cmp(&other.id))
    }
}
