//! Lists whose items stand in the order of a key.
ghost use Rattle.std.specs.Prelude.{◌≡◌, ◌≤◌, ◌++◌, ◌∷◌, [], Bool, true, Some, IfOk, OnOk, vec_len};
ghost use Rattle.std.specs.declared.cmp.Ordering.{Ordering};
ghost use Rattle.std.specs.Ordering.{nat_cmp, is_le};
ghost use Rattle.std.specs.List.{position, insert as inserted};
ghost use Rattle.names.specs.Tag.{tag_cmp};
ghost use Rattle.names.specs.TokenId.{id_cmp, id_eq};
ghost use Rattle.views.specs.Keys.{cell_cmp, name_of, cell_of, map_name, token_id};
ghost use Rattle.std.specs.Cmp.{IsTotalOrder};
ghost use Rattle.views.specs.Same.{same_light, same_bytes, same_letter, same_map as same_map_test, same_token as same_token_test};
ghost use Rattle.views.proofs.Orders.{tag_total, id_total, cell_total};
ghost use Rattle.view_change.specs.Orders.{one_light, one_sight, one_letter, one_map, one_token, same_id, one_id};
ghost use Rattle.view_change.specs.Keyed.{put as put_in, put_all as put_all_in};

use cells::Cell;
use names::{Memory, Tag, TokenId};
use std::cmp::Ordering;
use views::{MapView, TokenView, same_map, same_token};

/// An item of a list that stands in the order of a key.
pub(crate) trait Keyed: Sized + Drop {
    /// What the items are ordered by.
    type Key;

    ghost key: { Self → Self.Key };

    ghost order: { Self.Key → Self.Key → Ordering };

    /// How the keys of the two items stand.
    fn compare(&self, other: &Self) -> Ordering
        ensures { result ≡ order (key self.now) (key other.now) };

    ghost same: { Self → Self → Bool };

    fn is_same(&self, other: &Self) -> bool
        ensures { result ≡ same self.now other.now };

    /// The same item once more, or `Memory` for want of memory.
    fn again(&self) -> Result<Self, Memory>
        ensures { IfOk result (λ item. item ≡ self.now) };

    ghost total: { IsTotalOrder order };

    // items that are the same have one key
    ghost one_key: { (x y : Self) → same x y ≡ true → order (key y) (key x) ≡ Ordering.Equal };
}

impl Keyed for (Tag, i64) {
    type Key = Tag;

    ghost key = { name_of };

    ghost order = { tag_cmp };

    ghost same = { same_light };

    ghost total = { tag_total };

    ghost one_key = { one_light };

    fn compare(&self, other: &(Tag, i64)) -> Ordering {
        self.0.cmp(&other.0)
    }

    fn is_same(&self, other: &(Tag, i64)) -> bool {
        self.0 == other.0 && self.1 == other.1
    }

    fn again(&self) -> Result<(Tag, i64), Memory> {
        Ok(*self)
    }
}

impl Keyed for (Tag, [u8; 3]) {
    type Key = Tag;

    ghost key = { name_of };

    ghost order = { tag_cmp };

    ghost same = { same_bytes };

    ghost total = { tag_total };

    ghost one_key = { one_sight };

    fn compare(&self, other: &(Tag, [u8; 3])) -> Ordering {
        self.0.cmp(&other.0)
    }

    fn is_same(&self, other: &(Tag, [u8; 3])) -> bool {
        self.0 == other.0 && self.1 == other.1
    }

    fn again(&self) -> Result<(Tag, [u8; 3]), Memory> {
        Ok(*self)
    }
}

impl Keyed for (Cell, u8) {
    type Key = Cell;

    ghost key = { cell_of };

    ghost order = { cell_cmp };

    ghost same = { same_letter };

    ghost total = { cell_total };

    ghost one_key = { one_letter };

    fn compare(&self, other: &(Cell, u8)) -> Ordering {
        self.0.y.cmp(&other.0.y).then(self.0.x.cmp(&other.0.x))
    }

    fn is_same(&self, other: &(Cell, u8)) -> bool {
        self.0 == other.0 && self.1 == other.1
    }

    fn again(&self) -> Result<(Cell, u8), Memory> {
        Ok(*self)
    }
}

impl Keyed for MapView {
    type Key = Tag;

    ghost key = { map_name };

    ghost order = { tag_cmp };

    ghost same = { same_map_test };

    ghost total = { tag_total };

    ghost one_key = { one_map };

    fn compare(&self, other: &MapView) -> Ordering {
        self.name.cmp(&other.name)
    }

    fn is_same(&self, other: &MapView) -> bool {
        same_map(self, other)
    }

    fn again(&self) -> Result<MapView, Memory> {
        self.copy()
    }
}

impl Keyed for TokenView {
    type Key = TokenId;

    ghost key = { token_id };

    ghost order = { id_cmp };

    ghost same = { same_token_test };

    ghost total = { id_total };

    ghost one_key = { one_token };

    fn compare(&self, other: &TokenView) -> Ordering {
        self.id.cmp(&other.id)
    }

    fn is_same(&self, other: &TokenView) -> bool {
        same_token(self, other)
    }

    fn again(&self) -> Result<TokenView, Memory> {
        self.copy()
    }
}

impl Keyed for TokenId {
    type Key = TokenId;

    ghost key = { same_id };

    ghost order = { id_cmp };

    ghost same = { id_eq };

    ghost total = { id_total };

    ghost one_key = { one_id };

    fn compare(&self, other: &TokenId) -> Ordering {
        self.cmp(other)
    }

    fn is_same(&self, other: &TokenId) -> bool {
        *self == *other
    }

    fn again(&self) -> Result<TokenId, Memory> {
        Ok(*self)
    }
}

/// Where the first item stands whose key isn't less than the item's.
pub(crate) fn place<T: Keyed>(list: &[T], item: &T) -> Option<usize>
    ensures { result ≡ position (λ old. is_le (T.order (T.key item.now) (T.key old))) list.now }
{
    list.iter().position(|old| item.compare(old).is_le())
}

pub(crate) fn push<T: Keyed>(list: &mut Vec<T>, item: T) -> Result<(), Memory>
    ensures { OnOk result (list.new.items ≡ list.old.items ++ item ∷ []) }
{
    list.push(item)?;
    Ok(())
}

fn insert<T: Keyed>(list: &mut Vec<T>, place: usize, item: T) -> Result<(), Memory>
    requires { place ≤ vec_len list.old }
    ensures { OnOk result (list.new.items ≡ inserted list.old.items place item) }
{
    list.insert(place, item)?;
    Ok(())
}

/// Puts the item at this place, for the one with its key.
fn put_at<T: Keyed>(list: &mut Vec<T>, place: usize, item: T) -> Result<(), Memory>
    requires { position (λ old. is_le (T.order (T.key item) (T.key old))) list.old.items ≡ Some place }
    ensures { OnOk result (list.new.items ≡ put_in T.order T.key item list.old.items) }
{
    if item.compare(&list[place]).is_eq() {
        list[place] = item;
        return Ok(());
    }
    insert(list, place, item)
}

/// Puts the item in its place, for the one with its key.
fn put<T: Keyed>(list: &mut Vec<T>, item: T) -> Result<(), Memory>
    ensures { OnOk result (list.new.items ≡ put_in T.order T.key item list.old.items) }
{
    match place(list.as_slice(), &item) {
        None => push(list, item),
        Some(place) => put_at(list, place, item),
    }
}

/// Puts each of the items in its place; where keys repeat, the first one stays.
pub(crate) fn put_all<T: Keyed>(list: &mut Vec<T>, items: &[T]) -> Result<(), Memory>
    ensures { OnOk result (list.new.items ≡ put_all_in T.order T.key items.now list.old.items) }
{
    for i in (0..items.len()).rev() {
        put(list, items[i].again()?)?;
    }
    Ok(())
}
