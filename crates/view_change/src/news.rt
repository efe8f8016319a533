//! What a list has that another one has not.
ghost use Rattle.std.specs.Prelude.{◌≡◌, true, drop, length, unwrap_or, IfOk, IsTrue};
ghost use Rattle.std.specs.List.{position};
ghost use Rattle.std.specs.Ordering.{is_le};
ghost use Rattle.views.specs.Order.{in_order};
ghost use Rattle.view_change.specs.Keyed.{is_in, puts_from, is_first as is_first_test};

use crate::keyed::{Keyed, place, push};
use names::Memory;
use std::alloc::Global;

/// Whether the keys rise.
fn is_in_order<T: Keyed>(list: &[T]) -> bool
    ensures { IsTrue result → in_order T.order T.key list.now ≡ true }
{
    for i in 1..list.len() {
        if !list[i - 1].compare(&list[i]).is_lt() {
            return false;
        }
    }
    true
}

/// What is left of the list from the item's place on.
fn from_place<'a, T: Keyed>(list: &'a [T], item: &T) -> &'a [T]
    ensures { result.now ≡ drop (unwrap_or (position (λ old. is_le (T.order (T.key item.now) (T.key old))) list.now)
        (length list.now)) list.now }
{
    let place = place(list, item).unwrap_or(list.len());
    &list[place..]
}

fn is_first<T: Keyed>(list: &[T], item: &T) -> bool
    ensures { result ≡ is_first_test T.same list.now item.now }
{
    match list {
        [] => false,
        [old, ..] => old.is_same(item),
    }
}

/// Of two lists in order, which are gone through side by side.
fn walked<T: Keyed>(alloc: Global, before: &[T], after: &[T]) -> Result<Vec<T>, Memory>
    requires before { in_order T.order T.key before.now ≡ true }
    requires after { in_order T.order T.key after.now ≡ true }
    ensures { IfOk result (λ list. list.items ≡ puts_from T.same before.now after.now) }
{
    let mut list = Vec::new(alloc);
    let mut left = before;
    for item in after {
        left = from_place(left, item);
        if !is_first(left, item) {
            push(&mut list, item.again()?)?;
        }
    }
    Ok(list)
}

fn is_among<T: Keyed>(list: &[T], item: &T) -> bool
    ensures { result ≡ is_in T.same list.now item.now }
{
    list.iter().any(|old| old.is_same(item))
}

/// Of any two lists.
fn searched<T: Keyed>(alloc: Global, before: &[T], after: &[T]) -> Result<Vec<T>, Memory>
    ensures { IfOk result (λ list. list.items ≡ puts_from T.same before.now after.now) }
{
    let mut list = Vec::new(alloc);
    for item in after {
        if !is_among(before, item) {
            push(&mut list, item.again()?)?;
        }
    }
    Ok(list)
}

/// The items of the second list that are not in the first: they are new or differ.
pub(crate) fn news<T: Keyed>(alloc: Global, before: &[T], after: &[T]) -> Result<Vec<T>, Memory>
    ensures { IfOk result (λ list. list.items ≡ puts_from T.same before.now after.now) }
{
    if is_in_order(before) && is_in_order(after) {
        return walked(alloc, before, after);
    }
    searched(alloc, before, after)
}
