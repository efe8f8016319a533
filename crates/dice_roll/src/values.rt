//! What a list of shown values is worth.

ghost use Rattle.std.specs.Prelude.{◌≡◌, ◌*◌, ◌≤◌, ℕ, List, length, All, sum, drop};
ghost use Rattle.std.specs.List.Sorted.{IsPermutation, IsNonDecreasing};
ghost use Rattle.dice_roll.specs.Rolling.{worth_of, ascending};

use dice_parse::Tail;

/// The sum of a few small values.
fn total(values: &[u32]) -> u32
    requires small { All (λ x. x ≤ 1000) values.now }
    requires few { length values.now ≤ 1200 }
    ensures value { result ≡ sum values.now }
    ensures bound { result ≤ 1200000 }
{
    let mut total = 0;
    for value in values {
        total += *value;
    }
    total
}

/// The sum of the values from a place on.
fn total_from(values: &[u32], place: usize) -> u32
    requires small { All (λ x. x ≤ 1000) values.now }
    requires few { length values.now ≤ 1200 }
    ensures value { result ≡ sum (drop place values.now) }
    ensures bound { result ≤ 1200000 }
{
    if place < values.len() {
        total(&values[place..])
    } else {
        0
    }
}

/// What a list of values is worth. It is put into ascending order where that serves.
pub(crate) fn worth(values: &mut [u32], tail: Option<(Tail, u32)>) -> u32
    requires small { All (λ x. x ≤ 1000) values.old }
    requires few { length values.old ≤ 1200 }
    ensures value { result ≡ worth_of tail values.old }
    ensures bound { result ≤ 1200000 }
{
    let Some((kind, number)) = tail else {
        return total(values);
    };
    match kind {
        Tail::Keep => {
            values.sort_unstable();
            total_from(values, values.len().saturating_sub(number as usize))
        }
        Tail::Lose => {
            values.sort_unstable();
            total_from(values, number as usize)
        }
        Tail::Succeed => values.iter().filter(|x| number <= **x).count() as u32,
    }
}

/// A law without a step: `ascending` has the values that it is given, in an order that doesn't fall.
pub fn ascending_order()
    ensures { (values : List ℕ) → IsPermutation values (ascending values) × IsNonDecreasing (ascending values) }
{}
