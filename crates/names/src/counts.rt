//! Sums of counts.
ghost use Rattle.std.specs.Prelude.{◌≡◌, ◌+◌, ◌<◌, IfOk, IsErr};

use crate::memory::Memory;

/// The sum of two counts. Past the greatest `u64`, which nothing in memory comes to, it is want of memory.
pub fn sum_of_counts(first: u64, second: u64) -> Result<u64, Memory>
    ensures sum { IfOk result (λ sum. sum ≡ first + second) }
    ensures memory { IsErr result → 18446744073709551615 < first + second }
{
    match first.checked_add(second) {
        Some(sum) => Ok(sum),
        None => Err(Memory),
    }
}
