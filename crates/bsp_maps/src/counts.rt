//! How often keys are in a list.

ghost use Rattle.std.specs.Prelude.{◌≡◌, ◌≤◌, IfOk, count_by};
ghost use Rattle.std.specs.Bool.{Decides};
ghost use Rattle.std.specs.Ordering.{eq_by_cmp};

use std::alloc::{AllocError, Global};
use std::collections::BTreeMap;

/// Whether no key is in the list more often than the limit.
///
/// # Errors
///
/// Where an allocation was refused.
pub fn are_within<K: Ord + Copy + Drop>(
    alloc: Global,
    keys: &[K],
    limit: u32,
) -> Result<bool, AllocError>
    ensures { IfOk result (λ within. Decides within ((k : K) → count_by (eq_by_cmp K.cmp k) keys.now ≤ limit)) }
{
    let mut counts: BTreeMap<K, u32> = BTreeMap::new(alloc);
    for key in keys {
        let count = counts.get(key).copied().unwrap_or(0);
        if count >= limit {
            return Ok(false);
        }
        counts.insert(*key, count + 1)?;
    }
    Ok(true)
}
