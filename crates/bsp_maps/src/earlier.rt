//! What was at the keys that were written, as a map of its own.

ghost use Rattle.std.specs.Prelude.{◌≡◌, IfOk, OnOk, is_some, unwrap_or};
ghost use Rattle.std.specs.FinMap.{IsAntisymmetric, from_entries, get, insert};
ghost use Rattle.bsp_maps.specs.Undo.{IsEarlier, restorable, undone};

use crate::logged::Old;
use std::alloc::{AllocError, Global};
use std::collections::BTreeMap;

/// Whether there was a value at a key after the writes that are known: what they say of it, and else what is there now.
fn was_there<K: Ord + Copy + Drop, V: Copy + Drop>(
    found: &BTreeMap<K, Option<V>>,
    key: &K,
    values: &BTreeMap<K, V>,
) -> bool
    ensures { result ≡ is_some (unwrap_or (get (from_entries {R = K.cmp} found.now.entries) key.now) (get (from_entries {R = K.cmp} values.now.entries) key.now)) }
{
    match found.get(key).copied() {
        Some(value) => value.is_some(),
        None => values.contains_key(key),
    }
}

/// A value, or none where there was none.
fn value_if<V: Copy + Drop>(there: bool, value: Option<V>) -> Option<V>
    ensures { result ≡ restorable there value }
{
    if there { value } else { None }
}

/// Notes what was there before a write.
fn note_before<K: Ord + Copy + Drop, V: Copy + Drop>(
    found: &mut BTreeMap<K, Option<V>>,
    old: &Old<K, V>,
    values: &BTreeMap<K, V>,
) -> Result<(), AllocError>
    requires { IsAntisymmetric K.cmp }
    ensures { OnOk result (from_entries {R = K.cmp} found.new.entries ≡ insert (from_entries found.old.entries) old.now.key (restorable (is_some (unwrap_or (get (from_entries {R = K.cmp} found.old.entries) old.now.key) (get (from_entries {R = K.cmp} values.now.entries) old.now.key))) old.now.value)) }
{
    let before = value_if(was_there(found, &old.key, values), old.value);
    found.insert(old.key, before)?;
    Ok(())
}

/// What was at each key that was written since the last commit, a value or none, by the keys. It takes time and memory
/// in proportion to what was written.
///
/// # Errors
///
/// Where an allocation was refused.
pub fn values_before<K: Ord + Copy + Drop, V: Copy + Drop>(
    alloc: Global,
    written: &[Old<K, V>],
    values: &BTreeMap<K, V>,
) -> Result<BTreeMap<K, Option<V>>, AllocError>
    requires { IsAntisymmetric K.cmp }
    ensures { IfOk result (λ found. IsEarlier (from_entries {R = K.cmp} found.entries) (from_entries values.now.entries) (undone written.now (from_entries values.now.entries))) }
{
    let mut found = BTreeMap::new(alloc);
    for step in 0..written.len() {
        note_before(&mut found, &written[written.len() - 1 - step], values)?;
    }
    Ok(found)
}
