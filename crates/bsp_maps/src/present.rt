//! The entries of a map that have a value.

ghost use Rattle.std.specs.Prelude.{◌≡◌, IfOk, OnOk};
ghost use Rattle.std.specs.FinMap.{IsAntisymmetric, from_entries};
ghost use Rattle.bsp_maps.specs.Present.{present, with_present_value};
ghost use Rattle.bsp_maps.specs.Undo.{before, content};

use crate::logged::Logged;
use std::alloc::{AllocError, Global};
use std::collections::BTreeMap;

/// Adds the value of an entry, if it has one.
fn add_present<K: Ord + Copy + Drop, V: Copy + Drop>(
    found: &mut BTreeMap<K, V>,
    key: &K,
    value: &Option<V>,
) -> Result<(), AllocError>
    requires { IsAntisymmetric K.cmp }
    ensures { OnOk result (from_entries {R = K.cmp} found.new.entries ≡ with_present_value key.now value.now (from_entries found.old.entries)) }
{
    match *value {
        None => Ok(()),
        Some(value) => {
            found.insert(*key, value)?;
            Ok(())
        }
    }
}

/// The entries that have a value, as a map of their own.
///
/// # Errors
///
/// Where an allocation was refused.
pub fn present_entries<K: Ord + Copy + Drop, V: Copy + Drop>(
    alloc: Global,
    entries: &BTreeMap<K, Option<V>>,
) -> Result<BTreeMap<K, V>, AllocError>
    requires { IsAntisymmetric K.cmp }
    ensures { IfOk result (λ found. from_entries {R = K.cmp} found.entries ≡ present (from_entries entries.now.entries)) }
{
    let mut found = BTreeMap::new(alloc);
    let _count = entries.len();
    for (key, value) in entries {
        add_present(&mut found, key, value)?;
    }
    Ok(found)
}

/// Takes out the entry of a key, if it has no value.
fn take_out_absent<K: Ord + Copy + Drop, V: Copy + Drop>(
    entries: &mut BTreeMap<K, Option<V>>,
    key: &K,
)
    requires { IsAntisymmetric K.cmp }
    ensures { present {R = K.cmp} (from_entries entries.new.entries) ≡ present (from_entries entries.old.entries) }
{
    match entries.get(key).copied() {
        Some(None) => {
            let _ = entries.remove(key);
        }
        Some(Some(_)) | None => {}
    }
}

/// Keeps what was written, and takes out the entries that were written and have no value. It takes time in
/// proportion to what was written, and a logarithm, and no memory.
pub fn commit_present<K: Ord + Copy + Drop, V: Copy + Drop>(map: &mut Logged<K, Option<V>>)
    requires { IsAntisymmetric K.cmp }
    ensures content { present (content K.cmp map.new) ≡ present (content K.cmp map.old) }
    ensures before { before K.cmp map.new ≡ content K.cmp map.new }
{
    while let Some(old) = map.undo.pop() {
        take_out_absent(&mut map.map, &old.key);
    }
}
