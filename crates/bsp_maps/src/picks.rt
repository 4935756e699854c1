//! Values at some keys, each once.

ghost use Rattle.std.specs.Prelude.{◌≡◌, IfOk, OnOk};
ghost use Rattle.std.specs.BTreeMap.{IsOrdered, keys, values};
ghost use Rattle.std.specs.FinMap.{IsAntisymmetric, empty, from_entries};
ghost use Rattle.std.specs.FinMap.{values as in_map};
ghost use Rattle.bsp_maps.specs.Picks.{with_key, with_keys};

use crate::rules::Rule;
use std::alloc::{AllocError, Global};
use std::collections::BTreeMap;

/// Adds the value at a key, if it passes.
fn pick<K: Ord + Copy + Drop, V: Copy + Drop, T: Rule<K, V>>(
    found: &mut BTreeMap<K, V>,
    entries: &BTreeMap<K, V>,
    key: K,
    rule: &T,
) -> Result<(), AllocError>
    requires { IsAntisymmetric K.cmp }
    ensures { OnOk result (from_entries {R = K.cmp} found.new.entries ≡ with_key (T.holds rule.now) (from_entries entries.now.entries) key (from_entries found.old.entries)) }
{
    match entries.get(&key) {
        None => Ok(()),
        Some(value) => {
            if rule.holds(&key, value) {
                found.insert(key, *value)?;
            }
            Ok(())
        }
    }
}

/// The values of a map, in the order of their keys.
fn copied<K: Ord + Copy + Drop, V: Copy + Drop>(
    alloc: Global,
    entries: &BTreeMap<K, V>,
) -> Result<Vec<V>, AllocError>
    ensures ordered { IsOrdered K.cmp entries.now }
    ensures found { IfOk result (λ found. found.items ≡ values entries.now) }
{
    entries.values().copied().collect(alloc)
}

/// The keys of a map, in their order. It reads all of them.
pub fn keys<K: Ord + Copy + Drop, V: Copy + Drop>(
    alloc: Global,
    entries: &BTreeMap<K, V>,
) -> Result<Vec<K>, AllocError>
    ensures ordered { IsOrdered K.cmp entries.now }
    ensures found { IfOk result (λ found. found.items ≡ keys entries.now) }
{
    entries.keys().copied().collect(alloc)
}

/// The values at the keys that pass, each once, in the order of their keys.
pub fn picked<K: Ord + Copy + Drop, V: Copy + Drop, T: Rule<K, V>>(
    alloc: Global,
    entries: &BTreeMap<K, V>,
    keys: &[K],
    rule: &T,
) -> Result<Vec<V>, AllocError>
    requires { IsAntisymmetric K.cmp }
    ensures { IfOk result (λ found. found.items ≡ in_map (with_keys {R = K.cmp} (T.holds rule.now) (from_entries entries.now.entries) keys.now empty)) }
{
    let mut found = BTreeMap::new(alloc);
    for key in keys {
        pick(&mut found, entries, *key, rule)?;
    }
    copied(alloc, &found)
}
