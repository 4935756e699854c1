//! Demands on the entries of a map.

ghost use Rattle.std.specs.Prelude.{◌≡◌, MatchOption, Some};
ghost use Rattle.std.specs.Bool.{Decides};
ghost use Rattle.std.specs.FinMap.{IsAntisymmetric, get};
ghost use Rattle.bsp_rows.specs.Audit.{as_map};

use std::collections::BTreeMap;

/// A demand on an entry.
pub(crate) trait Demand<K, V> {
    ghost use Rattle.std.specs.Bool.{Decides};

    ghost asks: { Self → K → V → Type 0 };

    fn is_met(&self, key: &K, value: &V) -> bool
        ensures { Decides result (asks self.now key.now value.now) };
}

/// The value at a key, if there is one.
pub(crate) fn at<K: Ord + Copy, V: Copy>(entries: &BTreeMap<K, V>, key: K) -> Option<V>
    ensures { result ≡ get (as_map K.cmp entries.now) key }
{
    entries.get(&key).copied()
}

/// The key of the first entry that does not meet a demand; none where each does.
pub(crate) fn first_unmet<K: Ord + Copy, V, D: Demand<K, V>>(
    entries: &BTreeMap<K, V>,
    demand: &D,
) -> Option<K>
    requires { IsAntisymmetric K.cmp }
    ensures { MatchOption result ((k : K) (v : V) → get (as_map K.cmp entries.now) k ≡ Some v → D.asks demand.now k v) (λ k. (v : V) × (get (as_map K.cmp entries.now) k ≡ Some v) × ¬ (D.asks demand.now k v)) }
{
    let _count = entries.len();
    for (key, value) in entries {
        if !demand.is_met(key, value) {
            return Some(*key);
        }
    }
    None
}

/// Whether each entry meets a demand.
pub(crate) fn all_meet<K: Ord + Copy, V, D: Demand<K, V>>(
    entries: &BTreeMap<K, V>,
    demand: &D,
) -> bool
    requires { IsAntisymmetric K.cmp }
    ensures { Decides result ((k : K) (v : V) → get (as_map K.cmp entries.now) k ≡ Some v → D.asks demand.now k v) }
{
    first_unmet(entries, demand).is_none()
}
