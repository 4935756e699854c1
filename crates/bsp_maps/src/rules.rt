//! Rules of the entries of a map, and tests of its values.

ghost use Rattle.std.specs.Prelude.{◌≡◌, true, Some};
ghost use Rattle.std.specs.Bool.{Decides};
ghost use Rattle.std.specs.BTreeMap.{IsOrdered, get};
ghost use Rattle.std.specs.List.{list_any};
ghost use Rattle.std.specs.FinMap.{IsAntisymmetric};

use std::collections::BTreeMap;

/// A rule of an entry.
pub trait Rule<K, V> {
    ghost use Rattle.std.specs.Prelude.{◌≡◌, Bool};

    ghost holds: { Self → K → V → Bool };

    fn holds(&self, key: &K, value: &V) -> bool
        ensures { result ≡ holds self.now key.now value.now };
}

/// A test of values.
pub trait Test<V> {
    ghost use Rattle.std.specs.Prelude.{◌≡◌, Bool};

    ghost passes: { Self → V → Bool };

    fn passes(&self, value: &V) -> bool
        ensures { result ≡ passes self.now value.now };
}

/// Each value passes.
#[derive(Clone, Copy)]
pub struct Every;

impl<V> Test<V> for Every {
    ghost use Rattle.std.specs.Prelude.{true};

    ghost passes = { λ test value. true };

    fn passes(&self, _value: &V) -> bool {
        true
    }
}

/// Whether a rule holds of some entry. It reads the entries up to the first.
pub fn any_holds<K: Ord + Copy + Drop, V: Copy + Drop, T: Rule<K, V>>(
    entries: &BTreeMap<K, V>,
    rule: &T,
) -> bool
    ensures ordered { IsOrdered K.cmp entries.now }
    ensures found { result ≡ list_any (λ e. T.holds rule.now e.0 e.1) entries.now.entries }
{
    let _count = entries.len();
    for (key, value) in entries {
        if rule.holds(key, value) {
            return true;
        }
    }
    false
}

/// Whether a rule holds of each entry.
pub fn all_hold<K: Ord, V, T: Rule<K, V>>(entries: &BTreeMap<K, V>, rule: &T) -> bool
    requires { IsAntisymmetric K.cmp }
    ensures { Decides result ((k : K) (v : V) → get K.cmp entries.now k ≡ Some v → T.holds rule.now k v ≡ true) }
{
    for (key, value) in entries {
        if !rule.holds(key, value) {
            return false;
        }
    }
    true
}
