//! Windows of keys, and the entries of a map that are in one.

ghost use Rattle.std.specs.Prelude.{◌≡◌, map, IfOk};
ghost use Rattle.std.specs.List.{filter, list_any};
ghost use Rattle.std.specs.BTreeMap.{IsOrdered};
ghost use Rattle.bsp_maps.specs.Windows.{entries_in, values_in};

use crate::rules::Test;
use std::alloc::{AllocError, Global};
use std::collections::BTreeMap;

/// A window of keys: from a lowest key on, keys that are next to each other.
pub trait Window<K: Ord> {
    ghost use Rattle.std.specs.Prelude.{◌≡◌, Bool, true};
    ghost use Rattle.std.specs.declared.cmp.Ordering.TheVariants.{Less};
    ghost use Rattle.std.specs.Ordering.{is_le};

    ghost low: { Self → K };

    ghost has: { Self → K → Bool };

    /// A key that no key of the window is below.
    fn low(&self) -> K
        ensures { result ≡ low self.now };

    /// Whether a key is in the window.
    fn has(&self, key: &K) -> bool
        ensures { result ≡ has self.now key.now };

    // No key of the window is below the lowest.
    ghost lowest: { (window : Self) (k : K) → has window k ≡ true → is_le (K.cmp (low window) k) ≡ true };

    // What is between the lowest and a key of the window is in the window.
    ghost together: { (window : Self) (x y : K) → is_le (K.cmp (low window) x) ≡ true → K.cmp x y ≡ Less → has window y ≡ true → has window x ≡ true };
}

/// The values of a window that pass a test, in the order of their keys. It reads that window alone.
pub fn chosen<K: Ord + Copy + Drop, V: Copy + Drop, W: Window<K>, T: Test<V>>(
    alloc: Global,
    entries: &BTreeMap<K, V>,
    window: &W,
    test: &T,
) -> Result<Vec<V>, AllocError>
    ensures found { IfOk result (λ found. found.items ≡ filter (T.passes test.now) (values_in (W.has window.now) entries.now.entries)) }
    ensures ordered { IsOrdered K.cmp entries.now }
{
    let mut found = Vec::new(alloc);
    for (key, value) in entries.range(window.low()..) {
        if !window.has(key) {
            break;
        }
        if test.passes(value) {
            found.push(*value)?;
        }
    }
    Ok(found)
}

/// The entries of a window, in the order of their keys. It reads that window alone.
pub fn window_entries<K: Ord + Copy + Drop, V: Copy + Drop, W: Window<K>>(
    alloc: Global,
    entries: &BTreeMap<K, V>,
    window: &W,
) -> Result<Vec<(K, V)>, AllocError>
    ensures found { IfOk result (λ found. found.items ≡ entries_in (W.has window.now) entries.now.entries) }
    ensures ordered { IsOrdered K.cmp entries.now }
{
    let mut found = Vec::new(alloc);
    for (key, value) in entries.range(window.low()..) {
        if !window.has(key) {
            break;
        }
        found.push((*key, *value))?;
    }
    Ok(found)
}

/// Whether a key is in the window. It reads one key.
pub fn has_any<K: Ord + Copy + Drop, V: Copy + Drop, W: Window<K>>(
    entries: &BTreeMap<K, V>,
    window: &W,
) -> bool
    ensures found { result ≡ list_any (λ e. W.has window.now e.0) entries.now.entries }
    ensures ordered { IsOrdered K.cmp entries.now }
{
    match entries.range(window.low()..).next() {
        None => false,
        Some((key, _)) => window.has(key),
    }
}
