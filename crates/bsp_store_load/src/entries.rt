//! A new entry put into a map.

ghost use Rattle.std.specs.Prelude.{◌≡◌, false, IfOk, is_some, IsTrue, not};
ghost use Rattle.std.specs.FinMap.{from_entries, get, insert, IsAntisymmetric};

use std::alloc::AllocError;
use std::collections::BTreeMap;

/// Puts an entry into a map, and answers false, and puts nothing, where the map has one of its key.
pub(crate) fn put_new<K: Ord + Copy + Drop, V: Copy + Drop>(
    map: &mut BTreeMap<K, V>,
    key: K,
    value: V,
) -> Result<bool, AllocError>
    requires { IsAntisymmetric K.cmp }
    ensures there { IfOk result (λ done. is_some (get (from_entries {R = K.cmp} map.old.entries) key) ≡ not done) }
    ensures kept { IfOk result (λ done. done ≡ false → from_entries {R = K.cmp} map.new.entries ≡ from_entries map.old.entries) }
    ensures put { IfOk result (λ done. IsTrue done → from_entries {R = K.cmp} map.new.entries ≡ insert (from_entries map.old.entries) key value) }
{
    if map.contains_key(&key) {
        return Ok(false);
    }
    map.insert(key, value)?;
    Ok(true)
}
