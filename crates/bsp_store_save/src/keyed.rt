//! Tables whose rows are found by keys, brought up to date.

ghost use Rattle.std.specs.Prelude.{◌≡◌, IfOk, OnErr, OnOk};
ghost use Rattle.std.specs.FinMap.{entries, from_entries, get, IsAntisymmetric};
ghost use Rattle.bsp_maps.specs.Undo.{IsEarlier, undone};
ghost use Rattle.bsp_store_save.specs.Each.{AreThere, with_each};
ghost use Rattle.bsp_store_save.specs.Saving.{Saves};

use bsp_maps::{Old, values_before};
use sqlite::{Alter, Connection, Error, ErrorCode};
use std::alloc::Global;
use std::collections::BTreeMap;

/// A table whose rows are found by keys. A value in memory may have no row.
pub(crate) trait Keyed<K: Ord + Copy + Drop, V: Copy + Drop> {
    ghost use Rattle.std.specs.Prelude.{Bool, Option};
    ghost use Rattle.bsp_store_base.specs.Base.{Changes, Content, GivesUp};

    // the content with the row of a value at a key, or with none
    ghost set: { Self → K → Option V → Content → Content };

    // whether the content has a row at a key, and whether a value has one there
    ghost holds: { K → Content → Bool };

    ghost rows: { Self → K → Option V → Bool };

    /// Whether a value has a row at a key.
    fn has_row(&self, key: K, value: Option<V>) -> bool
        ensures { result ≡ rows self.now key value };

    /// Writes the row of a key in the open transaction, or takes it out where the value has none. The table has a row of
    /// the key if and only if `is_there`.
    ///
    /// # Errors
    ///
    /// Those of `sqlite`; the transaction is then rolled back, or is still to be.
    fn put<S: Alter>(
        &self,
        conn: &mut Connection<S>,
        key: K,
        is_there: bool,
        value: Option<V>,
    ) -> Result<(), Error>
        ensures ok { OnOk result (Changes S.Store conn.old conn.new (λ now. holds key now ≡ is_there) (set self.now key value)) }
        ensures err { OnErr result (GivesUp S.Store conn.old conn.new) };
}

/// What was at each key that was written since the last commit.
///
/// # Errors
///
/// `OutOfMemory`.
pub(crate) fn written_before<K: Ord + Copy + Drop, V: Copy + Drop>(
    alloc: Global,
    written: &[Old<K, V>],
    values: &BTreeMap<K, V>,
) -> Result<BTreeMap<K, Option<V>>, Error>
    requires { IsAntisymmetric K.cmp }
    ensures { IfOk result (λ found. IsEarlier (from_entries {R = K.cmp} found.entries) (from_entries values.now.entries) (undone written.now (from_entries values.now.entries))) }
{
    match values_before(alloc, written, values) {
        Ok(found) => Ok(found),
        Err(_) => Err(Error::SqliteFailure(ErrorCode::OutOfMemory)),
    }
}

/// Writes what a map has at the keys that were written, each once.
pub(crate) fn put_written<K: Ord + Copy + Drop, V: Copy + Drop, T: Keyed<K, V>, S: Alter>(
    table: &T,
    conn: &mut Connection<S>,
    before: &BTreeMap<K, Option<V>>,
    values: &BTreeMap<K, V>,
) -> Result<(), Error>
    ensures { Saves S.Store conn.old conn.new result
        (AreThere (T.set table.now) (get (from_entries {R = K.cmp} values.now.entries)) T.holds (T.rows table.now) (entries (from_entries {R = K.cmp} before.now.entries)))
        (with_each (T.set table.now) (get (from_entries {R = K.cmp} values.now.entries)) (entries (from_entries {R = K.cmp} before.now.entries))) }
{
    let _count = before.len();
    for (key, old) in before {
        let value = values.get(key).copied();
        table.put(conn, *key, table.has_row(*key, *old), value)?;
    }
    Ok(())
}
