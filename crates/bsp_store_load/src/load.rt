//! The rows of a table, put into memory one at a time as a query shows them.

ghost use Rattle.std.specs.Prelude.{◌≡◌, false, true, IfOk, IsTrue, OnOk, ◌∷◌, List, IsPermutation};
ghost use Rattle.bsp_store_base.specs.Sqlite.{HasCleanDisk, state};
ghost use Rattle.bsp_store_base.specs.Base.{Content, our_schema, Part, Reads, ShowsTable, Spares};
ghost use Rattle.bsp_store_load.specs.Loading.{IsLoaded};
ghost use Rattle.sqlite_value.specs.Order.{Row as Values};

use bsp_memory_rows::NoRoom;
use sqlite::{Alter, Connection, Error, ErrorCode, Row};

/// A table of the store whose rows are put into memory one at a time: into `M`, such as the tables in memory, or a map.
pub trait StoredTable<K, V, M> {
    // the table
    ghost part: { Part Content };

    // what is in memory, as clauses see it, and what else is kept of it
    ghost Whole: { Type 0 };

    ghost whole: { M → Whole };

    ghost is_kept: { M → Type 0 };

    // the row of an entry, and what is in memory with the entry
    ghost row_of: { K × V → Values };

    ghost with_entry: { K × V → Whole → Whole };

    // the entry is one that a book may have
    ghost fits: { Self → K × V → Type 0 };

    // nothing is in memory at the entry's key
    ghost lacks: { K × V → Whole → Type 0 };

    // the rows of this table that are in memory
    ghost rows_in: { Whole → List Values };

    ghost adds: { (e : K × V) (all : Whole) → lacks e all → IsPermutation (row_of e ∷ rows_in all) (rows_in (with_entry e all)) };

    /// The query for its rows, in the order of their keys.
    fn query(&self) -> &'static str
        ensures { ShowsTable part result.now };

    /// Puts the entry of a row into memory, and keeps nothing to undo it. It answers false, and puts nothing, where the
    /// row is not that of an entry, or there is an entry of its key.
    fn put(&self, memory: &mut M, row: &Row) -> Result<bool, NoRoom>
        ensures derived { OnOk result (is_kept memory.old → is_kept memory.new) }
        ensures kept { IfOk result (λ done. done ≡ false → whole memory.new ≡ whole memory.old) }
        ensures row { IfOk result (λ done. IsTrue done → (e : K × V) × (row.now ≡ row_of e) × lacks e (whole memory.old) × (whole memory.new ≡ with_entry e (whole memory.old))) }
        ensures entry { IfOk result (λ done. (e : K × V) → fits self.now e → lacks e (whole memory.old) → row.now ≡ row_of e → (done ≡ true) × (whole memory.new ≡ with_entry e (whole memory.old))) };
}

/// Puts the entry of a row into memory.
fn put_row<K, V, M, T: StoredTable<K, V, M>>(
    table: &T,
    memory: &mut M,
    row: &Row,
) -> Result<bool, Error>
    ensures derived { OnOk result (T.is_kept memory.old → T.is_kept memory.new) }
    ensures kept { IfOk result (λ done. done ≡ false → T.whole memory.new ≡ T.whole memory.old) }
    ensures row { IfOk result (λ done. IsTrue done → (e : K × V) × (row.now ≡ T.row_of e) × T.lacks e (T.whole memory.old) × (T.whole memory.new ≡ T.with_entry e (T.whole memory.old))) }
    ensures entry { IfOk result (λ done. (e : K × V) → T.fits table.now e → T.lacks e (T.whole memory.old) → row.now ≡ T.row_of e → (done ≡ true) × (T.whole memory.new ≡ T.with_entry e (T.whole memory.old))) }
{
    match table.put(memory, row) {
        Ok(done) => Ok(done),
        Err(NoRoom) => Err(Error::SqliteFailure(ErrorCode::OutOfMemory)),
    }
}

/// Puts the rows of a table into memory, one at a time, up to the first that is not put. It answers that row, or none.
///
/// # Errors
///
/// Those of the store. `OutOfMemory` also where an allocation in memory is refused, or a count or a sum of a tally does
/// not fit its type.
pub fn load_table<S: Alter, K, V, M, T: StoredTable<K, V, M>>(
    table: &T,
    conn: &mut Connection<S>,
    memory: &mut M,
) -> Result<Option<Row>, Error>
    ensures derived { OnOk result (T.is_kept memory.old → T.is_kept memory.new) }
    ensures loaded { conn.old.schema ≡ our_schema → HasCleanDisk (state S.Store conn.new) → IfOk result (λ left. IsLoaded T.part T.row_of T.with_entry (T.fits table.now) T.lacks T.rows_in (state S.Store conn.old).now.trees (T.whole memory.old) (T.whole memory.new) left) }
    ensures read { OnOk result (conn.old.schema ≡ our_schema → Reads S.Store conn.old conn.new) }
    ensures spares { conn.old.schema ≡ our_schema → Spares S.Store conn.old conn.new }
{
    let mut rows = conn.query(table.query(), &[])?;
    'rows: for _ in 0..u64::MAX {
        let Some(row) = rows.next()? else {
            return Ok(None);
        };
        if !put_row(table, memory, row)? {
            return Ok(Some(row.copy()?));
        }
    }
    Err(Error::SqliteFailure(ErrorCode::TooBig))
}
