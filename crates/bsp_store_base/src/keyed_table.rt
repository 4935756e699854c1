//! Tables whose rows are found by keys: a row is written over, added or taken out by one statement.

ghost use Rattle.std.specs.Prelude.{◌≤◌, length, OnErr, OnOk};
ghost use Rattle.bsp_store_base.specs.Calls.{Changes, GivesUp};
ghost use Rattle.bsp_store_base.specs.MapTables.{after, HasRun, holds_row};
ghost use Rattle.bsp_store_columns.specs.Cells.{widest, written};

use bsp_store_columns::{Cell, CellArray, Entry, values_of};
use sqlite::{Alter, Connection, Error};

/// The statements that write and read the rows of a table.
#[derive(Clone, Copy)]
pub struct Statements {
    /// Takes the row of a key out.
    pub delete: &'static str,
    /// Adds a row.
    pub insert: &'static str,
    /// Writes over the row of a key.
    pub update: &'static str,
    /// Asks for all rows, in the order of their keys.
    pub query: &'static str,
}

/// A table whose rows are found by keys, and have a value each.
pub trait KeyedTable<K: Copy + Drop, V: Copy + Drop> {
    ghost use Rattle.std.specs.declared.cmp.Ordering.{Ordering};
    ghost use Rattle.std.specs.Prelude.{◌≡◌, ◌≤◌, length};
    ghost use Rattle.bsp_store_columns.specs.Cells.{widest, written};
    ghost use Rattle.bsp_store_base.specs.MapTables.{AreStatementsOf, IsMapTable, MapTable};

    /// The cells of a key.
    type KeyCells: CellArray + Drop;

    /// The entry that has a row.
    type Entry: Entry + Drop;

    // its rows are the entries of a map of the content, in this order of its keys
    ghost order: { K → K → Ordering };

    ghost table: { MapTable K V order };

    /// The statements for its rows.
    fn statements(&self) -> Statements
        ensures meant { AreStatementsOf table result }
        ensures lawful { IsMapTable table };

    /// The cells of a key.
    fn key_cells(&self, key: &K) -> Self::KeyCells
        ensures written { written (Self.KeyCells.CellArray.list result) ≡ table.key_of key.now }
        ensures narrow { length (Self.KeyCells.CellArray.list result) ≤ widest };

    /// The entry of a key and a value.
    fn entry(&self, key: &K, value: &V) -> Self::Entry
        ensures row { Self.Entry.Entry.row result ≡ table.row_of (key.now, value.now) }
        ensures fits { Self.Entry.Entry.fits result };
}

/// Leaves a value at a key, or none. One statement writes it, by whether the table has a row of the key.
///
/// # Errors
///
/// Where the store fails; then the transaction is to be rolled back.
pub fn put<K: Copy + Drop, V: Copy + Drop, T: KeyedTable<K, V>, S: Alter>(
    table: &T,
    conn: &mut Connection<S>,
    key: K,
    is_there: bool,
    value: Option<V>,
) -> Result<(), Error>
    ensures ok { OnOk result (Changes S.Store conn.old conn.new (holds_row T.table key is_there) (after T.table key value)) }
    ensures err { OnErr result (GivesUp S.Store conn.old conn.new) }
{
    let statements = table.statements();
    if let Some(value) = value {
        if is_there {
            run_row(table, conn, statements.update, &key, &value)?;
        } else {
            run_row(table, conn, statements.insert, &key, &value)?;
        }
    } else if is_there {
        run_key(table, conn, statements.delete, &key)?;
    }
    Ok(())
}

/// Runs a statement whose parameters are the columns of a row.
fn run_row<K: Copy + Drop, V: Copy + Drop, T: KeyedTable<K, V>, S: Alter>(
    table: &T,
    conn: &mut Connection<S>,
    text: &str,
    key: &K,
    value: &V,
) -> Result<usize, Error>
    ensures { HasRun S.Store text.now (T.table.row_of (key.now, value.now)) conn.old conn.new result }
{
    let entry = table.entry(key, value);
    run_entry(conn, text, &entry)
}

/// Runs a statement whose parameters are the columns of a key.
fn run_key<K: Copy + Drop, V: Copy + Drop, T: KeyedTable<K, V>, S: Alter>(
    table: &T,
    conn: &mut Connection<S>,
    text: &str,
    key: &K,
) -> Result<usize, Error>
    ensures { HasRun S.Store text.now (T.table.key_of key.now) conn.old conn.new result }
{
    let cells = table.key_cells(key);
    run(conn, text, cells.as_cells())
}

/// Runs a statement with the values of cells.
///
/// # Errors
///
/// Those of the store.
fn run<S: Alter>(conn: &mut Connection<S>, text: &str, cells: &[Cell]) -> Result<usize, Error>
    requires { length cells.now ≤ widest }
    ensures { HasRun S.Store text.now (written cells.now) conn.old conn.new result }
{
    conn.execute(text, &values_of(cells)[..cells.len()])
}

/// Runs a statement with the row of an entry.
///
/// # Errors
///
/// Those of the store.
pub fn run_entry<E: Entry, S: Alter>(
    conn: &mut Connection<S>,
    text: &str,
    entry: &E,
) -> Result<usize, Error>
    requires { E.Entry.fits entry.now }
    ensures { HasRun S.Store text.now (E.Entry.row entry.now) conn.old conn.new result }
{
    let cells = entry.cells();
    run(conn, text, cells.as_cells())
}
