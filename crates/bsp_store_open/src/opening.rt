//! A store read as a book in memory.

ghost use Rattle.std.specs.Prelude.{◌≡◌, ◌⊎◌, true, false, IfErr, IfOk, OnOk};
ghost use Rattle.bsp_store_base.specs.Entries.{no_rows, Sound};
ghost use Rattle.bsp_store_load.specs.MemoryRowsTables.{rows_of};
ghost use Rattle.bsp_store_load.specs.Formed.{AreFormed};
ghost use Rattle.bsp_store_load.specs.Kept.{Spares};
ghost use Rattle.bsp_store_load.specs.Stored.{AreCommitted};
ghost use Rattle.bsp_store_open.specs.Faults.{is_refusal};
ghost use Rattle.bsp_store_open.specs.Loaded.{IsAllLoaded};
ghost use Rattle.bsp_store_open.specs.Opening.{HasNoBook, IsAtRest, IsOrdered, IsRead, IsReading, ShowsNoBook};

use crate::fault::OpenFault;
use crate::tables::kept_tables;
use bsp_book::ListBook;
use bsp_store_load::{Tables, has_nothing};
use sqlite::{Alter, Connection, Error, ErrorCode};
use std::alloc::Global;

/// Refuses a connection on which a transaction is open.
fn expect_rest<S: Alter>(conn: &Connection<S>) -> Result<(), OpenFault>
    ensures rest { OnOk result (IsAtRest S.Store conn.now) }
    ensures refused { IfErr result (λ fault. is_refusal fault ≡ false) }
{
    let _schema = conn.schema();
    if conn.is_autocommit() {
        Ok(())
    } else {
        Err(OpenFault::Failed(Error::SqliteFailure(ErrorCode::TransactionState)))
    }
}

/// Refuses tables in memory whose rows are not sound.
///
/// # Errors
///
/// `Damaged`, where the rows are not sound. `NoRoom`, where an allocation is refused.
pub fn expect_sound(alloc: Global, tables: &Tables) -> Result<(), OpenFault>
    ensures sound { OnOk result (Sound (rows_of tables.now)) }
    ensures refused { IfErr result (λ fault. (fault ≡ OpenFault.NoRoom) ⊎ ((fault ≡ OpenFault.Damaged) × ¬ Sound (rows_of tables.now))) }
{
    if !tables.are_sound(alloc)? {
        return Err(OpenFault::Damaged);
    }
    Ok(())
}

/// The tables in memory that the tables of a store keep, whose rows are sound. A transaction may be open.
///
/// # Errors
///
/// As those of [`kept_tables`]. `Damaged` too, where the rows are not sound.
pub(crate) fn sound_tables<S: Alter>(
    alloc: Global,
    conn: &mut Connection<S>,
) -> Result<Tables, OpenFault>
    ensures { IsReading S.Store conn.old conn.new result (λ tables. AreCommitted tables × AreFormed (rows_of tables) × Sound (rows_of tables)) (λ tables trees. IsAllLoaded trees tables) ShowsNoBook }
{
    let tables = kept_tables(alloc, conn)?;
    expect_sound(alloc, &tables)?;
    Ok(tables)
}

/// The book in memory that the tables of a store keep.
///
/// # Errors
///
/// `OtherVersion`, where `meta` has a version that is none of 1 to 3. `Damaged`, where the tables are not those of a book, a row
/// is no row of a book, or the rows are not sound. `NoRoom`, where an allocation is refused. `Failed`, where the store
/// fails for another cause, or a transaction is open on the connection.
pub fn kept_list<S: Alter>(alloc: Global, conn: &mut Connection<S>) -> Result<ListBook, OpenFault>
    ensures read { IfOk result (λ list. IsOrdered S.Store conn.old → IsRead S.Store conn.old conn.new list (rows_of list.tables)) }
    ensures refused { IfErr result (λ fault. is_refusal fault ≡ true → HasNoBook S.Store fault conn.old conn.new) }
    ensures spares { Spares S.Store conn.old conn.new }
{
    let tables = sound_tables(alloc, conn)?;
    expect_rest(conn)?;
    Ok(ListBook::over(alloc, tables))
}

/// Refuses tables in memory that have a row, or a plan.
fn expect_none(alloc: Global, tables: &Tables) -> Result<(), OpenFault>
    ensures { OnOk result (rows_of tables.now ≡ no_rows) }
{
    if !has_nothing(alloc, tables) {
        return Err(OpenFault::Damaged);
    }
    Ok(())
}

/// An empty book in memory, which the tables of a store keep.
///
/// # Errors
///
/// As those of [`kept_list`]. `Damaged` too, where the tables have a row that those of an empty book have not.
pub fn empty_list<S: Alter>(alloc: Global, conn: &mut Connection<S>) -> Result<ListBook, OpenFault>
    ensures read { IfOk result (λ list. IsOrdered S.Store conn.old → IsRead S.Store conn.old conn.new list no_rows) }
    ensures spares { Spares S.Store conn.old conn.new }
{
    let list = kept_list(alloc, conn)?;
    expect_none(alloc, list.tables())?;
    Ok(list)
}
