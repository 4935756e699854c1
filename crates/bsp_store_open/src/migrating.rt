//! A book of an earlier version made one of this version, in one transaction.

ghost use Rattle.std.specs.Prelude.{◌≡◌, true, IfErr, IfOk, false, OnOk};
ghost use Rattle.bsp_store_load.specs.MemoryRowsTables.{rows_of};
ghost use Rattle.bsp_store_open.specs.Faults.{is_refusal};
ghost use Rattle.bsp_store_open.specs.Migrating.{HasNoOldBook, IsMigrated, IsOld, LeavesMigration, IsFilledWith, KeepsNoOld, KeepsOnlyOld, HasBegun, HasEnded, MayEnd};
ghost use Rattle.bsp_store_base.specs.Sqlite.{HasCleanDisk, state};
ghost use Rattle.bsp_book.specs.Sound.{Sound};
ghost use Rattle.bsp_store_load.specs.Contents.{content_now};
ghost use Rattle.bsp_store_load.specs.Formed.{AreFormed};
ghost use Rattle.bsp_store_load.specs.Kept.{Spares};
ghost use Rattle.bsp_store_load.specs.Stored.{AreCommitted};
ghost use Rattle.bsp_store_open.specs.Filled.{HasOldNumber, IsBegun};

use crate::adding::fill;
use crate::fault::OpenFault;
use crate::number::expect_numbered;
use crate::old_versions::OldVersion;
use crate::opening::sound_tables;
use bsp_book::ListBook;
use bsp_store_load::Tables;
use sqlite::{Alter, Connection};
use std::alloc::Global;

/// Opens a transaction.
fn begin<S: Alter>(conn: &mut Connection<S>) -> Result<(), OpenFault>
    ensures begun { OnOk result (HasBegun S.Store conn.old conn.new) }
    ensures refused { IfErr result (λ fault. is_refusal fault ≡ false) }
    ensures spares { Spares S.Store conn.old conn.new }
{
    conn.execute("BEGIN", &[])?;
    Ok(())
}

/// Commits what the transaction wrote.
fn commit<S: Alter>(conn: &mut Connection<S>) -> Result<(), OpenFault>
    ensures ended { OnOk result (HasEnded S.Store conn.old conn.new) }
    ensures refused { IfErr result (λ fault. is_refusal fault ≡ false) }
    ensures stop { MayEnd S.Store conn.old conn.new }
{
    conn.execute("COMMIT", &[])?;
    Ok(())
}

/// `Damaged` in place of `OtherVersion`: the number of the version was tested before.
fn damaged(fault: OpenFault) -> OpenFault
    ensures { is_refusal result ≡ true → (result ≡ OpenFault.Damaged) × (is_refusal fault ≡ true) }
{
    match fault {
        OpenFault::OtherVersion => OpenFault::Damaged,
        _ => fault,
    }
}

/// Brings the tables of an earlier version to those of this one, and answers them in memory. The transaction stays open,
/// and nothing is committed.
///
/// # Errors
///
/// `Damaged`, where the rows are not those of a sound book. Those of the store.
fn filled_tables<S: Alter>(
    alloc: Global,
    conn: &mut Connection<S>,
    version: OldVersion,
) -> Result<Tables, OpenFault>
    requires begun { IsBegun S.Store version conn.old }
    requires number { HasCleanDisk (state S.Store conn.old) → HasOldNumber version (state S.Store conn.old).now.trees }
    ensures committed { IfOk result AreCommitted }
    ensures sound { IfOk result (λ tables. Sound (rows_of tables)) }
    ensures formed { IfOk result (λ tables. AreFormed (rows_of tables)) }
    ensures filled { IfOk result (λ tables. IsFilledWith S.Store version conn.old conn.new (content_now tables)) }
    ensures only { IfOk result (λ tables. HasCleanDisk (state S.Store conn.new) → KeepsOnlyOld version (rows_of tables) (state S.Store conn.old).now.trees) }
    ensures refused { IfErr result (λ fault. is_refusal fault ≡ true → (fault ≡ OpenFault.Damaged) × (HasCleanDisk (state S.Store conn.new) → KeepsNoOld version (state S.Store conn.old).now.trees)) }
    ensures spares { Spares S.Store conn.old conn.new }
{
    fill(conn, version)?;
    match sound_tables(alloc, conn) {
        Ok(tables) => Ok(tables),
        Err(fault) => Err(damaged(fault)),
    }
}

/// The book in memory that the tables of an earlier version keep, after they are brought to this version. All of it is
/// one transaction, and it is committed only after all rows were read again and are those of a sound book.
///
/// # Errors
///
/// `OtherVersion`, where `meta` has a number that is not known. `Damaged`, where it has none or that of another known
/// version, a row is no row of a book, or the rows are not sound. `NoRoom`, where an allocation is refused. `Failed`,
/// where the store fails for another cause, or a transaction is open on the connection.
///
/// After an error a transaction may be open, which is to be given up.
pub fn migrated_list<S: Alter>(
    alloc: Global,
    conn: &mut Connection<S>,
    version: OldVersion,
) -> Result<ListBook, OpenFault>
    requires { IsOld S.Store version conn.old }
    ensures read { IfOk result (λ list. IsMigrated S.Store version conn.old conn.new list (rows_of list.tables)) }
    ensures refused { IfErr result (λ fault. is_refusal fault ≡ true → HasNoOldBook S.Store version fault conn.old conn.new) }
    ensures stop { LeavesMigration S.Store version conn.old conn.new }
{
    expect_numbered(conn, version)?;
    begin(conn)?;
    let tables = filled_tables(alloc, conn, version)?;
    commit(conn)?;
    Ok(ListBook::over(alloc, tables))
}
