//! A store opened as a book.

ghost use Rattle.std.specs.Prelude.{◌≡◌, false, true, Err, IfErr, IfOk, MatchResult, None, Ok};
ghost use Rattle.bsp_store_base.specs.Sqlite.{HasCleanDisk, Held, IsClean, over_files, over_memory, state};
ghost use Rattle.bsp_rows.specs.Rows.{no_rows};
ghost use Rattle.bsp_store_open.specs.Schema.{no_schema};
ghost use Rattle.bsp_store_open.specs.Faults.{fault_for, is_refusal};
ghost use Rattle.bsp_store_open.specs.Opening.{AreAllInOrder, IsOrdered, LeavesCommitted, LeavesEmptyBook, Reopens, SparesStore};
ghost use Rattle.bsp_store_open.specs.Migrating.{IsOld, ShowsNoOldBook};
ghost use Rattle.bsp_store_open.specs.Old.{old_schema};
ghost use Rattle.bsp_store_open.specs.declared.old_versions.OldVersion.{OldVersion};
ghost use Rattle.bsp_store.specs.Meanings.{Holds};
ghost use Rattle.bsp_store.specs.Adopting.{IsFoundIn, IsMadeOf, IsMigratedIn, LeavesMigrated, ShowsNone};
ghost use Rattle.bsp_store.specs.Files.{AnswersFiles, IsJustOpened, IsSpared};
ghost use Rattle.bsp_store.specs.Openings.{IsOpening, IsOpeningAt, IsOpeningOf};

use crate::book::SqlBook;
use crate::missing_log::CloseAudited;
use crate::on_files::{Files, OnFiles, book_at, on_files};
use bsp_store_open::{
    Damage, OldVersion, OpenFault, again, empty_list, find_damage, is_bare, is_ours, kept_list,
    migrated_list, old_version, refusal,
};
use bsp_store_save::make_book;
use sqlite::{Alter, Connection, Error, ErrorCode, FileFrom, FileStore, MemStore, Start};
use std::alloc::Global;

/// Opens the book that a store with tables keeps, which are not those of an earlier version.
fn kept_book<S: Alter + Drop>(
    alloc: Global,
    mut conn: Connection<S>,
) -> Result<SqlBook<S>, (OpenFault, S)>
    ensures found { IfOk result (λ book. IsOrdered S.Store conn → IsFoundIn S.Store conn book) }
    ensures refused { IfErr result (λ e. is_refusal e.0 ≡ true → IsClean (S.Store.view e.1) → (conn.schema ≡ no_schema → ⊥) → ((version : OldVersion) → conn.schema ≡ old_schema version → ⊥) → ShowsNone S.Store e.0 conn) }
    ensures left { IfErr result (λ e. SparesStore S.Store conn e.1) }
{
    if !is_ours(conn.schema()) {
        return Err((refusal(&mut conn), conn.into_store()));
    }
    match kept_list(alloc, &mut conn) {
        Ok(list) => Ok(SqlBook::of(alloc, list, conn)),
        Err(fault) => Err((fault, conn.into_store())),
    }
}

/// Opens the book that tables of an earlier version keep, after they are brought to this version.
fn migrated_book<S: Alter + Drop>(
    alloc: Global,
    mut conn: Connection<S>,
    version: OldVersion,
) -> Result<SqlBook<S>, (OpenFault, S)>
    requires { IsOld S.Store version conn }
    ensures migrated { IfOk result (IsMigratedIn S.Store version conn) }
    ensures refused { IfErr result (λ e. is_refusal e.0 ≡ true → IsClean (S.Store.view e.1) → ShowsNoOldBook version e.0 (state S.Store conn).now.trees) }
    ensures left { IfErr result (λ e. LeavesMigrated S.Store version conn e.1) }
{
    match migrated_list(alloc, &mut conn, version) {
        Ok(list) => Ok(SqlBook::of(alloc, list, conn)),
        Err(fault) => Err((fault, conn.into_store())),
    }
}

/// The fault of a book that was just made. Where its tables are not found in it again, the store has failed.
fn fault_of_new(fault: OpenFault) -> OpenFault
    ensures { is_refusal result ≡ false }
{
    match fault {
        OpenFault::OtherVersion | OpenFault::Damaged => {
            OpenFault::Failed(Error::SqliteFailure(ErrorCode::DatabaseCorrupt))
        }
        fault => fault,
    }
}

/// Opens the empty book that was just made in a store.
fn empty_book<S: Alter + Drop>(
    alloc: Global,
    conn: Connection<S>,
) -> Result<SqlBook<S>, (OpenFault, S)>
    ensures ok { IfOk result (λ book. Holds S.Store book no_rows None) }
    ensures earlier { IfOk result (λ book. HasCleanDisk (state S.Store book.conn) → HasCleanDisk (state S.Store conn)) }
    ensures refused { IfErr result (λ e. is_refusal e.0 ≡ false) }
    ensures left { IfErr result (λ e. LeavesCommitted S.Store conn e.1) }
{
    let mut conn = again(alloc, conn)?;
    match empty_list(alloc, &mut conn) {
        Ok(list) => Ok(SqlBook::of(alloc, list, conn)),
        Err(fault) => Err((fault_of_new(fault), conn.into_store())),
    }
}

/// Makes an empty book in a store that has no tables.
fn new_book<S: Alter + Drop>(
    alloc: Global,
    mut conn: Connection<S>,
) -> Result<SqlBook<S>, (OpenFault, S)>
    requires bare { (state S.Store conn).now.schema ≡ no_schema }
    requires outside { conn.in_transaction ≡ false }
    ensures ok { IfOk result (λ book. Holds S.Store book no_rows None) }
    ensures earlier { IfOk result (λ book. HasCleanDisk (state S.Store book.conn) → HasCleanDisk (state S.Store conn)) }
    ensures refused { IfErr result (λ e. is_refusal e.0 ≡ false) }
    ensures left { IfErr result (λ e. LeavesEmptyBook S.Store conn e.1) }
{
    match make_book(&mut conn) {
        Ok(()) => empty_book(alloc, conn),
        Err(error) => Err((OpenFault::from(error), conn.into_store())),
    }
}

/// What a store that was just opened again has, as a book. A store without any table gets those of an empty book, and one
/// with the tables of an earlier version is migrated.
fn opened<S: Alter + Drop>(alloc: Global, conn: Connection<S>) -> Result<SqlBook<S>, (OpenFault, S)>
    requires outside { conn.in_transaction ≡ false }
    requires ordered { AreAllInOrder S.Store conn }
    ensures { (before : Held S) → Reopens S.Store before conn → IsMadeOf S.Store before result }
{
    if is_bare(&conn) {
        return new_book(alloc, conn);
    }
    match old_version(conn.schema()) {
        Some(version) => migrated_book(alloc, conn, version),
        None => kept_book(alloc, conn),
    }
}

/// What an opening answers, without the store that comes with a fault.
fn without_store<S: Alter + Drop>(
    opened: Result<SqlBook<S>, (OpenFault, S)>,
) -> Result<SqlBook<S>, OpenFault>
    ensures { MatchResult opened (λ book. result ≡ Ok book) (λ e. result ≡ Err e.0) }
{
    match opened {
        Ok(book) => Ok(book),
        Err((fault, _)) => Err(fault),
    }
}

/// Opens the book of a connection that was just opened, if it was. What is left of a store is dropped.
pub(crate) fn opened_book<S: Alter + Drop, L: Drop>(
    alloc: Global,
    conn: Result<Connection<S>, (OpenFault, Option<L>)>,
) -> Result<SqlBook<S>, OpenFault>
    requires { IfOk conn (IsJustOpened S.Store) }
    ensures { MatchResult conn (λ it. IsOpeningOf S.Store it result) (λ e. result ≡ Err e.0) }
{
    match conn {
        Ok(conn) => without_store(opened(alloc, conn)),
        Err((fault, _)) => Err(fault),
    }
}

impl<S: Alter + Drop> SqlBook<S> {
    /// Opens the book that a store keeps, and tests that its rows are sound. A store without any table gets those of an
    /// empty book, in one transaction. One with the tables of an earlier version gets those that it lacks, also in one
    /// transaction, and the same book: it is committed only after its rows were found to be sound.
    ///
    /// The connection is opened again over its store, which rolls back a transaction that is open on it and tests the whole
    /// store once more.
    ///
    /// Where the connection shows what a stop left of a book with sound rows, of this version or of an earlier one, as
    /// `stops_are_found` says, the book that is opened has these rows, and `OtherVersion` and `Damaged` are not answered
    /// while the disk is clean.
    ///
    /// # Errors
    ///
    /// Each comes with the store. `OtherVersion`, where `meta` has a version that is none of 1 to 3. `Damaged`, where the
    /// tables are not those of the version, a row is no row of a book, or the rows are not sound. Neither is answered of a
    /// store without any table. `NoRoom`, where an allocation is refused. `Failed` with the error of the store, where it
    /// fails for another cause.
    pub fn adopt(alloc: Global, conn: Connection<S>) -> Result<SqlBook<S>, (OpenFault, S)>
        ensures opening { IsOpening S.Store conn result }
    {
        let conn = again(alloc, conn)?;
        opened(alloc, conn)
    }
}

impl SqlBook<MemStore> {
    /// An empty book over tables in memory.
    ///
    /// # Errors
    ///
    /// `NoRoom`, where an allocation is refused, or `Failed`. Never `OtherVersion` or `Damaged`.
    pub fn open_memory(alloc: Global) -> Result<SqlBook<MemStore>, OpenFault>
        ensures empty { IfOk result (λ book. Holds over_memory book no_rows None) }
        ensures refused { IfErr result (λ fault. is_refusal fault ≡ false) }
    {
        let conn = Connection::open_in_memory(alloc)?;
        without_store(new_book(alloc, conn))
    }
}

impl<T: Start> SqlBook<FileStore<FileFrom<T>>> {
    /// Opens the book in the file at a path, with its log beside it, or makes both. It opens them once, and tests the whole
    /// store then; what the log has stays there. What it makes of them is as [`SqlBook::adopt`] says. `start` says what a
    /// torn write may leave: with `Wary` each commit syncs twice.
    ///
    /// # Errors
    ///
    /// As those of [`SqlBook::adopt`]: after each of them a stop leaves what the files had, or the whole of the book that was
    /// to be made of it, and the next opening finds it. Files that are not opened are `Failed`, memory apart. No clause ties
    /// what the files hold to the path.
    pub fn open_path(
        rt: &HostRuntime,
        path: &str,
        start: T,
    ) -> Result<SqlBook<FileStore<FileFrom<T>>>, OpenFault>
        ensures opening { IsOpeningAt T.Start result }
    {
        book_at(rt, path, Files(start))
    }
}

/// The search for what damages a book in files.
#[derive(Clone, Copy)]
struct Search;

impl OnFiles<Result<Damage, OpenFault>> for Search {
    ghost use Rattle.std.specs.Prelude.{◌≡◌, Err};
    ghost use Rattle.bsp_store.specs.Files.{IsSpared};

    ghost is_found = { λ S g conn found. IsSpared g conn };

    ghost is_failed = { λ fault found. found ≡ Err fault };

    fn found<S: Alter + CloseAudited + Drop, L: CloseAudited + Drop>(
        self,
        rt: &HostRuntime,
        opened: Result<Connection<S>, (OpenFault, Option<L>)>,
    ) -> Result<Damage, OpenFault> {
        match opened {
            Ok(mut conn) => find_damage(rt.alloc(), &mut conn),
            Err((fault, _)) => Err(fault),
        }
    }
}

/// What damages the book in the file at a path, where its opening is refused as damaged. It opens the file once more, and
/// leaves to a stop no more than the opening found.
///
/// # Errors
///
/// Those of an opening.
pub fn damage_at<T: Start>(rt: &HostRuntime, path: &str, start: T) -> Result<Damage, OpenFault>
    ensures search { AnswersFiles T.Start (IsSpared over_files) (λ error. result ≡ Err (fault_for error)) }
{
    on_files(rt, path, start, Search)
}
