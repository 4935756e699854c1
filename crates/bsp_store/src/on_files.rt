//! The files at a path: opened, and what is done with them then.

ghost use Rattle.std.specs.Prelude.{◌≡◌, Err};
ghost use Rattle.sqlite.specs.Files.{over_files};
ghost use Rattle.bsp_store_open.specs.Faults.{fault_for};
ghost use Rattle.bsp_store.specs.Files.{Answers, AnswersFiles, FailsToOpen, FindsFiles};
ghost use Rattle.bsp_store.specs.Openings.{IsOpeningOf};

use crate::book::SqlBook;
use crate::missing_log::CloseAudited;
use crate::opening::opened_book;
use bsp_store_open::OpenFault;
use sqlite::{Alter, Connection, FileFrom, FileStore, Leftover, Start};

/// How a store is opened at a path, whatever the store is.
pub(crate) trait Opens<S: Alter, L> {
    ghost use Rattle.std.specs.Prelude.{◌≡◌, IfErr, IfOk};
    ghost use Rattle.sqlite.specs.Held.{Held};
    ghost use Rattle.sqlite.specs.declared.error.Error.{Error as StoreError};
    ghost use Rattle.bsp_store_open.specs.Faults.{fault_for};
    ghost use Rattle.bsp_store.specs.Files.{IsJustOpened};

    // what a connection shows that was opened
    ghost finds: { Held S → Type 0 };

    // for which error none was opened
    ghost fails: { StoreError → Type 0 };

    /// Opens it. What is left of it comes with a fault.
    fn open(self, rt: &HostRuntime, path: &str) -> Result<Connection<S>, (OpenFault, Option<L>)>
        ensures found { IfOk result finds }
        ensures opened { IfOk result (IsJustOpened S.Store) }
        ensures cause { IfErr result (λ e. (error : StoreError) × fails error × (e.0 ≡ fault_for error)) };
}

/// The file at a path, with its log beside it. The field says what a torn write may leave in them.
pub(crate) struct Files<T>(pub(crate) T);

impl<T: Start> Opens<FileStore<FileFrom<T>>, Leftover<FileFrom<T>>> for Files<T> {
    ghost use Rattle.bsp_store.specs.Files.{FailsToOpen, FindsFiles};

    ghost finds = { FindsFiles T.Start };

    ghost fails = { FailsToOpen T.Start };

    fn open(
        self,
        rt: &HostRuntime,
        path: &str,
    ) -> Result<Connection<FileStore<FileFrom<T>>>, (OpenFault, Option<Leftover<FileFrom<T>>>)> {
        let Files(start) = self;
        match Connection::open_from(rt, path, false, start) {
            Ok(conn) => Ok(conn),
            Err((error, left)) => Err((OpenFault::from(error), left)),
        }
    }
}

/// What is done with a connection that was just opened, if it was, whatever its store is.
pub(crate) trait OnFiles<F> {
    ghost use Rattle.std.specs.Prelude.{IfOk, MatchResult};
    ghost use Rattle.bsp_store_base.specs.Sqlite.{Ghosts, Held};
    ghost use Rattle.bsp_store_open.specs.declared.fault.OpenFault.{OpenFault as Fault};
    ghost use Rattle.bsp_store.specs.Files.{IsJustOpened};

    // what is found in a connection
    ghost is_found: { (S : Type 0) → Ghosts S → Held S → F → Type 0 };

    // what is answered where none was opened
    ghost is_failed: { Fault → F → Type 0 };

    fn found<S: Alter + CloseAudited + Drop, L: CloseAudited + Drop>(
        self,
        rt: &HostRuntime,
        opened: Result<Connection<S>, (OpenFault, Option<L>)>,
    ) -> F
        requires { IfOk opened (IsJustOpened S.Store) }
        ensures { MatchResult opened (λ conn. is_found _ S.Store conn result) (λ e. is_failed e.0 result) };
}

/// Opens a store at a path, and does something with the connection over it.
fn on_store<
    F,
    S: Alter + CloseAudited + Drop,
    L: CloseAudited + Drop,
    O: Opens<S, L>,
    J: OnFiles<F>,
>(rt: &HostRuntime, path: &str, files: O, job: J) -> F
    ensures { Answers O.finds O.fails (λ conn. J.is_found _ S.Store conn result) (λ error. J.is_failed (fault_for error) result) }
{
    let opened = files.open(rt, path);
    job.found(rt, opened)
}

/// Opens the file at a path, with its log beside it, and does something with the connection over them. `start` says what a
/// torn write may leave in them.
pub(crate) fn on_files<F, T: Start, J: OnFiles<F>>(
    rt: &HostRuntime,
    path: &str,
    start: T,
    job: J,
) -> F
    ensures { AnswersFiles T.Start (λ conn. J.is_found _ over_files conn result) (λ error. J.is_failed (fault_for error) result) }
{
    on_store(rt, path, Files(start), job)
}

/// Opens a store at a path as a book.
pub(crate) fn book_at<S: Alter + Drop, L: Drop, O: Opens<S, L>>(
    rt: &HostRuntime,
    path: &str,
    files: O,
) -> Result<SqlBook<S>, OpenFault>
    ensures { Answers O.finds O.fails (λ conn. IsOpeningOf S.Store conn result) (λ error. result ≡ Err (fault_for error)) }
{
    let opened = files.open(rt, path);
    opened_book(rt.alloc(), opened)
}
