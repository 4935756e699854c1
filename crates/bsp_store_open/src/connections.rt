//! A connection that is opened over a store, so that the order of the rows is known, whichever tables it has.

ghost use Rattle.std.specs.Prelude.{◌≡◌, ◌≤◌, false, IfErr, IfOk};
ghost use Rattle.bsp_store_base.specs.Sqlite.{doubt, HasCleanDisk, IsClean, IsFresh, IsLive, IsNew, IsQuiet, Opens, state};
ghost use Rattle.bsp_store_open.specs.Faults.{is_refusal};
ghost use Rattle.bsp_store_open.specs.Opening.{AreAllInOrder, LeavesCommitted, Reopens};

use crate::fault::OpenFault;
use sqlite::{Alter, Connection, Error, ErrorCode};
use sqlite_trees::store::Store;
use std::alloc::Global;

/// Opens a connection over a store that was just opened. The rows of each table are in the order of their rowids, which
/// are integers.
///
/// # Errors
///
/// Those of the store. Each comes with the store, which a crash leaves as before.
pub fn open_ordered<S: Alter + Drop>(alloc: Global, store: S) -> Result<Connection<S>, (Error, S)>
    requires { IsClean (S.Store.view store) → IsFresh (S.Store.view store) }
    ensures opens { IfOk result (λ c. HasCleanDisk (state S.Store c) → Opens (state S.Store c) × IsLive (state S.Store c)) }
    ensures fresh { IfOk result IsNew }
    ensures trees { IfOk result (λ c. HasCleanDisk (state S.Store c) → (state S.Store c).now.trees ≡ (S.Store.view store).trees) }
    ensures clean { IfOk result (λ c. doubt (S.Store.view store).is_clean ≤ doubt (state S.Store c).is_clean) }
    ensures unharmed { IfErr result (λ e. IsQuiet S.Store.view S.Store.faults S.Store.recovers S.Store.is_shielded store e.1) }
    ensures order { IfOk result (AreAllInOrder S.Store) }
{
    Connection::over(alloc, store)
}

/// Opens a connection again over its own store. It rolls back what is not committed, and tests the whole store once more.
///
/// # Errors
///
/// `NoRoom`, where an allocation is refused, or `Failed` with the error of the store. Each comes with the store.
pub fn again<S: Alter + Drop>(
    alloc: Global,
    conn: Connection<S>,
) -> Result<Connection<S>, (OpenFault, S)>
    ensures ok { IfOk result (Reopens S.Store conn) }
    ensures ordered { IfOk result (AreAllInOrder S.Store) }
    ensures refused { IfErr result (λ e. is_refusal e.0 ≡ false) }
    ensures left { IfErr result (λ e. LeavesCommitted S.Store conn e.1) }
{
    let store = conn.into_store();
    if store.is_broken() {
        return Err((
            OpenFault::Failed(Error::SqliteFailure(ErrorCode::Closed)),
            store,
        ));
    }
    match open_ordered(alloc, store) {
        Ok(conn) => Ok(conn),
        Err((error, store)) => Err((OpenFault::from(error), store)),
    }
}
