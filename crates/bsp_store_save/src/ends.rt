//! The ends of a transaction.

ghost use Rattle.std.specs.Prelude.{IsTrue, OnOk, OnErr};
ghost use Rattle.bsp_store_base.specs.Base.{Content, form, HasCommitted, HasContents, IsInside, IsOutside};

use sqlite::{Alter, Connection, Error};

/// Begins a transaction. Where it begins the store is open, so a stop leaves what the last commit left.
pub(crate) fn open_transaction<S: Alter>(conn: &mut Connection<S>) -> Result<usize, Error>
    ensures ok { OnOk result ((now a b : Content) → HasContents form S.Store conn.old now now a b → HasContents form S.Store conn.new now now now now × IsInside form S.Store conn.new) }
    ensures err { OnErr result ((now a b : Content) → HasContents form S.Store conn.old now now a b → IsOutside form S.Store conn.old → HasCommitted form S.Store conn.new now a b) }
{
    conn.execute("BEGIN", &[])
}

/// Commits what the transaction wrote.
pub(crate) fn close_transaction<S: Alter>(conn: &mut Connection<S>) -> Result<usize, Error>
    ensures ok { OnOk result ((now last a b : Content) → HasContents form S.Store conn.old now last a b → HasContents form S.Store conn.new now now now now × IsOutside form S.Store conn.new) }
    ensures err { OnErr result ((now last : Content) → HasContents form S.Store conn.old now last last last → IsInside form S.Store conn.old → HasCommitted form S.Store conn.new last last now) }
{
    conn.execute("COMMIT", &[])
}

/// Rolls back, whatever went before.
pub(crate) fn undo<S: Alter>(conn: &mut Connection<S>)
    ensures { (last a b : Content) → HasCommitted form S.Store conn.old last a b → HasContents form S.Store conn.new last last a b × IsOutside form S.Store conn.new }
{
    if !conn.is_autocommit() {
        let _ = conn.execute("ROLLBACK", &[]);
    }
}

/// Rolls back, and answers whether the store can still be used.
pub fn recover<S: Alter>(conn: &mut Connection<S>) -> bool
    ensures alive { IsTrue result → (last a b : Content) → HasCommitted form S.Store conn.old last a b → HasContents form S.Store conn.new last last last last × IsOutside form S.Store conn.new }
    ensures ended { (last b : Content) → HasCommitted form S.Store conn.old last last b → HasContents form S.Store conn.new last last last b × IsOutside form S.Store conn.new }
{
    undo(conn);
    match open_transaction(conn) {
        Ok(_) => {
            undo(conn);
            true
        }
        Err(_) => {
            undo(conn);
            false
        }
    }
}
