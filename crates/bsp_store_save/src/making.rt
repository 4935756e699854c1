//! The tables of an empty book, made in a store that has none.

ghost use Rattle.std.specs.Prelude.{◌≡◌, false, OnOk};
ghost use Rattle.bsp_store_base.specs.Sqlite.{HasCleanDisk, state, Survives};
ghost use Rattle.bsp_rows.specs.Rows.{no_rows};
ghost use Rattle.bsp_store_base.specs.Schema.{no_schema};
ghost use Rattle.bsp_store_load.specs.Formed.{IsBook};
ghost use Rattle.bsp_store_save.specs.Making.{IsNewBook};

use bsp_rows::Day;
use bsp_store_base::make_tables;
use bsp_store_rows::add_first_meta;
use sqlite::{Alter, Connection, Error, Transaction};

/// Makes the tables and the row of `meta` in a transaction, which stays open.
fn make_rows<S: Alter>(tx: &mut Transaction<'_, S>) -> Result<(), Error>
    ensures same_reference { tx.new.conn.ghost_name ≡ tx.old.conn.ghost_name }
    ensures made { OnOk result (HasCleanDisk (state S.Store tx.new.conn.now) → (state S.Store tx.old.conn.now).now.schema ≡ no_schema → IsNewBook (state S.Store tx.new.conn.now).now) }
    ensures survives { Survives (state S.Store tx.old.conn.now) (state S.Store tx.new.conn.now) (λ _. ⊥) }
{
    make_tables(tx)?;
    add_first_meta(tx, Day::first())?;
    Ok(())
}

/// Makes the tables of an empty book in a store that has nothing in it, in one transaction. Whatever stops it, the store
/// keeps what it had, or the whole of the new book, and never a part of its tables.
///
/// # Errors
///
/// Those of `sqlite`. No transaction is open then.
pub fn make_book<S: Alter>(conn: &mut Connection<S>) -> Result<(), Error>
    requires bare { (state S.Store conn.old).now.schema ≡ no_schema }
    requires outside { conn.old.in_transaction ≡ false }
    ensures made { OnOk result (HasCleanDisk (state S.Store conn.new) → IsNewBook (state S.Store conn.new).committed) }
    ensures stop { Survives (state S.Store conn.old) (state S.Store conn.new) (IsBook no_rows) }
    ensures outside { conn.new.in_transaction ≡ false }
{
    let mut tx = conn.transaction();
    make_rows(&mut tx)?;
    tx.commit()?;
    Ok(())
}
