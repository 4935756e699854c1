//! A store is tested for anything in it, and gets the tables.

ghost use Rattle.std.specs.Prelude.{◌≡◌, ◌↔◌, IsTrue, OnOk};
ghost use Rattle.bsp_store_base.specs.Sqlite.{HasCleanDisk, state, Survives};
ghost use Rattle.bsp_store_base.specs.Made.{HasNoRows};
ghost use Rattle.bsp_store_base.specs.Schema.{no_schema, our_schema};

use bsp_store_columns::table;
use sqlite::{Alter, Connection, Error, Transaction};

/// The texts that make the tables, in the order of their trees.
const TABLES: &str = table!(
    meta,
    create [terms airline rate period agent stock item memo tally commission_tax item_tax tally_tax second_related] {}
);

/// Whether the store has nothing in it.
pub fn is_bare<S: Alter>(conn: &Connection<S>) -> bool
    ensures { IsTrue result ↔ ((state S.Store conn.now).now.schema ≡ no_schema) }
{
    let schema = conn.schema();
    schema.tables.is_empty() && schema.indexes.is_empty() && schema.views.is_empty()
}

/// Makes the fourteen tables, without a row in them, in a store that has nothing in it. The transaction stays open, and
/// nothing is committed.
///
/// # Errors
///
/// That of the statement which failed.
pub fn make_tables<S: Alter>(tx: &mut Transaction<'_, S>) -> Result<(), Error>
    ensures same_reference { tx.new.conn.ghost_name ≡ tx.old.conn.ghost_name }
    ensures made { OnOk result (HasCleanDisk (state S.Store tx.new.conn.now) → (state S.Store tx.old.conn.now).now.schema ≡ no_schema → HasNoRows our_schema (state S.Store tx.new.conn.now).now) }
    ensures survives { Survives (state S.Store tx.old.conn.now) (state S.Store tx.new.conn.now) (λ _. ⊥) }
{
    tx.execute_batch(TABLES)
}
