//! What was written since the last commit, written to the store in one transaction.

ghost use Rattle.std.specs.Prelude.{◌≡◌, OnOk, OnErr};
ghost use Rattle.bsp_store_base.specs.Base.{form, HasCommitted, IsKept};
ghost use Rattle.bsp_store_load.specs.Contents.{content_before, content_now};
ghost use Rattle.bsp_store_save.specs.Saving.{HasCallers, HasDocuments, Saves, with_callers, with_documents};

use crate::airlines::save_airlines;
use crate::ends::{close_transaction, open_transaction};
use crate::plans::save_plan;
use crate::written::{save_agents, save_items, save_memos, save_ranges, save_tallies};
use bsp_store_load::Tables;
use sqlite::{Alter, Connection, Error};
use std::alloc::Global;

/// Writes the tokens and ranges that were written in memory, and the airlines that are published since the last commit.
fn save_callers<S: Alter>(
    alloc: Global,
    conn: &mut Connection<S>,
    tables: &Tables,
) -> Result<(), Error>
    ensures { Saves S.Store conn.old conn.new result (HasCallers tables.now) (with_callers tables.now) }
{
    save_agents(alloc, conn, tables.agent_tokens())?;
    save_airlines(
        alloc,
        conn,
        tables.saved_plan(),
        tables.plan(),
        tables.airline_tokens(),
    )?;
    save_ranges(alloc, conn, tables.range_table())?;
    Ok(())
}

/// Writes the items, memos and tallies that were written in memory, with what else follows from them.
fn save_documents<S: Alter>(
    alloc: Global,
    conn: &mut Connection<S>,
    tables: &Tables,
) -> Result<(), Error>
    ensures { Saves S.Store conn.old conn.new result (HasDocuments tables.now) (with_documents tables.now) }
{
    save_items(alloc, conn, tables.item_table())?;
    save_memos(alloc, conn, tables.memo_table())?;
    save_tallies(alloc, conn, tables.tally_table())?;
    Ok(())
}

/// Writes in the open transaction what was written in memory since the last commit.
fn save_tables<S: Alter>(
    alloc: Global,
    conn: &mut Connection<S>,
    tables: &Tables,
) -> Result<(), Error>
    ensures { Saves S.Store conn.old conn.new result (λ now. now ≡ content_before tables.now) (λ now. content_now tables.now) }
{
    save_plan(conn, tables.saved_plan(), tables.plan())?;
    save_callers(alloc, conn, tables)?;
    save_documents(alloc, conn, tables)?;
    Ok(())
}

/// Writes to the store what was written in memory since the last commit, in one transaction.
///
/// # Errors
///
/// Those of `sqlite`, and `OutOfMemory`: the transaction may still be open, and a stop leaves what the last commit left, or what this one was to
/// keep.
pub fn save<S: Alter>(alloc: Global, conn: &mut Connection<S>, tables: &Tables) -> Result<(), Error>
    ensures ok { OnOk result (IsKept S.Store conn.old (content_before tables.now) → IsKept S.Store conn.new (content_now tables.now)) }
    ensures err { OnErr result (IsKept S.Store conn.old (content_before tables.now) → HasCommitted form S.Store conn.new (content_before tables.now) (content_before tables.now) (content_now tables.now)) }
{
    open_transaction(conn)?;
    save_tables(alloc, conn, tables)?;
    close_transaction(conn)?;
    Ok(())
}
