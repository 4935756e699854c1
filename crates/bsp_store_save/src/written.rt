//! The tables whose rows are found by keys, brought up to date with those in memory.

ghost use Rattle.std.specs.Prelude.{◌≡◌};
ghost use Rattle.std.specs.Ordering.{nat_cmp};
ghost use Rattle.bsp_maps.specs.Undo.{before, content};
ghost use Rattle.bsp_memory_tables.specs.ItemTables.{item_rows, item_rows_before};
ghost use Rattle.bsp_memory_tables.specs.MemoTables.{memo_rows, memo_rows_before};
ghost use Rattle.bsp_memory_tables.specs.RangeTables.{range_rows, range_rows_before};
ghost use Rattle.bsp_memory_tables.specs.TallyTables.{tally_rows, tally_rows_before};
ghost use Rattle.bsp_store_load.specs.Airlines.{airline_entries};
ghost use Rattle.bsp_store_save.specs.Saving.{HasItems, HasTallies, Saves, with_items, with_tallies};

use crate::keyed::{put_written, written_before};
use crate::parts::{AirlineTokens, AsItIs, Granted, Tallied};
use crate::seconds::SecondDocuments;
use bsp_maps::Logged;
use bsp_memory_tables::{ItemTable, MemoTable, RangeTable, TallyTable};
use bsp_rows::{AgentCode, AirlineCode, Token};
use bsp_store_base::{ItemTaxes, Items, TallyTaxes};
use bsp_store_rows::{Agents, Memos, Tallies};
use sqlite::{Alter, Connection, Error};
use std::alloc::Global;

/// Writes the tokens of agents that were written in memory.
pub(crate) fn save_agents<S: Alter>(
    alloc: Global,
    conn: &mut Connection<S>,
    tokens: &Logged<AgentCode, Token>,
) -> Result<(), Error>
    ensures { Saves S.Store conn.old conn.new result (λ c. c.agents ≡ before nat_cmp tokens.now) (λ c. record c { agents = content nat_cmp tokens.now }) }
{
    let values = tokens.map();
    let before = written_before(alloc, tokens.written(), values)?;
    put_written(&AsItIs { table: Agents }, conn, &before, values)
}

/// Writes the tokens of airlines that were written in memory, where these airlines are published.
pub(crate) fn save_tokens<S: Alter>(
    alloc: Global,
    conn: &mut Connection<S>,
    published: &[AirlineCode],
    tokens: &Logged<AirlineCode, Token>,
) -> Result<(), Error>
    ensures { Saves S.Store conn.old conn.new result (λ c. c.airlines ≡ airline_entries published.now (before nat_cmp tokens.now)) (λ c. record c { airlines = airline_entries published.now (content nat_cmp tokens.now) }) }
{
    let values = tokens.map();
    let before = written_before(alloc, tokens.written(), values)?;
    put_written(&AirlineTokens { published }, conn, &before, values)
}

/// Writes the ranges that were written in memory.
pub(crate) fn save_ranges<S: Alter>(
    alloc: Global,
    conn: &mut Connection<S>,
    table: &RangeTable,
) -> Result<(), Error>
    ensures { Saves S.Store conn.old conn.new result (λ c. c.ranges ≡ range_rows_before table.now) (λ c. record c { ranges = range_rows table.now }) }
{
    let values = table.map();
    let before = written_before(alloc, table.written(), values)?;
    put_written(&Granted, conn, &before, values)
}

/// Writes the items that were written in memory, with their taxes and their second related documents.
pub(crate) fn save_items<S: Alter>(
    alloc: Global,
    conn: &mut Connection<S>,
    table: &ItemTable,
) -> Result<(), Error>
    ensures { Saves S.Store conn.old conn.new result (HasItems (item_rows_before table.now)) (with_items (item_rows table.now)) }
{
    let values = table.map();
    let before = written_before(alloc, table.written(), values)?;
    put_written(&AsItIs { table: Items }, conn, &before, values)?;
    put_written(&AsItIs { table: ItemTaxes }, conn, &before, values)?;
    put_written(&SecondDocuments, conn, &before, values)
}

/// Writes the memos that were written in memory.
pub(crate) fn save_memos<S: Alter>(
    alloc: Global,
    conn: &mut Connection<S>,
    table: &MemoTable,
) -> Result<(), Error>
    ensures { Saves S.Store conn.old conn.new result (λ c. c.memos ≡ memo_rows_before table.now) (λ c. record c { memos = memo_rows table.now }) }
{
    let values = table.map();
    let before = written_before(alloc, table.written(), values)?;
    put_written(&AsItIs { table: Memos }, conn, &before, values)
}

/// Writes the tallies to which some row adds that were written in memory, with their taxes.
pub(crate) fn save_tallies<S: Alter>(
    alloc: Global,
    conn: &mut Connection<S>,
    table: &TallyTable,
) -> Result<(), Error>
    ensures { Saves S.Store conn.old conn.new result (HasTallies (tally_rows_before table.now)) (with_tallies (tally_rows table.now)) }
{
    let values = table.map();
    let before = written_before(alloc, table.written(), values)?;
    put_written(&Tallied { table: Tallies }, conn, &before, values)?;
    put_written(&Tallied { table: TallyTaxes }, conn, &before, values)
}
