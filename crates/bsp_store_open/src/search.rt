//! The search for what damages a book. It ends where something is found.

ghost use Rattle.bsp_store_load.specs.Kept.{Spares};

use crate::damage::Damage;
use crate::damaged_plan::planned_tables;
use crate::damaged_schema::search_schema;
use crate::damaged_sums::{is_tally, is_tally_tax, search_sums};
use crate::fault::OpenFault;
use crate::named::{
    AGENT, ITEM, ITEM_TAX, MEMO, META, SECOND_RELATED, STOCK, TALLY, TALLY_TAX, Table,
};
use crate::reading::{plan_rows, rows_of};
use crate::search_end::{End, end_at, end_at_row, item_key, pair_key};
use crate::tables::load_rows;
use crate::version::{is_known, version_in};
use bsp_memory_rows::Tables;
use bsp_rows::{ItemKey, ReportedDocument, Unsound};
use bsp_store_columns::TicketKey;
use bsp_store_load::{
    Agents, Ranges, StoredItems, StoredMemos, StoredSeconds, StoredTable, StoredTaxes, TaxedTables,
    WholeTable,
};
use sqlite::{Alter, Connection};
use std::alloc::Global;
use std::collections::BTreeMap;

/// Ends at the first row of a table that no office writes; those before it are put into memory.
fn search_table<S: Alter, K, V, M, T: StoredTable<K, V, M>>(
    alloc: Global,
    conn: &mut Connection<S>,
    memory: &mut M,
    table: Table,
    stored: &T,
) -> Result<(), End>
    ensures spares { Spares S.Store conn.old conn.new }
{
    match load_rows(stored, conn, memory)? {
        Some(row) => end_at_row(alloc, table, &row),
        None => Ok(()),
    }
}

/// Ends at the first row that no office writes; those before it are put into memory. The taxes that are left are those of
/// no item.
fn search_entries<S: Alter>(
    alloc: Global,
    conn: &mut Connection<S>,
    memory: &mut TaxedTables,
    seconds: &mut BTreeMap<TicketKey, ReportedDocument>,
) -> Result<(), End>
    ensures spares { Spares S.Store conn.old conn.new }
{
    search_table(alloc, conn, &mut memory.tables, AGENT, &Agents)?;
    search_table(alloc, conn, &mut memory.tables, STOCK, &Ranges)?;
    search_table(alloc, conn, &mut memory.taxes, ITEM_TAX, &StoredTaxes)?;
    search_table(alloc, conn, seconds, SECOND_RELATED, &StoredSeconds)?;
    search_table(alloc, conn, memory, ITEM, &StoredItems { seconds })?;
    search_table(alloc, conn, &mut memory.tables, MEMO, &StoredMemos)
}

/// Ends at the first tax and the first second related document that is of no item. An item in memory has the document of
/// its ticket.
fn search_beside(
    alloc: Global,
    memory: &TaxedTables,
    seconds: &BTreeMap<TicketKey, ReportedDocument>,
) -> Result<(), End> {
    if let Some(key) = memory.taxes.keys().next() {
        return end_at(ITEM_TAX, item_key(alloc, key));
    }
    for ticket in seconds.keys() {
        let (agent, number) = (ticket.agent, ticket.number);
        let key = ItemKey {
            agent,
            number,
            is_canx: false,
        };
        if !memory.tables.item_table().map().contains_key(&key) {
            return end_at(SECOND_RELATED, pair_key(alloc, agent, number));
        }
    }
    Ok(())
}

/// Ends at the row that breaks a rule of the audit, unless only rules on many rows are broken.
fn search_unsound(alloc: Global, tables: &Tables) -> Result<(), End> {
    match tables.first_unsound(alloc)? {
        Some(Unsound::Range(key)) => end_at(STOCK, pair_key(alloc, key.agent, key.first)),
        Some(Unsound::Item(key)) => end_at(ITEM, item_key(alloc, &key)),
        Some(Unsound::Memo(key)) => end_at(MEMO, pair_key(alloc, key.airline, key.document)),
        None => Ok(()),
    }
}

/// Ends at what damages the rows beside those of the plan, which are put into memory.
fn search_rest<S: Alter>(
    alloc: Global,
    conn: &mut Connection<S>,
    memory: &mut TaxedTables,
    seconds: &mut BTreeMap<TicketKey, ReportedDocument>,
) -> Result<(), End>
    ensures spares { Spares S.Store conn.old conn.new }
{
    search_entries(alloc, conn, memory, seconds)?;
    search_beside(alloc, memory, seconds)?;
    let tallies = memory.tables.tally_table();
    let rows = rows_of(conn, WholeTable::Tallies)?;
    search_sums(alloc, TALLY, &rows, tallies, is_tally)?;
    let rows = rows_of(conn, WholeTable::TallyTaxes)?;
    search_sums(alloc, TALLY_TAX, &rows, tallies, is_tally_tax)?;
    search_unsound(alloc, &memory.tables)
}

/// What damages a store of which the first row of `meta` has not the version of the tables.
fn of_version(found: Option<i64>) -> Damage {
    match found {
        Some(version) if is_known(version) => Damage::Version(version),
        _ => Damage::Count(META),
    }
}

/// Ends at what damages a store that should keep a book.
fn search_store<S: Alter>(alloc: Global, conn: &mut Connection<S>) -> Result<(), End>
    ensures spares { Spares S.Store conn.old conn.new }
{
    search_schema(alloc, conn.schema())?;
    let tables = match plan_rows(conn) {
        Ok(rows) => planned_tables(alloc, &rows)?,
        Err(OpenFault::Damaged) => return Err(End::Found(of_version(version_in(conn)))),
        Err(fault) => return Err(End::Failed(fault)),
    };
    let mut memory = TaxedTables {
        tables,
        taxes: BTreeMap::new(alloc),
    };
    search_rest(alloc, conn, &mut memory, &mut BTreeMap::new(alloc))
}

/// What damages the book in a store that was refused as damaged. It takes the time of an opening, and a stop then leaves
/// what it left before.
///
/// # Errors
///
/// Those of an opening.
pub fn find_damage<S: Alter>(alloc: Global, conn: &mut Connection<S>) -> Result<Damage, OpenFault>
    ensures spares { Spares S.Store conn.old conn.new }
{
    match search_store(alloc, conn) {
        Ok(()) => Ok(Damage::Rows),
        Err(End::Found(damage)) => Ok(damage),
        Err(End::Failed(fault)) => Err(fault),
    }
}
