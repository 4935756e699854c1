//! Tables in memory with all that the tables of a store keep.

ghost use Rattle.std.specs.Prelude.{⊤, ◌≡◌, Err, IfErr, IfOk, MatchResult, None, Ok, Some, true};
ghost use Rattle.std.specs.FinMap.{from_entries};
ghost use Rattle.bsp_store_load.specs.Content.{tally_part, tally_tax_part};
ghost use Rattle.bsp_store_load.specs.Contents.{content_now};
ghost use Rattle.bsp_store_load.specs.Formed.{AreFormed, AreWhole};
ghost use Rattle.bsp_store_load.specs.Loading.{HasRows, IsLoaded, LeavesRow};
ghost use Rattle.bsp_store_load.specs.MemoryRowsTables.{rows_of};
ghost use Rattle.bsp_store_load.specs.Stored.{AreCommitted};
ghost use Rattle.bsp_store_open.specs.Loaded.{AreItemsLoaded, AreSecondsRead, AreTaxesRead, HasNoSales, IsAllLoaded, IsPlanned, KeepsNone, NoRight, OtherTallies};
ghost use Rattle.bsp_store_open.specs.Opening.{IsDamage, IsReading, IsTableRead, ShowsNoBook};
ghost use Rattle.bsp_store_open.specs.Faults.{is_refusal};

use crate::fault::OpenFault;
use crate::reading::{expect_tables, plan_rows, rows_of};
use bsp_store_load::{
    Agents, ItemKey, ItemTax, NoRoom, Ranges, ReportedDocument, StoredItems, StoredMemos,
    StoredSeconds, StoredTable, StoredTaxes, Tables, TaxedTables, TicketKey, WholeTable,
    are_seconds, are_tallies, are_tally_taxes, load_table, plan_tables,
};
use sqlite::{Alter, Connection, Row};
use std::alloc::Global;
use std::collections::BTreeMap;
use std::mem;

/// A value, unless a fault was found.
fn unless_fault<T: Drop>(tested: Result<(), OpenFault>, value: T) -> Result<T, OpenFault>
    ensures { MatchResult tested (λ _. result ≡ Ok value) (λ fault. result ≡ Err fault) }
{
    match tested {
        Ok(()) => Ok(value),
        Err(fault) => Err(fault),
    }
}

/// The value that was made of rows. Where they make none, they are not those of a book.
fn made_of<T: Drop>(made: Result<Option<T>, NoRoom>) -> Result<T, OpenFault>
    ensures made { IfOk result (λ value. made ≡ Ok (Some value)) }
    ensures refused { IfErr result (λ fault. is_refusal fault ≡ true → (fault ≡ OpenFault.Damaged) × (made ≡ Ok None)) }
{
    match made {
        Ok(Some(value)) => Ok(value),
        Ok(None) => Err(OpenFault::Damaged),
        Err(NoRoom) => Err(OpenFault::NoRoom),
    }
}

/// Tables with the plan of a store and the tokens of its airlines, and nothing else.
fn planned_tables<S: Alter>(alloc: Global, conn: &mut Connection<S>) -> Result<Tables, OpenFault>
    ensures { IsReading S.Store conn.old conn.new result AreWhole (λ tables trees. IsPlanned trees (rows_of tables)) ShowsNoBook }
{
    let rows = plan_rows(conn)?;
    made_of(plan_tables(alloc, &rows))
}

/// Puts the rows of a table of a book into memory, up to the first that is not put. It answers that row, or none.
///
/// # Errors
///
/// `Damaged`, where the tables are not those of a book. Those of the store.
pub(crate) fn load_rows<S: Alter, K, V, M, T: StoredTable<K, V, M>>(
    table: &T,
    conn: &mut Connection<S>,
    memory: &mut M,
) -> Result<Option<Row>, OpenFault>
    ensures { IsTableRead S.Store conn.old conn.new result (λ _. T.is_kept memory.old → T.is_kept memory.new) (λ left trees. IsLoaded T.part T.row_of T.with_entry (T.fits table.now) T.lacks T.rows_in trees (T.whole memory.old) (T.whole memory.new) left) }
{
    expect_tables(conn)?;
    Ok(load_table(table, conn, memory)?)
}

/// Puts all rows of a table into memory.
fn load<S: Alter, K, V, M, T: StoredTable<K, V, M>>(
    table: &T,
    conn: &mut Connection<S>,
    memory: &mut M,
) -> Result<(), OpenFault>
    ensures { IsReading S.Store conn.old conn.new result (λ _. T.is_kept memory.old → T.is_kept memory.new) (λ _ trees. IsLoaded T.part T.row_of T.with_entry (T.fits table.now) T.lacks T.rows_in trees (T.whole memory.old) (T.whole memory.new) None)
        (IsDamage (λ trees. LeavesRow T.part T.row_of T.with_entry (T.fits table.now) T.lacks T.rows_in trees (T.whole memory.old) (T.whole memory.new))) }
{
    let left = load_rows(table, conn, memory)?;
    if left.is_some() {
        return Err(OpenFault::Damaged);
    }
    Ok(())
}

/// Puts items into tables, each with its tax, which is taken out, and its second related document. It refuses taxes that
/// are left, which are those of no item, and second related documents that are not those of the items in memory.
fn load_taxed<S: Alter>(
    conn: &mut Connection<S>,
    memory: &mut TaxedTables,
    seconds: &BTreeMap<TicketKey, ReportedDocument>,
) -> Result<(), OpenFault>
    ensures { IsReading S.Store conn.old conn.new result (λ _. AreWhole memory.old.tables → AreWhole memory.new.tables)
        (λ _ trees. AreTaxesRead trees (from_entries memory.old.taxes.entries) → AreSecondsRead trees (from_entries seconds.now.entries) → HasNoSales (rows_of memory.old.tables) → AreItemsLoaded trees (rows_of memory.old.tables) (rows_of memory.new.tables))
        (IsDamage (λ trees. AreTaxesRead trees (from_entries memory.old.taxes.entries) → AreSecondsRead trees (from_entries seconds.now.entries) → HasNoSales (rows_of memory.old.tables) → NoRight trees)) }
{
    load(&StoredItems { seconds }, conn, memory)?;
    if !memory.taxes.is_empty() {
        return Err(OpenFault::Damaged);
    }
    if !are_seconds(seconds, memory.tables.item_table()) {
        return Err(OpenFault::Damaged);
    }
    Ok(())
}

/// Puts items into memory, each with its tax and its second related document, and refuses taxes and documents of others. The
/// tax of an item that is put is dropped at once.
fn load_with<S: Alter>(
    alloc: Global,
    conn: &mut Connection<S>,
    tables: &mut Tables,
    taxes: BTreeMap<ItemKey, ItemTax>,
    seconds: &BTreeMap<TicketKey, ReportedDocument>,
) -> Result<(), OpenFault>
    ensures { IsReading S.Store conn.old conn.new result (λ _. AreWhole tables.old → AreWhole tables.new)
        (λ _ trees. AreTaxesRead trees (from_entries taxes.entries) → AreSecondsRead trees (from_entries seconds.now.entries) → HasNoSales (rows_of tables.old) → AreItemsLoaded trees (rows_of tables.old) (rows_of tables.new))
        (IsDamage (λ trees. AreTaxesRead trees (from_entries taxes.entries) → AreSecondsRead trees (from_entries seconds.now.entries) → HasNoSales (rows_of tables.old) → NoRight trees)) }
{
    let mut memory = TaxedTables {
        tables: mem::replace(tables, Tables::new(alloc)),
        taxes,
    };
    let loaded = load_taxed(conn, &mut memory, seconds);
    let TaxedTables {
        tables: filled,
        taxes: _,
    } = memory;
    *tables = filled;
    loaded
}

/// Puts items into memory with what two other tables keep of them. The documents that are read are dropped then.
fn load_items<S: Alter>(
    alloc: Global,
    conn: &mut Connection<S>,
    tables: &mut Tables,
) -> Result<(), OpenFault>
    ensures { IsReading S.Store conn.old conn.new result (λ _. AreWhole tables.old → AreWhole tables.new)
        (λ _ trees. HasNoSales (rows_of tables.old) → AreItemsLoaded trees (rows_of tables.old) (rows_of tables.new)) (IsDamage (λ trees. HasNoSales (rows_of tables.old) → NoRight trees)) }
{
    let mut taxes = BTreeMap::new(alloc);
    load(&StoredTaxes, conn, &mut taxes)?;
    let mut seconds = BTreeMap::new(alloc);
    load(&StoredSeconds, conn, &mut seconds)?;
    load_with(alloc, conn, tables, taxes, &seconds)
}

/// Refuses a store that has other tallies, or other taxes of tallies, than the rows in memory add up to.
fn expect_sums<S: Alter>(conn: &mut Connection<S>, tables: &Tables) -> Result<(), OpenFault>
    ensures { IsReading S.Store conn.old conn.new result (λ _. ⊤) (λ _ trees. HasRows tally_part (content_now tables.now) trees × HasRows tally_tax_part (content_now tables.now) trees) (IsDamage (OtherTallies (content_now tables.now))) }
{
    let rows = rows_of(conn, WholeTable::Tallies)?;
    if !are_tallies(&rows, tables.tally_table()) {
        return Err(OpenFault::Damaged);
    }
    drop(rows);
    let taxes = rows_of(conn, WholeTable::TallyTaxes)?;
    if !are_tally_taxes(&taxes, tables.tally_table()) {
        return Err(OpenFault::Damaged);
    }
    Ok(())
}

/// Puts all rows but the plan's into memory, refuses other tallies than they add up to, and keeps nothing to undo. The
/// items and the memos make the tallies.
fn load_all<S: Alter>(
    alloc: Global,
    conn: &mut Connection<S>,
    tables: &mut Tables,
) -> Result<(), OpenFault>
    ensures { IsReading S.Store conn.old conn.new result (λ _. AreWhole tables.old → AreCommitted tables.new × AreFormed (rows_of tables.new)) (λ _ trees. AreWhole tables.old → IsPlanned trees (rows_of tables.old) → IsAllLoaded trees tables.new)
        (IsDamage (λ trees. AreWhole tables.old → IsPlanned trees (rows_of tables.old) → KeepsNone trees)) }
{
    load(&Agents, conn, tables)?;
    load(&Ranges, conn, tables)?;
    load_items(alloc, conn, tables)?;
    load(&StoredMemos, conn, tables)?;
    expect_sums(conn, tables)?;
    tables.commit();
    Ok(())
}

/// The tables in memory that the tables of a store keep. A transaction may be open, and their rows need not be sound.
///
/// # Errors
///
/// As those of [`kept_list`](crate::kept_list).
pub fn kept_tables<S: Alter>(alloc: Global, conn: &mut Connection<S>) -> Result<Tables, OpenFault>
    ensures { IsReading S.Store conn.old conn.new result (λ tables. AreCommitted tables × AreFormed (rows_of tables)) (λ tables trees. IsAllLoaded trees tables) ShowsNoBook }
{
    match planned_tables(alloc, conn) {
        Ok(mut tables) => {
            let loaded = load_all(alloc, conn, &mut tables);
            unless_fault(loaded, tables)
        }
        Err(fault) => Err(fault),
    }
}
