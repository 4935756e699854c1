//! What damages the rows of tallies, and of their taxes: they are not those that the rows of the book add up to.

use crate::damage::Damage;
use crate::named::Table;
use crate::search_end::{End, end_at_row};
use bsp_memory_tables::TallyTable;
use bsp_rows::{Tally, TallyKey};
use bsp_store_columns::read_tally_key;
use bsp_store_load::is_entry;
use sqlite::Row;
use std::alloc::Global;

pub(crate) fn is_tally(row: &Row, key: &TallyKey, tally: &Tally) -> bool {
    is_entry(row, &(*key, *tally))
}

pub(crate) fn is_tally_tax(row: &Row, key: &TallyKey, tally: &Tally) -> bool {
    is_entry(row, &(*key, tally.tax))
}

/// Whether a row is that of the tally that has its key.
fn is_of_tally<F: Fn(&Row, &TallyKey, &Tally) -> bool>(
    row: &Row,
    tallies: &TallyTable,
    is_sum: &F,
) -> bool
    requires { F.IsAlwaysCallable is_sum.now }
{
    let Some(key) = read_tally_key(row) else {
        return false;
    };
    match tallies.map().get(&key) {
        Some(tally) => is_sum(row, &key, tally),
        None => false,
    }
}

/// Ends at the first row of a table that is not what the rows add up to, or at the table, if it has too few rows or too
/// many. Some row adds to each tally in memory.
pub(crate) fn search_sums<F: Fn(&Row, &TallyKey, &Tally) -> bool>(
    alloc: Global,
    table: Table,
    rows: &[Row],
    tallies: &TallyTable,
    is_sum: F,
) -> Result<(), End>
    requires { F.IsAlwaysCallable is_sum }
{
    for row in rows {
        if !is_of_tally(row, tallies, &is_sum) {
            return end_at_row(alloc, table, row);
        }
    }
    if rows.len() != tallies.map().len() {
        return Err(End::Found(Damage::Count(table)));
    }
    Ok(())
}
