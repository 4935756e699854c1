//! The tables of tallies and of their taxes: each row against the tallies in memory.

ghost use Rattle.std.specs.Prelude.{◌↔◌, ◌≡◌, IsTrue, map};
ghost use Rattle.std.specs.FinMap.{entries};
ghost use Rattle.bsp_store_base.specs.Columns.{tally_row, tally_tax_row};
ghost use Rattle.bsp_store_load.specs.Contents.{used_tallies};
ghost use Rattle.bsp_memory_tables.specs.TallyTables.{tally_rows};
ghost use Rattle.bsp_memory_rows.specs.Lookups.{has_rows};

use crate::equal::is_entry;
use crate::listed::{RowOf, are_rows_of};
use bsp_maps::Rule;
use bsp_memory_tables::TallyTable;
use bsp_rows::{Tally, TallyKey};
use sqlite::Row;

/// Tallies.
#[derive(Clone, Copy)]
struct StoredTallies;

impl RowOf<TallyKey, Tally> for StoredTallies {
    ghost row_of = { tally_row };

    fn is_row_of(&self, row: &Row, key: &TallyKey, tally: &Tally) -> bool {
        is_entry(row, &(*key, *tally))
    }
}

/// The taxes of tallies.
#[derive(Clone, Copy)]
struct StoredTallyTaxes;

impl RowOf<TallyKey, Tally> for StoredTallyTaxes {
    ghost row_of = { tally_tax_row };

    fn is_row_of(&self, row: &Row, key: &TallyKey, tally: &Tally) -> bool {
        is_entry(row, &(*key, tally.tax))
    }
}

/// A tally to which some row adds has a row in each of the two tables.
#[derive(Clone, Copy)]
struct Used;

impl Rule<TallyKey, Tally> for Used {
    ghost holds = { λ rule key tally. has_rows tally };

    fn holds(&self, _key: &TallyKey, tally: &Tally) -> bool {
        tally.accepted > 0 || tally.memo_count > 0
    }
}

/// Whether the rows are those of the tallies to which some row adds.
pub fn are_tallies(rows: &[Row], table: &TallyTable) -> bool
    ensures { IsTrue result ↔ (rows.now ≡ map tally_row (entries (used_tallies (tally_rows table.now)))) }
{
    are_rows_of(&StoredTallies, &Used, rows, table.map())
}

/// Whether the rows are those of the taxes of the tallies to which some row adds.
pub fn are_tally_taxes(rows: &[Row], table: &TallyTable) -> bool
    ensures { IsTrue result ↔ (rows.now ≡ map tally_tax_row (entries (used_tallies (tally_rows table.now)))) }
{
    are_rows_of(&StoredTallyTaxes, &Used, rows, table.map())
}
