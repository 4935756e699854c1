//! Whether rows are those of entries, in their order.

ghost use Rattle.std.specs.Prelude.{◌≡◌, IsTrue, map};
ghost use Rattle.std.specs.BTreeMap.{IsOrdered};
ghost use Rattle.std.specs.List.{AllByRecursion, filter};
ghost use Rattle.bsp_store_base.specs.Columns.{placed};
ghost use Rattle.sqlite_value.specs.Order.{Row as Values};

use bsp_maps::Rule;
use sqlite::Row;
use std::collections::BTreeMap;

/// A table, in which an entry of a key and a value is one row.
pub trait RowOf<K, V> {
    ghost row_of: { K × V → Values };

    // the entries that have a row
    ghost has_row: { K × V → Type 0 } = { λ _. Unit {0} };

    /// Whether a row is that of an entry.
    fn is_row_of(&self, row: &Row, key: &K, value: &V) -> bool
        ensures same { IsTrue result → row.now ≡ row_of (key.now, value.now) }
        ensures whole { has_row (key.now, value.now) → row.now ≡ row_of (key.now, value.now) → IsTrue result };
}

/// Whether the rows are those of the entries of which a rule holds, in their order.
pub fn are_rows_of<K: Ord + Copy + Drop, V: Copy + Drop, T: RowOf<K, V>, H: Rule<K, V>>(
    table: &T,
    rule: &H,
    rows: &[Row],
    entries: &BTreeMap<K, V>,
) -> bool
    ensures ordered { IsOrdered K.cmp entries.now }
    ensures same { IsTrue result → rows.now ≡ map T.row_of (filter (λ e. H.holds rule.now e.0 e.1) entries.now.entries) }
    ensures whole { AllByRecursion T.has_row (filter (λ e. H.holds rule.now e.0 e.1) entries.now.entries) → rows.now ≡ map T.row_of (filter (λ e. H.holds rule.now e.0 e.1) entries.now.entries) → IsTrue result }
{
    let _count = entries.len();
    let mut rest = rows;
    for (key, value) in entries {
        if !rule.holds(key, value) {
            continue;
        }
        let Some((row, others)) = rest.split_first() else {
            return false;
        };
        if !table.is_row_of(row, key, value) {
            return false;
        }
        rest = others;
    }
    rest.is_empty()
}

/// Whether the rows are those of the values with their places, which are counted from 1.
pub fn are_placed_rows_of<V: Copy + Drop, T: RowOf<usize, V>>(
    table: &T,
    rows: &[Row],
    values: &[V],
) -> bool
    ensures same { IsTrue result → rows.now ≡ map T.row_of (placed 0 values.now) }
    ensures whole { AllByRecursion T.has_row (placed 0 values.now) → rows.now ≡ map T.row_of (placed 0 values.now) → IsTrue result }
{
    let mut rest = rows;
    for at in 0..values.len() {
        let Some((row, others)) = rest.split_first() else {
            return false;
        };
        if !table.is_row_of(row, &(at + 1), &values[at]) {
            return false;
        }
        rest = others;
    }
    rest.is_empty()
}
