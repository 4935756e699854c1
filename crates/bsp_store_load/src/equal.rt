//! Whether a row has these values.

ghost use Rattle.std.specs.Prelude.{◌≡◌, ◌<◌, ◌∷◌, [], IsTrue, false, length};
ghost use Rattle.bsp_store_base.specs.Sqlite.{bound, bound_value, column, owned};
ghost use Rattle.bsp_store_load.specs.Loading.{has_real, is_real};

use bsp_store_columns::{CellArray, Entry, values_of};
use sqlite::Row;
use sqlite_value::value::ValueRef;

/// Whether a value is this one as it is bound, where a NaN is NULL. No real number is the same as another.
fn is_value(own: ValueRef<'_>, other: ValueRef<'_>) -> bool
    ensures same { IsTrue result → owned own.entry ≡ bound_value (owned other.entry) }
    ensures whole { owned own.entry ≡ bound_value (owned other.entry) → is_real (owned own.entry) ≡ false → IsTrue result }
{
    match (own, other) {
        (ValueRef::Null, ValueRef::Null) => true,
        (ValueRef::Null, ValueRef::Real(other)) => other.is_nan(),
        (ValueRef::Int(own), ValueRef::Int(other)) => own == other,
        (ValueRef::Text(own), ValueRef::Text(other)) => own == other,
        (ValueRef::Blob(own), ValueRef::Blob(other)) => own == other,
        _ => false,
    }
}

/// Whether a column of a row has this value.
fn is_in_column(row: &Row, at: usize, value: &ValueRef<'_>) -> bool
    ensures same { IsTrue result → column row.now at ≡ bound_value (owned value.now) }
    ensures whole { at < length row.now → column row.now at ≡ bound_value (owned value.now) → is_real (column row.now at) ≡ false → IsTrue result }
{
    match row.get_ref(at) {
        Ok(own) => is_value(own, *value),
        Err(_) => false,
    }
}

/// Whether a row has these values. A row with a real number is not said to have them.
fn has_values(row: &Row, values: &[ValueRef<'_>]) -> bool
    ensures same { IsTrue result → row.now ≡ bound values.now }
    ensures whole { row.now ≡ bound values.now → has_real row.now ≡ false → IsTrue result }
{
    if row.column_count() != values.len() {
        return false;
    }
    for at in 0..values.len() {
        if !is_in_column(row, at, &values[at]) {
            return false;
        }
    }
    true
}

/// Whether a row is that of an entry. A row with a real number is not said to be.
pub fn is_entry<E: Entry>(row: &Row, entry: &E) -> bool
    requires { E.Entry.fits entry.now }
    ensures same { IsTrue result → row.now ≡ E.Entry.row entry.now }
    ensures whole { row.now ≡ E.Entry.row entry.now → has_real row.now ≡ false → IsTrue result }
{
    let cells = entry.cells();
    let cells = cells.as_cells();
    has_values(row, &values_of(cells)[..cells.len()])
}

/// Whether there is one row, and it is that of an entry.
pub(crate) fn is_only_entry<E: Entry>(rows: &[Row], entry: &E) -> bool
    requires { E.Entry.fits entry.now }
    ensures same { IsTrue result → rows.now ≡ E.Entry.row entry.now ∷ [] }
    ensures whole { rows.now ≡ E.Entry.row entry.now ∷ [] → has_real (E.Entry.row entry.now) ≡ false → IsTrue result }
{
    match rows.split_first() {
        Some((row, others)) => others.is_empty() && is_entry(row, entry),
        None => false,
    }
}
