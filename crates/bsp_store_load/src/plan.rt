//! The tables of the plan beside that of airlines: each row against the plan in memory.

ghost use Rattle.std.specs.Prelude.{◌≡◌, ◌↔◌, ◌<◌, ◌^◌, ℕ, length, map, IsTrue, Some};
ghost use Rattle.bsp_store_base.specs.Base.{commission_tax_row, IsCommissionTax, IsPeriod, IsRate, meta_rows, period_row, placed, rate_row, terms_rows};

use crate::equal::{is_entry, is_only_entry};
use crate::listed::{RowOf, are_placed_rows_of};
use crate::plan_rows::ReadsAs;
use bsp_rows::{CommissionTax, Period, Plan, Rate};
use bsp_store_columns::{Meta, read_entry};
use sqlite::Row;

/// Whether a count fits the integers of a store.
fn is_integer(count: usize) -> bool
    ensures { IsTrue result ↔ (count < 2 ^ 63) }
{
    (count as u64) < 1 << 63
}

/// Rates of commission.
#[derive(Clone, Copy)]
pub(crate) struct Rates;

impl RowOf<usize, Rate> for Rates {
    ghost row_of = { rate_row };

    ghost has_row = { λ e. e.0 < 2 ^ 63 };

    fn is_row_of(&self, row: &Row, place: &usize, rate: &Rate) -> bool {
        is_integer(*place) && is_entry(row, &(*place, *rate))
    }
}

impl ReadsAs<Rate> for Rates {
    ghost is_in = { λ rate row. IsRate rate × (place : ℕ) × (row ≡ rate_row (place, rate)) };

    fn read(&self, row: &Row) -> Option<Rate> {
        Some(read_entry::<(usize, Rate)>(row)?.1)
    }
}

/// Billing periods.
#[derive(Clone, Copy)]
pub(crate) struct Periods;

impl RowOf<usize, Period> for Periods {
    ghost row_of = { period_row };

    ghost has_row = { λ e. e.0 < 2 ^ 63 };

    fn is_row_of(&self, row: &Row, place: &usize, period: &Period) -> bool {
        is_integer(*place) && is_entry(row, &(*place, *period))
    }
}

impl ReadsAs<Period> for Periods {
    ghost is_in = { λ period row. IsPeriod period × (place : ℕ) × (row ≡ period_row (place, period)) };

    fn read(&self, row: &Row) -> Option<Period> {
        Some(read_entry::<(usize, Period)>(row)?.1)
    }
}

/// Taxes on commission.
#[derive(Clone, Copy)]
pub(crate) struct CommissionTaxes;

impl RowOf<usize, CommissionTax> for CommissionTaxes {
    ghost row_of = { commission_tax_row };

    ghost has_row = { λ e. e.0 < 2 ^ 63 };

    fn is_row_of(&self, row: &Row, place: &usize, tax: &CommissionTax) -> bool {
        is_integer(*place) && is_entry(row, &(*place, *tax))
    }
}

impl ReadsAs<CommissionTax> for CommissionTaxes {
    ghost is_in = { λ tax row. IsCommissionTax tax × (place : ℕ) × (row ≡ commission_tax_row (place, tax)) };

    fn read(&self, row: &Row) -> Option<CommissionTax> {
        Some(read_entry::<(usize, CommissionTax)>(row)?.1)
    }
}

/// Whether there is one row, of the plan's business day and of how many of its periods are closed.
pub(crate) fn are_meta(rows: &[Row], plan: &Plan) -> bool
    ensures same { IsTrue result → rows.now ≡ meta_rows (Some (record { day = plan.now.day; closed = length plan.now.closed })) }
    ensures whole { length plan.now.closed < 2 ^ 63 → rows.now ≡ meta_rows (Some (record { day = plan.now.day; closed = length plan.now.closed })) → IsTrue result }
{
    let closed = plan.closed_count();
    let day = plan.day();
    is_integer(closed) && is_only_entry(rows, &Meta { day, closed })
}

/// Whether the rows are those of the plan's terms.
pub(crate) fn are_terms(rows: &[Row], plan: &Plan) -> bool
    ensures { IsTrue result ↔ (rows.now ≡ terms_rows plan.now.terms) }
{
    match plan.terms() {
        Some(terms) => is_only_entry(rows, &terms),
        None => rows.is_empty(),
    }
}

/// Whether the rows are those of values of the plan with their places.
pub(crate) fn are_placed<V: Copy + Drop, T: RowOf<usize, V>>(
    table: &T,
    rows: &[Row],
    values: &[V],
) -> bool
    requires { (e : ℕ × V) → e.0 < 2 ^ 63 → T.has_row e }
    ensures same { IsTrue result → rows.now ≡ map T.row_of (placed 0 values.now) }
    ensures whole { length values.now < 2 ^ 63 → rows.now ≡ map T.row_of (placed 0 values.now) → IsTrue result }
{
    are_placed_rows_of(table, rows, values)
}
