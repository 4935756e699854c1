//! The plan that rows say, published in tables in memory.

ghost use Rattle.std.specs.Prelude.{◌∷◌, ◌≡◌, IfOk, IsSomeAnd, List, map, OnOk, Some, true, ℕ};
ghost use Rattle.std.specs.FinMap.{entries, FinMap};
ghost use Rattle.std.specs.Ordering.{nat_cmp};
ghost use Rattle.bsp_store_base.specs.Entries.{Close, IsReached, IsSoundPlan, IsTextOf, opening, Published, SetDay};
ghost use Rattle.bsp_rows.specs.Period.{Period as PeriodEntry};
ghost use Rattle.bsp_rows.specs.Terms.{Terms as TermsEntry};
ghost use Rattle.bsp_store_base.specs.Base.{airline_entries, AreTerms, IsMeta, IsPeriod, Meta, meta_rows, period_row, terms_rows};
ghost use Rattle.bsp_memory_rows.specs.Tables.{rows_of};
ghost use Rattle.bsp_store_load.specs.Loading.{MayAll, after_all};
ghost use Rattle.bsp_store_load.specs.Stored.{AreRowsOfPlan, ChangesPlan, IsFormedPlan, MayClose, closing};

use crate::airlines::published_in;
use crate::plan::{CommissionTaxes, Periods, Rates};
use crate::plan_rows::{PlanRows, read_all};
use bsp_memory_rows::{NoRoom, Tables};
use bsp_rows::{AirlineCode, Period, PlanText, Terms};
use bsp_store_columns::{AirlineEntry, Meta as MetaRow, read_entry};
use sqlite::Row;
use std::alloc::{AllocError, Global};

/// The business day and the count of closed periods of the first row.
fn meta_in(rows: &[Row]) -> Option<MetaRow>
    ensures { (meta : Meta) → IsMeta meta → rows.now ≡ meta_rows (Some meta) → result ≡ Some meta }
{
    read_entry(rows.first()?)
}

/// The terms of the first row.
fn terms_in(rows: &[Row]) -> Option<Terms>
    ensures { (terms : TermsEntry) → AreTerms terms → rows.now ≡ terms_rows (Some terms) → result ≡ Some terms }
{
    read_entry(rows.first()?)
}

/// The plan's text that rows of terms say, with the airlines, rates, periods and taxes on commission; none where there
/// are no terms, or a row reads as none.
fn text_of(
    alloc: Global,
    rows: &PlanRows,
    airlines: &[(AirlineCode, AirlineEntry)],
) -> Result<Option<PlanText>, AllocError>
    ensures { IfOk result (λ found. (p : Published) (tokens : FinMap nat_cmp (List ℕ)) (terms : TermsEntry) → p.terms ≡ Some terms → IsSoundPlan p → IsFormedPlan p tokens → AreRowsOfPlan p tokens rows.now
        → airlines.now ≡ entries (airline_entries p.airlines tokens) → IsSomeAnd found (IsTextOf p)) }
{
    let Some(terms) = terms_in(&rows.terms) else {
        return Ok(None);
    };
    let Some(rates) = read_all(alloc, &Rates, &rows.rates)? else {
        return Ok(None);
    };
    let Some(periods) = read_all(alloc, &Periods, &rows.periods)? else {
        return Ok(None);
    };
    let Some(commission_taxes) = read_all(alloc, &CommissionTaxes, &rows.commission_taxes)? else {
        return Ok(None);
    };
    let airlines = published_in(alloc, airlines)?;
    Ok(Some(PlanText {
        terms,
        airlines,
        rates,
        periods,
        commission_taxes,
    }))
}

/// Publishes the entries that rows say, if there are terms, and answers false where that is refused.
fn publish_rows(
    alloc: Global,
    tables: &mut Tables,
    rows: &PlanRows,
    airlines: &[(AirlineCode, AirlineEntry)],
) -> Result<bool, NoRoom>
    ensures changes { OnOk result (ChangesPlan tables.old tables.new) }
    ensures plan { IfOk result (λ done. (p : Published) (tokens : FinMap nat_cmp (List ℕ)) → IsSoundPlan p → IsFormedPlan p tokens → AreRowsOfPlan p tokens rows.now
        → airlines.now ≡ entries (airline_entries p.airlines tokens) → (rows_of tables.old).published ≡ opening
        → (done ≡ true) × (next : Published) × (rows_of tables.new ≡ record (rows_of tables.old) { published = next }) × IsReached next (SetDay p.day ∷ map (λ code. Close code) p.closed) p) }
{
    let terms = rows.terms.as_slice();
    if terms.is_empty() {
        return Ok(true);
    }
    match text_of(alloc, rows, airlines)? {
        Some(text) => Ok(tables.publish(&text)?.is_ok()),
        None => Ok(false),
    }
}

/// Closes the period of a row, and answers false where the row is none or the period is not closed.
fn close_period(tables: &mut Tables, row: &Row) -> Result<bool, NoRoom>
    ensures changes { OnOk result (ChangesPlan tables.old tables.new) }
    ensures entry { IfOk result (λ done. (e : ℕ × PeriodEntry) → MayClose IsPeriod e (rows_of tables.old) → row.now ≡ period_row e → (done ≡ true) × (rows_of tables.new ≡ closing e (rows_of tables.old))) }
{
    let Some((_place, period)) = read_entry::<(usize, Period)>(row) else {
        return Ok(false);
    };
    Ok(tables.close(period.code)?.is_ok())
}

/// Closes the periods of rows, one after another, and answers false at the first that is not closed.
fn close_periods(tables: &mut Tables, rows: &[Row]) -> Result<bool, NoRoom>
    ensures changes { OnOk result (ChangesPlan tables.old tables.new) }
    ensures entries { IfOk result (λ done. (es : List (ℕ × PeriodEntry)) → MayAll closing (MayClose IsPeriod) es (rows_of tables.old) → rows.now ≡ map period_row es → (done ≡ true) × (rows_of tables.new ≡ after_all closing es (rows_of tables.old))) }
{
    for row in rows {
        if !close_period(tables, row)? {
            return Ok(false);
        }
    }
    Ok(true)
}

/// Sets the business day and closes the periods that rows say, and answers false where that is refused.
fn move_on(tables: &mut Tables, rows: &PlanRows) -> Result<bool, NoRoom>
    ensures changes { OnOk result (ChangesPlan tables.old tables.new) }
    ensures plan { IfOk result (λ done. (p : Published) (tokens : FinMap nat_cmp (List ℕ)) → IsSoundPlan p → IsFormedPlan p tokens → AreRowsOfPlan p tokens rows.now → IsReached (rows_of tables.old).published (SetDay p.day ∷ map (λ code. Close code) p.closed) p
        → (done ≡ true) × (rows_of tables.new ≡ record (rows_of tables.old) { published = p })) }
{
    let Some(meta) = meta_in(&rows.meta) else {
        return Ok(false);
    };
    let periods = rows.periods.as_slice();
    if meta.closed > periods.len() {
        return Ok(false);
    }
    if tables.set_day(meta.day)?.is_err() {
        return Ok(false);
    }
    close_periods(tables, &periods[..meta.closed])
}

/// Makes the plan that rows say, and answers false where there is none.
pub(crate) fn put_plan(
    alloc: Global,
    tables: &mut Tables,
    rows: &PlanRows,
    airlines: &[(AirlineCode, AirlineEntry)],
) -> Result<bool, NoRoom>
    ensures changes { OnOk result (ChangesPlan tables.old tables.new) }
    ensures plan { IfOk result (λ done. (p : Published) (tokens : FinMap nat_cmp (List ℕ)) → IsSoundPlan p → IsFormedPlan p tokens → AreRowsOfPlan p tokens rows.now
        → airlines.now ≡ entries (airline_entries p.airlines tokens) → (rows_of tables.old).published ≡ opening
        → (done ≡ true) × (rows_of tables.new ≡ record (rows_of tables.old) { published = p })) }
{
    if !publish_rows(alloc, tables, rows, airlines)? {
        return Ok(false);
    }
    move_on(tables, rows)
}
