//! What damages the rows of the plan.

use crate::damage::Damage;
use crate::fault::OpenFault;
use crate::named::{AIRLINE, COMMISSION_TAX, META, PERIOD, RATE, TERMS, Table};
use crate::search_end::{End, end_at_row};
use bsp_memory_rows::Tables;
use bsp_rows::{AirlineCode, CommissionTax, Period, Rate, Terms};
use bsp_store_columns::{AirlineEntry, Meta, ReadEntry, read_entry};
use bsp_store_load::{PlanRows, plan_tables};
use sqlite::Row;
use std::alloc::{AllocError, Global};
use std::collections::BTreeSet;

/// Whether a row of a table without places is that of an entry.
fn is_entry<E: ReadEntry + Drop>(row: &Row, _place: usize) -> bool {
    read_entry::<E>(row).is_some()
}

fn is_rate(row: &Row, place: usize) -> bool {
    matches!(read_entry::<(usize, Rate)>(row), Some((own, _)) if own == place)
}

fn is_period(row: &Row, place: usize) -> bool {
    matches!(read_entry::<(usize, Period)>(row), Some((own, _)) if own == place)
}

fn is_commission_tax(row: &Row, place: usize) -> bool {
    matches!(read_entry::<(usize, CommissionTax)>(row), Some((own, _)) if own == place)
}

/// The first row of a table that no office writes in its place: it reads as no entry, or is not the row of that entry.
fn first_of<F: Fn(&Row, usize) -> bool>(
    table: Table,
    rows: &[Row],
    is_written: F,
) -> Option<(Table, &Row)>
    requires { F.IsAlwaysCallable is_written }
{
    let mut place = 0_usize;
    for row in rows {
        place = place.saturating_add(1);
        if !is_written(row, place) {
            return Some((table, row));
        }
    }
    None
}

/// The place of an airline's row, if it has one.
fn place_of(row: &Row) -> Option<usize> {
    match read_entry::<(AirlineCode, AirlineEntry)>(row) {
        Some((_, airline)) => airline.place,
        None => None,
    }
}

/// How many rows of airlines have places.
fn placed_count(rows: &[Row]) -> usize {
    let mut count = 0_usize;
    for row in rows {
        if place_of(row).is_some() {
            count = count.saturating_add(1);
        }
    }
    count
}

/// The first row of an airline whose place is not among those from 1 up to the count of places, or is that of a row
/// before it.
fn first_misplaced(alloc: Global, rows: &[Row]) -> Result<Option<&Row>, AllocError> {
    let count = placed_count(rows);
    let mut places = BTreeSet::new(alloc);
    for row in rows {
        let Some(place) = place_of(row) else {
            continue;
        };
        if place < 1 || place > count || !places.insert(place)? {
            return Ok(Some(row));
        }
    }
    Ok(None)
}

/// The first row of the plan's tables, table by table, that no office writes by itself.
fn first_unwritten(rows: &PlanRows) -> Option<(Table, &Row)> {
    first_of(META, &rows.meta, is_entry::<Meta>)
        .or(first_of(TERMS, &rows.terms, is_entry::<Terms>))
        .or(first_of(
            AIRLINE,
            &rows.airlines,
            is_entry::<(AirlineCode, AirlineEntry)>,
        ))
        .or(first_of(RATE, &rows.rates, is_rate))
        .or(first_of(PERIOD, &rows.periods, is_period))
        .or(first_of(COMMISSION_TAX, &rows.commission_taxes, is_commission_tax))
}

/// Ends at a row of the plan's tables, or at one of these that has too few rows or too many.
fn search_plan(alloc: Global, rows: &PlanRows) -> Result<(), End> {
    if rows.meta.len() != 1 {
        return Err(End::Found(Damage::Count(META)));
    }
    if rows.terms.len() > 1 {
        return Err(End::Found(Damage::Count(TERMS)));
    }
    if let Some((table, row)) = first_unwritten(rows) {
        return end_at_row(alloc, table, row);
    }
    match first_misplaced(alloc, &rows.airlines)? {
        Some(row) => end_at_row(alloc, AIRLINE, row),
        None => Ok(()),
    }
}

/// Tables in memory with the plan of these rows. It ends at what damages them.
pub(crate) fn planned_tables(alloc: Global, rows: &PlanRows) -> Result<Tables, End> {
    search_plan(alloc, rows)?;
    match plan_tables(alloc, rows) {
        Ok(Some(tables)) => Ok(tables),
        Ok(None) => Err(End::Found(Damage::Plan)),
        Err(_) => Err(End::Failed(OpenFault::NoRoom)),
    }
}
