//! The airlines of tables in memory, against the rows of a store.

ghost use Rattle.std.specs.Prelude.{◌≡◌, IfOk, IsTrue, map, OnOk, true};
ghost use Rattle.std.specs.FinMap.{entries, from_entries, insert};
ghost use Rattle.std.specs.List.{AllByRecursion};
ghost use Rattle.std.specs.Ordering.{nat_cmp};
ghost use Rattle.bsp_memory_rows.specs.Tables.{rows_of};
ghost use Rattle.bsp_store_base.specs.Base.{airline_entries, airline_row, HasStoredPlace, placed, published_at, registered, with_published};
ghost use Rattle.bsp_store_load.specs.Stored.{IsListedAirline};

use crate::equal::is_entry;
use crate::listed::{RowOf, are_rows_of};
use crate::plan_rows::ReadsAs;
use bsp_maps::Rule;
use bsp_memory_rows::Tables;
use bsp_rows::{AirlineCode, Token};
use bsp_store_columns::{AirlineEntry, read_entry};
use sqlite::Row;
use std::alloc::{AllocError, Global};
use std::collections::BTreeMap;

/// The airlines that have a token, without places.
fn registered(
    alloc: Global,
    tokens: &BTreeMap<AirlineCode, Token>,
) -> Result<BTreeMap<AirlineCode, AirlineEntry>, AllocError>
    ensures { IfOk result (λ airlines. from_entries {R = nat_cmp} airlines.entries ≡ registered (from_entries tokens.now.entries)) }
{
    let mut airlines = BTreeMap::new(alloc);
    let _count = tokens.len();
    for (code, token) in tokens {
        let entry = AirlineEntry {
            place: None,
            token: Some(*token),
        };
        airlines.insert(*code, entry)?;
    }
    Ok(airlines)
}

/// Puts an airline at a place, with the token that it has.
fn put_at(
    airlines: &mut BTreeMap<AirlineCode, AirlineEntry>,
    tokens: &BTreeMap<AirlineCode, Token>,
    place: usize,
    code: AirlineCode,
) -> Result<(), AllocError>
    ensures { OnOk result (from_entries {R = nat_cmp} airlines.new.entries ≡ insert (from_entries airlines.old.entries) code (published_at (from_entries tokens.now.entries) (place, code))) }
{
    let entry = AirlineEntry {
        place: Some(place),
        token: tokens.get(&code).copied(),
    };
    airlines.insert(code, entry)?;
    Ok(())
}

/// Puts the published airlines at their places.
fn put_published(
    airlines: &mut BTreeMap<AirlineCode, AirlineEntry>,
    tokens: &BTreeMap<AirlineCode, Token>,
    published: &[AirlineCode],
) -> Result<(), AllocError>
    ensures { OnOk result (from_entries {R = nat_cmp} airlines.new.entries ≡ with_published (from_entries tokens.now.entries) (placed 0 published.now) (from_entries airlines.old.entries)) }
{
    for at in 0..published.len() {
        put_at(airlines, tokens, at + 1, published[at])?;
    }
    Ok(())
}

/// The airlines of tables that are published or registered.
fn airlines_of(
    alloc: Global,
    tables: &Tables,
) -> Result<BTreeMap<AirlineCode, AirlineEntry>, AllocError>
    ensures { IfOk result (λ airlines. from_entries {R = nat_cmp} airlines.entries ≡ airline_entries (rows_of tables.now).published.airlines (rows_of tables.now).airlines) }
{
    let tokens = tables.airline_tokens().map();
    let mut airlines = registered(alloc, tokens)?;
    put_published(&mut airlines, tokens, tables.plan().airlines())?;
    Ok(airlines)
}

/// The rows of airlines.
#[derive(Clone, Copy)]
pub(crate) struct Airlines;

impl RowOf<AirlineCode, AirlineEntry> for Airlines {
    ghost row_of = { airline_row };

    ghost has_row = { λ e. HasStoredPlace e.1 };

    fn is_row_of(&self, row: &Row, code: &AirlineCode, airline: &AirlineEntry) -> bool {
        airline.has_stored_place() && is_entry(row, &(*code, *airline))
    }
}

impl ReadsAs<(AirlineCode, AirlineEntry)> for Airlines {
    ghost is_in = { λ e row. IsListedAirline e × (row ≡ airline_row e) };

    fn read(&self, row: &Row) -> Option<(AirlineCode, AirlineEntry)> {
        read_entry(row)
    }
}

/// Each airline has a row.
#[derive(Clone, Copy)]
struct EachAirline;

impl Rule<AirlineCode, AirlineEntry> for EachAirline {
    ghost holds = { λ rule code airline. true };

    fn holds(&self, _code: &AirlineCode, _airline: &AirlineEntry) -> bool {
        true
    }
}

/// Whether the rows are those of the airlines of tables, in the order of their codes.
pub(crate) fn are_airlines(alloc: Global, rows: &[Row], tables: &Tables) -> Result<bool, AllocError>
    ensures same { IfOk result (λ are. IsTrue are → rows.now ≡ map airline_row (entries (airline_entries (rows_of tables.now).published.airlines (rows_of tables.now).airlines))) }
    ensures whole { IfOk result (λ are. AllByRecursion (λ e. HasStoredPlace e.1) (entries (airline_entries (rows_of tables.now).published.airlines (rows_of tables.now).airlines))
        → rows.now ≡ map airline_row (entries (airline_entries (rows_of tables.now).published.airlines (rows_of tables.now).airlines)) → IsTrue are) }
{
    let airlines = airlines_of(alloc, tables)?;
    Ok(are_rows_of(&Airlines, &EachAirline, rows, &airlines))
}
