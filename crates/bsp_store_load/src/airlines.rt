//! The airlines of rows: those that are published, in the order of their places, and the tokens of those that are
//! registered.

ghost use Rattle.std.specs.Prelude.{◌≡◌, IfOk, List, map, OnOk, option_map, ℕ};
ghost use Rattle.std.specs.FinMap.{empty, entries, FinMap, from_entries};
ghost use Rattle.std.specs.Ordering.{nat_cmp};
ghost use Rattle.bsp_rows.specs.Requests.{AreDistinct, same_airline};
ghost use Rattle.bsp_memory_rows.specs.Tables.{IsDerived, rows_of};
ghost use Rattle.bsp_store_columns.specs.Airlines.{airline_entries};
ghost use Rattle.bsp_store_load.specs.Formed.{IsRegisteredAirline, OnEach};
ghost use Rattle.bsp_store_load.specs.Stored.{ChangesTokens, with_pair};

use crate::formed::formed_airline;
use bsp_memory_rows::{NoRoom, Tables};
use bsp_rows::{AirlineCode, Token};
use bsp_store_columns::AirlineEntry;
use std::alloc::{AllocError, Global};
use std::collections::BTreeMap;

/// Notes an airline at its place, if it has one.
fn note_place(
    places: &mut BTreeMap<usize, AirlineCode>,
    code: AirlineCode,
    place: Option<usize>,
) -> Result<(), AllocError>
    ensures { OnOk result (from_entries {R = nat_cmp} places.new.entries ≡ with_pair (option_map (λ place. (place, code)) place) (from_entries places.old.entries)) }
{
    if let Some(place) = place {
        places.insert(place, code)?;
    }
    Ok(())
}

/// The values of a map, in the order of their keys.
fn in_order(
    alloc: Global,
    places: &BTreeMap<usize, AirlineCode>,
) -> Result<Vec<AirlineCode>, AllocError>
    ensures { IfOk result (λ codes. codes.items ≡ map (λ e. e.1) places.now.entries) }
{
    places.values().copied().collect(alloc)
}

/// The airlines that are published, in the order of their places.
pub(crate) fn published_in(
    alloc: Global,
    airlines: &[(AirlineCode, AirlineEntry)],
) -> Result<Vec<AirlineCode>, AllocError>
    ensures { IfOk result (λ found. (codes : List ℕ) (tokens : FinMap nat_cmp (List ℕ)) → AreDistinct same_airline codes → airlines.now ≡ entries (airline_entries codes tokens) → found.items ≡ codes) }
{
    let mut places = BTreeMap::new(alloc);
    for airline in airlines {
        note_place(&mut places, airline.0, airline.1.place)?;
    }
    let _count = places.len();
    in_order(alloc, &places)
}

/// Gives an airline its token, if it has one.
fn put_token(tables: &mut Tables, code: AirlineCode, token: Option<Token>) -> Result<(), NoRoom>
    ensures derived { OnOk result (IsDerived tables.old → IsDerived tables.new) }
    ensures registered { OnOk result (OnEach IsRegisteredAirline (rows_of tables.old).airlines → OnEach IsRegisteredAirline (rows_of tables.new).airlines) }
    ensures rows { OnOk result (rows_of tables.new ≡ record (rows_of tables.old) { airlines = with_pair (option_map (λ token. (code, token)) token) (rows_of tables.old).airlines }) }
{
    if let Some(token) = token {
        formed_airline(code, token);
        tables.set_airline_token(code, token)?;
    }
    Ok(())
}

/// Gives the airlines their tokens, in tables where none has one.
pub(crate) fn put_tokens(
    tables: &mut Tables,
    airlines: &[(AirlineCode, AirlineEntry)],
) -> Result<(), NoRoom>
    ensures changes { OnOk result (ChangesTokens tables.old tables.new) }
    ensures tokens { OnOk result ((codes : List ℕ) (tokens : FinMap nat_cmp (List ℕ)) → (rows_of tables.old).airlines ≡ empty → airlines.now ≡ entries (airline_entries codes tokens) → (rows_of tables.new).airlines ≡ tokens) }
{
    for airline in airlines {
        put_token(tables, airline.0, airline.1.token)?;
    }
    Ok(())
}
