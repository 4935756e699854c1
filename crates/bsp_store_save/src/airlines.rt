//! The table of airlines, brought up to date: the tokens first, over the airlines that were published, and then the
//! airlines that are published since.

ghost use Rattle.std.specs.Prelude.{◌+◌, ◌<◌, ◌≡◌, ◌≤◌, length, take};
ghost use Rattle.std.specs.FinMap.{from_entries};
ghost use Rattle.std.specs.Ordering.{nat_cmp};
ghost use Rattle.bsp_maps.specs.Undo.{before, content};
ghost use Rattle.bsp_store_load.specs.Airlines.{airline_entries};
ghost use Rattle.bsp_store_load.specs.Plans.{IsSaved, plan_before};
ghost use Rattle.bsp_store_save.specs.Saving.{Saves};

use crate::written::save_tokens;
use bsp_maps::Logged;
use bsp_rows::{AirlineCode, Plan, Token};
use bsp_store_base::put;
use bsp_store_columns::{AirlineEntry, place_of};
use bsp_store_load::SavedPlan;
use bsp_store_rows::{Airlines, StoredAirline};
use sqlite::{Alter, Connection, Error};
use std::alloc::Global;
use std::collections::BTreeMap;

/// How many airlines of a plan were published at the last commit. They are its first.
fn kept_count(saved: &SavedPlan, plan: &Plan) -> usize
    requires { IsSaved plan.now saved.now }
    ensures kept { (plan_before plan.now saved.now).airlines ≡ take result plan.now.airlines }
    ensures bound { result ≤ length plan.now.airlines }
{
    match saved {
        SavedPlan::Same => plan.airlines().len(),
        SavedPlan::Dated { .. } => plan.airlines().len(),
        SavedPlan::Whole(old) => old.airlines().len(),
    }
}

/// Writes the airline that is published at an index, where those before it are published.
fn publish<S: Alter>(
    conn: &mut Connection<S>,
    tokens: &BTreeMap<AirlineCode, Token>,
    published: &[AirlineCode],
    at: usize,
) -> Result<(), Error>
    requires { at < length published.now }
    ensures { Saves S.Store conn.old conn.new result (λ c. c.airlines ≡ airline_entries (take at published.now) (from_entries tokens.now.entries)) (λ c. record c { airlines = airline_entries (take (at + 1) published.now) (from_entries tokens.now.entries) }) }
{
    let code = published[at];
    let token = tokens.get(&code).copied();
    let place = Some(at + 1);
    let airline = AirlineEntry { place, token };
    let is_there = AirlineEntry::of(place_of(code, &published[..at]), airline.token).is_some();
    let stored = StoredAirline::of(Some(airline));
    put(&Airlines, conn, code, is_there, stored)
}

/// Writes the airlines that are published from an index on, where those before it are published.
fn publish_from<S: Alter>(
    conn: &mut Connection<S>,
    tokens: &BTreeMap<AirlineCode, Token>,
    published: &[AirlineCode],
    from: usize,
) -> Result<(), Error>
    requires { from ≤ length published.now }
    ensures { Saves S.Store conn.old conn.new result (λ c. c.airlines ≡ airline_entries (take from published.now) (from_entries tokens.now.entries)) (λ c. record c { airlines = airline_entries published.now (from_entries tokens.now.entries) }) }
{
    for at in from..published.len() {
        publish(conn, tokens, published, at)?;
    }
    Ok(())
}

/// Writes the tokens of airlines that were written in memory, and the airlines that are published since the last commit.
pub(crate) fn save_airlines<S: Alter>(
    alloc: Global,
    conn: &mut Connection<S>,
    saved: &SavedPlan,
    plan: &Plan,
    tokens: &Logged<AirlineCode, Token>,
) -> Result<(), Error>
    requires { IsSaved plan.now saved.now }
    ensures { Saves S.Store conn.old conn.new result (λ c. c.airlines ≡ airline_entries (plan_before plan.now saved.now).airlines (before nat_cmp tokens.now)) (λ c. record c { airlines = airline_entries plan.now.airlines (content nat_cmp tokens.now) }) }
{
    let kept = kept_count(saved, plan);
    let published = plan.airlines();
    save_tokens(alloc, conn, &published[..kept], tokens)?;
    publish_from(conn, tokens.map(), published, kept)
}
