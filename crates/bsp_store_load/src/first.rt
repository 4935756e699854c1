//! Whether tables in memory are those of a new book.

ghost use Rattle.std.specs.Prelude.{◌≡◌, ◌↔◌, [], None, IsTrue};
ghost use Rattle.bsp_rows.specs.Published.{opening};
ghost use Rattle.bsp_store_load.specs.Nothing.{HasNoCallers, HasNoSales, HasNothing};

use bsp_memory_rows::Tables;
use bsp_rows::{Day, Plan};
use std::alloc::Global;

/// The business day before anything is published.
fn first_day(alloc: Global) -> Day
    ensures { result ≡ opening.day }
{
    let plan = Plan::empty(alloc);
    plan.day()
}

/// Whether nothing is published, no period is closed, and this is the business day.
fn is_first_plan(plan: &Plan, day: Day) -> bool
    ensures { IsTrue result ↔ (plan.now ≡ record { terms = None; airlines = []; rates = []; periods = []; commission_taxes = []; day = day; closed = [] }) }
{
    plan.terms().is_none()
        && plan.airlines().is_empty()
        && plan.rates().is_empty()
        && plan.periods().is_empty()
        && plan.commission_taxes().is_empty()
        && plan.closed_count() == 0
        && plan.day() == day
}

/// Whether the maps of callers have no entry.
fn has_no_callers(tables: &Tables) -> bool
    ensures { IsTrue result ↔ HasNoCallers tables.now }
{
    tables.agent_tokens().map().is_empty()
        && tables.airline_tokens().map().is_empty()
        && tables.range_table().map().is_empty()
}

/// Whether the maps of items and memos have no entry.
fn has_no_sales(tables: &Tables) -> bool
    ensures { IsTrue result ↔ HasNoSales tables.now }
{
    tables.item_table().map().is_empty() && tables.memo_table().map().is_empty()
}

/// Whether the tables have the plan of a new book, and no row of a caller, no item and no memo.
pub fn has_nothing(alloc: Global, tables: &Tables) -> bool
    ensures { IsTrue result ↔ HasNothing tables.now }
{
    is_first_plan(tables.plan(), first_day(alloc)) && has_no_callers(tables) && has_no_sales(tables)
}
