//! The text of a plan: TOML that publishes its entries.

ghost use Rattle.std.specs.Prelude.{◌≡◌, IfOk, MatchOption, None, OnOk, Some, true};
ghost use Rattle.std.specs.List.{list_all};
ghost use Rattle.toml.specs.View.{array_view, table_view};
ghost use Rattle.bsp_calendar.specs.SoundPlan.{IsSoundPlan};
ghost use Rattle.bsp_plan_trial.specs.Texts.{AreItemsOf, IsDocumentOf, PutsList, PutsLists, PutsTerms, SaysPlan};

use crate::entry::{Entry, put, put_number, put_text};
use bsp_calendar::{Plan, Terms};
use std::alloc::{AllocError, Global};
use toml::value::Array;
use toml::{Table, Value};

/// The values of some entries.
fn values<E: Entry>(alloc: Global, entries: &[E]) -> Result<Array, AllocError>
    ensures { list_all E.is_within entries.now ≡ true → IfOk result (λ values. AreItemsOf E.form entries.now (array_view values)) }
{
    let mut values = Array::new(alloc);
    for entry in entries {
        let value = entry.value(alloc)?;
        values.push(value)?;
    }
    Ok(values)
}

/// Puts a list of entries into a table.
fn put_list<E: Entry>(
    alloc: Global,
    table: &mut Table,
    key: &str,
    entries: &[E],
) -> Result<(), AllocError>
    ensures { list_all E.is_within entries.now ≡ true → OnOk result (PutsList E.form key.now entries.now (table_view table.old) (table_view table.new)) }
{
    let values = values(alloc, entries)?;
    put(alloc, table, key, Value::Array(values))?;
    Ok(())
}

/// Puts terms into a table.
fn put_terms(alloc: Global, table: &mut Table, terms: &Terms) -> Result<(), AllocError>
    ensures { OnOk result (PutsTerms terms.now (table_view table.old) (table_view table.new)) }
{
    put_text(alloc, table, "currency", &terms.currency.letters())?;
    put_number(alloc, table, "review_days", terms.review_days as u32)?;
    put_number(alloc, table, "documents_limit", terms.documents_limit)?;
    Ok(())
}

/// Puts the lists of a plan into a table.
fn put_lists(alloc: Global, table: &mut Table, plan: &Plan) -> Result<(), AllocError>
    ensures { IsSoundPlan plan.now → OnOk result (PutsLists plan.now (table_view table.old) (table_view table.new)) }
{
    put_list(alloc, table, "airline", plan.airlines())?;
    put_list(alloc, table, "rate", plan.rates())?;
    put_list(alloc, table, "period", plan.periods())?;
    put_list(alloc, table, "commission_tax", plan.commission_taxes())?;
    Ok(())
}

/// The document of a plan with these terms.
fn document(alloc: Global, terms: &Terms, plan: &Plan) -> Result<Table, AllocError>
    ensures { IsSoundPlan plan.now → plan.now.terms ≡ Some terms.now → IfOk result (λ table. IsDocumentOf terms.now plan.now (table_view table)) }
{
    let mut table = Table::new(alloc);
    put_terms(alloc, &mut table, terms)?;
    put_lists(alloc, &mut table, plan)?;
    Ok(table)
}

/// A plan text with the terms and the entries of a plan, in their order; none before terms are published. Published on the
/// opening day, it makes a plan with these terms and entries.
///
/// # Errors
///
/// An allocation was refused.
pub fn plan_text(alloc: Global, plan: &Plan) -> Result<Option<Vec<u8>>, AllocError>
    ensures { IfOk result (λ found. MatchOption found (plan.now.terms ≡ None) (λ text. SaysPlan plan.now text.items)) }
{
    let Some(terms) = plan.terms() else {
        return Ok(None);
    };
    plan.meets_rules();
    let document = document(alloc, &terms, plan)?;
    // It has no dates and is not deep, so only memory can be short.
    match toml::table_to_string(alloc, &document) {
        Ok(text) => Ok(Some(text.into_bytes())),
        Err(_) => Err(AllocError),
    }
}
