//! Reads a plan text (TOML) into its entries.

ghost use Rattle.std.specs.Prelude.{◌≡◌};
ghost use Rattle.std.specs.Option.{ok_or};
ghost use Rattle.toml.specs.View.{table_view};
ghost use Rattle.bsp_calendar.specs.PlanDocument.{Reads, document_of, plan_data, plan_in, plan_reading, terms_in};

mod entries;
mod lists;
mod tables;
mod taxes;
mod values;

use crate::entries::{PlanText, Terms};
use crate::fault::PlanFault;
use crate::reading::entries::{PeriodForm, RateForm};
use crate::reading::lists::items_at;
use crate::reading::tables::{at, has_only, number_at};
use crate::reading::taxes::TaxForm;
use crate::reading::values::{AirlineForm, CurrencyForm};
use std::alloc::Global;
use toml::Table;

const PLAN_KEYS: [&str; 7] = [
    "currency",
    "review_days",
    "documents_limit",
    "airline",
    "rate",
    "period",
    "commission_tax",
];

/// The terms that a document states.
fn terms_in(document: &Table) -> Option<Terms>
    ensures { result ≡ terms_in (table_view document.now) }
{
    let currency = at::<CurrencyForm>(document, "currency")?;
    let review_days = number_at(document, "review_days", 1, 60)? as u8;
    let documents_limit = number_at(document, "documents_limit", 1, 1_000_000)?;
    Some(Terms {
        currency,
        review_days,
        documents_limit,
    })
}

/// The entries that a document states.
fn plan_in(alloc: Global, document: &Table) -> Result<PlanText, PlanFault>
    ensures { Reads (ok_or (plan_in (table_view document.now)) PlanFault.WrongKey) plan_data result }
{
    if !has_only(document, &PLAN_KEYS) {
        return Err(PlanFault::WrongKey);
    }
    let Some(terms) = terms_in(document) else {
        return Err(PlanFault::WrongKey);
    };
    let airlines = items_at::<AirlineForm>(alloc, document, "airline")?;
    let rates = items_at::<RateForm>(alloc, document, "rate")?;
    let periods = items_at::<PeriodForm>(alloc, document, "period")?;
    let commission_taxes = items_at::<TaxForm>(alloc, document, "commission_tax")?;
    Ok(PlanText {
        terms,
        airlines,
        rates,
        periods,
        commission_taxes,
    })
}

/// The TOML document of a text.
fn document_of(alloc: Global, text: &[u8]) -> Result<Table, PlanFault>
    ensures { Reads (ok_or (document_of text.now) PlanFault.NotToml) table_view result }
{
    match toml::table_from_slice(alloc, text) {
        Ok(document) => Ok(document),
        Err(error) => {
            if error.is_memory() {
                Err(PlanFault::NoMemory)
            } else {
                Err(PlanFault::NotToml)
            }
        }
    }
}

/// Reads a plan text: TOML with the keys `currency`, `review_days` and `documents_limit`, the lists
/// `airline`, `rate`, `period` and `commission_tax`, which may be absent, and no other key. Whether a
/// rate's airline is published and whether the periods follow one another is not judged here.
///
/// # Errors
///
/// `NotToml` where the bytes are not UTF-8 or no TOML text; else `WrongKey` where a key is missing,
/// unknown or has a wrong value. `NoMemory` where an allocation was refused.
pub fn read_plan(alloc: Global, text: &[u8]) -> Result<PlanText, PlanFault>
    ensures { Reads (plan_reading text.now) plan_data result }
{
    let document = document_of(alloc, text)?;
    plan_in(alloc, &document)
}
