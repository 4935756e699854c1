//! What is asked of the entries of a plan text.

ghost use Rattle.std.specs.Prelude.{◌≡◌, nat_le, drop};
ghost use Rattle.std.specs.List.{list_all, list_any};
ghost use Rattle.bsp_calendar.specs.DayOrder.{is_up_to};
ghost use Rattle.bsp_calendar.specs.Published.{has_begun, is_among};
ghost use Rattle.bsp_calendar.specs.Requests.{are_in_order, are_within_bounds, differ_in_terms, follow_one_another, has_days_in_order, is_empty, taxes_within_bounds};

use crate::days::{is_before, is_next_day, is_up_to};
use crate::entries::{CommissionTax, Period, PlanText, Rate, Terms};
use crate::keys::{Airlines, has_airline};
use bsp_fields::Day;

/// Whether the numbers of a text are within their bounds.
pub(crate) fn are_within_bounds(text: &PlanText) -> bool
    ensures { result ≡ are_within_bounds text.now }
{
    let Terms {
        review_days,
        documents_limit,
        ..
    } = text.terms;
    (1..=60).contains(&review_days)
        && (1..=1_000_000).contains(&documents_limit)
        && are_rates_within_bounds(&text.rates)
        && are_taxes_within_bounds(&text.commission_taxes)
}

/// Whether each rate is at most 10,000 hundredths of a percent.
fn are_rates_within_bounds(rates: &[Rate]) -> bool
    ensures { result ≡ list_all (λ r. nat_le r.hundredths 10_000) rates.now }
{
    rates.iter().all(|rate| rate.hundredths <= 10_000)
}

/// Whether each tax on commission is at most 10,000 hundredths of a percent.
fn are_taxes_within_bounds(taxes: &[CommissionTax]) -> bool
    ensures { result ≡ taxes_within_bounds taxes.now }
{
    taxes.iter().all(|tax| tax.hundredths <= 10_000)
}

/// Whether each rate is that of one of the airlines.
pub(crate) fn have_airlines(rates: &[Rate], airlines: &Airlines) -> bool
    ensures { result ≡ list_all (λ r. is_among r.airline airlines.now) rates.now }
{
    rates.iter().all(|rate| has_airline(airlines, rate.airline))
}

/// Whether terms are published and differ from these.
pub(crate) fn differ_in_terms(published: Option<Terms>, terms: Terms) -> bool
    ensures { result ≡ differ_in_terms published terms }
{
    match published {
        Some(published) => published != terms,
        None => false,
    }
}

/// Whether the days of each period are in order, and each period begins on the day after the one
/// before it ended.
pub(crate) fn are_in_order(periods: &[Period]) -> bool
    ensures { result ≡ are_in_order periods.now }
{
    have_days_in_order(periods) && follow_one_another(periods)
}

/// Whether the days of each period are in order.
fn have_days_in_order(periods: &[Period]) -> bool
    ensures { result ≡ list_all has_days_in_order periods.now }
{
    periods.iter().all(has_days_in_order)
}

/// Whether the days of a period are in order.
fn has_days_in_order(period: &Period) -> bool
    ensures { result ≡ has_days_in_order period.now }
{
    is_up_to(period.first, period.last) && is_before(period.last, period.remittance)
}

/// Whether each period begins on the day after the one before it ended.
fn follow_one_another(periods: &[Period]) -> bool
    ensures { result ≡ follow_one_another periods.now }
{
    let mut ended: Option<Day> = None;
    for period in periods {
        if let Some(day) = ended {
            if !is_next_day(day, period.first) {
                return false;
            }
        }
        ended = Some(period.last);
    }
    true
}

/// Whether one of the rates beyond the known ones does not begin after a day.
pub(crate) fn has_late_rate(rates: &[Rate], known: usize, day: Day) -> bool
    ensures { result ≡ list_any (λ r. is_up_to r.from day) (drop known rates.now) }
{
    rates
        .iter()
        .skip(known)
        .any(|rate| is_up_to(rate.from, day))
}

/// Whether one of the taxes on commission beyond the known ones begins on a day or before.
pub(crate) fn has_tax_begun(taxes: &[CommissionTax], known: usize, day: Day) -> bool
    ensures { result ≡ list_any (has_begun day) (drop known taxes.now) }
{
    taxes.iter().skip(known).any(|tax| is_up_to(tax.from, day))
}

/// Whether a list has no entry beyond the known ones.
pub(crate) fn has_none_beyond<E>(entries: &[E], known: usize) -> bool
    ensures { result ≡ is_empty (drop known entries.now) }
{
    entries.len() <= known
}
