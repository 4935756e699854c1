//! The amounts of a transaction against those of its related tickets.

ghost use Rattle.std.specs.Prelude.{◌≡◌, ◌≤◌, ◌-ℤ◌, map, pos, unsigned_abs};
ghost use Rattle.std.specs.Int.{int_max};
ghost use Rattle.std.specs.List.{list_all};
ghost use Rattle.bsp_ret_records.specs.Values.{none_or};
ghost use Rattle.bsp_rules.specs.Tickets.{amounts_of, covers, covers_tax, disagrees_with_tickets, fare_or_zero, fits_exchange, fits_refund, gross_or_zero, ticket_amounts, tickets_fare, tickets_gross};

use crate::amounts::has_commission;
use crate::facts::RelatedDocument;
use crate::rows::Item;
use crate::sums::{amount_or_zero, gross};
use bsp_ret_records::{Amounts, Tax, Transaction, TransactionCode};

fn amounts_of(ticket: &Option<Item>) -> Option<Amounts>
    ensures { result ≡ amounts_of ticket.now }
{
    match ticket {
        Some(item) => item.transaction.amounts,
        None => None,
    }
}

fn ticket_amounts(related: &Option<RelatedDocument>) -> Option<Amounts>
    ensures { result ≡ ticket_amounts related.now }
{
    match related {
        Some(related) => amounts_of(&related.ticket),
        None => None,
    }
}

fn ticket_gross(related: &Option<RelatedDocument>) -> i64
    ensures value { result ≡ gross_or_zero (ticket_amounts related.now) }
    ensures bound { unsigned_abs result ≤ 699_999_999_993 }
{
    match ticket_amounts(related) {
        Some(amounts) => gross(&amounts),
        None => 0,
    }
}

fn ticket_fare(related: &Option<RelatedDocument>) -> i64
    ensures value { result ≡ fare_or_zero (ticket_amounts related.now) }
    ensures bound { unsigned_abs result ≤ 99_999_999_999 }
{
    match ticket_amounts(related) {
        Some(amounts) => amounts.fare.get(),
        None => 0,
    }
}

/// Fares and taxes of the related tickets.
fn tickets_gross(related: &[Option<RelatedDocument>; 2]) -> i64
    ensures { result ≡ tickets_gross related.now }
{
    let [first, second] = related;
    ticket_gross(first) + ticket_gross(second)
}

/// Fares of the related tickets.
fn tickets_fare(related: &[Option<RelatedDocument>; 2]) -> i64
    ensures value { result ≡ tickets_fare related.now }
    ensures bound { unsigned_abs result ≤ 199_999_999_998 }
{
    let [first, second] = related;
    ticket_fare(first) + ticket_fare(second)
}

/// What a fare is above the tickets' fares, and 0 where it is not above them.
fn fare_above(amounts: &Amounts, related: &[Option<RelatedDocument>; 2]) -> i64
    ensures { result ≡ int_max (pos 0) (amounts.now.fare -ℤ tickets_fare related.now) }
{
    let above = amounts.fare.get() - tickets_fare(related);
    if above < 0 { 0 } else { above }
}

/// An exchange takes the tickets' fares and taxes, and has its commission on what its fare is above
/// the tickets' fares.
#[tactic(auto, unfolding(crate::specs::Tickets::fits_exchange))]
fn fits_exchange(
    transaction: &Transaction,
    amounts: &Amounts,
    related: &[Option<RelatedDocument>; 2],
) -> bool
    ensures { result ≡ fits_exchange transaction.now amounts.now related.now }
{
    amount_or_zero(transaction.exchange) == tickets_gross(related)
        && has_commission(amounts, fare_above(amounts, related))
}

fn covers_tax(taxes: &[Option<Tax>; 6], tax: &Tax) -> bool
    ensures { result ≡ covers_tax taxes.now tax.now }
{
    let size = tax.amount.get().unsigned_abs();
    taxes.iter().any(|place| match place {
        Some(other) => other.code == tax.code && size <= other.amount.get().unsigned_abs(),
        None => false,
    })
}

fn covers_taxes(ticket: &[Option<Tax>; 6], taxes: &[Option<Tax>; 6]) -> bool
    ensures { result ≡ list_all (none_or (covers_tax ticket.now)) taxes.now }
{
    taxes.iter().all(|place| match place {
        Some(tax) => covers_tax(ticket, tax),
        None => true,
    })
}

/// A refund is within its ticket and claims the same rate.
#[tactic(auto, unfolding(crate::specs::Tickets::covers))]
fn covers(ticket: &Amounts, amounts: &Amounts) -> bool
    ensures { result ≡ covers ticket.now amounts.now }
{
    amounts.fare.get().unsigned_abs() <= ticket.fare.get().unsigned_abs()
        && covers_taxes(&ticket.taxes, &amounts.taxes)
        && amounts.rate == ticket.rate
}

/// A refund is within each related ticket.
fn is_covered(amounts: &Amounts, related: &[Option<RelatedDocument>; 2]) -> bool
    ensures { result ≡ list_all (λ r. none_or (λ ticket. covers ticket amounts.now) (ticket_amounts r)) related.now }
{
    related.iter().all(|place| match ticket_amounts(place) {
        Some(ticket) => covers(&ticket, amounts),
        None => true,
    })
}

/// A refund is within its ticket, and has its commission on its fare.
#[tactic(auto, unfolding(crate::specs::Tickets::fits_refund))]
fn fits_refund(amounts: &Amounts, related: &[Option<RelatedDocument>; 2]) -> bool
    ensures { result ≡ fits_refund amounts.now related.now }
{
    is_covered(amounts, related) && has_commission(amounts, amounts.fare.get())
}

/// Whether amounts or commission do not agree with the related tickets.
#[tactic(auto, unfolding(crate::specs::Tickets::disagrees_with_tickets))]
pub(crate) fn disagrees_with_tickets(
    transaction: &Transaction,
    related: &[Option<RelatedDocument>; 2],
) -> bool
    ensures { result ≡ disagrees_with_tickets transaction.now related.now }
{
    let Some(amounts) = &transaction.amounts else {
        return false;
    };
    match transaction.code {
        TransactionCode::Tktt => {
            transaction.exchange.is_some() && !fits_exchange(transaction, amounts, related)
        }
        TransactionCode::Rfnd => !fits_refund(amounts, related),
        TransactionCode::Canx => false,
    }
}
