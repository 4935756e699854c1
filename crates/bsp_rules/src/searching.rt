//! What is asked of an agent's accepted items.

ghost use Rattle.std.specs.Prelude.{◌≡◌};
ghost use Rattle.std.specs.Option.{option_copied};
ghost use Rattle.bsp_rules.specs.SameContent.{same_content};
ghost use Rattle.bsp_rules.specs.Rows.{cancelled, held_item, held_period, is_living_relation, is_past, is_ticket, names, relates, ticket, used, used_elsewhere, used_in_closed_period};

use crate::rows::Item;
use bsp_calendar::Plan;
use bsp_fields::{AirlineCode, PeriodCode};
use bsp_ret_records::{ReportedDocument, Transaction, TransactionCode};

fn has_content(item: &Item, transaction: &Transaction) -> bool
    ensures { result ≡ same_content item.now.transaction transaction.now }
{
    item.transaction == *transaction
}

/// The accepted transaction with the same content.
fn held_item<'a>(transaction: &Transaction, items: &'a [Item]) -> Option<&'a Item>
    ensures { option_copied result ≡ held_item transaction.now items.now }
{
    items.iter().find(|item| has_content(item, transaction))
}

/// The period of the accepted transaction with the same content.
pub(crate) fn held_period(transaction: &Transaction, items: &[Item]) -> Option<PeriodCode>
    ensures { result ≡ held_period transaction.now items.now }
{
    let item = held_item(transaction, items)?;
    Some(item.period)
}

/// Whether the number has been accepted, in any code.
pub(crate) fn is_used(number: &[u8; 10], items: &[Item]) -> bool
    ensures { result ≡ used number.now items.now }
{
    items
        .iter()
        .any(|item| item.transaction.document.number == *number)
}

/// Whether the number has been accepted in a CANX.
pub(crate) fn is_cancelled(number: &[u8; 10], items: &[Item]) -> bool
    ensures { result ≡ cancelled number.now items.now }
{
    items.iter().any(|item| {
        item.transaction.document.number == *number
            && item.transaction.code == TransactionCode::Canx
    })
}

/// Whether the number has been accepted for another airline.
pub(crate) fn is_used_elsewhere(airline: AirlineCode, number: &[u8; 10], items: &[Item]) -> bool
    ensures { result ≡ used_elsewhere airline number.now items.now }
{
    items.iter().any(|item| {
        item.transaction.document.number == *number && item.transaction.document.airline != airline
    })
}

/// Whether the period is published and closed.
fn is_past(plan: &Plan, code: PeriodCode) -> bool
    ensures { result ≡ is_past plan.now code }
{
    match plan.period(code) {
        Some((_, closed)) => closed,
        None => false,
    }
}

/// Whether the number has been accepted in a period that is closed.
pub(crate) fn is_used_in_closed_period(plan: &Plan, number: &[u8; 10], items: &[Item]) -> bool
    ensures { result ≡ used_in_closed_period plan.now number.now items.now }
{
    items.iter().any(|item| {
        item.transaction.document.number == *number && is_past(plan, item.period)
    })
}

/// Whether one of the related documents has the number.
pub(crate) fn names(transaction: &Transaction, number: &[u8; 10]) -> bool
    ensures { result ≡ names number.now transaction.now }
{
    transaction.related.iter().any(|place| match place {
        Some(document) => document.number == *number,
        None => false,
    })
}

/// Whether the item is a living TKTT or RFND that relates to the number, of ten digits.
pub fn is_living_relation(item: &Item, number: &[u8; 10]) -> bool
    ensures { result ≡ is_living_relation number.now item.now }
{
    item.lives && item.transaction.code != TransactionCode::Canx && names(&item.transaction, number)
}

/// Whether a living TKTT or RFND relates to the number.
pub(crate) fn is_related_to(number: &[u8; 10], items: &[Item]) -> bool
    ensures { result ≡ relates number.now items.now }
{
    items.iter().any(|item| is_living_relation(item, number))
}

/// Whether the item is the TKTT of the document's airline and number.
fn is_ticket(item: &Item, document: &ReportedDocument) -> bool
    ensures { result ≡ is_ticket document.now item.now }
{
    item.transaction.code == TransactionCode::Tktt
        && item.transaction.document.airline == document.airline
        && item.transaction.document.number == document.number
}

/// The accepted TKTT of the document's airline and number.
pub(crate) fn ticket<'a>(document: &ReportedDocument, items: &'a [Item]) -> Option<&'a Item>
    ensures { option_copied result ≡ ticket document.now items.now }
{
    items.iter().find(|item| is_ticket(item, document))
}
