//! Finding what of an agent's own rows bears on one transaction.

ghost use Rattle.std.specs.Prelude.{◌≡◌, option_map};
ghost use Rattle.bsp_rules.specs.Rows.{IsHeld};
ghost use Rattle.bsp_rules.specs.Selected.{AreSelected};
ghost use Rattle.bsp_rules.specs.FactsOf.{count_in, counts, facts_in, own_number, related_document};

use crate::facts::{Facts, OwnNumber, RelatedDocument};
use crate::rows::{Item, Range};
use crate::searching::{
    held_period, is_cancelled, is_related_to, is_used, is_used_elsewhere, is_used_in_closed_period,
    ticket,
};
use crate::stock::is_in_stock;
use bsp_calendar::Plan;
use bsp_fields::{AirlineCode, PeriodCode};
use bsp_ret_records::{ReportedDocument, Transaction};

/// What is there under a transaction's own number.
#[tactic(auto, unfolding(crate::specs::FactsOf::own_number))]
fn own_number(items: &[Item], transaction: &Transaction, plan: &Plan) -> OwnNumber
    ensures { result ≡ own_number items.now transaction.now plan.now }
{
    let ReportedDocument {
        airline,
        number,
        ..
    } = &transaction.document;
    OwnNumber {
        is_used: is_used(number, items),
        is_cancelled: is_cancelled(number, items),
        is_of_another_airline: is_used_elsewhere(*airline, number, items),
        is_in_closed_period: is_used_in_closed_period(plan, number, items),
        is_related_to: is_related_to(number, items),
    }
}

/// What is there under a related document.
#[tactic(auto, unfolding(crate::specs::FactsOf::related_document))]
fn related_document(items: &[Item], place: &Option<ReportedDocument>) -> Option<RelatedDocument>
    ensures { result ≡ option_map (related_document items.now) place.now }
{
    match place {
        Some(document) => Some(RelatedDocument {
            document: *document,
            ticket: ticket(document, items).copied(),
            is_related_to: is_related_to(&document.number, items),
        }),
        None => None,
    }
}

/// Whether an item is of the airline and the period.
fn counts(airline: AirlineCode, period: PeriodCode, item: &Item) -> bool
    ensures { result ≡ counts airline period item.now }
{
    item.transaction.document.airline == airline && item.period == period
}

/// How many items are of the airline and the period, if there is one.
fn count_in(items: &[Item], airline: AirlineCode, period: Option<PeriodCode>) -> usize
    ensures { result ≡ count_in items.now airline period }
{
    match period {
        Some(period) => items
            .iter()
            .filter(|item| counts(airline, period, item))
            .count(),
        None => 0,
    }
}

/// All of the facts.
#[tactic(auto, unfolding(crate::specs::FactsOf::facts_in))]
fn gathered(
    registered: bool,
    ranges: &[Range],
    items: &[Item],
    transaction: &Transaction,
    plan: &Plan,
) -> Facts
    ensures { result ≡ facts_in registered ranges.now items.now transaction.now plan.now }
{
    let [first, second] = &transaction.related;
    let target = plan.target(transaction.issued);
    Facts {
        registered,
        held: held_period(transaction, items),
        in_range: is_in_stock(&transaction.document, ranges),
        own: own_number(items, transaction, plan),
        related: [
            related_document(items, first),
            related_document(items, second),
        ],
        count: count_in(items, transaction.document.airline, target),
    }
}

/// What of an agent's own rows bears on one transaction: whether the agent is registered, its
/// ranges and its accepted items. The count apart, the facts are the same over some of the items
/// alone. These are the items whose number, or a related number, is the transaction's number or one
/// of its related numbers.
pub fn facts_of(
    registered: bool,
    ranges: &[Range],
    items: &[Item],
    transaction: &Transaction,
    plan: &Plan,
) -> Facts
    ensures value { result ≡ facts_in registered ranges.now items.now transaction.now plan.now }
    ensures held { IsHeld transaction.now items.now result.held }
    ensures selected { AreSelected result registered ranges.now items.now transaction.now plan.now }
{
    gathered(registered, ranges, items, transaction, plan)
}
