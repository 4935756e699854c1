//! When the rows of the table of verdicts apply.

ghost use Rattle.std.specs.Prelude.{◌≡◌, nat_le, not};
ghost use Rattle.std.specs.List.{list_any};
ghost use Rattle.bsp_calendar.specs.DayOrder.{is_before};
ghost use Rattle.bsp_rules.specs.Verdicts.{are_missing, has_ended, has_wrong_agent, has_wrong_check_digit, is_ended, is_missing, is_number_used, is_wrong, lacks_ticket, limit_of};

use crate::facts::{Facts, OwnNumber, RelatedDocument};
use crate::verdict::Reporter;
use bsp_calendar::Plan;
use bsp_fields::{AirlineCode, DocNumber};
use bsp_ret_records::{ReportedDocument, Transaction, TransactionCode};

/// Whether the agent is not registered, or is not the one that reports.
#[tactic(auto, unfolding(crate::specs::Verdicts::has_wrong_agent))]
pub(crate) fn has_wrong_agent(reporter: Reporter, transaction: &Transaction, facts: &Facts) -> bool
    ensures { result ≡ has_wrong_agent reporter transaction.now facts.now }
{
    let other_agent = match reporter {
        Reporter::Office => false,
        Reporter::Agent(agent) => agent.digits() != transaction.agent,
    };
    !facts.registered || other_agent
}

fn is_wrong(document: &ReportedDocument) -> bool
    ensures { result ≡ is_wrong document.now }
{
    DocNumber::read(&document.number, document.check_digit).is_err()
}

/// Whether a check digit of record 2 or of a record 3 is wrong.
#[tactic(auto, unfolding(crate::specs::Verdicts::has_wrong_check_digit))]
pub(crate) fn has_wrong_check_digit(transaction: &Transaction) -> bool
    ensures { result ≡ has_wrong_check_digit transaction.now }
{
    is_wrong(&transaction.document)
        || transaction.related.iter().any(|place| match place {
            Some(document) => is_wrong(document),
            None => false,
        })
}

/// Whether the transaction is issued after the business day.
pub(crate) fn is_not_yet_issued(transaction: &Transaction, plan: &Plan) -> bool
    ensures { result ≡ is_before plan.now.day transaction.now.issued }
{
    plan.day().number() < transaction.issued.number()
}

pub(crate) fn is_number_used(code: TransactionCode, own: &OwnNumber) -> bool
    ensures { result ≡ is_number_used code own.now }
{
    match code {
        TransactionCode::Tktt | TransactionCode::Rfnd => own.is_used,
        TransactionCode::Canx => own.is_cancelled,
    }
}

/// Whether a related document is of another airline or without an accepted TKTT.
fn is_one_missing(airline: AirlineCode, related: &[Option<RelatedDocument>; 2]) -> bool
    ensures { result ≡ list_any (is_missing airline) related.now }
{
    related.iter().any(|place| match place {
        Some(related) => related.document.airline != airline || related.ticket.is_none(),
        None => false,
    })
}

/// Whether a related document is missing, or there is none at all.
fn are_missing(airline: AirlineCode, related: &[Option<RelatedDocument>; 2]) -> bool
    ensures { result ≡ are_missing airline related.now }
{
    is_one_missing(airline, related) || !related.iter().any(|place| place.is_some())
}

/// Whether a transaction lacks its related tickets, or a CANX is of another airline's number.
#[tactic(auto, unfolding(crate::specs::Verdicts::lacks_ticket))]
pub(crate) fn lacks_ticket(transaction: &Transaction, facts: &Facts) -> bool
    ensures { result ≡ lacks_ticket transaction.now facts.now }
{
    let airline = transaction.document.airline;
    match transaction.code {
        TransactionCode::Tktt => {
            transaction.exchange.is_some() && are_missing(airline, &facts.related)
        }
        TransactionCode::Rfnd => are_missing(airline, &facts.related),
        TransactionCode::Canx => facts.own.is_of_another_airline,
    }
}

/// Whether a related ticket is cancelled or related to.
fn is_one_ended(related: &[Option<RelatedDocument>; 2]) -> bool
    ensures { result ≡ list_any is_ended related.now }
{
    related.iter().any(|place| match place {
        Some(related) => {
            let is_cancelled = match &related.ticket {
                Some(ticket) => !ticket.lives,
                None => false,
            };
            is_cancelled || related.is_related_to
        }
        None => false,
    })
}

/// Whether what a transaction ends is no longer open.
#[tactic(auto, unfolding(crate::specs::Verdicts::has_ended))]
pub(crate) fn has_ended(transaction: &Transaction, facts: &Facts) -> bool
    ensures { result ≡ has_ended transaction.now facts.now }
{
    match transaction.code {
        TransactionCode::Tktt => transaction.exchange.is_some() && is_one_ended(&facts.related),
        TransactionCode::Rfnd => is_one_ended(&facts.related),
        TransactionCode::Canx => facts.own.is_in_closed_period || facts.own.is_related_to,
    }
}

/// The documents limit, and 0 before terms are published.
fn limit(plan: &Plan) -> u32
    ensures { result ≡ limit_of plan.now.terms }
{
    match plan.terms() {
        Some(terms) => terms.documents_limit,
        None => 0,
    }
}

/// Whether as many transactions of agent, airline and target are accepted as the documents limit.
pub(crate) fn is_at_limit(facts: &Facts, plan: &Plan) -> bool
    ensures { result ≡ nat_le (limit_of plan.now.terms) facts.now.count }
{
    facts.count >= limit(plan) as usize
}

/// Whether the number is in no range of the agent.
pub(crate) fn is_out_of_stock(facts: &Facts) -> bool
    ensures { result ≡ not facts.now.in_range }
{
    !facts.in_range
}
