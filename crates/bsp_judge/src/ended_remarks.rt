//! Why a ticket can not be given back, and what to do. The words are for people.

use bsp_calendar::Plan;
use bsp_plan_trial::{Shown, Words};
use bsp_ret_records::{ReportedDocument, Transaction, TransactionCode};
use bsp_rules::Item;

/// Whether a document has a number.
fn has_number(document: &Option<ReportedDocument>, number: &[u8; 10]) -> bool {
    match document {
        Some(document) => document.number == *number,
        None => false,
    }
}

/// Whether an item ended the ticket of a number.
fn ends(item: &Item, number: &[u8; 10]) -> bool {
    let transaction = &item.transaction;
    match transaction.code {
        TransactionCode::Canx => transaction.document.number == *number,
        TransactionCode::Rfnd | TransactionCode::Tktt => {
            let [first, second] = &transaction.related;
            item.lives && (has_number(first, number) || has_number(second, number))
        }
    }
}

/// The first item that ended the ticket of a number.
fn end_of<'i>(items: &'i [Item], number: &[u8; 10]) -> Option<&'i Item> {
    for item in items {
        if ends(item, number) {
            return Some(item);
        }
    }
    None
}

/// Says how an item ended the ticket of a number, and what to do, which may name the item by its number.
fn say_end(words: &mut Words, number: &[u8; 10], item: &Item, remedy: &str) {
    let by = item.transaction.document.number;
    let text = match item.transaction.code {
        TransactionCode::Canx => "{} was cancelled",
        TransactionCode::Rfnd => "{} was refunded by {}",
        TransactionCode::Tktt => "{} was exchanged for {}",
    };
    words.say(text, &[Shown::Document(*number), Shown::Document(by)]);
    words.say(remedy, &[Shown::Document(by)]);
}

/// Says which ticket of a refund or an exchange has ended.
pub(crate) fn say_ended_ticket(words: &mut Words, transaction: &Transaction, items: &[Item]) {
    for place in &transaction.related {
        if let Some(document) = place {
            if let Some(item) = end_of(items, &document.number) {
                let remedy = ": a ticket is given back once; take this transaction out";
                say_end(words, &document.number, item, remedy);
                return;
            }
        }
    }
}

/// The sale or refund of a number in a closed period.
fn closed_item<'i>(items: &'i [Item], number: &[u8; 10], plan: &Plan) -> Option<&'i Item> {
    for item in items {
        if item.transaction.document.number == *number
            && plan.closed_period(item.period).is_some()
        {
            return Some(item);
        }
    }
    None
}

/// Says that the period of what is to be cancelled is closed.
fn say_closed(words: &mut Words, number: &[u8; 10], item: &Item) {
    let text = match item.transaction.code {
        TransactionCode::Tktt => {
            "{} was accepted in {}, which is closed: report a refund (RFND) in place of the CANX"
        }
        TransactionCode::Rfnd | TransactionCode::Canx => {
            "{} was accepted in {}, which is closed: take this transaction out"
        }
    };
    words.say(
        text,
        &[Shown::Document(*number), Shown::Period(item.period)],
    );
}

/// Says why a cancellation is refused.
pub(crate) fn say_cancellation(words: &mut Words, number: &[u8; 10], items: &[Item], plan: &Plan) {
    if let Some(item) = closed_item(items, number, plan) {
        say_closed(words, number, item);
    } else if let Some(item) = end_of(items, number) {
        if item.transaction.code != TransactionCode::Canx {
            let remedy = ": cancel {} first, while its period is open";
            say_end(words, number, item, remedy);
        }
    }
}
