//! Which amount of a refused transaction is wrong, and what it has to be. The words are for people.

use bsp_calendar::Plan;
use bsp_fields::{AirlineCode, Day};
use bsp_plan_trial::{Shown, Words};
use bsp_ret_records::{Amounts, ReportedDocument, Tax, Transaction, TransactionCode};
use bsp_rules::{Item, amount_or_zero, card_amount, commission};

/// What is said of a commission whose basis is the fare.
const BY_FARE: &str = "the commission is {}, by rate and fare {}";

/// Fare and taxes, in minor units.
fn gross(amounts: &Amounts) -> i64 {
    let mut sum = amounts.fare.get();
    for tax in &amounts.taxes {
        if let Some(tax) = tax {
            sum = sum.saturating_add(tax.amount.get());
        }
    }
    sum
}

/// What the forms pay, in minor units.
fn paid(transaction: &Transaction) -> i64 {
    amount_or_zero(transaction.cash)
        .saturating_add(card_amount(transaction.credit))
        .saturating_add(amount_or_zero(transaction.exchange))
}

/// Says the commission, where it is not that of its rate on a basis. The text has a place for each.
fn say_commission(words: &mut Words, text: &str, amounts: &Amounts, basis: i64) {
    if amounts.rate <= 10_000 {
        let (found, wanted) = (amounts.commission.get(), commission(amounts.rate, basis));
        if found != wanted {
            words.say(text, &[Shown::Amount(found), Shown::Amount(wanted)]);
        }
    }
}

/// Whether an amount has the sign of the other kind of transaction.
fn has_wrong_sign(code: TransactionCode, amount: i64) -> bool {
    match code {
        TransactionCode::Rfnd => amount > 0,
        TransactionCode::Tktt | TransactionCode::Canx => amount < 0,
    }
}

/// The first tax with a wrong sign.
fn wrong_tax(code: TransactionCode, amounts: &Amounts) -> Option<i64> {
    for tax in &amounts.taxes {
        if let Some(tax) = tax {
            let amount = tax.amount.get();
            if has_wrong_sign(code, amount) {
                return Some(amount);
            }
        }
    }
    None
}

/// The first amount with a wrong sign, and its name.
fn wrong_amount(transaction: &Transaction, amounts: &Amounts) -> Option<(&'static str, i64)> {
    let named = [
        ("the fare", amounts.fare.get()),
        ("the commission", amounts.commission.get()),
        ("CA", amount_or_zero(transaction.cash)),
        ("CC", card_amount(transaction.credit)),
        ("EX", amount_or_zero(transaction.exchange)),
    ];
    for (name, amount) in &named {
        if has_wrong_sign(transaction.code, *amount) {
            return Some((*name, *amount));
        }
    }
    match wrong_tax(transaction.code, amounts) {
        Some(amount) => Some(("a tax", amount)),
        None => None,
    }
}

/// Whether an amount of this name is below zero since a ticket costs less than those that it is paid with.
fn is_paid_back(transaction: &Transaction, name: &str) -> bool {
    transaction.exchange.is_some() && (name == "CA" || name == "CC")
}

/// Says an amount with a wrong sign, and the rule.
fn say_sign(words: &mut Words, transaction: &Transaction, name: &str, amount: i64) {
    let text = if is_paid_back(transaction, name) {
        " is {}: the ticket costs less than those that it is paid with: report a refund and a sale"
    } else if transaction.code == TransactionCode::Rfnd {
        " is {}, and no amount of a refund is above zero"
    } else {
        " is {}, and no amount of a sale is below zero"
    };
    words.add(name.as_bytes());
    words.say(text, &[Shown::Amount(amount)]);
}

/// The first day of a published rate of an airline.
fn first_rate(plan: &Plan, airline: AirlineCode) -> Option<Day> {
    let mut first: Option<Day> = None;
    for rate in plan.rates() {
        if rate.airline == airline {
            match first {
                Some(day) if day <= rate.from => {}
                _ => first = Some(rate.from),
            }
        }
    }
    first
}

/// Says that no rate of an airline is published for a day.
fn say_no_rate(words: &mut Words, airline: AirlineCode, issued: Day, first: Option<Day>) {
    let airline = Shown::Airline(airline);
    match first {
        None => words.say(
            "no rate of {} is published, so the rate is 00000",
            &[airline],
        ),
        Some(first) => words.say(
            "no rate of {} is published for {}, the first is from {}: see the date of issue in columns 34-39 of record 2 (YYMMDD)",
            &[airline, Shown::Day(issued), Shown::Day(first)],
        ),
    }
}

/// Says that a rate is above the published one.
fn say_above(words: &mut Words, rate: u16, airline: AirlineCode, issued: Day, published: u16) {
    let text = "the rate is {}, and the published one of {} on {} is {}";
    let (rate, published) = (u64::from(rate), u64::from(published));
    let (airline, issued) = (Shown::Airline(airline), Shown::Day(issued));
    words.say(
        text,
        &[
            Shown::Number(rate),
            airline,
            issued,
            Shown::Number(published),
        ],
    );
}

/// Says that a rate is above the published one, or that the commission of a sale without EX is not its rate's.
fn say_rate(words: &mut Words, plan: &Plan, transaction: &Transaction, amounts: &Amounts) {
    let (airline, issued) = (transaction.document.airline, transaction.issued);
    let published = plan.rate(airline, issued);
    if amounts.rate <= published {
        if transaction.exchange.is_none() {
            say_commission(words, BY_FARE, amounts, amounts.fare.get());
        }
        return;
    }
    match first_rate(plan, airline) {
        Some(first) if first <= issued => {
            say_above(words, amounts.rate, airline, issued, published);
        }
        first => say_no_rate(words, airline, issued, first),
    }
}

/// Says which amount is wrong by the transaction and the published rate alone.
pub(crate) fn say_amounts(words: &mut Words, plan: &Plan, transaction: &Transaction) {
    let Some(amounts) = &transaction.amounts else {
        return;
    };
    let (gross, paid) = (gross(amounts), paid(transaction));
    if let Some((name, amount)) = wrong_amount(transaction, amounts) {
        say_sign(words, transaction, name, amount);
    } else if gross != paid {
        let text = "fare + taxes are {}, forms {}";
        words.say(text, &[Shown::Amount(gross), Shown::Amount(paid)]);
    } else if transaction.code == TransactionCode::Tktt {
        say_rate(words, plan, transaction, amounts);
    }
}

/// The amounts of the ticket that a transaction names in a place.
fn ticket_in<'i>(items: &'i [Item], place: &Option<ReportedDocument>) -> Option<&'i Amounts> {
    let Some(document) = place else {
        return None;
    };
    for item in items {
        let ticket = &item.transaction;
        if ticket.document.number == document.number && ticket.amounts.is_some() {
            return ticket.amounts.as_ref();
        }
    }
    None
}

/// The amount of a tax with a code, if there is one.
fn tax_with(code: &[u8; 2], taxes: &[Option<Tax>; 6]) -> Option<i64> {
    for tax in taxes {
        if let Some(tax) = tax {
            if tax.code == *code {
                return Some(tax.amount.get());
            }
        }
    }
    None
}

/// The first tax of a refund that the ticket has not, or that is more than the ticket's, and that of the ticket.
fn greater_tax(ticket: &Amounts, amounts: &Amounts) -> Option<(Tax, Option<i64>)> {
    for tax in &amounts.taxes {
        if let Some(tax) = tax {
            let of_ticket = tax_with(&tax.code, &ticket.taxes);
            match of_ticket {
                Some(most) if tax.amount.get().unsigned_abs() <= most.unsigned_abs() => {}
                _ => return Some((*tax, of_ticket)),
            }
        }
    }
    None
}

/// Says a tax of a refund beside that of the ticket.
fn say_tax(words: &mut Words, tax: Tax, of_ticket: Option<i64>) {
    let (code, amount) = (tax.code, Shown::Amount(tax.amount.get()));
    match of_ticket {
        Some(most) => {
            let text = "the tax {} is {}, that of the ticket {}";
            words.say(text, &[Shown::Tax(code), amount, Shown::Amount(most)]);
        }
        None => {
            let text = "the tax {} is {}, and the ticket has no tax {}";
            words.say(text, &[Shown::Tax(code), amount, Shown::Tax(code)]);
        }
    }
}

/// Says which amount of a refund does not agree with its ticket.
fn say_refund(words: &mut Words, ticket: &Amounts, amounts: &Amounts) {
    let (fare, of_ticket) = (amounts.fare.get(), ticket.fare.get());
    if fare.unsigned_abs() > of_ticket.unsigned_abs() {
        let text = "the fare is {}, that of the ticket {}";
        words.say(text, &[Shown::Amount(fare), Shown::Amount(of_ticket)]);
    } else if let Some((tax, of_ticket)) = greater_tax(ticket, amounts) {
        say_tax(words, tax, of_ticket);
    } else if amounts.rate != ticket.rate {
        let (rate, of_ticket) = (u64::from(amounts.rate), u64::from(ticket.rate));
        let text = "the rate is {}, that of the ticket {}";
        words.say(text, &[Shown::Number(rate), Shown::Number(of_ticket)]);
    } else {
        say_commission(words, BY_FARE, amounts, fare);
    }
}

/// Says which amount of an exchange does not agree with its tickets.
fn say_exchange(words: &mut Words, transaction: &Transaction, items: &[Item], amounts: &Amounts) {
    let (mut value, mut fares) = (0_i64, 0_i64);
    for place in &transaction.related {
        if let Some(ticket) = ticket_in(items, place) {
            value = value.saturating_add(gross(ticket));
            fares = fares.saturating_add(ticket.fare.get());
        }
    }
    let given = amount_or_zero(transaction.exchange);
    if given == value {
        let text = "the commission is {}, by rate and difference of the fares {}";
        let basis = amounts.fare.get().saturating_sub(fares).max(0);
        say_commission(words, text, amounts, basis);
    } else {
        let text = "EX is {}, fare + taxes of the tickets are {}";
        words.say(text, &[Shown::Amount(given), Shown::Amount(value)]);
    }
}

/// Says which amount does not agree with the tickets, which are among these items.
pub(crate) fn say_against_tickets(words: &mut Words, transaction: &Transaction, items: &[Item]) {
    let Some(amounts) = &transaction.amounts else {
        return;
    };
    match transaction.code {
        TransactionCode::Tktt => say_exchange(words, transaction, items, amounts),
        TransactionCode::Rfnd => {
            if let Some(ticket) = ticket_in(items, &transaction.related[0]) {
                say_refund(words, ticket, amounts);
            }
        }
        TransactionCode::Canx => {}
    }
}
