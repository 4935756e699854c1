//! What is said beside the verdict of a transaction. The words are for people.

use crate::amount_remarks::{say_against_tickets, say_amounts};
use crate::ended_remarks::{say_cancellation, say_ended_ticket};
use bsp_book::ListBook;
use bsp_calendar::{Period, Plan};
use bsp_fields::{AgentCode, Day, DocNumber, write_digits};
use bsp_plan_trial::{Shown, Words};
use bsp_ret::{RetFile, transaction};
use bsp_ret_records::{ReportedDocument, Transaction, TransactionCode};
use bsp_rules::{Item, Range, Refusal, Verdict};
use std::alloc::{AllocError, Global};

/// What a file is judged over, and the book that its desk leaves.
#[derive(Clone, Copy)]
pub(crate) struct Known<'k> {
    /// The agent that reports.
    pub(crate) agent: AgentCode,
    /// Its ranges, in the order of their allotment.
    pub(crate) stock: &'k [Range],
    /// The business day.
    pub(crate) day: Day,
    /// The book after the file.
    pub(crate) book: &'k ListBook,
}

/// The number of a document whose check digit is wrong.
fn wrong_digit(document: &ReportedDocument) -> Option<DocNumber> {
    match DocNumber::read_unchecked(&document.number) {
        Ok(number) if number.check_digit() != document.check_digit => Some(number),
        _ => None,
    }
}

/// Says the check digit of a number beside the one that its record has.
fn say_beside_right(words: &mut Words, record: u64, found: u8, number: DocNumber) {
    let text = "record {} has the check digit {}, and that of {} is {}";
    let (found, right) = (u64::from(found), u64::from(number.check_digit()));
    let (found, number) = (Shown::Number(found), Shown::Document(number.digits()));
    words.say(
        text,
        &[Shown::Number(record), found, number, Shown::Number(right)],
    );
}

/// Says which check digit is wrong.
fn say_digit(words: &mut Words, transaction: &Transaction) {
    let own = &transaction.document;
    if let Some(number) = wrong_digit(own) {
        say_beside_right(words, 2, own.check_digit, number);
        return;
    }
    for document in &transaction.related {
        if let Some(document) = document {
            if let Some(number) = wrong_digit(document) {
                say_beside_right(words, 3, document.check_digit, number);
                return;
            }
        }
    }
}

/// Says whose transaction it is, and who reports it.
fn say_agents(words: &mut Words, transaction: &Transaction, agent: AgentCode) {
    let text = "record 2 has the agent {}, and {} reports";
    words.say(
        text,
        &[
            Shown::Agent(transaction.agent),
            Shown::Agent(agent.digits()),
        ],
    );
}

/// Says the day of issue beside the business day.
fn say_days(words: &mut Words, transaction: &Transaction, day: Day) {
    let text =
        "it is issued {}, after the business day {}: report it from {} on, or correct the date";
    let issued = transaction.issued;
    words.say(
        text,
        &[Shown::Day(issued), Shown::Day(day), Shown::Day(issued)],
    );
}

/// What is said of a number that is in none of so many ranges.
fn text_before(ranges: usize) -> &'static str {
    match ranges {
        0 => "{} is in no range: the agent has none",
        1 => "{} is not in the range ",
        _ => "{} is in none of the ranges ",
    }
}

/// Says a range.
fn say_range(words: &mut Words, text: &str, range: &Range) {
    let (first, last) = (range.first.digits(), range.last.digits());
    words.say(text, &[Shown::Document(first), Shown::Document(last)]);
}

/// Says the number beside the agent's ranges.
fn say_ranges(words: &mut Words, transaction: &Transaction, stock: &[Range]) {
    let number = Shown::Document(transaction.document.number);
    words.say(text_before(stock.len()), &[number]);
    if let Some((first, others)) = stock.split_first() {
        say_range(words, "{}-{}", first);
        for range in others {
            say_range(words, ", {}-{}", range);
        }
    }
}

/// Whether a refund has the number of its ticket.
fn has_ticket_number(transaction: &Transaction) -> bool {
    match &transaction.related {
        [Some(ticket), _] => {
            transaction.code == TransactionCode::Rfnd
                && ticket.number == transaction.document.number
        }
        _ => false,
    }
}

/// Says what became of the number.
fn say_used(words: &mut Words, transaction: &Transaction) {
    let text = if has_ticket_number(transaction) {
        "a refund has a number of its own from the stock: {} is that of its ticket"
    } else if transaction.code == TransactionCode::Canx {
        "{} was cancelled before"
    } else {
        "{} was accepted before, with other content: take another number"
    };
    words.say(text, &[Shown::Document(transaction.document.number)]);
}

/// What is said of a ticket that was not reported before what relates to it.
fn text_of_missing(code: TransactionCode) -> &'static str {
    match code {
        TransactionCode::Rfnd => {
            "no ticket {} of {} was reported before: report the sale before its refund"
        }
        TransactionCode::Tktt => {
            "no ticket {} of {} was reported before: report it before it is exchanged"
        }
        TransactionCode::Canx => "no ticket {} of {} was reported before",
    }
}

/// Says which ticket was not reported.
fn say_missing(words: &mut Words, transaction: &Transaction) {
    match &transaction.related {
        [Some(first), Some(second)] => {
            let (first, second) = (
                Shown::Document(first.number),
                Shown::Document(second.number),
            );
            let text = "{} or {} is no ticket of its airline that was reported before";
            words.say(text, &[first, second]);
        }
        [Some(first), None] => {
            let (number, airline) = (Shown::Document(first.number), Shown::Airline(first.airline));
            words.say(text_of_missing(transaction.code), &[number, airline]);
        }
        _ => {
            let number = Shown::Document(transaction.document.number);
            words.say("{} was accepted for another airline", &[number]);
        }
    }
}

/// The first open period that does not end before a day.
fn open_period(plan: &Plan, issued: Day) -> Option<Period> {
    for period in plan.periods().iter().skip(plan.closed_count()) {
        if issued <= period.last {
            return Some(*period);
        }
    }
    None
}

/// What is said where the business day is before the first day of the period.
const NOT_BEGUN: &str =
    "it is issued {}, and the open period for it begins {}, after the business day {}: report it again from {} on";

/// Says why no period takes a transaction: the business day is before the period, or there is no later period.
fn say_no_period(words: &mut Words, transaction: &Transaction, plan: &Plan) {
    let (issued, day) = (Shown::Day(transaction.issued), Shown::Day(plan.day()));
    if let Some(period) = open_period(plan, transaction.issued) {
        let first = period.first;
        words.say(
            NOT_BEGUN,
            &[issued, Shown::Day(first), day, Shown::Day(first)],
        );
    } else if let Some(last) = plan.periods().last() {
        let text = if plan.closed_count() == plan.periods().len() {
            "it is issued {}, and all periods are closed: a later period has to be published"
        } else {
            "it is issued {}, and the last period ends {}: a later period has to be published"
        };
        words.say(text, &[issued, Shown::Day(last.last)]);
    } else {
        words.add(b"the plan has no period");
    }
}

/// Says the documents limit, which the agent has reached in an airline and a period.
fn say_limit(words: &mut Words, transaction: &Transaction, plan: &Plan) {
    let (Some(terms), Some(period)) = (plan.terms(), open_period(plan, transaction.issued)) else {
        return;
    };
    let text =
        "the documents limit of {} is reached for {} in {}: report it again after the close of {}";
    let limit = Shown::Number(u64::from(terms.documents_limit));
    let airline = Shown::Airline(transaction.document.airline);
    let code = period.code;
    words.say(
        text,
        &[limit, airline, Shown::Period(code), Shown::Period(code)],
    );
}

/// Says that an airline is not in the plan.
fn say_airline(words: &mut Words, transaction: &Transaction) {
    let airline = Shown::Airline(transaction.document.airline);
    words.say("the airline {} is not in the plan", &[airline]);
}

/// The items of the agent that share a number with a transaction, and none where there is no memory for them.
fn items_of(
    alloc: Global,
    words: &mut Words,
    known: &Known<'_>,
    transaction: &Transaction,
) -> Vec<Item> {
    let tables = known.book.tables();
    match tables.items_bearing(alloc, known.agent, transaction) {
        Ok(items) => items,
        Err(_) => {
            words.run_short();
            Vec::new(alloc)
        }
    }
}

/// Says what is known of a refusal by these items, which share a number with the transaction.
fn say_by_items(
    words: &mut Words,
    transaction: &Transaction,
    refusal: Refusal,
    items: &[Item],
    plan: &Plan,
) {
    if refusal == Refusal::WrongAgainstTicket {
        say_against_tickets(words, transaction, items);
    } else if transaction.code == TransactionCode::Canx {
        say_cancellation(words, &transaction.document.number, items, plan);
    } else {
        say_ended_ticket(words, transaction, items);
    }
}

/// Says what is known of a refusal, beside its code, if anything is.
fn say_known(
    alloc: Global,
    words: &mut Words,
    known: &Known<'_>,
    transaction: &Transaction,
    refusal: Refusal,
) {
    let plan = known.book.tables().plan();
    match refusal {
        Refusal::UnknownAirline => say_airline(words, transaction),
        Refusal::WrongAgent => say_agents(words, transaction, known.agent),
        Refusal::WrongCheckDigit => say_digit(words, transaction),
        Refusal::NotYetIssued => say_days(words, transaction, known.day),
        Refusal::NotInStock => say_ranges(words, transaction, known.stock),
        Refusal::NumberUsed => say_used(words, transaction),
        Refusal::WrongAmounts => say_amounts(words, plan, transaction),
        Refusal::NoTicket => say_missing(words, transaction),
        Refusal::NoPeriod => say_no_period(words, transaction, plan),
        Refusal::LimitReached => say_limit(words, transaction, plan),
        Refusal::TicketEnded | Refusal::WrongAgainstTicket => {
            let items = items_of(alloc, words, known, transaction);
            say_by_items(words, transaction, refusal, &items, plan);
        }
    }
}

/// Says a refusal as it is displayed.
fn say_shown(alloc: Global, lines: &mut Words, refusal: Refusal) {
    match format!(in alloc; "{refusal}") {
        Ok(shown) => lines.add(shown.as_bytes()),
        Err(_) => lines.run_short(),
    }
}

/// Adds the line of a refusal.
fn say_refused(
    alloc: Global,
    lines: &mut Words,
    known: &Known<'_>,
    transaction: &Transaction,
    refusal: Refusal,
) {
    let mut words = Words::new(alloc);
    lines.add(b" ");
    say_known(alloc, &mut words, known, transaction, refusal);
    if words.is_empty() {
        say_shown(alloc, lines, refusal);
    } else {
        lines.add(refusal.code().as_bytes());
        lines.add(b": ");
    }
    lines.add_all(&words);
    lines.add(b"\n");
}

/// Whether the TKTT or RFND of a number is among these items.
fn has_sale(items: &[Item], number: &[u8; 10]) -> bool {
    for item in items {
        let transaction = &item.transaction;
        if transaction.code != TransactionCode::Canx && transaction.document.number == *number {
            return true;
        }
    }
    false
}

/// The line of a CANX that uses up a number, after its number in the file.
const USED_UP: &str =
    ": {} was never sold; the cancellation uses the number up: if the number is a slip, correct columns 23-32 of record 2\n";

/// Adds the line of a CANX that uses up a number: it ends no TKTT or RFND of the agent.
fn say_used_up(
    alloc: Global,
    lines: &mut Words,
    known: &Known<'_>,
    number: &[u8; 6],
    transaction: &Transaction,
) {
    let items = items_of(alloc, lines, known, transaction);
    let cancelled = &transaction.document.number;
    if !has_sale(&items, cancelled) {
        lines.add(number);
        lines.say(USED_UP, &[Shown::Document(*cancelled)]);
    }
}

/// Adds the line of a transaction, if there is more to say of its verdict.
fn say_line(
    alloc: Global,
    lines: &mut Words,
    known: &Known<'_>,
    number: &[u8; 6],
    transaction: &Transaction,
    verdict: &Verdict,
) {
    match verdict {
        Verdict::Refused(refusal) => {
            lines.add(number);
            say_refused(alloc, lines, known, transaction, *refusal);
        }
        Verdict::Accepted(_) if transaction.code == TransactionCode::Canx => {
            say_used_up(alloc, lines, known, number, transaction);
        }
        Verdict::Accepted(_) | Verdict::Held(_) => {}
    }
}

/// A line for each transaction of a file of which there is more to say than its verdict: its number in the file, and the words.
///
/// # Errors
///
/// `AllocError`, where an allocation was refused.
pub(crate) fn remarks_on(
    alloc: Global,
    known: &Known<'_>,
    file: &RetFile<'_>,
    verdicts: &[Verdict],
) -> Result<Vec<u8>, AllocError> {
    let mut lines = Words::new(alloc);
    for (index, verdict) in verdicts.iter().enumerate() {
        if let Some(found) = transaction(file, index) {
            let number = write_digits(index as u64 + 1);
            say_line(alloc, &mut lines, known, &number, &found, verdict);
        }
    }
    lines.finished()
}
