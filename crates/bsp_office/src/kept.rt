//! What the program says of a book.

use crate::remarks::say;
use bsp_book::ListBook;
use bsp_calendar::Plan;
use bsp_explain::Words;
use bsp_fields::Day;
use bsp_store::SqlBook;
use sqlite::{Alter, Error};

/// Why a book failed.
pub trait Failing {
    /// The error of the store with which the book failed, if it was one.
    fn store_error(&self) -> Option<Error>;
}

impl Failing for ListBook {
    fn store_error(&self) -> Option<Error> {
        None
    }
}

impl<S: Alter> Failing for SqlBook<S> {
    fn store_error(&self) -> Option<Error> {
        self.cause()
    }
}

/// Whether nothing was ever kept in a book.
fn is_new(list: &ListBook) -> bool {
    let tables = list.tables();
    let plan = tables.plan();
    plan.terms().is_none()
        && plan.day() == Day::first()
        && tables.agent_tokens().map().is_empty()
        && tables.airline_tokens().map().is_empty()
}

/// Adds a count, and what is counted.
fn add_count(words: &mut Words, count: usize, noun: &str) {
    words.add(", ");
    words.show(count);
    words.add(noun);
    words.add(if count == 1 { "" } else { "s" });
}

/// The business day of a plan, and how many periods are closed.
fn plan_words(plan: &Plan) -> Words {
    let mut words = Words::new();
    words.add("day ");
    words.show(plan.day());
    words.add(", ");
    words.show(plan.closed_count());
    words.add(" of ");
    words.show(plan.periods().len());
    words.add(" periods closed");
    words
}

/// Says what a book has that is not new.
fn say_counts(rt: &HostRuntime, file: &str, list: &ListBook) {
    let tables = list.tables();
    let mut words = plan_words(tables.plan());
    add_count(&mut words, tables.agent_tokens().map().len(), " agent");
    add_count(&mut words, tables.airline_tokens().map().len(), " airline");
    add_count(&mut words, tables.item_table().map().len(), " item");
    add_count(&mut words, tables.memo_table().map().len(), " memo");
    say(rt, file, &words.text());
}

/// Says on standard error which book was opened.
pub(crate) fn say_opened(rt: &HostRuntime, file: &str, list: &ListBook) {
    if is_new(list) {
        say(rt, file, &"new book");
    } else {
        say_counts(rt, file, list);
    }
}
