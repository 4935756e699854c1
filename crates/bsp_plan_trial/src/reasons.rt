//! Why a plan text is refused. The words are for people.

use crate::entries::say_difference;
use crate::order::{say_late, say_order};
use crate::plan_trial::{PlanRefused, plan_before};
use crate::tables::say_document_fault;
use crate::toml_faults::say_toml_fault;
use crate::words::{Shown, Words};
use bsp_calendar::{Plan, PlanFault, PlanText, read_plan};
use bsp_fields::Day;
use std::alloc::{AllocError, Global};

/// The first rate of an airline that neither the plan nor the text has.
fn say_unknown_airline(words: &mut Words, plan: &Plan, read: &PlanText) {
    for rate in &read.rates {
        let airline = rate.airline;
        if !plan.has_airline(airline) && !read.airlines.contains(&airline) {
            let text =
                "a rate is of {}, which is in neither the text nor the plan: add it to airline";
            words.say(text, &[Shown::Airline(airline)]);
            return;
        }
    }
}

/// Which entries of a text that is read are at fault.
fn say_entries_fault(words: &mut Words, plan: &Plan, read: &PlanText, fault: PlanFault) {
    match fault {
        PlanFault::WrongKey => say_unknown_airline(words, plan, read),
        PlanFault::Differs => say_difference(words, plan, read),
        PlanFault::OutOfOrder => say_order(words, plan, read),
        PlanFault::LateRate => say_late(words, plan, read),
        _ => {}
    }
}

/// Which line or key of a text is at fault that is not read.
fn say_text_fault(alloc: Global, words: &mut Words, text: &[u8]) {
    match toml::table_from_slice(alloc, text) {
        Ok(document) => say_document_fault(words, text, &document),
        Err(error) if error.is_memory() => words.run_short(),
        Err(error) => say_toml_fault(words, text, &error),
    }
}

/// Says why a text is refused over a plan, as far as it is known.
fn say_reason(alloc: Global, words: &mut Words, plan: &Plan, text: &[u8], fault: PlanFault) {
    match read_plan(alloc, text) {
        Ok(read) => say_entries_fault(words, plan, &read, fault),
        Err(PlanFault::NoMemory) => words.run_short(),
        Err(_) => say_text_fault(alloc, words, text),
    }
}

/// Why one of some plan texts is refused, of which the last comes after those published before: the line or the key at
/// fault, or the two entries that disagree. It is empty where nothing more is known of the fault. The words are for people.
///
/// # Errors
///
/// An allocation was refused.
pub fn refusal_reason(
    alloc: Global,
    published: &[Vec<u8>],
    day: Option<Day>,
    text: &[u8],
    refused: PlanRefused,
) -> Result<Vec<u8>, AllocError> {
    let before = &published[..refused.place.min(published.len())];
    let (text, day) = match published.get(refused.place) {
        Some(earlier) => (earlier.as_slice(), None),
        None => (text, day),
    };
    let mut words = Words::new(alloc);
    match plan_before(alloc, before, day) {
        Ok(plan) => say_reason(alloc, &mut words, &plan, text, refused.fault),
        // Those before it are published, so only memory can be short.
        Err(_) => words.run_short(),
    }
    words.finished()
}
