//! What is known of a request that the office refuses. The words are for people.

ghost use Rattle.std.specs.Prelude.{◌≡◌};
ghost use Rattle.bsp_judge.specs.Unjudged.{IsRefusedAs};

use crate::setup::{Earlier, JudgeFault, RefusedStep, Setup, Step};
use bsp_book::ListBook;
use bsp_calendar::{Period, Plan};
use bsp_messages::{RequestRefusal, StockFault};
use bsp_plan_trial::{Shown, Words};
use bsp_rules::Range;
use std::alloc::{AllocError, Global};

/// The first range before a place that has a number of this one.
fn met_range(stock: &[Range], place: usize) -> Option<Range> {
    let Some(range) = stock.get(place) else {
        return None;
    };
    for other in &stock[..place] {
        if other.first <= range.last && range.first <= other.last {
            return Some(*other);
        }
    }
    None
}

/// Says why a range is refused.
fn say_range(words: &mut Words, setup: &Setup<'_>, place: usize, fault: StockFault) {
    if let StockFault::FirstAfterLast = fault {
        words.add(b"the first number is after the last");
        return;
    }
    if let Some(other) = met_range(setup.stock, place) {
        let (first, last) = (other.first.digits(), other.last.digits());
        let text = "it meets {}-{}";
        words.say(text, &[Shown::Document(first), Shown::Document(last)]);
    }
}

/// Says why the close of a period of a plan is refused, which is not the next, or ends after the business day.
fn say_period(words: &mut Words, plan: &Plan, period: &Period) {
    match plan.periods().get(plan.closed_count()) {
        Some(next) if next.code == period.code => {
            let (last, day) = (Shown::Day(period.last), Shown::Day(plan.day()));
            words.say("it ends {}, and the business day is {}", &[last, day]);
        }
        Some(next) => {
            let text = "the period {} is to be closed first";
            words.say(text, &[Shown::Period(next.code)]);
        }
        None => {}
    }
}

/// Says why the close of a period is refused.
fn say_close(words: &mut Words, book: &ListBook, setup: &Setup<'_>, place: usize) {
    let plan = book.tables().plan();
    let Some(Earlier::Closed(code)) = setup.earlier.get(place) else {
        return;
    };
    match plan.period(*code) {
        Some((period, _)) => say_period(words, plan, &period),
        None => words.add(b"no period of the plan has this code"),
    }
}

/// What is known of a refusal.
fn reason_of(
    alloc: Global,
    book: &ListBook,
    setup: &Setup<'_>,
    step: Step,
    refusal: RequestRefusal,
) -> Result<Vec<u8>, AllocError> {
    let mut words = Words::new(alloc);
    match (step, refusal) {
        (Step::Stock(place), RequestRefusal::Stock(fault)) => {
            say_range(&mut words, setup, place, fault);
        }
        (Step::Closed(place), RequestRefusal::Plan(_)) => {
            say_close(&mut words, book, setup, place);
        }
        _ => {}
    }
    words.finished()
}

/// The fault of a step that is refused, or want of memory.
pub(crate) fn refused(
    alloc: Global,
    book: &ListBook,
    setup: &Setup<'_>,
    step: Step,
    refusal: RequestRefusal,
) -> JudgeFault
    ensures { IsRefusedAs step refusal result }
{
    match reason_of(alloc, book, setup, step, refusal) {
        Ok(reason) => JudgeFault::Refused(RefusedStep {
            step,
            refusal,
            reason,
        }),
        Err(_) => JudgeFault::Memory,
    }
}
