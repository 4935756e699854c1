//! Periods that do not follow one another: P03. Rates and taxes that begin too early: P05.

use crate::words::{Shown, Words};
use bsp_calendar::{Period, Plan, PlanText};
use bsp_fields::Day;

/// Says what is wrong with the days of a period, and answers whether anything is.
fn say_own_days(words: &mut Words, period: &Period) -> bool {
    let (first, last, remit) = (period.first, period.last, period.remittance);
    let code = Shown::Period(period.code);
    if first.number() > last.number() {
        let text = "period {} begins {}, after its last day {}";
        words.say(text, &[code, Shown::Day(first), Shown::Day(last)]);
        return true;
    }
    if last.number() < remit.number() {
        return false;
    }
    let text = "period {} ends {}, and its remit is {}: it has to be after the last day";
    words.say(text, &[code, Shown::Day(last), Shown::Day(remit)]);
    true
}

/// Says on which day a period has to begin, after one that ends on this day.
fn say_next(words: &mut Words, last: Day) {
    if let Ok(next) = Day::of_number(last.plus(1)) {
        words.say(": it has to begin {}", &[Shown::Day(next)]);
    }
}

/// Says that a period does not begin on the day after the one before it, and answers whether that is so.
fn say_gap(words: &mut Words, before: Option<Period>, period: &Period) -> bool {
    let Some(before) = before else {
        return false;
    };
    if before.last.number() + 1 == period.first.number() {
        return false;
    }
    let (code, first) = (Shown::Period(period.code), Shown::Day(period.first));
    let (other, last) = (Shown::Period(before.code), Shown::Day(before.last));
    words.say(
        "period {} begins {}, and period {} before it ends {}",
        &[code, first, other, last],
    );
    say_next(words, before.last);
    true
}

/// Says which new period does not follow the one before it.
pub(crate) fn say_order(words: &mut Words, plan: &Plan, read: &PlanText) {
    let mut before = plan.periods().last().copied();
    for period in &read.periods {
        if plan.period(period.code).is_none() {
            if say_own_days(words, period) || say_gap(words, before, period) {
                return;
            }
            before = Some(*period);
        }
    }
}

/// Says that an entry begins too early.
fn say_begun(words: &mut Words, from: Day, day: Day) {
    let text = " begins {}, and the business day is {}: it has to begin on a later day";
    words.say(text, &[Shown::Day(from), Shown::Day(day)]);
}

/// Says which new tax begins too early.
fn say_late_tax(words: &mut Words, plan: &Plan, read: &PlanText) {
    let day = plan.day();
    for tax in &read.commission_taxes {
        if tax.from.number() <= day.number() && !plan.commission_taxes().contains(tax) {
            words.add(b"a commission_tax");
            say_begun(words, tax.from, day);
            return;
        }
    }
}

/// Says which new rate or tax begins too early. No entry of the text differs from a published one.
pub(crate) fn say_late(words: &mut Words, plan: &Plan, read: &PlanText) {
    let day = plan.day();
    for rate in &read.rates {
        if rate.from.number() <= day.number() && !plan.rates().contains(rate) {
            words.say("a rate of {}", &[Shown::Airline(rate.airline)]);
            say_begun(words, rate.from, day);
            return;
        }
    }
    say_late_tax(words, plan, read);
}
