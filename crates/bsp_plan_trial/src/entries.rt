//! Entries that differ: P08.

use crate::words::{Shown, Words};
use bsp_calendar::{CommissionTax, Period, Plan, PlanText, Rate, Terms};
use bsp_fields::Day;

/// What is said of two entries that differ.
struct Sides {
    /// Of two rates: the airline, the day, and both rates.
    rate: &'static str,
    /// Of two taxes: the day, and both taxes.
    tax: &'static str,
    /// Of a day of two periods: both days.
    day: &'static str,
    /// After two periods.
    period_end: &'static str,
}

/// The first is in the text, and the second was published before.
const PUBLISHED: Sides = Sides {
    rate: "the rate of {} from {} is {} here and {} before: a new rate is a further [[rate]] from a later day",
    tax: "the commission_tax from {} is {} here and {} before: a new tax is a further [[commission_tax]] from a later day",
    day: " is {} here and {} before",
    period_end: ": a published period stays",
};

/// Both are in the text, the first before the second.
const OWN: Sides = Sides {
    rate: "the rate of {} from {} is {} in the first entry and {} in the second: a new rate is a further [[rate]] from a later day",
    tax: "the commission_tax from {} is {} in the first entry and {} in the second: a new tax is a further [[commission_tax]] from a later day",
    day: " is {} in the first entry and {} in the second",
    period_end: "",
};

/// What is said of a term that is no longer what was published, after its name.
const CHANGED: &str = " is {} here and {} before: it stays as it was published";

/// Says that a number is no longer what was published.
fn say_number(words: &mut Words, name: &[u8], new: u64, old: u64) {
    words.add(name);
    words.say(CHANGED, &[Shown::Number(new), Shown::Number(old)]);
}

/// Says which term differs from the published one.
fn say_term(words: &mut Words, old: Terms, new: Terms) {
    if new.currency != old.currency {
        let (new, old) = (new.currency.letters(), old.currency.letters());
        words.add(b"currency");
        words.quote(CHANGED, &[&new, &old]);
    } else if new.review_days != old.review_days {
        let (new, old) = (new.review_days, old.review_days);
        say_number(words, b"review_days", u64::from(new), u64::from(old));
    } else {
        let (new, old) = (new.documents_limit, old.documents_limit);
        say_number(words, b"documents_limit", u64::from(new), u64::from(old));
    }
}

/// An entry of a list of a plan, of which another one with its key may differ.
trait Keyed {
    /// Whether another one has the key of this one and differs from it.
    fn differs(&self, other: &Self) -> bool;

    /// Says in what another one with its key differs.
    fn say_beside(&self, words: &mut Words, sides: &Sides, other: &Self);
}

impl Keyed for Rate {
    fn differs(&self, other: &Rate) -> bool {
        other.airline == self.airline
            && other.from == self.from
            && other.hundredths != self.hundredths
    }

    fn say_beside(&self, words: &mut Words, sides: &Sides, other: &Rate) {
        let (first, second) = (u64::from(self.hundredths), u64::from(other.hundredths));
        let (airline, from) = (Shown::Airline(self.airline), Shown::Day(self.from));
        words.say(
            sides.rate,
            &[airline, from, Shown::Number(first), Shown::Number(second)],
        );
    }
}

/// Says a day of a period that differs, and answers what comes before the next.
fn say_day(
    words: &mut Words,
    sides: &Sides,
    before: &'static str,
    name: &[u8],
    days: (Day, Day),
) -> &'static str {
    if days.0 == days.1 {
        return before;
    }
    words.add(before.as_bytes());
    words.add(name);
    words.say(sides.day, &[Shown::Day(days.0), Shown::Day(days.1)]);
    ", "
}

impl Keyed for Period {
    fn differs(&self, other: &Period) -> bool {
        other.code == self.code && other != self
    }

    fn say_beside(&self, words: &mut Words, sides: &Sides, other: &Period) {
        words.say("period {}", &[Shown::Period(self.code)]);
        let before = say_day(words, sides, ": ", b"first", (self.first, other.first));
        let before = say_day(words, sides, before, b"last", (self.last, other.last));
        let remittances = (self.remittance, other.remittance);
        let _next = say_day(words, sides, before, b"remit", remittances);
        words.add(sides.period_end.as_bytes());
    }
}

impl Keyed for CommissionTax {
    fn differs(&self, other: &CommissionTax) -> bool {
        other.from == self.from && other.hundredths != self.hundredths
    }

    fn say_beside(&self, words: &mut Words, sides: &Sides, other: &CommissionTax) {
        let (first, second) = (u64::from(self.hundredths), u64::from(other.hundredths));
        let from = Shown::Day(self.from);
        words.say(
            sides.tax,
            &[from, Shown::Number(first), Shown::Number(second)],
        );
    }
}

/// The first of some entries that differs from this one and has its key.
fn other_than<'k, E: Keyed>(known: &'k [E], entry: &E) -> Option<&'k E> {
    for it in known {
        if entry.differs(it) {
            return Some(it);
        }
    }
    None
}

/// Says which entry differs from one of these with its key, and answers whether one does.
fn say_first<E: Keyed>(words: &mut Words, sides: &Sides, known: &[E], entries: &[E]) -> bool {
    for entry in entries {
        if let Some(other) = other_than(known, entry) {
            entry.say_beside(words, sides, other);
            return true;
        }
    }
    false
}

/// Says which entry of a text differs from a published one, and answers whether one does.
fn differs_from_plan(words: &mut Words, plan: &Plan, read: &PlanText) -> bool {
    let sides = &PUBLISHED;
    say_first(words, sides, plan.rates(), &read.rates)
        || say_first(words, sides, plan.periods(), &read.periods)
        || say_first(
            words,
            sides,
            plan.commission_taxes(),
            &read.commission_taxes,
        )
}

/// Says which two entries of a text differ, and answers whether two do.
fn differs_in_itself(words: &mut Words, read: &PlanText) -> bool {
    let sides = &OWN;
    say_first(words, sides, &read.rates, &read.rates)
        || say_first(words, sides, &read.periods, &read.periods)
        || say_first(words, sides, &read.commission_taxes, &read.commission_taxes)
}

/// Says which entry differs from a published one, or from another of the text.
pub(crate) fn say_difference(words: &mut Words, plan: &Plan, read: &PlanText) {
    match plan.terms() {
        Some(old) if old != read.terms => say_term(words, old, read.terms),
        _ => {
            let _said = differs_from_plan(words, plan, read) || differs_in_itself(words, read);
        }
    }
}
