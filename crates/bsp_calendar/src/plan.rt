//! The published plan, the business day and the closed periods.

ghost use Rattle.std.specs.Prelude.{◌≡◌, ◌≤◌, ◌&&◌, ◌||◌, ◌⊎◌, [], ◌∷◌, false, not, Ok, Err, MatchResult, drop, length};
ghost use Rattle.std.specs.List.{list_any};
ghost use Rattle.bsp_fields.specs.FirstFault.{first_fault_or};
ghost use Rattle.bsp_calendar.specs.DayOrder.{is_up_to, same_day};
ghost use Rattle.bsp_calendar.specs.Published.{has_begun, is_closed, opening};
ghost use Rattle.bsp_calendar.specs.Requests.{Answers, AnswersOrLacksMemory, are_in_order, are_within_bounds, closing, extended, has_terms, holds_already, is_empty, on_day, with_entries};
ghost use Rattle.bsp_calendar.specs.SoundPlan.{Continues, HasSameEntries, IsSoundPlan};
ghost use Rattle.bsp_calendar.specs.Standing.{dated};

mod answers;
mod entries;
mod periods;
mod target;

use crate::checks::{
    are_in_order, are_within_bounds, differ_in_terms, has_late_rate, has_none_beyond,
    has_tax_begun, have_airlines,
};
use crate::days::is_before;
use crate::entries::{PlanText, Terms};
use crate::fault::PlanFault;
use crate::keys::{
    Airlines, Periods, Rates, join_airlines, join_periods, join_rates, period_place,
};
use crate::taxes::{Taxes, join_taxes};
use bsp_fields::{Change, Day, PeriodCode};
use std::alloc::Global;
use std::marker::Model;

/// The airlines, rates, periods and taxes on commission of a plan.
#[derive(Drop)]
struct Lists {
    airlines: Airlines,
    rates: Rates,
    periods: Periods,
    commission_taxes: Taxes,
}

/// The published plan of a market, the business day and the closed periods. It only grows, and a
/// closed period never changes (`closed_stays`). A contract sees it as a `Published`: the entries,
/// each once and in the order of their first publication, the business day and the codes of the
/// closed periods. It always meets the rules of a plan (`Plan::meets_rules`).
#[derive(Drop)]
pub struct Plan {
    alloc: Global,
    terms: Option<Terms>,
    lists: Lists,
    day: Day,
    closed: usize,
}

impl Model for Plan {
    ghost use Rattle.bsp_calendar.specs.Published.{Published};
    ghost use Rattle.bsp_calendar.specs.SoundPlan.{IsPlan};
    ghost use Rattle.bsp_calendar.specs.Standing.{plan_of};

    ghost Value = { Published };

    ghost view = { λ p. plan_of p.terms p.lists.airlines p.lists.rates p.lists.periods p.lists.commission_taxes p.day p.closed };

    ghost invariant = { λ p. IsPlan p.terms p.lists.airlines p.lists.rates p.lists.periods p.lists.commission_taxes p.day p.closed };
}

impl Plan {
    /// The plan before anything is published: no entries, business day 2000-01-01, no closed period.
    pub fn empty(alloc: Global) -> Plan
        ensures { result ≡ opening }
    {
        Plan {
            alloc,
            terms: None,
            lists: Lists {
                airlines: Airlines::new(alloc),
                rates: Rates::new(alloc),
                periods: Periods::new(alloc),
                commission_taxes: Taxes::new(alloc),
            },
            day: Day::first(),
            closed: 0,
        }
    }

    /// The same plan.
    ///
    /// # Errors
    ///
    /// `NoMemory`.
    pub fn copied(&self) -> Result<Plan, PlanFault>
        ensures { MatchResult result (λ copy. copy ≡ self.now) (λ fault. fault ≡ PlanFault.NoMemory) }
    {
        let lists = &self.lists;
        Ok(Plan {
            alloc: self.alloc,
            terms: self.terms,
            lists: Lists {
                airlines: lists.airlines.copied(self.alloc)?,
                rates: lists.rates.copied(self.alloc)?,
                periods: lists.periods.copied(self.alloc)?,
                commission_taxes: lists.commission_taxes.copied(self.alloc)?,
            },
            day: self.day,
            closed: self.closed,
        })
    }

    /// Publishes the entries of a text that are new. `Held` where none is, and the plan is then as it
    /// was.
    ///
    /// # Errors
    ///
    /// The first of `WrongKey`, `Differs`, `OutOfOrder` and `LateRate` that applies, or `NoMemory`.
    /// `WrongKey` is for a value out of its bounds, or a rate of an airline that neither the plan
    /// nor the text has. `NoMemory` is not answered in place of a value out of its bounds. The plan
    /// is then as it was.
    pub fn extend(&mut self, text: &PlanText) -> Result<Change, PlanFault>
        ensures answers { AnswersOrLacksMemory (extended self.old text.now) (holds_already self.old text.now) self.old result self.new }
        ensures bounds { are_within_bounds text.now ≡ false → result ≡ Err PlanFault.WrongKey }
        ensures held { result ≡ Ok Change.Held → self.new ≡ self.old }
        ensures continues { Continues self.old self.new }
    {
        let lists = self.lists_with(text)?;
        let change = Change::of(self.holds(&lists));
        self.terms = Some(text.terms);
        self.lists = lists;
        Ok(change)
    }

    /// The lists with the entries of a text.
    fn lists_with(&self, text: &PlanText) -> Result<Lists, PlanFault>
        ensures bounds { are_within_bounds text.now ≡ false → result ≡ Err PlanFault.WrongKey }
        ensures lists { MatchResult result
            (λ lists. (extended self.now text.now ≡ Ok (with_entries self.now text.now))
            × (lists.airlines ≡ (with_entries self.now text.now).airlines) × (lists.rates ≡ (with_entries self.now text.now).rates) × (lists.periods ≡ (with_entries self.now text.now).periods)
            × (lists.commission_taxes ≡ (with_entries self.now text.now).commission_taxes))
            (λ fault. (fault ≡ PlanFault.NoMemory) ⊎ (extended self.now text.now ≡ Err fault)) }
    {
        let held = &self.lists;
        if !are_within_bounds(text) {
            return Err(PlanFault::WrongKey);
        }
        let airlines = join_airlines(self.alloc, &held.airlines, &text.airlines)?;
        if !have_airlines(&text.rates, &airlines) {
            return Err(PlanFault::WrongKey);
        }
        if differ_in_terms(self.terms, text.terms) {
            return Err(PlanFault::Differs);
        }
        let rates = join_rates(self.alloc, &held.rates, &text.rates)?;
        let periods = join_periods(self.alloc, &held.periods, &text.periods)?;
        let commission_taxes = join_taxes(
            self.alloc,
            &held.commission_taxes,
            &text.commission_taxes,
        )?;
        let lists = Lists {
            airlines,
            rates,
            periods,
            commission_taxes,
        };
        self.check_new(&lists)?;
        Ok(lists)
    }

    /// Judges the periods of further lists, and the rates and taxes that the plan has not.
    fn check_new(&self, lists: &Lists) -> Result<(), PlanFault>
        ensures { result ≡ first_fault_or
            ((not (are_in_order lists.now.periods), PlanFault.OutOfOrder)
            ∷ (
              list_any (λ r. is_up_to r.from self.now.day) (drop (length self.now.rates) lists.now.rates)
                  || list_any (has_begun self.now.day) (drop (length self.now.commission_taxes) lists.now.commission_taxes),
              PlanFault.LateRate,
            )
            ∷ []) tt }
    {
        let held = &self.lists;
        if !are_in_order(lists.periods.list()) {
            return Err(PlanFault::OutOfOrder);
        }
        if has_late_rate(lists.rates.list(), held.rates.list().len(), self.day) {
            return Err(PlanFault::LateRate);
        }
        let known = held.commission_taxes.list().len();
        if has_tax_begun(lists.commission_taxes.list(), known, self.day) {
            return Err(PlanFault::LateRate);
        }
        Ok(())
    }

    /// Whether terms are published, and the lists have no entry that the plan has not.
    fn holds(&self, lists: &Lists) -> bool
        ensures { result ≡ (has_terms self.now.terms
            && (is_empty (drop (length self.now.airlines) lists.now.airlines)
            && (is_empty (drop (length self.now.rates) lists.now.rates) && (is_empty (drop (length self.now.periods) lists.now.periods)
            && is_empty (drop (length self.now.commission_taxes) lists.now.commission_taxes))))) }
    {
        let held = &self.lists;
        self.terms.is_some()
            && has_none_beyond(lists.airlines.list(), held.airlines.list().len())
            && has_none_beyond(lists.rates.list(), held.rates.list().len())
            && has_none_beyond(lists.periods.list(), held.periods.list().len())
            && has_none_beyond(
                lists.commission_taxes.list(),
                held.commission_taxes.list().len(),
            )
    }

    /// Sets the business day. `Held` where it is the business day already.
    ///
    /// # Errors
    ///
    /// `DayBackwards` where it is before the business day. The plan is then as it was.
    pub fn set_day(&mut self, day: Day) -> Result<Change, PlanFault>
        ensures answers { Answers (on_day self.old day) (same_day self.old.day day) self.old result self.new }
        ensures held { result ≡ Ok Change.Held → self.new ≡ self.old }
        ensures entries { HasSameEntries self.old self.new }
    {
        if is_before(day, self.day) {
            return Err(PlanFault::DayBackwards);
        }
        if day == self.day {
            return Ok(Change::Held);
        }
        self.day = day;
        Ok(Change::Done)
    }

    /// Closes the period of a code. `Held` where it is closed already.
    ///
    /// # Errors
    ///
    /// The first of `NotEarliest` (it is not the earliest unclosed period) and `NotOver` (the business
    /// day is not after its last day) that applies. The plan is then as it was.
    pub fn close_next(&mut self, code: PeriodCode) -> Result<Change, PlanFault>
        ensures answers { Answers (closing self.old code) (is_closed self.old code) self.old result self.new }
        ensures held { result ≡ Ok Change.Held → self.new ≡ self.old }
        ensures entries { HasSameEntries self.old self.new }
    {
        let Some(place) = period_place(&self.lists.periods, code) else {
            return Err(PlanFault::NotEarliest);
        };
        if place < self.closed {
            return Ok(Change::Held);
        }
        if place > self.closed {
            return Err(PlanFault::NotEarliest);
        }
        if !is_before(self.lists.periods.list()[place].last, self.day) {
            return Err(PlanFault::NotOver);
        }
        self.closed += 1;
        Ok(Change::Done)
    }

    /// Puts back the business day, and how many of the first periods are closed, as they were before.
    /// The entries stay.
    pub fn put_back(&mut self, day: Day, closed: usize)
        requires within { closed ≤ length self.old.periods }
        requires sound { IsSoundPlan (dated self.old day closed) }
        ensures { self.new ≡ dated self.old day closed }
    {
        self.day = day;
        self.closed = closed;
    }
}
