//! The rates, the taxes on commission, the airlines and the terms of a plan, and its business day.

ghost use Rattle.std.specs.Prelude.{◌≡◌, ◌≤◌};
ghost use Rattle.bsp_calendar.specs.Published.{IsLatestRate, IsLatestTax, commission_tax_on, has_airline, is_taxed, rate_on};

use crate::checks::has_tax_begun;
use crate::entries::{Period, Terms};
use crate::keys::{has_airline, rate_key};
use crate::plan::Plan;
use crate::taxes::day_key;
use bsp_fields::{AirlineCode, Day};

impl Plan {
    /// The rate of an airline on a day, in hundredths of a percent. It is that of the airline's
    /// entry with the latest first day not after the day, and 0 where there is none.
    pub fn rate(&self, airline: AirlineCode, day: Day) -> u16
        ensures value { result ≡ rate_on self.now airline day }
        ensures latest { IsLatestRate self.now.rates airline day result }
    {
        match self.lists.rates.last_up_to(rate_key(airline, day)) {
            Some(rate) if rate.airline == airline => rate.hundredths,
            _ => 0,
        }
    }

    /// The tax on commission on a day, in hundredths of a percent of the commission. It is that of the
    /// entry with the latest first day not after the day, and 0 where there is none.
    pub fn commission_tax(&self, day: Day) -> u16
        ensures value { result ≡ commission_tax_on self.now day }
        ensures latest { IsLatestTax self.now.commission_taxes day result }
        ensures bound { result ≤ 10_000 }
    {
        match self.lists.commission_taxes.last_up_to(day_key(day)) {
            Some(tax) => tax.hundredths,
            None => 0,
        }
    }

    /// Whether a tax on commission has begun by the last day of a period. The reports of such a period
    /// have form 2, and those of another form 1. A closed period keeps its form (`closed_stays`).
    pub fn is_taxed(&self, period: &Period) -> bool
        ensures { result ≡ is_taxed self.now period.now }
    {
        has_tax_begun(self.lists.commission_taxes.list(), 0, period.last)
    }

    /// Whether the airline is published.
    pub fn has_airline(&self, airline: AirlineCode) -> bool
        ensures { result ≡ has_airline self.now airline }
    {
        has_airline(&self.lists.airlines, airline)
    }

    /// Currency, review days and documents limit, once they are published.
    pub fn terms(&self) -> Option<Terms>
        ensures { result ≡ self.now.terms }
    {
        self.terms
    }

    /// The business day.
    pub fn day(&self) -> Day
        ensures { result ≡ self.now.day }
    {
        self.day
    }
}
