//! The keys of the plan's entries.

ghost use Rattle.std.specs.Prelude.{◌≡◌, ◌++◌, IsTrue, MatchResult};
ghost use Rattle.bsp_fields.specs.CivilDay.{is_day};
ghost use Rattle.bsp_calendar.specs.Listed.{IsJoined};
ghost use Rattle.bsp_calendar.specs.Published.{is_among};
ghost use Rattle.bsp_calendar.specs.Requests.{differ_in_days, differ_in_rate, once, same_airline, same_period, same_rate};
ghost use Rattle.bsp_calendar.specs.Standing.{IsPlaceOf};

use crate::entries::{Period, Rate};
use crate::fault::PlanFault;
use crate::listed::{Entry, Listed};
use bsp_fields::{AirlineCode, Day, PeriodCode};
use std::alloc::Global;

/// An airline is its own key, and two of one key never differ.
impl Entry<AirlineCode> for AirlineCode {
    ghost use Rattle.std.specs.Prelude.{false};

    ghost key_of = { λ airline. airline };

    ghost differ = { λ _ _. false };

    ghost use Rattle.std.specs.Prelude.{refl};
    ghost use Rattle.bsp_calendar.specs.KeyLaws.{alike_airlines};

    ghost alike = { λ x y one _. alike_airlines x y one };

    ghost itself = { λ _. refl };

    fn key(&self) -> AirlineCode {
        *self
    }

    fn differs_from(&self, _other: &AirlineCode) -> bool {
        false
    }
}

/// A rate's key is its airline and its first day.
impl Entry<(AirlineCode, Day)> for Rate {
    ghost use Rattle.bsp_calendar.specs.Requests.{differ_in_rate};
    ghost use Rattle.bsp_calendar.specs.KeyLaws.{alike_rates, rate_itself};
    ghost use Rattle.std.specs.Prelude.{IsTrue};
    ghost use Rattle.bsp_fields.specs.CivilDay.{is_day};

    ghost key_of = { λ rate. (rate.airline, rate.from) };

    ghost valid = { λ rate. IsTrue (is_day rate.from) };

    ghost differ = { differ_in_rate };

    ghost alike = { alike_rates };

    ghost itself = { rate_itself };

    fn key(&self) -> (AirlineCode, Day) {
        rate_key(self.airline, self.from)
    }

    fn differs_from(&self, other: &Rate) -> bool {
        self.hundredths != other.hundredths
    }
}

/// The key of a rate. The day is one of the calendar, whose days are in the order of their numbers.
pub(crate) fn rate_key(airline: AirlineCode, from: Day) -> (AirlineCode, Day)
    ensures key { result ≡ (airline, from) }
    ensures civil { IsTrue (is_day from) }
{
    // What the number's contract says of the day is all that is asked for.
    let _number = from.number();
    (airline, from)
}

/// A period's key is its code.
impl Entry<PeriodCode> for Period {
    ghost use Rattle.bsp_calendar.specs.Requests.{differ_in_days};
    ghost use Rattle.bsp_calendar.specs.KeyLaws.{alike_periods, period_itself};

    ghost key_of = { λ period. period.code };

    ghost differ = { differ_in_days };

    ghost alike = { alike_periods };

    ghost itself = { period_itself };

    fn key(&self) -> PeriodCode {
        self.code
    }

    fn differs_from(&self, other: &Period) -> bool {
        (self.first, self.last, self.remittance) != (other.first, other.last, other.remittance)
    }
}

/// Airlines, each once.
pub(crate) type Airlines = Listed<AirlineCode, AirlineCode>;

/// Rates, one of an airline and a first day.
pub(crate) type Rates = Listed<(AirlineCode, Day), Rate>;

/// Periods, one of a code.
pub(crate) type Periods = Listed<PeriodCode, Period>;

/// Whether the airline is one of them.
pub(crate) fn has_airline(airlines: &Airlines, airline: AirlineCode) -> bool
    ensures { result ≡ is_among airline airlines.now }
{
    airlines.place_of(airline).is_some()
}

/// The place of the period of a code.
pub(crate) fn period_place(periods: &Periods, code: PeriodCode) -> Option<usize>
    ensures { IsPlaceOf periods.now code result }
{
    periods.place_of(code)
}

/// Airlines and more, each once.
pub(crate) fn join_airlines(
    alloc: Global,
    airlines: &Airlines,
    more: &[AirlineCode],
) -> Result<Airlines, PlanFault>
    ensures { MatchResult result (λ all. all ≡ once same_airline (airlines.now ++ more.now)) (λ fault. fault ≡ PlanFault.NoMemory) }
{
    airlines.joined(alloc, more)
}

/// Rates and more, each once.
pub(crate) fn join_rates(alloc: Global, rates: &Rates, more: &[Rate]) -> Result<Rates, PlanFault>
    ensures { IsJoined same_rate differ_in_rate (rates.now ++ more.now) result }
{
    rates.joined(alloc, more)
}

/// Periods and more, each once.
pub(crate) fn join_periods(
    alloc: Global,
    periods: &Periods,
    more: &[Period],
) -> Result<Periods, PlanFault>
    ensures { IsJoined same_period differ_in_days (periods.now ++ more.now) result }
{
    periods.joined(alloc, more)
}
