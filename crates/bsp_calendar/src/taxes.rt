//! Taxes on commission by their first days.

ghost use Rattle.std.specs.Prelude.{◌≡◌, ◌++◌, IsTrue};
ghost use Rattle.bsp_fields.specs.CivilDay.{is_day};
ghost use Rattle.bsp_calendar.specs.Listed.{IsJoined};
ghost use Rattle.bsp_calendar.specs.Requests.{differ_in_tax, same_tax};

use crate::entries::CommissionTax;
use crate::fault::PlanFault;
use crate::listed::{Entry, Listed};
use bsp_fields::Day;
use std::alloc::Global;

/// A tax on commission has its first day as its key.
impl Entry<Day> for CommissionTax {
    ghost use Rattle.bsp_calendar.specs.Requests.{differ_in_tax};
    ghost use Rattle.bsp_calendar.specs.KeyLaws.{alike_taxes, tax_itself};
    ghost use Rattle.std.specs.Prelude.{IsTrue};
    ghost use Rattle.bsp_fields.specs.CivilDay.{is_day};

    ghost key_of = { λ tax. tax.from };

    ghost valid = { λ tax. IsTrue (is_day tax.from) };

    ghost differ = { differ_in_tax };

    ghost alike = { alike_taxes };

    ghost itself = { tax_itself };

    fn key(&self) -> Day {
        day_key(self.from)
    }

    fn differs_from(&self, other: &CommissionTax) -> bool {
        self.hundredths != other.hundredths
    }
}

/// The same day. It is one of the calendar, whose days are in the order of their numbers.
pub(crate) fn day_key(from: Day) -> Day
    ensures key { result ≡ from }
    ensures civil { IsTrue (is_day from) }
{
    // What the number's contract says of the day is all that is asked for.
    let _number = from.number();
    from
}

/// Taxes on commission, one of a first day.
pub(crate) type Taxes = Listed<Day, CommissionTax>;

/// Taxes on commission and more, each once.
pub(crate) fn join_taxes(
    alloc: Global,
    taxes: &Taxes,
    more: &[CommissionTax],
) -> Result<Taxes, PlanFault>
    ensures { IsJoined same_tax differ_in_tax (taxes.now ++ more.now) result }
{
    taxes.joined(alloc, more)
}
