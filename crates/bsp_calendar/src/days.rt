//! Days in order.

ghost use Rattle.std.specs.Prelude.{◌≡◌};
ghost use Rattle.bsp_calendar.specs.DayOrder.{is_up_to, is_before, is_next_day};

use bsp_fields::Day;

/// Whether a day is not after another.
pub(crate) fn is_up_to(a: Day, b: Day) -> bool
    ensures { result ≡ is_up_to a b }
{
    a.number() <= b.number()
}

/// Whether a day is before another.
pub(crate) fn is_before(a: Day, b: Day) -> bool
    ensures { result ≡ is_before a b }
{
    a.number() < b.number()
}

/// Whether a day is the one after another.
pub(crate) fn is_next_day(a: Day, b: Day) -> bool
    ensures { result ≡ is_next_day a b }
{
    b.number() == a.number() + 1
}
