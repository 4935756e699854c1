//! The period that takes a transaction.

ghost use Rattle.std.specs.Prelude.{◌≡◌, IfSome};
ghost use Rattle.std.specs.List.Sorted.{IsPartitionedBy};
ghost use Rattle.bsp_calendar.specs.Published.{IsTarget, target_of};
ghost use Rattle.bsp_calendar.specs.Standing.{IsFirstNotOver, ends_before};

use crate::days::{is_before, is_up_to};
use crate::entries::Period;
use crate::plan::Plan;
use bsp_fields::{Day, PeriodCode};

/// The place of the first period that does not end before a day, or how many there are.
fn first_not_over(periods: &[Period], day: Day) -> usize
    requires { IsPartitionedBy (ends_before day) periods.now }
    ensures { IsFirstNotOver day periods.now result }
{
    periods.partition_point(|period| is_before(period.last, day))
}

impl Plan {
    /// The earliest unclosed period whose last day is not before the date of issue and whose first day
    /// is not after the business day.
    pub fn target(&self, issued: Day) -> Option<PeriodCode>
        ensures value { result ≡ target_of self.now issued }
        ensures is_target { IfSome result (IsTarget self.now issued) }
    {
        let periods = self.lists.periods.list();
        let place = first_not_over(periods, issued).max(self.closed);
        let period = periods.get(place)?;
        if is_up_to(period.first, self.day) {
            Some(period.code)
        } else {
            None
        }
    }
}
