//! The period of a code.

ghost use Rattle.std.specs.Prelude.{◌≡◌, IfSome, IsSome, option_map};
ghost use Rattle.bsp_calendar.specs.Published.{IsClosedWithTerms, closed_period, is_closed, period_of};

use crate::entries::{Period, Terms};
use crate::keys::period_place;
use crate::plan::Plan;
use bsp_fields::PeriodCode;

impl Plan {
    /// The period of a code, and whether it is closed.
    pub fn period(&self, code: PeriodCode) -> Option<(Period, bool)>
        ensures { result ≡ option_map (λ q. (q, is_closed self.now code)) (period_of self.now code) }
    {
        let place = period_place(&self.lists.periods, code)?;
        Some((self.lists.periods.list()[place], place < self.closed))
    }

    /// The period of a code, where it is published and closed. Terms are then published too.
    pub fn closed_period(&self, code: PeriodCode) -> Option<Period>
        ensures value { result ≡ closed_period self.now code }
        ensures terms { IfSome result (λ _. IsSome self.now.terms) }
    {
        match period_place(&self.lists.periods, code) {
            Some(place) if place < self.closed => Some(self.lists.periods.list()[place]),
            _ => None,
        }
    }

    /// The period of a code and the published terms, where the period is published and closed.
    pub fn closed_with_terms(&self, code: PeriodCode) -> Option<(Period, Terms)>
        ensures { IsClosedWithTerms self.now code result }
    {
        let period = self.closed_period(code)?;
        let terms = self.terms()?;
        Some((period, terms))
    }
}
