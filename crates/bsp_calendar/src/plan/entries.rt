//! All entries of a plan, for a store of them, and the rules that they meet.

ghost use Rattle.std.specs.Prelude.{◌≡◌, length};
ghost use Rattle.bsp_calendar.specs.SoundPlan.{IsSoundPlan};

use crate::entries::{CommissionTax, Period, Rate};
use crate::plan::Plan;
use bsp_fields::AirlineCode;

impl Plan {
    /// The airlines, in the order of their first publication.
    pub fn airlines(&self) -> &[AirlineCode]
        ensures { result.now ≡ self.now.airlines }
    {
        self.lists.airlines.list()
    }

    /// The rates, in the order of their first publication.
    pub fn rates(&self) -> &[Rate]
        ensures { result.now ≡ self.now.rates }
    {
        self.lists.rates.list()
    }

    /// The periods, in the order of their first publication, which is that of their days.
    pub fn periods(&self) -> &[Period]
        ensures { result.now ≡ self.now.periods }
    {
        self.lists.periods.list()
    }

    /// The taxes on commission, in the order of their first publication.
    pub fn commission_taxes(&self) -> &[CommissionTax]
        ensures { result.now ≡ self.now.commission_taxes }
    {
        self.lists.commission_taxes.list()
    }

    /// How many periods are closed. They are the first of `periods`.
    pub fn closed_count(&self) -> usize
        ensures { result ≡ length self.now.closed }
    {
        self.closed
    }

    /// Every plan meets the rules of a plan.
    pub fn meets_rules(&self)
        ensures { IsSoundPlan self.now }
    {
        // The proof knows the invariant of a struct where one of its fields is read.
        let _day = &self.day;
    }
}
