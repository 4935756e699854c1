//! The entries of a plan text: terms, rates, taxes on commission and periods.

use crate::currency::Currency;
use bsp_fields::{AirlineCode, Day, PeriodCode};

/// What holds for the whole market.
#[derive(Clone, Copy, PartialEq, Eq, Drop)]
pub struct Terms {
    /// The currency of every amount.
    pub currency: Currency,
    /// The days in which an agent may dispute a memo, 1 to 60.
    pub review_days: u8,
    /// The most accepted transactions of an agent, an airline and a period, 1 to 1,000,000.
    pub documents_limit: u32,
}

/// An airline's rate of commission from a day on.
#[derive(Clone, Copy, PartialEq, Eq, Drop)]
pub struct Rate {
    /// The airline that pays it.
    pub airline: AirlineCode,
    /// The first day on which it holds.
    pub from: Day,
    /// The rate in hundredths of a percent, 0 to 10,000.
    pub hundredths: u16,
}

/// The tax on commission from a day on.
#[derive(Clone, Copy, PartialEq, Eq, Drop)]
pub struct CommissionTax {
    /// The first day on which it holds.
    pub from: Day,
    /// The part of a commission in hundredths of a percent, 0 to 10,000.
    pub hundredths: u16,
}

/// A billing period.
#[derive(Clone, Copy, PartialEq, Eq, Drop)]
pub struct Period {
    /// Its code.
    pub code: PeriodCode,
    /// Its first day.
    pub first: Day,
    /// Its last day.
    pub last: Day,
    /// The day of remittance, after the last day.
    pub remittance: Day,
}

/// The entries of a plan text, each list in the order of the text.
#[derive(Drop)]
pub struct PlanText {
    /// Currency, review days and documents limit.
    pub terms: Terms,
    /// The airlines of the market.
    pub airlines: Vec<AirlineCode>,
    /// Rates of commission.
    pub rates: Vec<Rate>,
    /// Billing periods.
    pub periods: Vec<Period>,
    /// Taxes on commission.
    pub commission_taxes: Vec<CommissionTax>,
}
