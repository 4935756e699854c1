//! The rows of an agent that a verdict reads.

ghost use Rattle.std.specs.Prelude.{◌≡◌};
ghost use Rattle.bsp_rules.specs.Nets.{lives_in};

use bsp_fields::{AgentCode, Amount, DocNumber, PeriodCode};
use bsp_ret_records::Transaction;

/// A transaction as it was accepted.
#[derive(Clone, Copy, PartialEq, Eq)]
pub struct Item {
    /// The agent that it bears.
    pub agent: AgentCode,
    /// The period in which it was accepted.
    pub period: PeriodCode,
    /// Its content.
    pub transaction: Transaction,
    /// Whether it lives: no CANX of its number has been accepted. A CANX itself always lives.
    pub lives: bool,
    /// The tax on its commission, and 0 of a CANX.
    pub tax: Amount,
    /// The hundredths of a percent, 0 to 10,000, that were taken for the tax, and 0 of a CANX.
    pub hundredths: u16,
}

impl Item {
    /// Whether it lives and was accepted in the period.
    pub fn lives_in(&self, period: PeriodCode) -> bool
        ensures { result ≡ lives_in period self.now }
    {
        self.lives && self.period == period
    }
}

/// A range of an agent's stock, both ends included.
#[derive(Clone, Copy, PartialEq, Eq)]
pub struct Range {
    /// The first document number.
    pub first: DocNumber,
    /// The last document number.
    pub last: DocNumber,
}
