//! The fields of a memo, as a store keeps them.

use crate::kind::MemoKind;
use crate::reason::Reason;
use crate::state::MemoState;
use bsp_fields::{AgentCode, AirlineCode, Amount, Day, DocNumber, PeriodCode};

/// The fields of a memo, as a store keeps them; nothing says that they fit together.
#[derive(Clone, Copy, PartialEq, Eq)]
pub struct MemoFields {
    /// The airline that issued it; with `document` its key.
    pub airline: AirlineCode,
    /// Its document number.
    pub document: DocNumber,
    /// The agent to whom it was issued.
    pub agent: AgentCode,
    /// Debit or credit.
    pub kind: MemoKind,
    /// The amount, after a reduction the new one.
    pub amount: Amount,
    /// The amount as issued.
    pub issued_amount: Amount,
    /// Why it was issued.
    pub reason: Reason,
    /// The business day of the issue.
    pub issued: Day,
    /// How far it has come.
    pub state: MemoState,
    /// The period in which it was billed.
    pub billed: Option<PeriodCode>,
}

impl MemoFields {
    ghost use Rattle.std.specs.Prelude.{◌≡◌};
    ghost use Rattle.bsp_memos.specs.Memos.{amount_fits, is_memo};
    ghost use Rattle.bsp_memos.specs.Owed.{amount_owed, is_billed_in};

    /// What the agent owes the airline by it, in minor units: the amount of a debit memo, and minus the
    /// amount of a credit memo.
    pub fn amount_owed(&self) -> Amount
        ensures { result ≡ amount_owed self.now.kind self.now.amount }
    {
        match self.kind {
            MemoKind::Debit => self.amount,
            MemoKind::Credit => match Amount::new(-self.amount.get()) {
                Ok(amount) => amount,
                Err(_) => unreachable!(),
            },
        }
    }

    /// Whether it is billed in the period.
    pub fn is_billed_in(&self, period: PeriodCode) -> bool
        ensures { result ≡ is_billed_in period self.now }
    {
        match self.billed {
            Some(other) => other == period,
            None => false,
        }
    }

    /// Whether the amounts are in range and fit the state.
    fn amount_fits(&self) -> bool
        ensures { result ≡ amount_fits self.now }
    {
        let amount = self.amount.get();
        let issued_amount = self.issued_amount.get();
        amount >= 1
            && match self.state {
                MemoState::Reduced => amount < issued_amount,
                _ => amount == issued_amount,
            }
    }

    /// Whether they are the fields of a memo.
    pub(crate) fn fit_together(&self) -> bool
        ensures { result ≡ is_memo self.now }
    {
        self.amount_fits()
            && (self.kind == MemoKind::Debit || self.state == MemoState::Open)
            && (self.billed.is_none() || self.state.may_be_billed())
    }
}
