//! A memo and what is done about it.

use crate::amounts::issued_amount;
use crate::fault::MemoFault;
use crate::fields::MemoFields;
use crate::kind::MemoKind;
use crate::reason::Reason;
use crate::state::MemoState;
use bsp_fields::{AgentCode, AirlineCode, Amount, Day, DocNumber, PeriodCode};
use std::marker::Model;

/// A debit or credit memo: fields that fit together. A contract sees it as its fields.
///
/// Its amount is from 1 to 99,999,999,999 minor units; it is the amount as issued, or below it once
/// the memo is reduced. A credit memo stays open. A billed memo is neither disputed nor withdrawn.
#[derive(Clone, Copy, PartialEq, Eq)]
pub struct Memo {
    pub(crate) fields: MemoFields,
}

impl Model for Memo {
    ghost use Rattle.std.specs.Prelude.{IsTrue};
    ghost use Rattle.bsp_memos.specs.declared.fields.MemoFields.{MemoFields as Fields};
    ghost use Rattle.bsp_memos.specs.Memos.{is_memo};

    ghost Value = { Fields };

    ghost view = { λ memo. memo.fields };

    ghost inverse = { λ fields. record { fields = fields } };

    ghost invariant = { λ memo. IsTrue (is_memo memo.fields) };
}

impl Memo {
    ghost use Rattle.std.specs.Bool.{Decides};
    ghost use Rattle.std.specs.Prelude.{◌≡◌, ◌==◌, ◌&&◌, IsTrue, not, Some, None, if◌then◌else◌, [], ◌∷◌};
    ghost use Rattle.std.specs.Ordering.{int_eq};
    ghost use Rattle.std.specs.Str.{bytes_eq};
    ghost use Rattle.bsp_fields.specs.FirstFault.{first_fault_or};
    ghost use Rattle.bsp_memos.specs.Memos.{is_memo, is_amount, issued_memo, same_kind, is_same_issue, IsSameIssue};

    /// The memo that an airline issues to an agent on a business day. It is open and not billed.
    ///
    /// # Errors
    ///
    /// `AmountOutOfRange` where the amount is not from 1 to 99,999,999,999 minor units.
    pub fn issue(
        airline: AirlineCode,
        document: DocNumber,
        agent: AgentCode,
        kind: MemoKind,
        amount: i64,
        reason: Reason,
        issued: Day,
    ) -> Result<Memo, MemoFault>
        ensures { result ≡ first_fault_or
            ((not (is_amount amount), MemoFault.AmountOutOfRange) ∷ [])
            (issued_memo airline document agent kind amount reason issued) }
    {
        let amount = issued_amount(amount)?;
        let fields = MemoFields {
            airline,
            document,
            agent,
            kind,
            amount,
            issued_amount: amount,
            reason,
            issued,
            state: MemoState::Open,
            billed: None,
        };
        Ok(Memo { fields })
    }

    /// The memo with these fields, where they fit together, and else none.
    pub fn restore(fields: MemoFields) -> Option<Memo>
        ensures { result ≡ (if is_memo fields then Some fields else None) }
    {
        if fields.fit_together() {
            Some(Memo { fields })
        } else {
            None
        }
    }

    /// The fields.
    pub fn fields(&self) -> &MemoFields
        ensures value { result.now ≡ self.now }
        ensures fit { IsTrue (is_memo result.now) }
    {
        &self.fields
    }

    /// Whether agent and kind are the same.
    fn has_same_parties(&self, other: &Memo) -> bool
        ensures { result ≡ ((self.now.agent == other.now.agent) && same_kind self.now.kind other.now.kind) }
    {
        self.fields.agent == other.fields.agent && self.fields.kind == other.fields.kind
    }

    /// Whether reason and the amount as issued are the same.
    fn has_same_claim(&self, other: &Memo) -> bool
        ensures { result ≡ (bytes_eq self.now.reason other.now.reason && int_eq self.now.issued_amount other.now.issued_amount) }
    {
        self.fields.reason == other.fields.reason
            && self.fields.issued_amount == other.fields.issued_amount
    }

    /// Whether another issue under the same airline and document number is that of this memo: agent,
    /// kind, reason and the amount as issued are the same. Day and state are not compared.
    pub fn is_same_issue(&self, other: &Memo) -> bool
        ensures value { result ≡ is_same_issue self.now other.now }
        ensures same { Decides result (IsSameIssue self.now other.now) }
    {
        self.has_same_parties(other) && self.has_same_claim(other)
    }
}
