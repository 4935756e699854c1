//! Why an issue of a memo or an action is refused: M01 to M08.

ghost use Rattle.std.specs.Prelude.{◌≡◌};
ghost use Rattle.bsp_memos.specs.Texts.{fault_text};

use std::error::Error;
use std::fmt;

/// Why an issue of a memo or an action on one is refused. Of several, an issue answers the first of
/// M08, M04, M05, M07, and an action the first of M01, M06, M03, M02, M04.
#[derive(Clone, Copy, Debug, PartialEq, Eq)]
pub enum MemoFault {
    /// The caller has no such memo.
    NoSuchMemo,
    /// The agent's time to dispute or agree is over, or the memo is billed.
    ReviewOver,
    /// The state of the memo does not allow the action.
    StateForbids,
    /// The amount is not from 1 to the largest that is allowed here.
    AmountOutOfRange,
    /// The airline used the document number for a memo with other content.
    OtherContent,
    /// A credit memo allows no action.
    CreditMemo,
    /// The airline has as many memos to the agent as the documents limit allows.
    LimitReached,
    /// The agent is not registered.
    AgentNotRegistered,
}

impl MemoFault {
    /// The code of the fault, `M01` to `M08`.
    pub fn code(self) -> &'static str
        ensures { result.now ≡ fault_text self }
    {
        match self {
            MemoFault::NoSuchMemo => "M01",
            MemoFault::ReviewOver => "M02",
            MemoFault::StateForbids => "M03",
            MemoFault::AmountOutOfRange => "M04",
            MemoFault::OtherContent => "M05",
            MemoFault::CreditMemo => "M06",
            MemoFault::LimitReached => "M07",
            MemoFault::AgentNotRegistered => "M08",
        }
    }

    fn text(self) -> &'static str {
        match self {
            MemoFault::NoSuchMemo => "M01: no such memo of this caller",
            MemoFault::ReviewOver => "M02: the review is over",
            MemoFault::StateForbids => "M03: the state does not allow it",
            MemoFault::AmountOutOfRange => "M04: the amount is out of range",
            MemoFault::OtherContent => "M05: the number is used with other content",
            MemoFault::CreditMemo => "M06: a credit memo",
            MemoFault::LimitReached => "M07: the documents limit is reached",
            MemoFault::AgentNotRegistered => "M08: the agent is not registered",
        }
    }
}

impl fmt::Display for MemoFault {
    fn fmt<W: fmt::Write>(&self, f: &mut fmt::Formatter<W>) -> fmt::Result {
        f.write_str(self.text())
    }
}

impl Error for MemoFault {}
