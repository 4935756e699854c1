//! What a call came to.

ghost use Rattle.std.specs.Prelude.{◌≡◌};
ghost use Rattle.bsp_messages.specs.Answers.{state_text};

use crate::refusal::RequestRefusal;
use bsp_fields::{Change, PeriodCode};
use bsp_memos::MemoFields;
use bsp_ret::RetFault;
use bsp_rules::{Item, Range, Verdict};

/// What became of a document.
#[derive(Clone, Copy)]
pub enum DocumentState {
    /// It is neither cancelled nor related to.
    Alive,
    /// A living refund relates to it.
    Refunded,
    /// A living exchange relates to it.
    Exchanged,
    /// It is cancelled, or a CANX without a document.
    Cancelled,
}

impl DocumentState {
    /// The word for the state: `alive`, `refunded`, `exchanged` or `cancelled`.
    pub fn word(self) -> &'static str
        ensures { result.now ≡ state_text self }
    {
        match self {
            DocumentState::Alive => "alive",
            DocumentState::Refunded => "refunded",
            DocumentState::Exchanged => "exchanged",
            DocumentState::Cancelled => "cancelled",
        }
    }
}

/// A document of an agent: the TKTT or RFND of its number, else its CANX.
#[derive(Clone, Copy)]
pub struct DocumentShown {
    /// The transaction as it was accepted; an amount that it does not have is given as 0.
    pub item: Item,
    /// What became of it.
    pub state: DocumentState,
}

/// A period of an agent.
#[derive(Clone, Copy)]
pub struct PeriodShown {
    /// Whether it is closed.
    pub closed: bool,
    /// How many living TKTT and RFND the agent has in it.
    pub documents: u64,
    /// What the agent owes for it in minor units: cash less commission less the tax on it, and billed memos.
    pub net: i128,
    /// Its code.
    pub period: PeriodCode,
}

/// A range of an agent's stock.
#[derive(Clone, Copy)]
pub struct RangeShown {
    /// The range.
    pub range: Range,
    /// How many of its numbers have an accepted transaction.
    pub used: u64,
}

/// What a request is answered.
#[derive(Drop)]
pub enum Answer {
    /// 200: a change is done, or held, that is, it was done before.
    Changed(Change),
    /// 200: the verdicts on the transactions of a RET file, in its order.
    Verdicts(Vec<Verdict>),
    /// 200: a document.
    Document(DocumentShown),
    /// 200: a period.
    Period(PeriodShown),
    /// 200: the ranges of an agent's stock, rising.
    Ranges(Vec<RangeShown>),
    /// 200: memos, rising by airline and document.
    Memos(Vec<MemoFields>),
    /// 200: the text of a statement or a settlement.
    Report(String),
    /// 200: a HOT file.
    Hot(Vec<u8>),
    /// 422: the first fault of a RET file; out of memory, F10, is 503 B01.
    FileFault(RetFault),
    /// Any other refusal.
    Refused(RequestRefusal),
}
