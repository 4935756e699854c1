//! The keys of the rows.

ghost use Rattle.std.specs.Prelude.{◌≡◌, SomeIff};
ghost use Rattle.bsp_rules.specs.Rows.{is_canx};
ghost use Rattle.bsp_rows.specs.Rows.{HasNumberKey, canx_of, key_of, memo_key, range_key, range_of, sale_of};
ghost use Rattle.bsp_rows.specs.Tallies.{item_tally_key, memo_tally_key};

use bsp_fields::{AgentCode, AirlineCode, DocNumber, PeriodCode};
use bsp_memos::MemoFields;
use bsp_ret_records::TransactionCode;
use bsp_rules::{Item, Range};

/// The key of a range: its agent and its first number.
#[derive(Clone, Copy, PartialEq, Eq, PartialOrd, Ord, Drop)]
pub struct RangeKey {
    /// The agent whose stock it is.
    pub agent: AgentCode,
    /// Its first number.
    pub first: DocNumber,
}

/// The key of an item: its agent, its number, and whether it is a CANX. So an agent has at most one TKTT
/// or RFND and at most one CANX of a number, and the CANX comes second in order.
#[derive(Clone, Copy, PartialEq, Eq, PartialOrd, Ord, Drop)]
pub struct ItemKey {
    /// The agent that it bears.
    pub agent: AgentCode,
    /// Its number.
    pub number: DocNumber,
    /// Whether it is a CANX.
    pub is_canx: bool,
}

/// The key of a memo: its airline and its document number.
#[derive(Clone, Copy, PartialEq, Eq, PartialOrd, Ord, Drop)]
pub struct MemoKey {
    /// The airline that issued it.
    pub airline: AirlineCode,
    /// Its document number.
    pub document: DocNumber,
}

/// The key of a tally: its agent, its airline and its period.
#[derive(Clone, Copy, PartialEq, Eq, PartialOrd, Ord, Drop)]
pub struct TallyKey {
    /// The agent.
    pub agent: AgentCode,
    /// The airline.
    pub airline: AirlineCode,
    /// The period.
    pub period: PeriodCode,
}

/// Whether an item is a CANX.
pub(crate) fn is_canx(item: &Item) -> bool
    ensures { result ≡ is_canx item.now }
{
    item.transaction.code == TransactionCode::Canx
}

impl RangeKey {
    /// The key of an agent's range.
    pub fn of(agent: AgentCode, range: &Range) -> RangeKey
        ensures { result ≡ range_key agent range.now }
    {
        RangeKey {
            agent,
            first: range.first,
        }
    }

    /// The range of the key, up to its last number.
    pub fn up_to(self, last: DocNumber) -> Range
        ensures { result ≡ range_of (self, last) }
    {
        Range {
            first: self.first,
            last,
        }
    }
}

impl ItemKey {
    /// The key of an item; none where its number is not ten digits with their check digit.
    pub fn of(item: &Item) -> Option<ItemKey>
        ensures { SomeIff result (HasNumberKey item.now) (key_of item.now) }
    {
        let document = &item.transaction.document;
        let Ok(number) = DocNumber::read(&document.number, document.check_digit) else {
            return None;
        };
        Some(ItemKey {
            agent: item.agent,
            number,
            is_canx: is_canx(item),
        })
    }

    /// The key of the TKTT or RFND of its number.
    pub fn sale(self) -> ItemKey
        ensures { result ≡ sale_of self }
    {
        ItemKey {
            agent: self.agent,
            number: self.number,
            is_canx: false,
        }
    }

    /// The key of the CANX of its number.
    pub fn canx(self) -> ItemKey
        ensures { result ≡ canx_of self }
    {
        ItemKey {
            agent: self.agent,
            number: self.number,
            is_canx: true,
        }
    }
}

impl MemoKey {
    /// The key of a memo.
    pub fn of(memo: &MemoFields) -> MemoKey
        ensures { result ≡ memo_key memo.now }
    {
        MemoKey {
            airline: memo.airline,
            document: memo.document,
        }
    }
}

impl TallyKey {
    /// The key of the tally that an item adds to.
    pub fn of_item(item: &Item) -> TallyKey
        ensures { result ≡ item_tally_key item.now }
    {
        TallyKey {
            agent: item.agent,
            airline: item.transaction.document.airline,
            period: item.period,
        }
    }

    /// The key of the tally that a memo adds to; none while it is not billed.
    pub fn of_memo(memo: &MemoFields) -> Option<TallyKey>
        ensures { result ≡ memo_tally_key memo.now }
    {
        Some(TallyKey {
            agent: memo.agent,
            airline: memo.airline,
            period: memo.billed?,
        })
    }
}
