//! Keys of the tables, and windows of keys.

ghost use Rattle.std.specs.Prelude.{◌≡◌, ◌==◌};
ghost use Rattle.bsp_memory_tables.specs.Numbers.{is_of_number, number_key};
ghost use Rattle.bsp_memory_tables.specs.Windows.{first_at, first_item, first_memo, first_range, first_tally, first_within, is_within, items_from, items_together, memos_from, memos_together, numbers_from, numbers_together, ranges_from, ranges_together, tallies_from, tallies_together, within_from, within_together};

use bsp_maps::Window;
use bsp_rows::{
    AgentCode, AirlineCode, DocNumber, ItemKey, MemoKey, PeriodCode, Range, RangeKey, TallyKey,
};

/// A number that an item of an agent bears, as it was reported, and the item's key.
#[derive(Clone, Copy, PartialEq, Eq, PartialOrd, Ord)]
pub struct NumberKey {
    pub agent: AgentCode,
    pub number: [u8; 10],
    pub item: DocNumber,
    pub is_canx: bool,
}

impl NumberKey {
    /// The key of an item at a number.
    pub fn of(key: &ItemKey, number: &[u8; 10]) -> NumberKey
        ensures { result ≡ number_key key.now number.now }
    {
        NumberKey {
            agent: key.agent,
            number: *number,
            item: key.number,
            is_canx: key.is_canx,
        }
    }
}

/// The least document number.
fn least_number() -> DocNumber
    ensures { result ≡ 0 }
{
    let Ok(number) = DocNumber::read(b"0000000000", 0) else {
        unreachable!()
    };
    number
}

/// The least agent code.
fn least_agent() -> AgentCode
    ensures { result ≡ 0 }
{
    let Ok(code) = AgentCode::read(b"00000000") else {
        unreachable!()
    };
    code
}

/// The least airline code.
fn least_airline() -> AirlineCode
    ensures { result ≡ 0 }
{
    let Ok(code) = AirlineCode::read(b"000") else {
        unreachable!()
    };
    code
}

/// The least period code.
fn least_period() -> PeriodCode
    ensures { result ≡ 0 }
{
    let Ok(code) = PeriodCode::read(b"00000") else {
        unreachable!()
    };
    code
}

/// The least key of a range.
pub fn least_range() -> RangeKey
    ensures { result ≡ first_range 0 }
{
    RangesOf(least_agent()).low()
}

/// The least key of an item.
pub fn least_item() -> ItemKey
    ensures { result ≡ first_item 0 }
{
    ItemsOf(least_agent()).low()
}

/// The least key of a memo.
pub fn least_memo() -> MemoKey
    ensures { result ≡ first_memo 0 }
{
    MemosOf(least_airline()).low()
}

/// The least key of a tally.
pub fn least_tally() -> TallyKey
    ensures { result ≡ first_tally 0 }
{
    TalliesOf(least_agent()).low()
}

/// The items of an agent.
#[derive(Clone, Copy)]
pub struct ItemsOf(pub AgentCode);

impl Window<ItemKey> for ItemsOf {
    ghost low = { λ window. first_item window.0 };

    ghost has = { λ window key. key.agent == window.0 };

    ghost lowest = { λ window. items_from window.0 };

    ghost together = { λ window. items_together window.0 };

    fn low(&self) -> ItemKey {
        ItemKey {
            agent: self.0,
            number: least_number(),
            is_canx: false,
        }
    }

    fn has(&self, key: &ItemKey) -> bool {
        key.agent == self.0
    }
}

/// The items of an agent that have a number of a range.
#[derive(Clone, Copy)]
pub struct ItemsWithin {
    pub agent: AgentCode,
    pub range: Range,
}

impl Window<ItemKey> for ItemsWithin {
    ghost low = { λ window. first_within window.agent window.range };

    ghost has = { λ window key. is_within window.agent window.range key };

    ghost lowest = { λ window. within_from window.agent window.range };

    ghost together = { λ window. within_together window.agent window.range };

    fn low(&self) -> ItemKey {
        ItemKey {
            agent: self.agent,
            number: self.range.first,
            is_canx: false,
        }
    }

    fn has(&self, key: &ItemKey) -> bool {
        key.agent == self.agent && self.range.first <= key.number && key.number <= self.range.last
    }
}

/// The ranges of an agent.
#[derive(Clone, Copy)]
pub struct RangesOf(pub AgentCode);

impl Window<RangeKey> for RangesOf {
    ghost low = { λ window. first_range window.0 };

    ghost has = { λ window key. key.agent == window.0 };

    ghost lowest = { λ window. ranges_from window.0 };

    ghost together = { λ window. ranges_together window.0 };

    fn low(&self) -> RangeKey {
        RangeKey {
            agent: self.0,
            first: least_number(),
        }
    }

    fn has(&self, key: &RangeKey) -> bool {
        key.agent == self.0
    }
}

/// The memos of an airline.
#[derive(Clone, Copy)]
pub struct MemosOf(pub AirlineCode);

impl Window<MemoKey> for MemosOf {
    ghost low = { λ window. first_memo window.0 };

    ghost has = { λ window key. key.airline == window.0 };

    ghost lowest = { λ window. memos_from window.0 };

    ghost together = { λ window. memos_together window.0 };

    fn low(&self) -> MemoKey {
        MemoKey {
            airline: self.0,
            document: least_number(),
        }
    }

    fn has(&self, key: &MemoKey) -> bool {
        key.airline == self.0
    }
}

/// The tallies of an agent.
#[derive(Clone, Copy)]
pub struct TalliesOf(pub AgentCode);

impl Window<TallyKey> for TalliesOf {
    ghost low = { λ window. first_tally window.0 };

    ghost has = { λ window key. key.agent == window.0 };

    ghost lowest = { λ window. tallies_from window.0 };

    ghost together = { λ window. tallies_together window.0 };

    fn low(&self) -> TallyKey {
        TallyKey {
            agent: self.0,
            airline: least_airline(),
            period: least_period(),
        }
    }

    fn has(&self, key: &TallyKey) -> bool {
        key.agent == self.0
    }
}

/// An agent's items that bear a number, as it was reported.
#[derive(Clone, Copy)]
pub struct AtNumber {
    pub agent: AgentCode,
    pub number: [u8; 10],
}

impl Window<NumberKey> for AtNumber {
    ghost low = { λ window. first_at window.agent window.number };

    ghost has = { λ window key. is_of_number window.agent window.number key };

    ghost lowest = { λ window. numbers_from window.agent window.number };

    ghost together = { λ window. numbers_together window.agent window.number };

    fn low(&self) -> NumberKey {
        NumberKey {
            agent: self.agent,
            number: self.number,
            item: least_number(),
            is_canx: false,
        }
    }

    fn has(&self, key: &NumberKey) -> bool {
        key.agent == self.agent && key.number == self.number
    }
}
