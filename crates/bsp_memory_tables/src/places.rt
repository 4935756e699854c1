//! The places of rows in the indexes.

ghost use Rattle.std.specs.Prelude.{◌≡◌, option_map};
ghost use Rattle.bsp_rows.specs.declared.keys.ItemKey.{ItemKey as ItemKeyValue};
ghost use Rattle.bsp_rows.specs.declared.keys.MemoKey.{MemoKey as MemoKeyValue};
ghost use Rattle.bsp_maps.specs.Indexes.{found_place};
ghost use Rattle.bsp_memory_tables.specs.Places.{agent_place, item_place, parties_of, tally_airline_place, tally_period_place, unbilled_place};

use bsp_rows::{AgentCode, AirlineCode, Item, Memo, MemoKey, PeriodCode, Tally, TallyKey};

/// An airline and a period.
#[derive(Clone, Copy, PartialEq, Eq, PartialOrd, Ord)]
pub struct AirlinePeriod {
    /// The airline.
    pub airline: AirlineCode,
    /// The period.
    pub period: PeriodCode,
}

/// An airline and an agent.
#[derive(Clone, Copy, PartialEq, Eq, PartialOrd, Ord)]
pub struct Parties {
    /// The airline.
    pub airline: AirlineCode,
    /// The agent.
    pub agent: AgentCode,
}

/// The airline of an item and its period, if there is an item.
pub(crate) fn item_place(item: &Option<Item>) -> Option<AirlinePeriod>
    ensures { (k : ItemKeyValue) → result ≡ found_place item_place k item.now }
{
    match item {
        None => None,
        Some(item) => Some(AirlinePeriod {
            airline: item.transaction.document.airline,
            period: item.period,
        }),
    }
}

/// The agent of a memo, if there is a memo.
pub(crate) fn agent_place(memo: &Option<Memo>) -> Option<AgentCode>
    ensures { (k : MemoKeyValue) → result ≡ found_place agent_place k memo.now }
{
    match memo {
        None => None,
        Some(memo) => Some(memo.fields().agent),
    }
}

/// The airline of a memo's key, and its agent.
pub(crate) fn parties_of(key: &MemoKey, memo: &Memo) -> Parties
    ensures { result ≡ parties_of key.now memo.now }
{
    Parties {
        airline: key.airline,
        agent: memo.fields().agent,
    }
}

/// The airline of a memo's key and its agent, if there is a memo.
pub(crate) fn old_parties(key: &MemoKey, memo: &Option<Memo>) -> Option<Parties>
    ensures { result ≡ option_map (parties_of key.now) memo.now }
{
    match memo {
        None => None,
        Some(memo) => Some(parties_of(key, memo)),
    }
}

/// The place of a memo that is not billed, if there is one.
pub(crate) fn unbilled_place(memo: &Option<Memo>) -> Option<()>
    ensures { (k : MemoKeyValue) → result ≡ found_place unbilled_place k memo.now }
{
    match memo {
        None => None,
        Some(memo) => match memo.fields().billed {
            None => Some(()),
            Some(_) => None,
        },
    }
}

/// The airline of a key and its period, if a tally is kept for it.
pub(crate) fn tally_airline_place(key: &TallyKey, tally: &Option<Tally>) -> Option<AirlinePeriod>
    ensures { result ≡ found_place tally_airline_place key.now tally.now }
{
    match tally {
        None => None,
        Some(_) => Some(AirlinePeriod {
            airline: key.airline,
            period: key.period,
        }),
    }
}

/// The period of a key, if a tally is kept for it.
pub(crate) fn tally_period_place(key: &TallyKey, tally: &Option<Tally>) -> Option<PeriodCode>
    ensures { result ≡ found_place tally_period_place key.now tally.now }
{
    match tally {
        None => None,
        Some(_) => Some(key.period),
    }
}
