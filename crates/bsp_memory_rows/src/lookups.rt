//! Look-ups in the tables.

ghost use Rattle.std.specs.Prelude.{◌≡◌, ◌==◌, IfOk};
ghost use Rattle.std.specs.FinMap.{entries};
ghost use Rattle.bsp_memory_tables.specs.TallyTables.{tally_rows};
ghost use Rattle.bsp_maps.specs.Windows.{entries_in};
ghost use Rattle.bsp_rows.specs.Owed.{is_billed_in};
ghost use Rattle.bsp_rows.specs.Rows.{agent_token, airline_token, has_meeting, is_in, is_used_in, items_bearing, items_of, memo_at, memos_of, ranges_of};
ghost use Rattle.bsp_rows.specs.Laws.{issued_count};
ghost use Rattle.bsp_rows.specs.Sound.{AreApart};
ghost use Rattle.bsp_rows.specs.Tallies.{is_tally_asked, tallies_of, tally_of};
ghost use Rattle.bsp_memory_rows.specs.Lookups.{asked_tallies, is_asked, items_with_number};
ghost use Rattle.bsp_memory_rows.specs.Tables.{IsDerived, rows_of};

use crate::tables::Tables;
use crate::tallies::tally_at;
use bsp_maps::{Every, Rule, Test};
use bsp_rows::{
    AgentCode, AirlineCode, Item, Items, Memo, MemoKey, Memos, PeriodCode, Range, Tallies, Tally,
    TallyKey, Token, Transaction,
};
use std::alloc::{AllocError, Global};

/// Items that were accepted in a period.
#[derive(Clone, Copy)]
struct In(PeriodCode);

impl Test<Item> for In {
    ghost passes = { λ test i. is_in test.0 i };

    fn passes(&self, item: &Item) -> bool {
        item.period == self.0
    }
}

/// Memos that were billed in a period.
#[derive(Clone, Copy)]
struct BilledIn(PeriodCode);

impl Test<Memo> for BilledIn {
    ghost passes = { λ test m. is_billed_in test.0 m };

    fn passes(&self, memo: &Memo) -> bool {
        memo.fields().is_billed_in(self.0)
    }
}

/// Whether a key is asked for.
fn is_tally_asked(which: &Tallies, key: &TallyKey) -> bool
    ensures { result ≡ is_tally_asked which.now key.now }
{
    match *which {
        Tallies::OfAgent(agent) => key.agent == agent,
        Tallies::OfAgentIn(agent, period) => key.agent == agent && key.period == period,
        Tallies::OfAirlineIn(airline, period) => key.airline == airline && key.period == period,
        Tallies::In(period) => key.period == period,
    }
}

/// Tallies that are asked for, and to which some row adds.
#[derive(Clone, Copy)]
struct AskedTallies(Tallies);

impl Rule<TallyKey, Tally> for AskedTallies {
    ghost holds = { λ rule key tally. is_asked rule.0 key tally };

    fn holds(&self, key: &TallyKey, tally: &Tally) -> bool {
        is_tally_asked(&self.0, key) && (tally.accepted > 0 || tally.memo_count > 0)
    }
}

/// The tallies that are asked for, of these entries.
fn asked_tallies(
    alloc: Global,
    entries: &[(TallyKey, Tally)],
    which: &Tallies,
) -> Result<Vec<Tally>, AllocError>
    ensures { IfOk result (λ found. found.items ≡ asked_tallies which.now entries.now) }
{
    let rule = AskedTallies(*which);
    let mut found = Vec::new(alloc);
    for (key, tally) in entries {
        if rule.holds(key, tally) {
            found.push(*tally)?;
        }
    }
    Ok(found)
}

impl Tables {
    /// The token of an agent, if it is registered.
    pub fn agent_token(&self, agent: AgentCode) -> Option<Token>
        ensures { result ≡ agent_token agent (rows_of self.now) }
    {
        self.agents.get(agent)
    }

    /// The token of an airline, if it is registered.
    pub fn airline_token(&self, airline: AirlineCode) -> Option<Token>
        ensures { result ≡ airline_token airline (rows_of self.now) }
    {
        self.airlines.get(airline)
    }

    /// The ranges of an agent. It reads that agent's alone, and those that were withdrawn from it since the last
    /// commit.
    pub fn ranges(&self, alloc: Global, agent: AgentCode) -> Result<Vec<Range>, AllocError>
        ensures { IfOk result (λ found. found.items ≡ ranges_of agent (rows_of self.now)) }
    {
        self.ranges.of_agent(alloc, agent)
    }

    /// Whether a range of any agent has a number of this one, where no number is in two ranges. It reads one
    /// range, and some that were withdrawn since the last commit.
    pub fn meets_range(&self, range: &Range) -> bool
        ensures { IsDerived self.now → AreApart (rows_of self.now).ranges → result ≡ has_meeting range.now (rows_of self.now) }
    {
        self.ranges.meets(range)
    }

    /// Whether an item of the agent has a number of the range. It reads one key.
    pub fn is_range_used(&self, agent: AgentCode, range: &Range) -> bool
        ensures { result ≡ is_used_in agent range.now (rows_of self.now) }
    {
        self.items.is_any_within(agent, range)
    }

    /// The items of an agent that share a number with a transaction. It reads those alone.
    pub fn items_bearing(
        &self,
        alloc: Global,
        agent: AgentCode,
        transaction: &Transaction,
    ) -> Result<Vec<Item>, AllocError>
        ensures { IfOk result (λ found. IsDerived self.now → found.items ≡ items_bearing agent transaction.now (rows_of self.now)) }
    {
        self.items.bearing(alloc, agent, transaction)
    }

    /// The items of an agent that bear a number, as their own or a related one. It reads those alone.
    pub fn items_with_number(
        &self,
        alloc: Global,
        agent: AgentCode,
        number: &[u8; 10],
    ) -> Result<Vec<Item>, AllocError>
        ensures { IfOk result (λ found. IsDerived self.now → found.items ≡ items_with_number agent number.now (rows_of self.now)) }
    {
        self.items.with_number(alloc, agent, number)
    }

    /// The items that are asked for, in the order of their keys. It reads those of the agent, or of the airline
    /// and the period, alone.
    pub fn items(&self, alloc: Global, which: &Items) -> Result<Vec<Item>, AllocError>
        ensures { IfOk result (λ found. IsDerived self.now → found.items ≡ items_of which.now (rows_of self.now)) }
    {
        match *which {
            Items::OfAgent(agent) => self.items.of_agent(alloc, agent, &Every),
            Items::OfAgentIn(agent, period) => self.items.of_agent(alloc, agent, &In(period)),
            Items::OfAirlineIn(airline, period) => self.items.of_airline(alloc, airline, period),
        }
    }

    /// The memo of a key.
    pub fn memo(&self, key: MemoKey) -> Option<Memo>
        ensures { result ≡ memo_at key (rows_of self.now) }
    {
        self.memos.get(key)
    }

    /// The memos that are asked for, in the order of their keys. It reads those of the agent, of the airline, or
    /// the unbilled ones, alone.
    pub fn memos(&self, alloc: Global, which: &Memos) -> Result<Vec<Memo>, AllocError>
        ensures { IfOk result (λ found. IsDerived self.now → found.items ≡ memos_of which.now (rows_of self.now)) }
    {
        match *which {
            Memos::OfAgent(agent) => self.memos.of_agent(alloc, agent),
            Memos::OfAirline(airline) => self.memos.of_airline(alloc, airline, &Every),
            Memos::OfAirlineIn(airline, period) => {
                self.memos.of_airline(alloc, airline, &BilledIn(period))
            }
            Memos::Unbilled => self.memos.unbilled(alloc),
        }
    }

    /// How many memos an airline has issued to an agent. It reads one entry.
    pub fn issued_count(&self, agent: AgentCode, airline: AirlineCode) -> u64
        ensures { IsDerived self.now → result ≡ issued_count agent airline (rows_of self.now) }
    {
        self.memos.issued(airline, agent)
    }

    /// The tally of a key. It reads one entry.
    pub fn tally(&self, key: &TallyKey) -> Tally
        ensures { IsDerived self.now → result ≡ tally_of key.now (rows_of self.now) }
    {
        tally_at(&self.tallies, key)
    }

    /// The tallies that are asked for, of those of an agent. It reads that agent's alone.
    fn agent_tallies(
        &self,
        alloc: Global,
        agent: AgentCode,
        which: &Tallies,
    ) -> Result<Vec<Tally>, AllocError>
        ensures { IfOk result (λ found. found.items ≡ asked_tallies which.now (entries_in (λ key. key.agent == agent) (entries (tally_rows self.now.tallies)))) }
    {
        let entries = self.tallies.of_agent(alloc, agent)?;
        asked_tallies(alloc, &entries, which)
    }

    /// The tallies that are asked for and to which some row adds, in the order of their keys. It reads those of
    /// the agent, or of the airline and the period, or of the period, alone.
    pub fn tallies(&self, alloc: Global, which: &Tallies) -> Result<Vec<Tally>, AllocError>
        ensures { IfOk result (λ found. IsDerived self.now → found.items ≡ tallies_of which.now (rows_of self.now)) }
    {
        match *which {
            Tallies::OfAgent(agent) => self.agent_tallies(alloc, agent, which),
            Tallies::OfAgentIn(agent, _) => self.agent_tallies(alloc, agent, which),
            Tallies::OfAirlineIn(airline, period) => {
                let rule = AskedTallies(*which);
                self.tallies.of_airline(alloc, airline, period, &rule)
            }
            Tallies::In(period) => self.tallies.of_period(alloc, period, &AskedTallies(*which)),
        }
    }
}
