//! The table of memos.

ghost use Rattle.std.specs.Prelude.{◌≡◌, ◌==◌, IfOk, OnOk};
ghost use Rattle.std.specs.FinMap.{empty, entries, get, insert, values};
ghost use Rattle.std.specs.List.{filter};
ghost use Rattle.bsp_maps.specs.Windows.{values_in};
ghost use Rattle.bsp_maps.specs.Counts.{row_count};
ghost use Rattle.bsp_rows.specs.Rows.{is_unbilled};
ghost use Rattle.bsp_memory_tables.specs.MemoTables.{AreMemosKept, WereMemosKept, memo_rows, memo_rows_before};
ghost use Rattle.bsp_memory_tables.specs.Places.{parties_cmp, parties_of};

use crate::keys::{MemosOf, least_memo};
use crate::places::{Parties, agent_place, old_parties, parties_of, unbilled_place};
use bsp_maps::{Counts, Index, Logged, Old, Rule, Test};
use bsp_rows::{AgentCode, AirlineCode, Memo, MemoKey};
use std::alloc::{AllocError, Global};
use std::collections::BTreeMap;

/// The memos by their keys, those of each agent, the unbilled ones, and how many each airline has issued to each
/// agent.
#[derive(Drop)]
pub struct MemoTable {
    rows: Logged<MemoKey, Memo>,
    by_agent: Index<AgentCode, MemoKey>,
    unbilled: Index<(), MemoKey>,
    issued: Counts<Parties>,
}

/// Memos to an agent.
#[derive(Clone, Copy)]
struct ToAgent(AgentCode);

impl Rule<MemoKey, Memo> for ToAgent {
    ghost use Rattle.std.specs.Prelude.{◌==◌};

    ghost holds = { λ rule key m. m.agent == rule.0 };

    fn holds(&self, _key: &MemoKey, memo: &Memo) -> bool {
        memo.fields().agent == self.0
    }
}

/// Memos that are not billed.
#[derive(Clone, Copy)]
struct IsUnbilled;

impl Rule<MemoKey, Memo> for IsUnbilled {
    ghost holds = { λ rule key m. is_unbilled m };

    fn holds(&self, _key: &MemoKey, memo: &Memo) -> bool {
        memo.fields().billed.is_none()
    }
}

impl MemoTable {
    /// No memos.
    pub fn new(alloc: Global) -> Self
        ensures rows { memo_rows result ≡ empty }
        ensures before { memo_rows_before result ≡ empty }
        ensures kept { AreMemosKept result }
        ensures was_kept { WereMemosKept result }
    {
        MemoTable {
            rows: Logged::new(alloc),
            by_agent: Index::new(alloc),
            unbilled: Index::new(alloc),
            issued: Counts::new(alloc),
        }
    }

    /// The memos.
    pub fn map(&self) -> &BTreeMap<MemoKey, Memo>
        ensures { result.now ≡ self.now.rows.map }
    {
        self.rows.map()
    }

    /// The keys that were written since the last commit, in the order of the writes.
    pub fn written(&self) -> &[Old<MemoKey, Memo>]
        ensures { result.now ≡ self.now.rows.undo.items }
    {
        self.rows.written()
    }

    /// Keeps what was written.
    pub fn commit(&mut self)
        ensures rows { memo_rows self.new ≡ memo_rows self.old }
        ensures before { memo_rows_before self.new ≡ memo_rows self.old }
        ensures kept { AreMemosKept self.old → AreMemosKept self.new }
        ensures was_kept { AreMemosKept self.old → WereMemosKept self.new }
    {
        self.rows.commit();
        self.by_agent.commit();
        self.unbilled.commit();
        self.issued.commit();
    }

    /// Takes back what was written since the last commit. It takes no memory.
    pub fn roll_back(&mut self)
        ensures rows { memo_rows self.new ≡ memo_rows_before self.old }
        ensures before { memo_rows_before self.new ≡ memo_rows_before self.old }
        ensures kept { WereMemosKept self.old → AreMemosKept self.new }
        ensures was_kept { WereMemosKept self.old → WereMemosKept self.new }
    {
        self.rows.roll_back();
        self.by_agent.roll_back();
        self.unbilled.roll_back();
        self.issued.roll_back();
    }

    /// The memo of a key.
    pub fn get(&self, key: MemoKey) -> Option<Memo>
        ensures { result ≡ get (memo_rows self.now) key }
    {
        self.rows.get(key)
    }

    /// Writes a memo at a key, where `old` is.
    ///
    /// # Errors
    ///
    /// Where an allocation was refused. What the last commit kept is remembered all the same.
    pub fn put(&mut self, key: &MemoKey, old: &Option<Memo>, memo: &Memo) -> Result<(), AllocError>
        requires { old.now ≡ get (memo_rows self.old) key.now }
        ensures rows { OnOk result (memo_rows self.new ≡ insert (memo_rows self.old) key.now memo.now) }
        ensures before { memo_rows_before self.new ≡ memo_rows_before self.old }
        ensures kept { OnOk result (AreMemosKept self.old → AreMemosKept self.new) }
        ensures was_kept { WereMemosKept self.old → WereMemosKept self.new }
    {
        let new = Some(*memo);
        self.by_agent
            .relocate(*key, agent_place(old), agent_place(&new))?;
        self.unbilled
            .relocate(*key, unbilled_place(old), unbilled_place(&new))?;
        self.issued
            .relocate(old_parties(key, old), parties_of(key, memo))?;
        self.rows.put(*key, *memo)
    }

    /// How many memos an airline has issued to an agent. It reads one entry.
    pub fn issued(&self, airline: AirlineCode, agent: AgentCode) -> u64
        ensures { AreMemosKept self.now → result ≡ row_count parties_cmp parties_of (memo_rows self.now) (record { airline = airline; agent = agent }) }
    {
        self.issued.at(Parties { airline, agent })
    }

    /// The memos of an airline that pass a test, in the order of their keys. It reads that airline's alone.
    ///
    /// # Errors
    ///
    /// Where an allocation was refused, as of each look-up that gives a list.
    pub fn of_airline<T: Test<Memo>>(
        &self,
        alloc: Global,
        airline: AirlineCode,
        test: &T,
    ) -> Result<Vec<Memo>, AllocError>
        ensures { IfOk result (λ found. found.items ≡ filter (T.passes test.now) (values_in (λ k. k.airline == airline) (entries (memo_rows self.now)))) }
    {
        self.rows.chosen(alloc, &MemosOf(airline), test)
    }

    /// The memos to an agent, in the order of their keys. It reads those alone.
    pub fn of_agent(&self, alloc: Global, agent: AgentCode) -> Result<Vec<Memo>, AllocError>
        ensures { IfOk result (λ found. AreMemosKept self.now → found.items ≡ filter (λ m. m.agent == agent) (values (memo_rows self.now))) }
    {
        let keys = self.by_agent.keys_at(alloc, agent, least_memo())?;
        self.rows.picked(alloc, &keys, &ToAgent(agent))
    }

    /// The memos that are not billed, in the order of their keys. It reads those alone.
    pub fn unbilled(&self, alloc: Global) -> Result<Vec<Memo>, AllocError>
        ensures { IfOk result (λ found. AreMemosKept self.now → found.items ≡ filter is_unbilled (values (memo_rows self.now))) }
    {
        let keys = self.unbilled.keys_at(alloc, (), least_memo())?;
        self.rows.picked(alloc, &keys, &IsUnbilled)
    }
}
