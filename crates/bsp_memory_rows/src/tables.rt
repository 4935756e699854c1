//! The tables of a book in memory, which remember what they changed.

ghost use Rattle.std.specs.Prelude.{◌↔◌, ◌≡◌, false, IfOk, IsTrue, OnOk, if◌then◌else◌, Some, None};
ghost use Rattle.std.specs.FinMap.{get};
ghost use Rattle.bsp_rows.specs.History.Request.{Close, Publish, SetDay};
ghost use Rattle.bsp_rows.specs.Billing.{billed_in};
ghost use Rattle.bsp_rows.specs.Memos.{is_memo};
ghost use Rattle.bsp_rows.specs.Rows.{HasNumberKey, key_of, memo_at, memo_key, no_rows};
ghost use Rattle.bsp_rows.specs.Writes.{MayBeBilled, after_request, ended, request_answer, with_agent_token, with_airline_token, with_billing, with_end, with_item, with_memo, with_range, without_range};
ghost use Rattle.bsp_memory_rows.specs.Plans.{IsSaved, plan_before};
ghost use Rattle.bsp_memory_rows.specs.Tables.{IsDerived, WasDerived, committed_rows, rows_of, with_item_at, with_memo_at};

use crate::no_room::NoRoom;
use crate::planned::Planned;
use crate::saved_plan::SavedPlan;
use crate::tallies::{recount_item, recount_memo};
use bsp_maps::Logged;
use bsp_memory_tables::{ItemTable, MemoTable, RangeTable, TallyTable};
use bsp_rows::{
    AgentCode, AirlineCode, Change, Day, Item, ItemKey, Memo, MemoKey, PeriodCode, Plan, PlanFault,
    PlanText, Range, RangeKey, Token,
};
use std::alloc::Global;

/// The rows of all callers, with their indexes, and the tallies. Each write keeps the indexes and the
/// tallies. What was written since the last commit can be taken back without memory.
pub struct Tables {
    pub(crate) plan: Planned,
    pub(crate) agents: Logged<AgentCode, Token>,
    pub(crate) airlines: Logged<AirlineCode, Token>,
    pub(crate) ranges: RangeTable,
    pub(crate) items: ItemTable,
    pub(crate) memos: MemoTable,
    pub(crate) tallies: TallyTable,
}

// It is written out, so that a caller does not prove again how each part is dropped.
impl Drop for Tables {
    fn drop(self) {
        let Tables {
            plan: _,
            agents: _,
            airlines: _,
            ranges: _,
            items: _,
            memos: _,
            tallies: _,
        } = self;
    }
}

/// The key of an item whose number has its check digit.
fn key_of(item: &Item) -> ItemKey
    requires { HasNumberKey item.now }
    ensures { result ≡ key_of item.now }
{
    let Some(key) = ItemKey::of(item) else {
        unreachable!()
    };
    key
}

/// The item, which lives no more.
fn ended(item: &Item) -> Item
    ensures { result ≡ ended item.now }
{
    Item {
        agent: item.agent,
        period: item.period,
        transaction: item.transaction,
        lives: false,
        tax: item.tax,
        hundredths: item.hundredths,
    }
}

/// The memo, billed in a period; none if its fields do not allow it.
fn billed(memo: &Memo, period: PeriodCode) -> Option<Memo>
    ensures { result ≡ (if is_memo (billed_in period memo.now) then Some (billed_in period memo.now) else None) }
{
    let mut fields = *memo.fields();
    fields.billed = Some(period);
    Memo::restore(fields)
}

impl Tables {
    /// No rows.
    pub fn new(alloc: Global) -> Self
        ensures rows { rows_of result ≡ no_rows }
        ensures committed { committed_rows result ≡ no_rows }
        ensures derived { IsDerived result }
        ensures was_derived { WasDerived result }
    {
        Tables {
            plan: Planned::new(alloc),
            agents: Logged::new(alloc),
            airlines: Logged::new(alloc),
            ranges: RangeTable::new(alloc),
            items: ItemTable::new(alloc),
            memos: MemoTable::new(alloc),
            tallies: TallyTable::new(alloc),
        }
    }

    /// The published plan.
    pub fn plan(&self) -> &Plan
        ensures { result.now ≡ (rows_of self.now).published }
    {
        self.plan.plan()
    }

    /// What the plan was at the last commit.
    pub fn saved_plan(&self) -> &SavedPlan
        ensures committed { (committed_rows self.now).published ≡ plan_before (rows_of self.now).published result.now }
        ensures saved { IsSaved (rows_of self.now).published result.now }
    {
        self.plan.saved()
    }

    /// The tokens of the registered agents, and which were written.
    pub fn agent_tokens(&self) -> &Logged<AgentCode, Token>
        ensures { result.now ≡ self.now.agents }
    {
        &self.agents
    }

    /// The tokens of the registered airlines, and which were written.
    pub fn airline_tokens(&self) -> &Logged<AirlineCode, Token>
        ensures { result.now ≡ self.now.airlines }
    {
        &self.airlines
    }

    /// The table of ranges.
    pub fn range_table(&self) -> &RangeTable
        ensures { result.now ≡ self.now.ranges }
    {
        &self.ranges
    }

    /// The table of items.
    pub fn item_table(&self) -> &ItemTable
        ensures { result.now ≡ self.now.items }
    {
        &self.items
    }

    /// The table of memos.
    pub fn memo_table(&self) -> &MemoTable
        ensures { result.now ≡ self.now.memos }
    {
        &self.memos
    }

    /// The table of tallies.
    pub fn tally_table(&self) -> &TallyTable
        ensures { result.now ≡ self.now.tallies }
    {
        &self.tallies
    }

    /// Keeps what was written.
    pub fn commit(&mut self)
        ensures rows { rows_of self.new ≡ rows_of self.old }
        ensures committed { committed_rows self.new ≡ rows_of self.old }
        ensures derived { IsDerived self.old → IsDerived self.new }
        ensures was_derived { IsDerived self.old → WasDerived self.new }
    {
        self.plan.commit();
        self.agents.commit();
        self.airlines.commit();
        self.ranges.commit();
        self.items.commit();
        self.memos.commit();
        self.tallies.commit();
    }

    /// Takes back what was written since the last commit.
    pub fn roll_back(&mut self)
        ensures rows { rows_of self.new ≡ committed_rows self.old }
        ensures committed { committed_rows self.new ≡ committed_rows self.old }
        ensures derived { WasDerived self.old → IsDerived self.new }
        ensures was_derived { WasDerived self.old → WasDerived self.new }
    {
        self.plan.roll_back();
        self.agents.roll_back();
        self.airlines.roll_back();
        self.ranges.roll_back();
        self.items.roll_back();
        self.memos.roll_back();
        self.tallies.roll_back();
    }

    /// Gives an agent a token.
    ///
    /// # Errors
    ///
    /// `NoRoom` where an allocation was refused, as of each write. The rows of the last commit are
    /// remembered all the same.
    pub fn set_agent_token(&mut self, agent: AgentCode, token: Token) -> Result<(), NoRoom>
        ensures ok { OnOk result (rows_of self.new ≡ with_agent_token agent token (rows_of self.old)) }
        ensures committed { committed_rows self.new ≡ committed_rows self.old }
        ensures derived { OnOk result (IsDerived self.old → IsDerived self.new) }
        ensures was_derived { WasDerived self.old → WasDerived self.new }
    {
        self.agents.put(agent, token)?;
        Ok(())
    }

    /// Gives an airline a token.
    pub fn set_airline_token(&mut self, airline: AirlineCode, token: Token) -> Result<(), NoRoom>
        ensures ok { OnOk result (rows_of self.new ≡ with_airline_token airline token (rows_of self.old)) }
        ensures committed { committed_rows self.new ≡ committed_rows self.old }
        ensures derived { OnOk result (IsDerived self.old → IsDerived self.new) }
        ensures was_derived { WasDerived self.old → WasDerived self.new }
    {
        self.airlines.put(airline, token)?;
        Ok(())
    }

    /// Adds a range of an agent.
    pub fn add_range(&mut self, agent: AgentCode, range: &Range) -> Result<(), NoRoom>
        ensures ok { OnOk result (rows_of self.new ≡ with_range agent range.now (rows_of self.old)) }
        ensures committed { committed_rows self.new ≡ committed_rows self.old }
        ensures derived { OnOk result (IsDerived self.old → IsDerived self.new) }
        ensures was_derived { WasDerived self.old → WasDerived self.new }
    {
        self.ranges.add(&RangeKey::of(agent, range), range.last)?;
        Ok(())
    }

    /// Withdraws a range of an agent.
    pub fn withdraw_range(&mut self, agent: AgentCode, range: &Range) -> Result<(), NoRoom>
        ensures ok { OnOk result (rows_of self.new ≡ without_range agent range.now (rows_of self.old)) }
        ensures committed { committed_rows self.new ≡ committed_rows self.old }
        ensures derived { OnOk result (IsDerived self.old → IsDerived self.new) }
        ensures was_derived { WasDerived self.old → WasDerived self.new }
    {
        self.ranges.withdraw(&RangeKey::of(agent, range))?;
        Ok(())
    }

    /// Writes an item at a key, where `old` is.
    fn put_item(&mut self, key: &ItemKey, old: Option<Item>, item: &Item) -> Result<(), NoRoom>
        requires { old ≡ get (rows_of self.old).items key.now }
        ensures ok { OnOk result (rows_of self.new ≡ with_item_at key.now item.now (rows_of self.old)) }
        ensures committed { committed_rows self.new ≡ committed_rows self.old }
        ensures derived { OnOk result (IsDerived self.old → IsDerived self.new) }
        ensures was_derived { WasDerived self.old → WasDerived self.new }
    {
        recount_item(&mut self.tallies, old, item)?;
        self.items.put(key, &old, item)?;
        Ok(())
    }

    /// Adds an item.
    ///
    /// # Errors
    ///
    /// `NoRoom` where an allocation was refused, or a count or a sum of its tally does not fit its type.
    pub fn add_item(&mut self, item: &Item) -> Result<(), NoRoom>
        requires { HasNumberKey item.now }
        ensures ok { OnOk result (rows_of self.new ≡ with_item item.now (rows_of self.old)) }
        ensures committed { committed_rows self.new ≡ committed_rows self.old }
        ensures derived { OnOk result (IsDerived self.old → IsDerived self.new) }
        ensures was_derived { WasDerived self.old → WasDerived self.new }
    {
        let key = key_of(item);
        let old = self.items.get(key);
        self.put_item(&key, old, item)
    }

    /// Adds an item at its key, unless there is one. It answers whether the item was added.
    ///
    /// # Errors
    ///
    /// `NoRoom` as in `add_item`.
    pub fn add_new_item(&mut self, key: &ItemKey, item: &Item) -> Result<bool, NoRoom>
        requires { HasNumberKey item.now × (key_of item.now ≡ key.now) }
        ensures none { IfOk result (λ added. IsTrue added ↔ (get (rows_of self.old).items key.now ≡ None)) }
        ensures kept { IfOk result (λ added. added ≡ false → self.new ≡ self.old) }
        ensures ok { IfOk result (λ added. IsTrue added → rows_of self.new ≡ with_item item.now (rows_of self.old)) }
        ensures committed { committed_rows self.new ≡ committed_rows self.old }
        ensures derived { OnOk result (IsDerived self.old → IsDerived self.new) }
        ensures was_derived { WasDerived self.old → WasDerived self.new }
    {
        if self.items.has(key) {
            return Ok(false);
        }
        self.put_item(key, None, item)?;
        Ok(true)
    }

    /// The item of a key, if there is one, lives no more.
    ///
    /// # Errors
    ///
    /// `NoRoom` as in `add_item`.
    pub fn end_item(&mut self, key: ItemKey) -> Result<(), NoRoom>
        ensures ok { OnOk result (rows_of self.new ≡ with_end key (rows_of self.old)) }
        ensures committed { committed_rows self.new ≡ committed_rows self.old }
        ensures derived { OnOk result (IsDerived self.old → IsDerived self.new) }
        ensures was_derived { WasDerived self.old → WasDerived self.new }
    {
        match self.items.get(key) {
            None => Ok(()),
            Some(item) => {
                let ended = ended(&item);
                self.put_item(&key, Some(item), &ended)
            }
        }
    }

    /// Writes a memo at a key.
    fn put_memo_at(&mut self, key: &MemoKey, memo: &Memo) -> Result<(), NoRoom>
        ensures ok { OnOk result (rows_of self.new ≡ with_memo_at key.now memo.now (rows_of self.old)) }
        ensures committed { committed_rows self.new ≡ committed_rows self.old }
        ensures derived { OnOk result (IsDerived self.old → IsDerived self.new) }
        ensures was_derived { WasDerived self.old → WasDerived self.new }
    {
        let old = self.memos.get(*key);
        recount_memo(&mut self.tallies, old, memo)?;
        self.memos.put(key, &old, memo)?;
        Ok(())
    }

    /// Writes a memo at its key.
    ///
    /// # Errors
    ///
    /// `NoRoom` as in `add_item`.
    pub fn put_memo(&mut self, memo: &Memo) -> Result<(), NoRoom>
        ensures ok { OnOk result (rows_of self.new ≡ with_memo memo.now (rows_of self.old)) }
        ensures committed { committed_rows self.new ≡ committed_rows self.old }
        ensures derived { OnOk result (IsDerived self.old → IsDerived self.new) }
        ensures was_derived { WasDerived self.old → WasDerived self.new }
    {
        self.put_memo_at(&MemoKey::of(memo.fields()), memo)
    }

    /// Bills the memo of a key in a period, if it may be billed.
    ///
    /// # Errors
    ///
    /// `NoRoom` as in `add_item`.
    pub fn bill(&mut self, key: MemoKey, period: PeriodCode) -> Result<(), NoRoom>
        ensures ok { OnOk result (MayBeBilled (memo_at key (rows_of self.old)) → rows_of self.new ≡ with_billing key period (rows_of self.old)) }
        ensures committed { committed_rows self.new ≡ committed_rows self.old }
        ensures derived { OnOk result (IsDerived self.old → IsDerived self.new) }
        ensures was_derived { WasDerived self.old → WasDerived self.new }
    {
        match self.memos.get(key) {
            None => Ok(()),
            Some(memo) => match billed(&memo, period) {
                None => Ok(()),
                Some(memo) => self.put_memo_at(&key, &memo),
            },
        }
    }

    /// Publishes the entries of a text that are new. The answer is the plan's.
    pub fn publish(&mut self, text: &PlanText) -> Result<Result<Change, PlanFault>, NoRoom>
        ensures told { IfOk result (λ answer. answer ≡ request_answer (Publish text.now) (rows_of self.old)) }
        ensures ok { OnOk result (rows_of self.new ≡ after_request (Publish text.now) (rows_of self.old)) }
        ensures committed { committed_rows self.new ≡ committed_rows self.old }
        ensures derived { OnOk result (IsDerived self.old → IsDerived self.new) }
        ensures was_derived { WasDerived self.old → WasDerived self.new }
    {
        self.plan.publish(text)
    }

    /// Sets the business day. The answer is the plan's.
    pub fn set_day(&mut self, day: Day) -> Result<Result<Change, PlanFault>, NoRoom>
        ensures told { IfOk result (λ answer. answer ≡ request_answer (SetDay day) (rows_of self.old)) }
        ensures ok { OnOk result (rows_of self.new ≡ after_request (SetDay day) (rows_of self.old)) }
        ensures committed { committed_rows self.new ≡ committed_rows self.old }
        ensures derived { OnOk result (IsDerived self.old → IsDerived self.new) }
        ensures was_derived { WasDerived self.old → WasDerived self.new }
    {
        Ok(self.plan.set_day(day))
    }

    /// Closes a period. The answer is the plan's.
    pub fn close(&mut self, code: PeriodCode) -> Result<Result<Change, PlanFault>, NoRoom>
        ensures told { IfOk result (λ answer. answer ≡ request_answer (Close code) (rows_of self.old)) }
        ensures ok { OnOk result (rows_of self.new ≡ after_request (Close code) (rows_of self.old)) }
        ensures committed { committed_rows self.new ≡ committed_rows self.old }
        ensures derived { OnOk result (IsDerived self.old → IsDerived self.new) }
        ensures was_derived { WasDerived self.old → WasDerived self.new }
    {
        Ok(self.plan.close(code))
    }
}
