//! A book in memory.

ghost use Rattle.std.specs.Prelude.{◌≡◌, IfOk, IsOkUnless, None, Option};
ghost use Rattle.std.specs.Bool.{Decides};
ghost use Rattle.bsp_rows.specs.Rows.{Rows, no_rows};
ghost use Rattle.bsp_rows.specs.Sound.{Sound};
ghost use Rattle.bsp_memory_rows.specs.Tables.{rows_of};
ghost use Rattle.bsp_book.specs.Listed.{AreCommitted, IsUndone, meaning};

use crate::book::Book;
use crate::fault::BookFault;
use bsp_memory_rows::{Tables, UsedRange};
use bsp_rows::{
    AgentCode, AirlineCode, Change, Day, Item, ItemKey, Items, Memo, MemoKey, Memos, PeriodCode,
    Plan, PlanFault, PlanText, Range, Tallies, Tally, TallyKey, Token, Transaction,
};
use std::alloc::Global;

/// A book in memory. It never answers `Failed`.
///
/// It keeps the tallies and indexes of the rows. Ranges go by their last numbers. Items go by their
/// numbers, and by their airlines and periods. Memos go by their agents, and the unbilled ones have
/// an index too. So has the number of memos that each airline has issued to each agent. Tallies go
/// by their airlines and periods, and by their periods. The numbers of each agent that have an item are
/// counted by blocks, and so those of a range without reading the items.
#[derive(Drop)]
pub struct ListBook {
    alloc: Global,
    tables: Tables,
    is_open: bool,
}

impl ListBook {
    /// An empty book: no rows, and nothing is published. No transaction is open.
    pub fn new(alloc: Global) -> Self
        ensures { meaning.holds result no_rows None }
    {
        ListBook {
            alloc,
            tables: Tables::new(alloc),
            is_open: false,
        }
    }

    /// A book of tables, in which no transaction is open.
    pub fn over(alloc: Global, tables: Tables) -> Self
        requires { AreCommitted tables }
        ensures tables { result.tables ≡ tables }
        ensures holds { meaning.holds result (rows_of tables) None }
    {
        ListBook {
            alloc,
            tables,
            is_open: false,
        }
    }

    /// The tables of the rows.
    pub fn tables(&self) -> &Tables
        ensures { result.now ≡ self.now.tables }
    {
        &self.tables
    }

    /// Whether the rows are sound. It takes time and memory in proportion to the rows, and a logarithm.
    ///
    /// # Errors
    ///
    /// `NoRoom`, where an allocation was refused. The book is then as it was.
    pub fn sound(&self) -> Result<bool, BookFault>
        ensures sound { IfOk result (λ sound. Decides sound (Sound (rows_of self.now.tables))) }
        ensures held { IfOk result (λ sound. (now : Rows) (begun : Option Rows) → meaning.holds self.now now begun → Decides sound (Sound now)) }
        ensures fault { IsOkUnless result BookFault.NoRoom }
    {
        match self.tables.are_sound(self.alloc) {
            Ok(sound) => Ok(sound),
            Err(_) => Err(BookFault::NoRoom),
        }
    }

    /// Undoes what the open transaction wrote, for want of room.
    fn undo(&mut self) -> BookFault
        ensures fault { result ≡ BookFault.NoRoom }
        ensures undone { IsUndone self.old self.new }
    {
        self.tables.roll_back();
        self.is_open = false;
        BookFault::NoRoom
    }
}

impl Book for ListBook {
    ghost means = { meaning };

    ghost settled = { λ book now begun is. tt };

    ghost wider = { λ book a b is. tt };

    fn has_failed(&self) -> bool {
        false
    }

    fn is_open(&self) -> bool {
        self.is_open
    }

    fn plan(&self) -> &Plan {
        self.tables.plan()
    }

    fn begin(&mut self) -> Result<(), BookFault> {
        self.is_open = true;
        Ok(())
    }

    fn commit(&mut self) -> Result<(), BookFault> {
        self.tables.commit();
        self.is_open = false;
        Ok(())
    }

    fn roll_back(&mut self) -> Result<(), BookFault> {
        let _ = self.undo();
        Ok(())
    }

    fn agent_token(&mut self, agent: AgentCode) -> Result<Option<Token>, BookFault> {
        Ok(self.tables.agent_token(agent))
    }

    fn airline_token(&mut self, airline: AirlineCode) -> Result<Option<Token>, BookFault> {
        Ok(self.tables.airline_token(airline))
    }

    fn ranges(&mut self, agent: AgentCode) -> Result<Vec<Range>, BookFault> {
        match self.tables.ranges(self.alloc, agent) {
            Ok(found) => Ok(found),
            Err(_) => Err(self.undo()),
        }
    }

    fn stock(&mut self, agent: AgentCode) -> Result<Vec<UsedRange>, BookFault> {
        match self.tables.stock(self.alloc, agent) {
            Ok(found) => Ok(found),
            Err(_) => Err(self.undo()),
        }
    }

    fn meets_range(&mut self, range: Range) -> Result<bool, BookFault> {
        Ok(self.tables.meets_range(&range))
    }

    fn is_range_used(&mut self, agent: AgentCode, range: Range) -> Result<bool, BookFault> {
        Ok(self.tables.is_range_used(agent, &range))
    }

    fn items_bearing(
        &mut self,
        agent: AgentCode,
        transaction: &Transaction,
    ) -> Result<Vec<Item>, BookFault> {
        match self.tables.items_bearing(self.alloc, agent, transaction) {
            Ok(found) => Ok(found),
            Err(_) => Err(self.undo()),
        }
    }

    fn items_with_number(
        &mut self,
        agent: AgentCode,
        number: &[u8; 10],
    ) -> Result<Vec<Item>, BookFault> {
        match self.tables.items_with_number(self.alloc, agent, number) {
            Ok(found) => Ok(found),
            Err(_) => Err(self.undo()),
        }
    }

    fn items(&mut self, which: Items) -> Result<Vec<Item>, BookFault> {
        match self.tables.items(self.alloc, &which) {
            Ok(found) => Ok(found),
            Err(_) => Err(self.undo()),
        }
    }

    fn memo(&mut self, key: MemoKey) -> Result<Option<Memo>, BookFault> {
        Ok(self.tables.memo(key))
    }

    fn memos(&mut self, which: Memos) -> Result<Vec<Memo>, BookFault> {
        match self.tables.memos(self.alloc, &which) {
            Ok(found) => Ok(found),
            Err(_) => Err(self.undo()),
        }
    }

    fn issued_count(&mut self, agent: AgentCode, airline: AirlineCode) -> Result<u64, BookFault> {
        Ok(self.tables.issued_count(agent, airline))
    }

    fn tally(&mut self, key: TallyKey) -> Result<Tally, BookFault> {
        Ok(self.tables.tally(&key))
    }

    fn tallies(&mut self, which: Tallies) -> Result<Vec<Tally>, BookFault> {
        match self.tables.tallies(self.alloc, &which) {
            Ok(found) => Ok(found),
            Err(_) => Err(self.undo()),
        }
    }

    fn set_agent_token(&mut self, agent: AgentCode, token: Token) -> Result<(), BookFault> {
        match self.tables.set_agent_token(agent, token) {
            Ok(()) => Ok(()),
            Err(_) => Err(self.undo()),
        }
    }

    fn set_airline_token(&mut self, airline: AirlineCode, token: Token) -> Result<(), BookFault> {
        match self.tables.set_airline_token(airline, token) {
            Ok(()) => Ok(()),
            Err(_) => Err(self.undo()),
        }
    }

    fn add_range(&mut self, agent: AgentCode, range: Range) -> Result<(), BookFault> {
        match self.tables.add_range(agent, &range) {
            Ok(()) => Ok(()),
            Err(_) => Err(self.undo()),
        }
    }

    fn withdraw_range(&mut self, agent: AgentCode, range: Range) -> Result<(), BookFault> {
        match self.tables.withdraw_range(agent, &range) {
            Ok(()) => Ok(()),
            Err(_) => Err(self.undo()),
        }
    }

    fn add_item(&mut self, item: &Item) -> Result<(), BookFault> {
        match self.tables.add_item(item) {
            Ok(()) => Ok(()),
            Err(_) => Err(self.undo()),
        }
    }

    fn end_item(&mut self, key: ItemKey) -> Result<(), BookFault> {
        match self.tables.end_item(key) {
            Ok(()) => Ok(()),
            Err(_) => Err(self.undo()),
        }
    }

    fn add_memo(&mut self, memo: &Memo) -> Result<(), BookFault> {
        match self.tables.put_memo(memo) {
            Ok(()) => Ok(()),
            Err(_) => Err(self.undo()),
        }
    }

    fn set_memo(&mut self, memo: &Memo) -> Result<(), BookFault> {
        match self.tables.put_memo(memo) {
            Ok(()) => Ok(()),
            Err(_) => Err(self.undo()),
        }
    }

    fn bill(&mut self, key: MemoKey, period: PeriodCode) -> Result<(), BookFault> {
        match self.tables.bill(key, period) {
            Ok(()) => Ok(()),
            Err(_) => Err(self.undo()),
        }
    }

    fn publish(&mut self, text: &PlanText) -> Result<Result<Change, PlanFault>, BookFault> {
        match self.tables.publish(text) {
            Ok(answer) => Ok(answer),
            Err(_) => Err(self.undo()),
        }
    }

    fn set_day(&mut self, day: Day) -> Result<Result<Change, PlanFault>, BookFault> {
        match self.tables.set_day(day) {
            Ok(answer) => Ok(answer),
            Err(_) => Err(self.undo()),
        }
    }

    fn close(&mut self, code: PeriodCode) -> Result<Result<Change, PlanFault>, BookFault> {
        match self.tables.close(code) {
            Ok(answer) => Ok(answer),
            Err(_) => Err(self.undo()),
        }
    }
}
