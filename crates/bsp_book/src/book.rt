//! What a book promises, however it keeps its rows.

ghost use Rattle.std.specs.Prelude.{◌≡◌, OnOk, Option, None, is_some, unwrap_or, ⊤};
ghost use Rattle.bsp_rows.specs.History.{Request};
ghost use Rattle.bsp_rows.specs.History.Request.{Close, Publish, SetDay};
ghost use Rattle.bsp_book.specs.Calls.{Answers, Begins, Commits, FallsBack, Faults, LeavesEither, LeavesLast, LeavesNow, LooksUp, Makes, Meaning, Stays};
ghost use Rattle.bsp_memory_rows.specs.Lookups.{items_with_number, stock_of};
ghost use Rattle.bsp_rows.specs.Laws.{issued_count};
ghost use Rattle.bsp_rows.specs.Rows.{HasNumberKey, Rows, agent_token, airline_token, has_meeting, is_used_in, item_at, items_bearing, items_of, key_of, memo_at, memo_key, memos_of, ranges_of};
ghost use Rattle.bsp_rows.specs.Tallies.{tallies_of, tally_of};
ghost use Rattle.bsp_rows.specs.Writes.{IsFree, IsThere, MayBeAdded, MayBeBilled, after_request, request_answer, with_agent_token, with_airline_token, with_billing, with_end, with_item, with_memo, with_range, without_range};

use crate::fault::BookFault;
use bsp_memory_rows::UsedRange;
use bsp_rows::{
    AgentCode, AirlineCode, Change, Day, Item, ItemKey, Items, Memo, MemoKey, Memos, PeriodCode,
    Plan, PlanFault, PlanText, Range, Tallies, Tally, TallyKey, Token, Transaction,
};

/// The rows of all callers, however they are kept, and the published plan.
///
/// Look-ups are made in an open transaction or outside, and writes in an open one; `begin` opens one, `commit` keeps
/// what it wrote and `roll_back` undoes it. A call that finds no room undoes what the open transaction wrote, and none
/// is open then. From its first `Failed` on a book answers `Failed` to each call.
///
/// A look-up by a key takes time that grows with the rows that it gives, and with the logarithm of
/// the rows of the book. Those that read more say so.
pub trait Book {
    ghost means: { Meaning Self Rows };

    /// Whether a call has answered `Failed`.
    fn has_failed(&self) -> bool
        ensures { result ≡ means.has_failed self.now };

    /// Whether a transaction is open.
    fn is_open(&self) -> bool
        ensures { (now : Rows) (begun : Option Rows) → means.holds self.now now begun → result ≡ is_some begun };

    /// The published plan.
    fn plan(&self) -> &Plan
        ensures { means.trusts self.now → (now : Rows) (begun : Option Rows) → means.holds self.now now begun → result.now ≡ now.published };

    /// Opens a transaction, where none is open.
    ///
    /// # Errors
    ///
    /// `NoRoom`, and the rows are then as they were, or `Failed`.
    fn begin(&mut self) -> Result<(), BookFault>
        ensures ok { OnOk result (Begins means self.old self.new) }
        ensures fault { Faults means self.old self.new (Stays means self.old self.new) (LeavesNow means self.old self.new) result };

    /// Keeps what the open transaction wrote.
    ///
    /// # Errors
    ///
    /// `NoRoom` or `Failed`, as of each call below. After `Failed` a stop leaves the rows of the last commit or
    /// those that this one was to keep.
    fn commit(&mut self) -> Result<(), BookFault>
        ensures ok { OnOk result (Commits means self.old self.new) }
        ensures fault { Faults means self.old self.new (FallsBack means self.old self.new) (LeavesEither means self.old self.new) result };

    /// Undoes what the open transaction wrote.
    fn roll_back(&mut self) -> Result<(), BookFault>
        ensures ok { OnOk result (FallsBack means self.old self.new) }
        ensures fault { Faults means self.old self.new (FallsBack means self.old self.new) (LeavesLast means self.old self.new) result };

    /// The token of an agent, if it is registered.
    fn agent_token(&mut self, agent: AgentCode) -> Result<Option<Token>, BookFault>
        ensures { LooksUp means self.old self.new result (λ found. found) (agent_token agent) };

    /// The token of an airline, if it is registered.
    fn airline_token(&mut self, airline: AirlineCode) -> Result<Option<Token>, BookFault>
        ensures { LooksUp means self.old self.new result (λ found. found) (airline_token airline) };

    /// The ranges of an agent, by their first numbers.
    fn ranges(&mut self, agent: AgentCode) -> Result<Vec<Range>, BookFault>
        ensures { LooksUp means self.old self.new result (λ found. found.items) (ranges_of agent) };

    /// The ranges of an agent, by their first numbers, each with how many of its numbers have an item. A number
    /// counts once, also where it has a CANX.
    fn stock(&mut self, agent: AgentCode) -> Result<Vec<UsedRange>, BookFault>
        ensures { LooksUp means self.old self.new result (λ found. found.items) (stock_of agent) };

    /// Whether a range of any agent has a number of this one.
    fn meets_range(&mut self, range: Range) -> Result<bool, BookFault>
        ensures { LooksUp means self.old self.new result (λ found. found) (has_meeting range) };

    /// Whether an item of the agent has a number of the range.
    fn is_range_used(&mut self, agent: AgentCode, range: Range) -> Result<bool, BookFault>
        ensures { LooksUp means self.old self.new result (λ found. found) (is_used_in agent range) };

    /// The items of an agent that share a number with a transaction, in the order of their keys.
    fn items_bearing(
        &mut self,
        agent: AgentCode,
        transaction: &Transaction,
    ) -> Result<Vec<Item>, BookFault>
        ensures { LooksUp means self.old self.new result (λ found. found.items) (items_bearing agent transaction.now) };

    /// The items of an agent that bear a number, as their own or a related one, in the order of their keys.
    fn items_with_number(
        &mut self,
        agent: AgentCode,
        number: &[u8; 10],
    ) -> Result<Vec<Item>, BookFault>
        ensures { LooksUp means self.old self.new result (λ found. found.items) (items_with_number agent number.now) };

    /// The items that are asked for, in the order of their keys. For an agent it may read all its items, for an
    /// airline all items.
    fn items(&mut self, which: Items) -> Result<Vec<Item>, BookFault>
        ensures { LooksUp means self.old self.new result (λ found. found.items) (items_of which) };

    /// The memo of a key.
    fn memo(&mut self, key: MemoKey) -> Result<Option<Memo>, BookFault>
        ensures { LooksUp means self.old self.new result (λ found. found) (memo_at key) };

    /// The memos that are asked for, in the order of their keys. For an airline it may read all its memos, else
    /// all memos.
    fn memos(&mut self, which: Memos) -> Result<Vec<Memo>, BookFault>
        ensures { LooksUp means self.old self.new result (λ found. found.items) (memos_of which) };

    /// How many memos an airline has issued to an agent.
    fn issued_count(&mut self, agent: AgentCode, airline: AirlineCode) -> Result<u64, BookFault>
        ensures { LooksUp means self.old self.new result (λ found. found) (issued_count agent airline) };

    /// The tally of an agent, an airline and a period.
    fn tally(&mut self, key: TallyKey) -> Result<Tally, BookFault>
        ensures { LooksUp means self.old self.new result (λ found. found) (tally_of key) };

    /// The tallies that are asked for and to which some row adds, in the order of their keys. For an agent it
    /// may read all its tallies, else all tallies.
    fn tallies(&mut self, which: Tallies) -> Result<Vec<Tally>, BookFault>
        ensures { LooksUp means self.old self.new result (λ found. found.items) (tallies_of which) };

    /// Registers an agent, or gives it another token.
    fn set_agent_token(&mut self, agent: AgentCode, token: Token) -> Result<(), BookFault>
        ensures { Makes means self.old self.new result (λ now. ⊤) (with_agent_token agent token) };

    /// Registers an airline, or gives it another token.
    fn set_airline_token(&mut self, airline: AirlineCode, token: Token) -> Result<(), BookFault>
        ensures { Makes means self.old self.new result (λ now. ⊤) (with_airline_token airline token) };

    /// Adds a range of an agent. Its key must be free, its first number not after its last, and no range of any
    /// agent may have a number of it.
    fn add_range(&mut self, agent: AgentCode, range: Range) -> Result<(), BookFault>
        ensures { Makes means self.old self.new result (MayBeAdded agent range) (with_range agent range) };

    /// Withdraws a range of an agent.
    fn withdraw_range(&mut self, agent: AgentCode, range: Range) -> Result<(), BookFault>
        ensures { Makes means self.old self.new result (λ now. ⊤) (without_range agent range) };

    /// Adds an item, whose number must have its check digit, and whose key must be free.
    fn add_item(&mut self, item: &Item) -> Result<(), BookFault>
        requires { HasNumberKey item.now }
        ensures { Makes means self.old self.new result (λ now. IsFree (item_at (key_of item.now) now)) (with_item item.now) };

    /// The item of a key lives no more.
    fn end_item(&mut self, key: ItemKey) -> Result<(), BookFault>
        ensures { Makes means self.old self.new result (λ now. ⊤) (with_end key) };

    /// Adds a memo, whose key must be free.
    fn add_memo(&mut self, memo: &Memo) -> Result<(), BookFault>
        ensures { Makes means self.old self.new result (λ now. IsFree (memo_at (memo_key memo.now) now)) (with_memo memo.now) };

    /// Changes a memo, which must be there.
    fn set_memo(&mut self, memo: &Memo) -> Result<(), BookFault>
        ensures { Makes means self.old self.new result (λ now. IsThere (memo_at (memo_key memo.now) now)) (with_memo memo.now) };

    /// Bills the memo of a key in a period. It must be one that may be billed.
    fn bill(&mut self, key: MemoKey, period: PeriodCode) -> Result<(), BookFault>
        ensures { Makes means self.old self.new result (λ now. MayBeBilled (memo_at key now)) (with_billing key period) };

    /// Publishes the entries of a text that are new. The answer is the plan's, and never out of
    /// memory.
    fn publish(&mut self, text: &PlanText) -> Result<Result<Change, PlanFault>, BookFault>
        ensures { Answers means self.old self.new result (request_answer (Publish text.now)) (after_request (Publish text.now)) };

    /// Sets the business day. The answer is the plan's.
    fn set_day(&mut self, day: Day) -> Result<Result<Change, PlanFault>, BookFault>
        ensures { Answers means self.old self.new result (request_answer (SetDay day)) (after_request (SetDay day)) };

    /// Closes a period. The answer is the plan's.
    fn close(&mut self, code: PeriodCode) -> Result<Result<Change, PlanFault>, BookFault>
        ensures { Answers means self.old self.new result (request_answer (Close code)) (after_request (Close code)) };

    // A stop leaves what the last commit left.
    ghost settled: { (book : Self) (now : Rows) (begun : Option Rows) → means.holds book now begun → means.leaves book (unwrap_or begun now) (unwrap_or begun now) };

    // Of two contents that a stop may leave, one may be the other.
    ghost wider: { (book : Self) (a b : Rows) → means.leaves book a a → means.leaves book a b };
}
