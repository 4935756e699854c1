//! A book in tables.

ghost use Rattle.std.specs.Prelude.{◌↔◌, ◌≡◌, ◌⊎◌, Err, false, IsOkUnless, IsSomeAnd, IsTrue, MatchResult, None, OnErr, OnOk, Some, true};
ghost use Rattle.std.specs.Borrow.{sem};
ghost use Rattle.bsp_book.specs.Calls.{Commits, FallsBack, Faults, LeavesEither};
ghost use Rattle.bsp_rows.specs.Rows.{HasNumberKey, Rows, key_of};
ghost use Rattle.bsp_store_open.specs.Formed.{IsFormedItem};
ghost use Rattle.bsp_store.specs.Keeping.{IfKept};
ghost use Rattle.bsp_store.specs.Meanings.{IsOfRoom, cause_of, is_over, meaning};

use crate::keeping::{InMemory, Keeps};
use bsp_book::{Book, BookFault, ListBook, UsedRange};
use bsp_rows::{
    AgentCode, AirlineCode, Change, Day, Item, ItemKey, Items, Memo, MemoKey, Memos, PeriodCode,
    Plan, PlanFault, PlanText, Range, RangeKey, Tallies, Tally, TallyKey, Token, Transaction,
};
use bsp_store_open::{
    OpenFault, formed_agent, formed_airline, formed_closed, formed_day, formed_item, formed_memo,
    formed_period, formed_plan, formed_range,
};
use sqlite::{Connection, Error};
use std::alloc::Global;

/// Whether a book can be used.
#[derive(Clone, Copy)]
enum State {
    Works,
    /// With the error of the store, if it failed with one.
    Failed(Option<Error>),
}

/// A book in memory, and what keeps its rows.
///
/// It answers each look-up from memory. A commit keeps what has changed since the last one.
#[derive(Drop)]
pub struct KeptBook<L, C> {
    alloc: Global,
    list: L,
    conn: C,
    state: State,
    /// The error of the store for which the last commit that failed was given up.
    given_up: Option<Error>,
}

/// A book in tables of `sqlite`.
///
/// It has the rows in memory too, and answers each look-up from there. A commit writes what has changed since the
/// last one, in one transaction of the store.
pub type SqlBook<S> = KeptBook<ListBook, Connection<S>>;

/// Whether a store had no memory, or a row is too big for it.
fn is_room(error: &Error) -> bool
    ensures { IsTrue result ↔ IsOfRoom error.now }
{
    matches!(OpenFault::from(*error), OpenFault::NoRoom)
}

/// The second of two values. The first is dropped.
fn second_of<A: Drop, B>(_first: A, second: B) -> B
    ensures { result ≡ second }
{
    second
}

/// What the types of an item say of it, under the key of its number.
fn formed_under_key(item: &Item)
    requires { HasNumberKey item.now }
    ensures { IsFormedItem (key_of item.now, item.now) }
{
    let Some(key) = ItemKey::of(item) else {
        unreachable!()
    };
    formed_item(key, *item);
}

impl<L, C> KeptBook<L, C> {
    /// A book of a list that is kept.
    pub(crate) fn of(alloc: Global, list: L, conn: C) -> KeptBook<L, C>
        ensures { (result.list ≡ list) × (result.conn ≡ conn) × (result.state ≡ State.Works) }
    {
        KeptBook {
            alloc,
            list,
            conn,
            state: State::Works,
            given_up: None,
        }
    }

    /// The rows in memory.
    pub fn list(&self) -> &L
        ensures { result.now ≡ self.now.list }
    {
        &self.list
    }

    /// The error of the store with which the book failed. None where it has not failed, or failed without one.
    pub fn cause(&self) -> Option<Error>
        ensures { result ≡ cause_of self.now.state }
    {
        match self.state {
            State::Works => None,
            State::Failed(cause) => cause,
        }
    }

    /// The error of the store for which the last commit that failed was given up. None where none was.
    pub fn given_up(&self) -> Option<Error>
        ensures { result ≡ self.now.given_up }
    {
        self.given_up
    }
}

impl<L: Drop, C> KeptBook<L, C> {
    /// Gives the connection back as it is, also after a failure.
    pub fn release(self) -> C
        ensures { result ≡ self.conn }
    {
        let KeptBook { list, conn, .. } = self;
        second_of(list, conn)
    }
}

impl<L: InMemory, C: Keeps<L>> KeptBook<L, C> {
    ghost use Rattle.bsp_store.specs.Lending.{LendsList};

    /// The rows in memory, unless a call has failed.
    fn working(&mut self) -> Result<&mut L, BookFault>
        ensures* lends { sem 𝓛 (LendsList L.row C.row self.entry result) }
        ensures found { MatchResult result (λ list. (list.now ≡ self.old.list) × (self.old.state ≡ State.Works)) (λ e. (e ≡ BookFault.Failed) × (is_over self.old.state ≡ true)) }
    {
        match self.state {
            State::Works => Ok(&mut self.list),
            State::Failed(_) => Err(BookFault::Failed),
        }
    }

    /// Gives up the open transaction after an error of the store. Where the cause was room and the store can still be
    /// used, nothing is left of the transaction. Otherwise the book has failed.
    fn give_up(&mut self, error: Error) -> BookFault
        ensures full { result ≡ BookFault.NoRoom → (self.new.state ≡ self.old.state) × ((last now : Rows) → C.has_stopped self.old.conn last now → C.keeps self.new.conn last) × FallsBack L.Book.means self.old.list self.new.list }
        ensures given_up { self.new.given_up ≡ Some error }
        ensures room { result ≡ BookFault.NoRoom → IsOfRoom error }
        ensures failed { result ≡ BookFault.Failed → self.new.state ≡ State.Failed (Some error) }
        ensures stop { (last now : Rows) → C.has_stopped self.old.conn last now → C.leaves self.new.conn last now }
    {
        self.given_up = Some(error);
        let alive = self.conn.recover();
        if alive && is_room(&error) && self.list.roll_back().is_ok() {
            return BookFault::NoRoom;
        }
        self.state = State::Failed(Some(error));
        BookFault::Failed
    }

    /// Keeps in memory what the store has committed. A book whose memory did not would show other rows than its store
    /// has: it has failed.
    fn keep(&mut self) -> Result<(), BookFault>
        ensures ok { OnOk result ((self.new.state ≡ self.old.state) × Commits L.Book.means self.old.list self.new.list) }
        ensures err { OnErr result (self.new.state ≡ State.Failed None) }
        ensures fault { IsOkUnless result BookFault.Failed }
        ensures conn { self.new.conn ≡ self.old.conn }
    {
        match self.list.commit() {
            Ok(()) => Ok(()),
            Err(_) => {
                self.state = State::Failed(None);
                Err(BookFault::Failed)
            }
        }
    }
}

impl<L: InMemory, C: Keeps<L>> Book for KeptBook<L, C> {
    ghost use Rattle.bsp_store.specs.Meanings.{meaning};

    ghost means = { meaning L.Book.means C.keeps C.leaves };

    ghost settled = { λ book now begun holds. C.rests book.conn _ _ holds.was_formed holds.kept };

    ghost wider = { λ book a b one. C.wider book.conn a b one };

    fn has_failed(&self) -> bool {
        matches!(self.state, State::Failed(_))
    }

    fn is_open(&self) -> bool {
        self.list.is_open()
    }

    fn plan(&self) -> &Plan {
        self.list.plan()
    }

    fn begin(&mut self) -> Result<(), BookFault> {
        self.working()?.begin()
    }

    /// Where `NoRoom` is answered, the error in `given_up` is one that an opening answers with B01. Where a book that works
    /// answers `Failed`, its `cause` is the error in `given_up`; or it is none, and the store has committed what memory did
    /// not keep.
    fn commit(&mut self) -> Result<(), BookFault>
        ensures ok { OnOk result (Commits (meaning L.Book.means C.keeps C.leaves) self.old self.new) }
        ensures fault { Faults (meaning L.Book.means C.keeps C.leaves) self.old self.new (FallsBack (meaning L.Book.means C.keeps C.leaves) self.old self.new) (LeavesEither (meaning L.Book.means C.keeps C.leaves) self.old self.new) result }
        ensures room { result ≡ Err BookFault.NoRoom → IsSomeAnd self.new.given_up IsOfRoom }
        ensures failed { result ≡ Err BookFault.Failed → is_over self.old.state ≡ false → ((cause_of self.new.state ≡ None) × IfKept L.Book.means C.keeps self.old.list self.old.conn (λ last now. C.keeps self.new.conn now)) ⊎ (cause_of self.new.state ≡ self.new.given_up) }
    {
        if self.has_failed() {
            return Err(BookFault::Failed);
        }
        match self.conn.save(self.alloc, &self.list) {
            Ok(()) => self.keep(),
            Err(error) => Err(self.give_up(error)),
        }
    }

    fn roll_back(&mut self) -> Result<(), BookFault> {
        self.working()?.roll_back()
    }

    fn agent_token(&mut self, agent: AgentCode) -> Result<Option<Token>, BookFault> {
        self.working()?.agent_token(agent)
    }

    fn airline_token(&mut self, airline: AirlineCode) -> Result<Option<Token>, BookFault> {
        self.working()?.airline_token(airline)
    }

    fn ranges(&mut self, agent: AgentCode) -> Result<Vec<Range>, BookFault> {
        self.working()?.ranges(agent)
    }

    fn stock(&mut self, agent: AgentCode) -> Result<Vec<UsedRange>, BookFault> {
        self.working()?.stock(agent)
    }

    fn meets_range(&mut self, range: Range) -> Result<bool, BookFault> {
        self.working()?.meets_range(range)
    }

    fn is_range_used(&mut self, agent: AgentCode, range: Range) -> Result<bool, BookFault> {
        self.working()?.is_range_used(agent, range)
    }

    fn items_bearing(
        &mut self,
        agent: AgentCode,
        transaction: &Transaction,
    ) -> Result<Vec<Item>, BookFault> {
        self.working()?.items_bearing(agent, transaction)
    }

    fn items_with_number(
        &mut self,
        agent: AgentCode,
        number: &[u8; 10],
    ) -> Result<Vec<Item>, BookFault> {
        self.working()?.items_with_number(agent, number)
    }

    fn items(&mut self, which: Items) -> Result<Vec<Item>, BookFault> {
        self.working()?.items(which)
    }

    fn memo(&mut self, key: MemoKey) -> Result<Option<Memo>, BookFault> {
        self.working()?.memo(key)
    }

    fn memos(&mut self, which: Memos) -> Result<Vec<Memo>, BookFault> {
        self.working()?.memos(which)
    }

    fn issued_count(&mut self, agent: AgentCode, airline: AirlineCode) -> Result<u64, BookFault> {
        self.working()?.issued_count(agent, airline)
    }

    fn tally(&mut self, key: TallyKey) -> Result<Tally, BookFault> {
        self.working()?.tally(key)
    }

    fn tallies(&mut self, which: Tallies) -> Result<Vec<Tally>, BookFault> {
        self.working()?.tallies(which)
    }

    fn set_agent_token(&mut self, agent: AgentCode, token: Token) -> Result<(), BookFault> {
        formed_agent(agent, token);
        self.working()?.set_agent_token(agent, token)
    }

    fn set_airline_token(&mut self, airline: AirlineCode, token: Token) -> Result<(), BookFault> {
        formed_airline(airline, token);
        self.working()?.set_airline_token(airline, token)
    }

    fn add_range(&mut self, agent: AgentCode, range: Range) -> Result<(), BookFault> {
        formed_range(RangeKey::of(agent, &range), range.last);
        self.working()?.add_range(agent, range)
    }

    fn withdraw_range(&mut self, agent: AgentCode, range: Range) -> Result<(), BookFault> {
        self.working()?.withdraw_range(agent, range)
    }

    fn add_item(&mut self, item: &Item) -> Result<(), BookFault> {
        formed_under_key(item);
        self.working()?.add_item(item)
    }

    fn end_item(&mut self, key: ItemKey) -> Result<(), BookFault> {
        self.working()?.end_item(key)
    }

    fn add_memo(&mut self, memo: &Memo) -> Result<(), BookFault> {
        formed_memo(MemoKey::of(memo.fields()), *memo.fields());
        self.working()?.add_memo(memo)
    }

    fn set_memo(&mut self, memo: &Memo) -> Result<(), BookFault> {
        formed_memo(MemoKey::of(memo.fields()), *memo.fields());
        self.working()?.set_memo(memo)
    }

    fn bill(&mut self, key: MemoKey, period: PeriodCode) -> Result<(), BookFault> {
        formed_period(period);
        self.working()?.bill(key, period)
    }

    fn publish(&mut self, text: &PlanText) -> Result<Result<Change, PlanFault>, BookFault> {
        let list = self.working()?;
        let answer = list.publish(text);
        formed_plan(list.plan());
        answer
    }

    fn set_day(&mut self, day: Day) -> Result<Result<Change, PlanFault>, BookFault> {
        formed_day(day);
        self.working()?.set_day(day)
    }

    fn close(&mut self, code: PeriodCode) -> Result<Result<Change, PlanFault>, BookFault> {
        let list = self.working()?;
        let answer = list.close(code);
        formed_closed(list.plan());
        answer
    }
}
