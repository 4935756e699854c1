//! The table of items.

ghost use Rattle.std.specs.Prelude.{◌≡◌, ◌==◌, ◌&&◌, IfOk, is_some, OnOk};
ghost use Rattle.std.specs.FinMap.{empty, entries, get, insert, values};
ghost use Rattle.std.specs.List.{filter, list_any};
ghost use Rattle.bsp_maps.specs.Windows.{values_in};
ghost use Rattle.bsp_rows.specs.RulesRows.{contains};
ghost use Rattle.bsp_rows.specs.Selected.{selected};
ghost use Rattle.bsp_rows.specs.Rows.{is_of_airline};
ghost use Rattle.bsp_memory_tables.specs.Numbers.{bears};
ghost use Rattle.bsp_memory_tables.specs.Used.{used_count};
ghost use Rattle.bsp_memory_tables.specs.ItemTables.{AreItemsKept, WereItemsKept, item_rows, item_rows_before};

use crate::keys::{ItemsOf, ItemsWithin, least_item};
use crate::numbers::{Bearing, Numbers, WithNumber, add_numbers, keys_bearing, keys_with_number};
use crate::places::{AirlinePeriod, item_place};
use crate::used::{Block, count_number, used_count};
use bsp_maps::{Counts, Index, Logged, Old, Rule, Test};
use bsp_rows::{AgentCode, AirlineCode, Item, ItemKey, PeriodCode, Range, Transaction};
use std::alloc::{AllocError, Global};
use std::collections::BTreeMap;

/// The items by their keys, by the numbers that they bear, and by their airlines and periods, and how many numbers of
/// each agent have an item.
#[derive(Drop)]
pub struct ItemTable {
    rows: Logged<ItemKey, Item>,
    by_number: Numbers,
    by_airline: Index<AirlinePeriod, ItemKey>,
    used: Counts<Block>,
}

/// Items of an airline that were accepted in a period.
#[derive(Clone, Copy)]
struct OfAirline {
    airline: AirlineCode,
    period: PeriodCode,
}

impl Rule<ItemKey, Item> for OfAirline {
    ghost holds = { λ rule key i. is_of_airline rule.airline rule.period i };

    fn holds(&self, _key: &ItemKey, item: &Item) -> bool {
        item.transaction.document.airline == self.airline && item.period == self.period
    }
}

impl ItemTable {
    /// No items.
    pub fn new(alloc: Global) -> Self
        ensures rows { item_rows result ≡ empty }
        ensures before { item_rows_before result ≡ empty }
        ensures kept { AreItemsKept result }
        ensures was_kept { WereItemsKept result }
    {
        ItemTable {
            rows: Logged::new(alloc),
            by_number: Logged::new(alloc),
            by_airline: Index::new(alloc),
            used: Counts::new(alloc),
        }
    }

    /// The items.
    pub fn map(&self) -> &BTreeMap<ItemKey, Item>
        ensures { result.now ≡ self.now.rows.map }
    {
        self.rows.map()
    }

    /// The keys that were written since the last commit, in the order of the writes.
    pub fn written(&self) -> &[Old<ItemKey, Item>]
        ensures { result.now ≡ self.now.rows.undo.items }
    {
        self.rows.written()
    }

    /// Keeps what was written.
    pub fn commit(&mut self)
        ensures rows { item_rows self.new ≡ item_rows self.old }
        ensures before { item_rows_before self.new ≡ item_rows self.old }
        ensures kept { AreItemsKept self.old → AreItemsKept self.new }
        ensures was_kept { AreItemsKept self.old → WereItemsKept self.new }
    {
        self.rows.commit();
        self.by_number.commit();
        self.by_airline.commit();
        self.used.commit();
    }

    /// Takes back what was written since the last commit. It takes no memory.
    pub fn roll_back(&mut self)
        ensures rows { item_rows self.new ≡ item_rows_before self.old }
        ensures before { item_rows_before self.new ≡ item_rows_before self.old }
        ensures kept { WereItemsKept self.old → AreItemsKept self.new }
        ensures was_kept { WereItemsKept self.old → WereItemsKept self.new }
    {
        self.rows.roll_back();
        self.by_number.roll_back();
        self.by_airline.roll_back();
        self.used.roll_back();
    }

    /// The item of a key.
    pub fn get(&self, key: ItemKey) -> Option<Item>
        ensures { result ≡ get (item_rows self.now) key }
    {
        self.rows.get(key)
    }

    /// Whether there is an item of the key.
    pub fn has(&self, key: &ItemKey) -> bool
        ensures { result ≡ is_some (get (item_rows self.now) key.now) }
    {
        self.rows.map().contains_key(key)
    }

    /// Writes an item at a key, where `old` is.
    ///
    /// # Errors
    ///
    /// Where an allocation was refused. What the last commit kept is remembered all the same.
    pub fn put(&mut self, key: &ItemKey, old: &Option<Item>, item: &Item) -> Result<(), AllocError>
        requires { old.now ≡ get (item_rows self.old) key.now }
        ensures rows { OnOk result (item_rows self.new ≡ insert (item_rows self.old) key.now item.now) }
        ensures before { item_rows_before self.new ≡ item_rows_before self.old }
        ensures kept { OnOk result (AreItemsKept self.old → AreItemsKept self.new) }
        ensures was_kept { WereItemsKept self.old → WereItemsKept self.new }
    {
        let new = Some(*item);
        add_numbers(&mut self.by_number, key, &item.transaction)?;
        count_number(&mut self.used, key)?;
        self.by_airline
            .relocate(*key, item_place(old), item_place(&new))?;
        self.rows.put(*key, *item)
    }

    /// Whether an item of the agent has a number of the range. It reads one key.
    pub fn is_any_within(&self, agent: AgentCode, range: &Range) -> bool
        ensures { result ≡ list_any (λ e. (e.0.agent == agent) && contains e.0.number range.now) (entries (item_rows self.now)) }
    {
        let range = *range;
        self.rows.has_any(&ItemsWithin { agent, range })
    }

    /// How many numbers of a range have an item of the agent. A number counts once, also where it has a CANX. It
    /// reads a few hundred counts, and no item.
    ///
    /// # Errors
    ///
    /// Where there were more numbers than any memory has.
    pub fn used_count(&self, agent: AgentCode, range: &Range) -> Result<u64, AllocError>
        ensures { IfOk result (λ count. AreItemsKept self.now → count ≡ used_count agent range.now (item_rows self.now)) }
    {
        used_count(&self.used, agent, range)
    }

    /// The items of an agent that pass a test, in the order of their keys. It reads that agent's alone.
    ///
    /// # Errors
    ///
    /// Where an allocation was refused, as of each look-up that gives a list.
    pub fn of_agent<T: Test<Item>>(
        &self,
        alloc: Global,
        agent: AgentCode,
        test: &T,
    ) -> Result<Vec<Item>, AllocError>
        ensures { IfOk result (λ found. found.items ≡ filter (T.passes test.now) (values_in (λ k. k.agent == agent) (entries (item_rows self.now)))) }
    {
        self.rows.chosen(alloc, &ItemsOf(agent), test)
    }

    /// The items of an agent that share a number with a transaction, in the order of their keys. It reads those
    /// alone.
    pub fn bearing(
        &self,
        alloc: Global,
        agent: AgentCode,
        transaction: &Transaction,
    ) -> Result<Vec<Item>, AllocError>
        ensures { IfOk result (λ found. AreItemsKept self.now → found.items ≡ selected transaction.now (values_in (λ k. k.agent == agent) (entries (item_rows self.now)))) }
    {
        let keys = keys_bearing(alloc, &self.by_number, agent, transaction)?;
        self.rows
            .picked(alloc, &keys, &Bearing { agent, transaction })
    }

    /// The items of an agent that bear a number, as their own or a related one, in the order of their keys. It reads
    /// those alone.
    pub fn with_number(
        &self,
        alloc: Global,
        agent: AgentCode,
        number: &[u8; 10],
    ) -> Result<Vec<Item>, AllocError>
        ensures { IfOk result (λ found. AreItemsKept self.now → found.items ≡ filter (bears number.now) (values_in (λ k. k.agent == agent) (entries (item_rows self.now)))) }
    {
        let keys = keys_with_number(alloc, &self.by_number, agent, number)?;
        let number = *number;
        self.rows
            .picked(alloc, &keys, &WithNumber { agent, number })
    }

    /// The items of an airline that were accepted in a period, in the order of their keys. It reads those alone.
    pub fn of_airline(
        &self,
        alloc: Global,
        airline: AirlineCode,
        period: PeriodCode,
    ) -> Result<Vec<Item>, AllocError>
        ensures { IfOk result (λ found. AreItemsKept self.now → found.items ≡ filter (is_of_airline airline period) (values (item_rows self.now))) }
    {
        let place = AirlinePeriod { airline, period };
        let keys = self.by_airline.keys_at(alloc, place, least_item())?;
        self.rows
            .picked(alloc, &keys, &OfAirline { airline, period })
    }
}
