//! The table of tallies.

ghost use Rattle.std.specs.Prelude.{◌≡◌, ◌==◌, ◌&&◌, true, IfOk, OnOk, map};
ghost use Rattle.std.specs.FinMap.{empty, entries, get, insert};
ghost use Rattle.std.specs.List.{filter};
ghost use Rattle.bsp_maps.specs.Windows.{entries_in};
ghost use Rattle.bsp_rows.specs.Tally.{Tally as TallyValue};
ghost use Rattle.bsp_rows.specs.declared.keys.TallyKey.{TallyKey as TallyKeyValue};
ghost use Rattle.bsp_memory_tables.specs.TallyTables.{AreTalliesKept, WereTalliesKept, tally_rows, tally_rows_before};

use crate::keys::{TalliesOf, least_tally};
use crate::places::{AirlinePeriod, tally_airline_place, tally_period_place};
use bsp_maps::{Index, Logged, Old, Rule};
use bsp_rows::{AgentCode, AirlineCode, PeriodCode, Tally, TallyKey};
use std::alloc::{AllocError, Global};
use std::collections::BTreeMap;

/// The tallies that are kept, by their keys, by their airlines and periods, and by their periods.
#[derive(Drop)]
pub struct TallyTable {
    rows: Logged<TallyKey, Tally>,
    by_airline: Index<AirlinePeriod, TallyKey>,
    by_period: Index<PeriodCode, TallyKey>,
}

impl TallyTable {
    /// No tallies.
    pub fn new(alloc: Global) -> Self
        ensures rows { tally_rows result ≡ empty }
        ensures before { tally_rows_before result ≡ empty }
        ensures kept { AreTalliesKept result }
        ensures was_kept { WereTalliesKept result }
    {
        TallyTable {
            rows: Logged::new(alloc),
            by_airline: Index::new(alloc),
            by_period: Index::new(alloc),
        }
    }

    /// The tallies that are kept.
    pub fn map(&self) -> &BTreeMap<TallyKey, Tally>
        ensures { result.now ≡ self.now.rows.map }
    {
        self.rows.map()
    }

    /// The keys that were written since the last commit, in the order of the writes.
    pub fn written(&self) -> &[Old<TallyKey, Tally>]
        ensures { result.now ≡ self.now.rows.undo.items }
    {
        self.rows.written()
    }

    /// Keeps what was written.
    pub fn commit(&mut self)
        ensures rows { tally_rows self.new ≡ tally_rows self.old }
        ensures before { tally_rows_before self.new ≡ tally_rows self.old }
        ensures kept { AreTalliesKept self.old → AreTalliesKept self.new }
        ensures was_kept { AreTalliesKept self.old → WereTalliesKept self.new }
    {
        self.rows.commit();
        self.by_airline.commit();
        self.by_period.commit();
    }

    /// Takes back what was written since the last commit. It takes no memory.
    pub fn roll_back(&mut self)
        ensures rows { tally_rows self.new ≡ tally_rows_before self.old }
        ensures before { tally_rows_before self.new ≡ tally_rows_before self.old }
        ensures kept { WereTalliesKept self.old → AreTalliesKept self.new }
        ensures was_kept { WereTalliesKept self.old → WereTalliesKept self.new }
    {
        self.rows.roll_back();
        self.by_airline.roll_back();
        self.by_period.roll_back();
    }

    /// The tally that is kept for a key, if one is.
    pub fn get(&self, key: TallyKey) -> Option<Tally>
        ensures { result ≡ get (tally_rows self.now) key }
    {
        self.rows.get(key)
    }

    /// Keeps a tally for a key.
    ///
    /// # Errors
    ///
    /// Where an allocation was refused. What the last commit kept is remembered all the same.
    pub fn put(&mut self, key: &TallyKey, tally: &Tally) -> Result<(), AllocError>
        ensures rows { OnOk result (tally_rows self.new ≡ insert (tally_rows self.old) key.now tally.now) }
        ensures before { tally_rows_before self.new ≡ tally_rows_before self.old }
        ensures kept { OnOk result (AreTalliesKept self.old → AreTalliesKept self.new) }
        ensures was_kept { WereTalliesKept self.old → WereTalliesKept self.new }
    {
        let old = self.rows.replace(*key, *tally)?;
        let new = Some(*tally);
        self.by_airline.relocate(
            *key,
            tally_airline_place(key, &old),
            tally_airline_place(key, &new),
        )?;
        self.by_period.relocate(
            *key,
            tally_period_place(key, &old),
            tally_period_place(key, &new),
        )
    }

    /// The keys of an agent and their tallies, in the order of the keys. It reads those alone.
    ///
    /// # Errors
    ///
    /// Where an allocation was refused, as of each look-up that gives a list.
    pub fn of_agent(
        &self,
        alloc: Global,
        agent: AgentCode,
    ) -> Result<Vec<(TallyKey, Tally)>, AllocError>
        ensures { IfOk result (λ found. found.items ≡ entries_in (λ key. key.agent == agent) (entries (tally_rows self.now))) }
    {
        self.rows.entries_in(alloc, &TalliesOf(agent))
    }

    /// The tallies of which a rule holds, in the order of their keys, where it holds of none but those of an
    /// airline in a period. It reads these alone.
    pub fn of_airline<T: Rule<TallyKey, Tally>>(
        &self,
        alloc: Global,
        airline: AirlineCode,
        period: PeriodCode,
        rule: &T,
    ) -> Result<Vec<Tally>, AllocError>
        ensures { IfOk result (λ found. AreTalliesKept self.now → ((k : TallyKeyValue) (t : TallyValue) → T.holds rule.now k t ≡ true → ((k.airline == airline) && (k.period == period)) ≡ true) → found.items ≡ map (λ e. e.1) (filter (λ e. T.holds rule.now e.0 e.1) (entries (tally_rows self.now)))) }
    {
        let place = AirlinePeriod { airline, period };
        let keys = self.by_airline.keys_at(alloc, place, least_tally())?;
        self.rows.picked(alloc, &keys, rule)
    }

    /// The tallies of which a rule holds, in the order of their keys, where it holds of none but those of a
    /// period. It reads these alone.
    pub fn of_period<T: Rule<TallyKey, Tally>>(
        &self,
        alloc: Global,
        period: PeriodCode,
        rule: &T,
    ) -> Result<Vec<Tally>, AllocError>
        ensures { IfOk result (λ found. AreTalliesKept self.now → ((k : TallyKeyValue) (t : TallyValue) → T.holds rule.now k t ≡ true → (k.period == period) ≡ true) → found.items ≡ map (λ e. e.1) (filter (λ e. T.holds rule.now e.0 e.1) (entries (tally_rows self.now)))) }
    {
        let keys = self.by_period.keys_at(alloc, period, least_tally())?;
        self.rows.picked(alloc, &keys, rule)
    }
}
