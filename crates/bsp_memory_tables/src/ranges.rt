//! The table of ranges.

ghost use Rattle.std.specs.Prelude.{◌≡◌, ◌==◌, IfOk, OnOk, map};
ghost use Rattle.std.specs.FinMap.{empty, entries, get, insert, remove};
ghost use Rattle.std.specs.List.{filter, list_any};
ghost use Rattle.bsp_rows.specs.Rows.{meets, range_of};
ghost use Rattle.bsp_rows.specs.Sound.{AreApart};
ghost use Rattle.bsp_memory_tables.specs.RangeTables.{AreRangesKept, WereRangesKept, present_ranges, range_rows, range_rows_before};

use crate::keys::{RangesOf, least_range};
use bsp_maps::{Index, Logged, Old, commit_present};
use bsp_rows::{AgentCode, DocNumber, Range, RangeKey};
use std::alloc::{AllocError, Global};
use std::collections::BTreeMap;

/// The ranges by their keys, and by their last numbers.
#[derive(Drop)]
pub struct RangeTable {
    // A range that was withdrawn has no value until the commit: to put it back takes no memory.
    rows: Logged<RangeKey, Option<DocNumber>>,
    by_last: Index<DocNumber, RangeKey>,
}

/// The ranges that are not withdrawn.
fn present_ranges(
    alloc: Global,
    entries: &[(RangeKey, Option<DocNumber>)],
) -> Result<Vec<Range>, AllocError>
    ensures { IfOk result (λ found. found.items ≡ present_ranges entries.now) }
{
    let mut found = Vec::new(alloc);
    for (key, last) in entries {
        if let Some(last) = last {
            found.push(key.up_to(*last))?;
        }
    }
    Ok(found)
}

impl RangeTable {
    /// No ranges.
    pub fn new(alloc: Global) -> Self
        ensures rows { range_rows result ≡ empty }
        ensures before { range_rows_before result ≡ empty }
        ensures kept { AreRangesKept result }
        ensures was_kept { WereRangesKept result }
    {
        RangeTable {
            rows: Logged::new(alloc),
            by_last: Index::new(alloc),
        }
    }

    /// The last number of each range. A range that was withdrawn since the last commit has none.
    pub fn map(&self) -> &BTreeMap<RangeKey, Option<DocNumber>>
        ensures { result.now ≡ self.now.rows.map }
    {
        self.rows.map()
    }

    /// The keys that were written since the last commit, in the order of the writes.
    pub fn written(&self) -> &[Old<RangeKey, Option<DocNumber>>]
        ensures { result.now ≡ self.now.rows.undo.items }
    {
        self.rows.written()
    }

    /// Keeps what was written. Ranges that were withdrawn leave the table.
    pub fn commit(&mut self)
        ensures rows { range_rows self.new ≡ range_rows self.old }
        ensures before { range_rows_before self.new ≡ range_rows self.old }
        ensures kept { AreRangesKept self.old → AreRangesKept self.new }
        ensures was_kept { AreRangesKept self.old → WereRangesKept self.new }
    {
        commit_present(&mut self.rows);
        self.by_last.commit();
    }

    /// Takes back what was written since the last commit. It takes no memory.
    pub fn roll_back(&mut self)
        ensures rows { range_rows self.new ≡ range_rows_before self.old }
        ensures before { range_rows_before self.new ≡ range_rows_before self.old }
        ensures kept { WereRangesKept self.old → AreRangesKept self.new }
        ensures was_kept { WereRangesKept self.old → WereRangesKept self.new }
    {
        self.rows.roll_back();
        self.by_last.roll_back();
    }

    /// The last number of the range of a key, if there is one.
    pub fn get(&self, key: RangeKey) -> Option<DocNumber>
        ensures { result ≡ get (range_rows self.now) key }
    {
        match self.rows.get(key) {
            None => None,
            Some(last) => last,
        }
    }

    /// Adds a range, or gives one another last number.
    ///
    /// # Errors
    ///
    /// Where an allocation was refused, as of each write. What the last commit kept is remembered all the same.
    pub fn add(&mut self, key: &RangeKey, last: DocNumber) -> Result<(), AllocError>
        ensures rows { OnOk result (range_rows self.new ≡ insert (range_rows self.old) key.now last) }
        ensures before { range_rows_before self.new ≡ range_rows_before self.old }
        ensures kept { OnOk result (AreRangesKept self.old → AreRangesKept self.new) }
        ensures was_kept { WereRangesKept self.old → WereRangesKept self.new }
    {
        let old = self.get(*key);
        self.by_last.relocate(*key, old, Some(last))?;
        self.rows.put(*key, Some(last))
    }

    /// Withdraws the range of a key, if there is one.
    ///
    /// # Errors
    ///
    /// Where an allocation was refused, as of each write. What the last commit kept is remembered all the same.
    pub fn withdraw(&mut self, key: &RangeKey) -> Result<(), AllocError>
        ensures rows { OnOk result (range_rows self.new ≡ remove (range_rows self.old) key.now) }
        ensures before { range_rows_before self.new ≡ range_rows_before self.old }
        ensures kept { OnOk result (AreRangesKept self.old → AreRangesKept self.new) }
        ensures was_kept { WereRangesKept self.old → WereRangesKept self.new }
    {
        let old = self.get(*key);
        self.by_last.relocate(*key, old, None)?;
        self.rows.put(*key, None)
    }

    /// The ranges of an agent, by their first numbers. It reads that agent's alone, and those that were withdrawn
    /// from it since the last commit.
    ///
    /// # Errors
    ///
    /// Where an allocation was refused.
    pub fn of_agent(&self, alloc: Global, agent: AgentCode) -> Result<Vec<Range>, AllocError>
        ensures { IfOk result (λ found. found.items ≡ map range_of (filter (λ e. e.0.agent == agent) (entries (range_rows self.now)))) }
    {
        let entries = self.rows.entries_in(alloc, &RangesOf(agent))?;
        present_ranges(alloc, &entries)
    }

    /// Whether a range of any agent has a number of this one, where no number is in two of them. It reads the one
    /// with the least last number that is not below this one's first, and those before it that were withdrawn
    /// since the last commit.
    pub fn meets(&self, range: &Range) -> bool
        ensures { AreRangesKept self.now → AreApart (range_rows self.now) → result ≡ list_any (λ e. meets range.now (range_of e)) (entries (range_rows self.now)) }
    {
        match self.by_last.first_from(range.first, least_range()) {
            None => false,
            Some((_, key)) => key.first <= range.last,
        }
    }
}
