//! The stock of an agent in the tables.

ghost use Rattle.std.specs.Prelude.{◌≡◌, IfOk, map};
ghost use Rattle.bsp_memory_rows.specs.Lookups.{stock_of, used_range};
ghost use Rattle.bsp_memory_rows.specs.Tables.{IsDerived, rows_of};

use crate::tables::Tables;
use bsp_rows::{AgentCode, Range};
use std::alloc::{AllocError, Global};

/// A range of an agent, and how many of its numbers have an item.
#[derive(Clone, Copy)]
pub struct UsedRange {
    /// The range.
    pub range: Range,
    /// How many of its numbers have an item. A number counts once, also where it has a CANX.
    pub used: u64,
}

impl Tables {
    /// Each of these ranges with how many of its numbers have an item of the agent.
    fn used_ranges(
        &self,
        alloc: Global,
        agent: AgentCode,
        ranges: &[Range],
    ) -> Result<Vec<UsedRange>, AllocError>
        ensures { IfOk result (λ found. IsDerived self.now → found.items ≡ map (used_range agent (rows_of self.now)) ranges.now) }
    {
        let mut found = Vec::new(alloc);
        for range in ranges {
            let used = self.items.used_count(agent, range)?;
            found.push(UsedRange {
                range: *range,
                used,
            })?;
        }
        Ok(found)
    }

    /// The ranges of an agent, by their first numbers, each with how many of its numbers have an item. It reads that
    /// agent's ranges, those that were withdrawn from it since the last commit, and a few hundred counts for each.
    ///
    /// # Errors
    ///
    /// Where an allocation was refused.
    pub fn stock(&self, alloc: Global, agent: AgentCode) -> Result<Vec<UsedRange>, AllocError>
        ensures { IfOk result (λ found. IsDerived self.now → found.items ≡ stock_of agent (rows_of self.now)) }
    {
        let ranges = self.ranges(alloc, agent)?;
        self.used_ranges(alloc, agent, &ranges)
    }
}
