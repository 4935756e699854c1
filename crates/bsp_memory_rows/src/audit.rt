//! The audit of the tables.

ghost use Rattle.std.specs.Prelude.{IfOk, MatchOption};
ghost use Rattle.std.specs.Bool.{Decides};
ghost use Rattle.bsp_rows.specs.Audit.{Breaks, IsEachAudited};
ghost use Rattle.bsp_rows.specs.Sound.{Sound};
ghost use Rattle.bsp_memory_rows.specs.Tables.{rows_of};

use crate::tables::Tables;
use bsp_maps::present_entries;
use bsp_rows::{Unsound, are_sound, first_unsound};
use std::alloc::{AllocError, Global};

impl Tables {
    /// Whether the rows are sound. It takes time and memory in proportion to the rows, and a logarithm.
    pub fn are_sound(&self, alloc: Global) -> Result<bool, AllocError>
        ensures { IfOk result (λ sound. Decides sound (Sound (rows_of self.now))) }
    {
        let ranges = present_entries(alloc, self.ranges.map())?;
        are_sound(
            alloc,
            self.plan.plan(),
            self.agents.map(),
            &ranges,
            self.items.map(),
            self.memos.map(),
        )
    }

    /// The first row that breaks a rule of the audit, by itself or beside the rows that it names; none where there is no
    /// such row. It takes time and memory in proportion to the rows.
    pub fn first_unsound(&self, alloc: Global) -> Result<Option<Unsound>, AllocError>
        ensures { IfOk result (λ found. MatchOption found (IsEachAudited (rows_of self.now)) (Breaks (rows_of self.now))) }
    {
        let ranges = present_entries(alloc, self.ranges.map())?;
        Ok(first_unsound(
            self.plan.plan(),
            self.agents.map(),
            &ranges,
            self.items.map(),
            self.memos.map(),
        ))
    }
}
