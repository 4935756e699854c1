//! A HOT file that is judged while it is read, and its list.

ghost use Rattle.std.specs.Prelude.{[]};
ghost use Rattle.bsp_check.specs.HotJudging.{HasListed};

use crate::hot_list::HotList;
use crate::hot_report::{listed_report, refusal_report};
use crate::judging::Judge;
use crate::report::Report;
use bsp_fields::NoRoom;
use bsp_hot_check::Standing;
use bsp_hot_explain::{HotExplanation, explain_line, explain_long};
use std::alloc::Global;

/// The records of a HOT file that were taken, and their list.
#[derive(Drop)]
pub(crate) struct Listing {
    pub(crate) at: Standing,
    pub(crate) list: HotList,
}

impl Listing {
    /// Before any record.
    pub(crate) fn start(alloc: Global) -> Listing
        ensures { HasListed result [] }
    {
        Listing {
            at: Standing::start(),
            list: HotList::new(alloc),
        }
    }
}

impl Judge for Listing {
    ghost use Rattle.std.specs.Prelude.{◌≡◌, None, true};
    ghost use Rattle.bsp_hot_check.specs.Judging.{step_line};
    ghost use Rattle.bsp_check.specs.HotJudging.{HasListed, IsHotRefusal};
    ghost use Rattle.bsp_check.specs.HotReport.{IsHotReport};
    ghost use Rattle.bsp_check.specs.Verdicts.{IsHotExplained};

    type Fault = ();

    type Refusal = HotExplanation;

    ghost HasTaken = { HasListed };

    ghost IsAtFault = { λ listing line fault. step_line listing.at line ≡ None };

    ghost IsRefusal = { IsHotRefusal };

    ghost IsReport = { IsHotReport true };

    ghost IsExplained = { IsHotExplained };

    fn take(&mut self, line: &[u8]) -> Result<Option<()>, NoRoom> {
        if !self.at.take_line(line) {
            return Ok(Some(()));
        }
        self.list.take(line)?;
        Ok(None)
    }

    fn no_record(&self) {}

    fn explain_line(&self, _fault: (), text: &[u8]) -> HotExplanation {
        explain_line(&self.at, text)
    }

    fn explain_long(&self, _fault: (), head: &[u8], width: usize) -> HotExplanation {
        explain_long(&self.at, head, width)
    }

    fn end_report(self, alloc: Global) -> Result<Report, NoRoom> {
        listed_report(alloc, self)
    }

    fn refusal_report(alloc: Global, refusal: HotExplanation) -> Result<Report, NoRoom> {
        refusal_report(alloc, refusal)
    }
}
