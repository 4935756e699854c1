//! What a HOT file is judged to be, while it is read.

ghost use Rattle.std.specs.Prelude.{◌≡◌, ◌<◌, ◌^◌, ℕ, List, Some};
ghost use Rattle.bsp_ret.specs.Lines.{lines};
ghost use Rattle.bsp_hot_check.specs.Standings.{start, IsSmall};
ghost use Rattle.bsp_hot_check.specs.Judging.{stands_after};
ghost use Rattle.bsp_check.specs.HotJudging.{IsHotAnswer};

use crate::hot_report::{answer_report, refusal_report};
use crate::judging::Judge;
use crate::report::Report;
use bsp_fields::NoRoom;
use bsp_hot_check::{HotTotals, Standing};
use bsp_hot_explain::{Heading, HotExplanation, explain_line, explain_long, explain_missing};
use std::alloc::Global;

/// What a HOT file is judged to be.
#[derive(Clone, Copy)]
pub(crate) enum HotAnswer {
    /// A file with these totals, and what BFH01 says of it.
    Passed(HotTotals, Option<Heading>),
    /// A text with this fault.
    Refused(HotExplanation),
}

impl Judge for Standing {
    ghost use Rattle.std.specs.Prelude.{◌≡◌, None, false};
    ghost use Rattle.bsp_hot_check.specs.Judging.{step_line};
    ghost use Rattle.bsp_check.specs.HotJudging.{HasTakenHot, IsHotRefusal};
    ghost use Rattle.bsp_check.specs.HotReport.{IsHotReport};
    ghost use Rattle.bsp_check.specs.Verdicts.{IsHotExplained};

    type Fault = ();

    type Refusal = HotExplanation;

    ghost HasTaken = { HasTakenHot };

    ghost IsAtFault = { λ at line fault. step_line at line ≡ None };

    ghost IsRefusal = { IsHotRefusal };

    ghost IsReport = { IsHotReport false };

    ghost IsExplained = { IsHotExplained };

    fn take(&mut self, line: &[u8]) -> Result<Option<()>, NoRoom> {
        if self.take_line(line) {
            Ok(None)
        } else {
            Ok(Some(()))
        }
    }

    fn no_record(&self) {}

    fn explain_line(&self, _fault: (), text: &[u8]) -> HotExplanation {
        explain_line(self, text)
    }

    fn explain_long(&self, _fault: (), head: &[u8], width: usize) -> HotExplanation {
        explain_long(self, head, width)
    }

    fn end_report(self, alloc: Global) -> Result<Report, NoRoom> {
        answer_report(alloc, end_answer(&self))
    }

    fn refusal_report(alloc: Global, refusal: HotExplanation) -> Result<Report, NoRoom> {
        refusal_report(alloc, refusal)
    }
}

/// What a text is whose lines have this state.
pub(crate) fn end_answer(at: &Standing) -> HotAnswer
    requires small { IsSmall at.now }
    requires room { at.now.records < 2 ^ 63 }
    ensures { (bytes : List ℕ) → stands_after start (lines bytes) ≡ Some at.now → IsHotAnswer bytes result }
{
    match at.file_totals() {
        Some(totals) => HotAnswer::Passed(totals, at.heading),
        None => HotAnswer::Refused(explain_missing(at)),
    }
}
