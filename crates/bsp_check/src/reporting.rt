//! The report on an input that is judged while it is read.

ghost use Rattle.std.specs.Prelude.{◌≡◌, ◌<◌, [], ℕ, List, true, None, Err, IfOk, IfErr};
ghost use Rattle.bsp_fields.specs.Lines.{lines};
ghost use Rattle.bsp_check.specs.Inputs.{IsInputReport, IsReportOn, IsUnread};
ghost use Rattle.bsp_check.specs.Judging.{IsAfterFew, IsJudged};

use crate::fault::Fault;
use crate::judging::{Judge, judge_input};
use crate::report::Report;
use bsp_fields::NoRoom;
use bsp_streams::Noted;
use std::alloc::Global;
use std::io::Read;

/// The report on an input of which this was judged: that all its lines were taken, or the refusal of one.
fn judged_report<J: Judge + Drop>(
    alloc: Global,
    judge: J,
    refusal: Option<J::Refusal>,
) -> Result<Report, NoRoom>
    requires few { refusal ≡ None → IsAfterFew J.HasTaken judge }
    ensures { (bytes : List ℕ) → IsJudged J.HasTaken J.IsRefusal judge (lines bytes) refusal → IfOk result (IsReportOn J.IsReport J.IsExplained bytes) }
{
    match refusal {
        None => judge.end_report(alloc),
        Some(refusal) => J::refusal_report(alloc, refusal),
    }
}

/// The report on an input of at most `limit` bytes. Of a longer one it takes one byte more.
pub(crate) fn report_on<R: Read, J: Judge + Drop>(
    alloc: Global,
    reader: &mut Noted<R>,
    limit: usize,
    mut judge: J,
) -> Result<Report, Fault>
    requires limit { limit < usize.MAX }
    requires none { J.HasTaken judge [] }
    ensures report { IfOk result (IsInputReport J.IsReport J.IsExplained limit (R.remaining reader.old.inner) (R.remaining reader.new.inner)) }
    ensures stopped { IfErr result (λ fault. IsUnread limit fault (R.remaining reader.old.inner) (R.remaining reader.new.inner)) }
    ensures cause { result ≡ Err Fault.Read → reader.new.failed ≡ true }
{
    let refusal = match judge_input(alloc, reader, limit, &mut judge) {
        Ok(refusal) => refusal,
        Err(fault) => return Err(fault),
    };
    match judged_report(alloc, judge, refusal) {
        Ok(report) => Ok(report),
        Err(_) => Err(Fault::Memory),
    }
}
