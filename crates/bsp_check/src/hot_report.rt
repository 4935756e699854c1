//! The report on a HOT file.

ghost use Rattle.std.specs.Prelude.{◌≡◌, ◌++◌, ℕ, Bool, List, true, false, IfOk, string_bytes};
ghost use Rattle.bsp_ret.specs.Lines.{lines};
ghost use Rattle.bsp_check.specs.HotReport.{totals_text, fault_text, list_before, IsHotReport};
ghost use Rattle.bsp_check.specs.HotListing.{IsListOf, IsListOfFew};
ghost use Rattle.bsp_check.specs.HotJudging.{HasListed, IsHotAnswer};
ghost use Rattle.bsp_check.specs.Judging.{IsAfterFew};
ghost use Rattle.bsp_check.specs.Inputs.{IsReportOn};
ghost use Rattle.bsp_check.specs.Verdicts.{IsHotExplained, SaysOfHotFault};

use crate::hot_judging::{HotAnswer, end_answer};
use crate::hot_list::HotList;
use crate::listing::Listing;
use crate::report::Report;
use crate::verdict::{Explanation, Verdict};
use bsp_fields::{NoRoom, write_money};
use bsp_hot_check::HotTotals;
use bsp_hot_explain::HotExplanation;
use std::alloc::Global;

/// The line of a file with these totals.
fn totals_line(alloc: Global, totals: HotTotals) -> Result<String, NoRoom>
    ensures { IfOk result (λ line. string_bytes line ≡ totals_text totals) }
{
    let HotTotals {
        records,
        documents,
        net,
    } = totals;
    let money = write_money(alloc, net)?;
    Ok(format!(in alloc; "OK records {records} documents {documents} net {money}\n")?)
}

/// The line of the first record at fault.
fn fault_line(alloc: Global, number: usize) -> Result<String, NoRoom>
    ensures { IfOk result (λ line. string_bytes line ≡ fault_text number) }
{
    Ok(format!(in alloc; "H04 record {number}\n")?)
}

/// The report on a fault.
pub(crate) fn refusal_report(alloc: Global, explanation: HotExplanation) -> Result<Report, NoRoom>
    ensures { (listed : Bool) (bytes : List ℕ) → SaysOfHotFault bytes explanation → IfOk result (IsReportOn (IsHotReport listed) IsHotExplained bytes) }
{
    Ok(Report {
        verdict: Verdict::Refused(Explanation::Hot(explanation)),
        text: fault_line(alloc, explanation.record)?.into_bytes(),
    })
}

/// The report on a file or a fault, without a list.
pub(crate) fn answer_report(alloc: Global, answer: HotAnswer) -> Result<Report, NoRoom>
    ensures { (bytes : List ℕ) → IsHotAnswer bytes answer → IfOk result (IsReportOn (IsHotReport false) IsHotExplained bytes) }
{
    match answer {
        HotAnswer::Passed(totals, heading) => Ok(Report {
            verdict: Verdict::Passed(heading),
            text: totals_line(alloc, totals)?.into_bytes(),
        }),
        HotAnswer::Refused(explanation) => refusal_report(alloc, explanation),
    }
}

/// The list of a file with these totals, and their line.
fn listed(alloc: Global, list: HotList, totals: HotTotals) -> Result<Vec<u8>, NoRoom>
    requires { IsListOfFew list }
    ensures { (ls : List (List ℕ)) → IsListOf list ls → IfOk result (λ text. text.items ≡ list_before true ls ++ totals_text totals) }
{
    let mut text = list.finish()?;
    let line = totals_line(alloc, totals)?;
    text.extend_from_slice(line.as_bytes())?;
    Ok(text)
}

/// The report on an input all of whose lines were taken, with the list of a file before it.
pub(crate) fn listed_report(alloc: Global, listing: Listing) -> Result<Report, NoRoom>
    requires few { IsAfterFew HasListed listing }
    ensures { (bytes : List ℕ) → HasListed listing (lines bytes) → IfOk result (IsReportOn (IsHotReport true) IsHotExplained bytes) }
{
    match end_answer(&listing.at) {
        HotAnswer::Passed(totals, heading) => Ok(Report {
            verdict: Verdict::Passed(heading),
            text: listed(alloc, listing.list, totals)?,
        }),
        HotAnswer::Refused(explanation) => refusal_report(alloc, explanation),
    }
}
