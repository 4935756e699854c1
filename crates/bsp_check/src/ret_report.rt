//! The report on a RET file.

ghost use Rattle.std.specs.Prelude.{◌≡◌, ℕ, List, IfOk, string_bytes};
ghost use Rattle.bsp_ret.specs.Lines.{lines};
ghost use Rattle.bsp_check.specs.RetReport.{total_text, fault_report, IsRetReport};
ghost use Rattle.bsp_check.specs.RetJudging.{HasTakenRet, IsRetRefusal};
ghost use Rattle.bsp_check.specs.Inputs.{IsReportOn};
ghost use Rattle.bsp_check.specs.Judging.{IsAfterFew};
ghost use Rattle.bsp_check.specs.Verdicts.{IsRetExplained};

use crate::report::Report;
use crate::ret_judging::{RetJudge, RetRefusal};
use crate::verdict::{Explanation, Verdict};
use bsp_explain::explain_missing;
use bsp_fields::{NoRoom, write_money};
use bsp_ret::RetFault;
use std::alloc::Global;

/// The line of the whole file: its records, transactions and sum in minor units.
fn total_line(
    alloc: Global,
    records: usize,
    transactions: usize,
    sum: i128,
) -> Result<String, NoRoom>
    ensures { IfOk result (λ text. string_bytes text ≡ total_text records transactions sum) }
{
    let money = write_money(alloc, sum)?;
    Ok(format!(in alloc; "records {records} transactions {transactions} sum {money}\n")?)
}

/// The line of a fault.
fn fault_line(alloc: Global, fault: RetFault) -> Result<Vec<u8>, NoRoom>
    ensures { IfOk result (λ text. text.items ≡ fault_report fault) }
{
    let at = fault.at;
    let mut out = Vec::new(alloc);
    out.extend_from_slice(&fault.code.text())?;
    let text = format!(in alloc; " record {at}\n")?;
    out.extend_from_slice(text.as_bytes())?;
    Ok(out)
}

/// The report on a fault.
pub(crate) fn refusal_report(alloc: Global, refusal: RetRefusal) -> Result<Report, NoRoom>
    ensures { (bytes : List ℕ) → IsRetRefusal (lines bytes) refusal → IfOk result (IsReportOn IsRetReport IsRetExplained bytes) }
{
    Ok(Report {
        verdict: Verdict::Refused(Explanation::Ret(refusal.explanation)),
        text: fault_line(alloc, refusal.fault)?,
    })
}

/// The report on an input all of whose lines were taken.
pub(crate) fn ended_report(alloc: Global, judge: RetJudge) -> Result<Report, NoRoom>
    requires { IsAfterFew HasTakenRet judge }
    ensures { (bytes : List ℕ) → HasTakenRet judge (lines bytes) → IfOk result (IsReportOn IsRetReport IsRetExplained bytes) }
{
    let RetJudge { judging, mut text } = judge;
    match judging.end() {
        Ok(totals) => {
            let line = total_line(alloc, totals.records, totals.transactions, totals.sum)?;
            text.extend_from_slice(line.as_bytes())?;
            Ok(Report {
                verdict: Verdict::Passed(None),
                text,
            })
        }
        Err(fault) => {
            let explanation = explain_missing(&judging.state());
            refusal_report(alloc, RetRefusal { fault, explanation })
        }
    }
}
