//! A RET file that is judged while it is read, and the lines of its report so far.

ghost use Rattle.std.specs.Prelude.{◌≡◌, ◌++◌, [], List, OnOk, string_bytes};
ghost use Rattle.bsp_check.specs.RetReport.{document_text, sale_text, transaction_text};
ghost use Rattle.bsp_check.specs.RetJudging.{HasTakenRet};

use crate::judging::Judge;
use crate::report::Report;
use crate::ret_report::{ended_report, refusal_report};
use bsp_explain::{Explanation, explain_line, explain_long};
use bsp_fields::{NoRoom, push_money, write_digits};
use bsp_ret::{FaultCode, Judging, PaidSale, ReportedDocument, RetFault, Sale};
use std::alloc::{AllocError, Global};

/// The first fault of a RET file, and its explanation.
#[derive(Clone, Copy)]
pub(crate) struct RetRefusal {
    pub(crate) fault: RetFault,
    pub(crate) explanation: Explanation,
}

/// The records of a RET file that were taken, and the lines of the transactions that are complete.
#[derive(Drop)]
pub(crate) struct RetJudge {
    pub(crate) judging: Judging,
    pub(crate) text: Vec<u8>,
}

impl RetJudge {
    /// Before any record.
    pub(crate) fn start(alloc: Global) -> RetJudge
        ensures { HasTakenRet result [] }
    {
        RetJudge {
            judging: Judging::start(),
            text: Vec::new(alloc),
        }
    }
}

/// Appends a document: its airline, its number and its check digit.
#[tactic(auto, unfolding(crate::specs::RetReport::document_text))]
#[inline]
fn push_document(out: &mut Vec<u8>, document: &ReportedDocument) -> Result<(), AllocError>
    ensures { OnOk result (out.new.items ≡ out.old.items ++ document_text document.now) }
{
    out.extend_from_slice(&document.airline.digits())?;
    out.extend_from_slice(b"-")?;
    out.extend_from_slice(&document.number)?;
    out.extend_from_slice(b"-")?;
    out.extend_from_slice(&write_digits::<1>(document.check_digit as u64))?;
    Ok(())
}

/// Appends what a line says of a record 2.
#[tactic(auto, unfolding(crate::specs::RetReport::sale_text))]
#[inline]
fn push_sale(out: &mut Vec<u8>, sale: &Sale) -> Result<(), AllocError>
    ensures { OnOk result (out.new.items ≡ out.old.items ++ sale_text sale.now) }
{
    out.extend_from_slice(&sale.code.text())?;
    out.extend_from_slice(b" ")?;
    out.extend_from_slice(&sale.agent)?;
    out.extend_from_slice(b" ")?;
    push_document(out, &sale.document)?;
    out.extend_from_slice(b" ")?;
    out.extend_from_slice(&sale.issued.write_text())?;
    Ok(())
}

/// Appends the line of the transaction with that number.
#[tactic(auto, unfolding(crate::specs::RetReport::transaction_text))]
fn push_transaction(out: &mut Vec<u8>, number: u64, paid: &PaidSale) -> Result<(), NoRoom>
    ensures { OnOk result (out.new.items ≡ out.old.items ++ transaction_text number paid.now) }
{
    out.extend_from_slice(&write_digits::<6>(number))?;
    out.extend_from_slice(b" ")?;
    push_sale(out, &paid.sale)?;
    out.extend_from_slice(b" ")?;
    push_money(out, paid.paid)?;
    out.extend_from_slice(b"\n")?;
    Ok(())
}

impl Judge for RetJudge {
    ghost use Rattle.std.specs.Prelude.{◌≡◌, Err};
    ghost use Rattle.bsp_ret.specs.Table.{row_fault};
    ghost use Rattle.bsp_check.specs.RetJudging.{HasTakenRet, IsRetRefusal};
    ghost use Rattle.bsp_check.specs.RetReport.{IsRetReport};
    ghost use Rattle.bsp_check.specs.Verdicts.{IsRetExplained};

    type Fault = FaultCode;

    type Refusal = RetRefusal;

    ghost HasTaken = { HasTakenRet };

    ghost IsAtFault = { λ judge line code. row_fault judge.judging.at line ≡ Err code };

    ghost IsRefusal = { IsRetRefusal };

    ghost IsReport = { IsRetReport };

    ghost IsExplained = { IsRetExplained };

    fn take(&mut self, line: &[u8]) -> Result<Option<FaultCode>, NoRoom> {
        let number = self.judging.state().transactions as u64;
        match self.judging.step(line) {
            Ok(Some(paid)) => match push_transaction(&mut self.text, number, &paid) {
                Ok(()) => Ok(None),
                Err(_) => Err(NoRoom),
            },
            Ok(None) => Ok(None),
            Err(code) => Ok(Some(code)),
        }
    }

    fn no_record(&self) -> FaultCode {
        if self.judging.state().last.has_ended() {
            FaultCode::F09
        } else {
            FaultCode::F01
        }
    }

    fn explain_line(&self, code: FaultCode, text: &[u8]) -> RetRefusal {
        let at = self.judging.state();
        RetRefusal {
            fault: at.fault(code),
            explanation: explain_line(&at, code, text),
        }
    }

    fn explain_long(&self, code: FaultCode, head: &[u8], width: usize) -> RetRefusal {
        let at = self.judging.state();
        RetRefusal {
            fault: at.fault(code),
            explanation: explain_long(&at, code, head, width),
        }
    }

    fn end_report(self, alloc: Global) -> Result<Report, NoRoom> {
        ended_report(alloc, self)
    }

    fn refusal_report(alloc: Global, refusal: RetRefusal) -> Result<Report, NoRoom> {
        refusal_report(alloc, refusal)
    }
}
