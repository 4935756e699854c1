//! The close of a period, and the billing of memos in it.

ghost use Rattle.std.specs.Prelude.{◌≡◌, false, Some, ⊤};
ghost use Rattle.bsp_book.specs.Calls.{Makes};
ghost use Rattle.bsp_desk_writes.specs.Billings.{IsAsRead, with_billings, with_closed_memo};
ghost use Rattle.bsp_messages.specs.Bodies.{body_of, period_form};
ghost use Rattle.bsp_desk_sales.specs.Serves.{EndsOnFault, Finds, ServesOffice};
ghost use Rattle.bsp_office_spec.specs.Answers.{is_done};
ghost use Rattle.bsp_office_spec.specs.Ledger.{review_of};
ghost use Rattle.bsp_office_spec.specs.Step.{outcome_answer};
ghost use Rattle.bsp_office_spec.specs.Requests.OfficeRequest.{ClosePeriod};

use crate::plan::plan_answer;
use bsp_book::{Book, BookFault};
use bsp_calendar::{PlanFault, Terms};
use bsp_desk_sales::unread;
use bsp_memos::{Memo, billed_now};
use bsp_messages::{Answer, read_period};
use bsp_rows::{Change, Day, MemoKey, Memos, PeriodCode};
use std::alloc::Global;

/// Whether a change of the plan is done.
fn is_done(outcome: Result<Change, PlanFault>) -> bool
    ensures { result ≡ is_done (outcome_answer outcome) }
{
    matches!(outcome, Ok(Change::Done))
}

/// The days in which an agent may dispute a memo, and 0 before terms are published.
fn review_days(terms: Option<Terms>) -> u32
    ensures { result ≡ review_of terms }
{
    match terms {
        Some(terms) => terms.review_days as u32,
        None => 0,
    }
}

/// Bills a memo in a period, if a close on the business day admits it.
fn bill_if_due<B: Book>(
    book: &mut B,
    memo: &Memo,
    period: PeriodCode,
    day: Day,
    review_days: u32,
) -> Result<(), BookFault>
    requires { B.means.has_failed book.old ≡ false }
    ensures { Makes B.means book.old book.new result (IsAsRead memo.now) (with_closed_memo memo.now period day review_days) }
{
    if billed_now(memo, day, review_days).is_none() {
        return Ok(());
    }
    book.bill(MemoKey::of(memo.fields()), period)
}

/// Bills in a period each memo that a close on the business day admits.
fn bill_due<B: Book>(book: &mut B, period: PeriodCode) -> Result<(), BookFault>
    requires { B.means.has_failed book.old ≡ false }
    ensures billed { Finds B.means book.old book.new result (λ rows found. ⊤) (with_billings period) }
    ensures fault { EndsOnFault B.means book.old book.new result }
{
    let memos = book.memos(Memos::Unbilled)?;
    let day = book.plan().day();
    let review_days = review_days(book.plan().terms());
    for memo in &memos {
        bill_if_due(book, memo, period, day, review_days)?;
    }
    Ok(())
}

/// Closes a period in the plan and, where that is done, bills in it the memos that the close admits. It answers the
/// first of held, P06 and P07 that applies, or done.
///
/// # Errors
///
/// `NoRoom`, and what the open transaction wrote is then undone, or `Failed`.
pub fn close_period<B: Book>(book: &mut B, period: PeriodCode) -> Result<Answer, BookFault>
    ensures served { ServesOffice B.means book.old book.new result (ClosePeriod (Some period)) }
    ensures fault { EndsOnFault B.means book.old book.new result }
{
    let outcome = book.close(period)?;
    if !is_done(outcome) {
        return Ok(plan_answer(outcome));
    }
    bill_due(book, period)?;
    Ok(plan_answer(outcome))
}

/// Closes a period, and bills in it each memo that the close admits: `POST /office/close`.
///
/// # Errors
///
/// `NoRoom` where an allocation was refused, or `Failed`.
pub fn close<B: Book>(alloc: Global, book: &mut B, body: &[u8]) -> Result<Answer, BookFault>
    requires { B.means.has_failed book.old ≡ false }
    ensures served { ServesOffice B.means book.old book.new result (ClosePeriod (body_of period_form body.now)) }
    ensures fault { EndsOnFault B.means book.old book.new result }
{
    match read_period(alloc, body) {
        Ok(period) => close_period(book, period),
        Err(fault) => unread(book, fault),
    }
}
