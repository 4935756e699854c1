//! The plan and the business day.

ghost use Rattle.std.specs.Prelude.{◌≡◌, Some, false};
ghost use Rattle.bsp_calendar.specs.History.Request.{Publish, SetDay};
ghost use Rattle.bsp_messages.specs.Bodies.{body_of, day_form};
ghost use Rattle.bsp_desk_sales.specs.Serves.{EndsOnFault, ServesOffice};
ghost use Rattle.bsp_office_spec.specs.Requests.{IsPlanOf, PlanRead};
ghost use Rattle.bsp_office_spec.specs.Requests.OfficeRequest.{PublishPlan, SetBusinessDay};
ghost use Rattle.bsp_office_spec.specs.Step.{outcome_answer};
ghost use Rattle.bsp_office_spec.specs.Texts.{Says};

use bsp_book::{Book, BookFault};
use bsp_calendar::{PlanFault, read_plan};
use bsp_desk_sales::{give_up, unread};
use bsp_messages::{Answer, RequestRefusal, read_day};
use bsp_rows::{Change, Day};
use std::alloc::Global;

/// What the plan answers, as a message.
pub(crate) fn plan_answer(outcome: Result<Change, PlanFault>) -> Answer
    ensures { Says (outcome_answer outcome) result }
{
    match outcome {
        Ok(change) => Answer::Changed(change),
        Err(fault) => Answer::Refused(RequestRefusal::Plan(fault)),
    }
}

/// Publishes the entries of a plan text that are new: `POST /office/plan`.
///
/// # Errors
///
/// `NoRoom` where an allocation was refused, or `Failed`.
pub fn publish<B: Book>(alloc: Global, book: &mut B, text: &[u8]) -> Result<Answer, BookFault>
    requires { B.means.has_failed book.old ≡ false }
    ensures served { (read : PlanRead) → IsPlanOf text.now read → ServesOffice B.means book.old book.new result (PublishPlan read) }
    ensures fault { EndsOnFault B.means book.old book.new result }
{
    match read_plan(alloc, text) {
        Ok(entries) => Ok(plan_answer(book.publish(&entries)?)),
        Err(PlanFault::NoMemory) => give_up(book),
        Err(fault) => Ok(Answer::Refused(RequestRefusal::Plan(fault))),
    }
}

/// Sets the business day. It answers P04, held or done.
///
/// # Errors
///
/// `NoRoom`, and what the open transaction wrote is then undone, or `Failed`.
pub fn set_business_day<B: Book>(book: &mut B, day: Day) -> Result<Answer, BookFault>
    ensures served { ServesOffice B.means book.old book.new result (SetBusinessDay (Some day)) }
    ensures fault { EndsOnFault B.means book.old book.new result }
{
    Ok(plan_answer(book.set_day(day)?))
}

/// Sets the business day: `POST /office/day`.
///
/// # Errors
///
/// `NoRoom` where an allocation was refused, or `Failed`.
pub fn set_day<B: Book>(alloc: Global, book: &mut B, body: &[u8]) -> Result<Answer, BookFault>
    requires { B.means.has_failed book.old ≡ false }
    ensures served { ServesOffice B.means book.old book.new result (SetBusinessDay (body_of day_form body.now)) }
    ensures fault { EndsOnFault B.means book.old book.new result }
{
    match read_day(alloc, body) {
        Ok(day) => set_business_day(book, day),
        Err(fault) => unread(book, fault),
    }
}
