//! The issue of a memo.

ghost use Rattle.std.specs.Prelude.{◌≡◌, Some, false};
ghost use Rattle.bsp_book.specs.Calls.{FallsBack, Faults, LeavesLast};
ghost use Rattle.bsp_messages.specs.Bodies.{body_of, issue_form};
ghost use Rattle.bsp_rows.specs.Verdicts.{limit_of};
ghost use Rattle.bsp_desk_sales.specs.Serves.{EndsOnFault, Serves, ServesAirline};
ghost use Rattle.bsp_office_spec.specs.Requests.AirlineRequest.{IssueMemo};
ghost use Rattle.bsp_desk_writes.specs.Issues.{Adds, ServesIssue, placed, placing};

use crate::memo_bodies::not_read;
use bsp_book::{Book, BookFault};
use bsp_memos::{Memo, MemoFault, MemoFields};
use bsp_messages::{Answer, MemoIssue, RequestRefusal, read_issue};
use bsp_rows::{AgentCode, AirlineCode, Change, MemoKey, Plan};
use std::alloc::Global;

/// The documents limit, and 0 before terms are published.
fn limit(plan: &Plan) -> u32
    ensures { result ≡ limit_of plan.now.terms }
{
    match plan.terms() {
        Some(terms) => terms.documents_limit,
        None => 0,
    }
}

/// Adds a memo under a free number, unless its airline has as many to its agent as the documents limit.
fn add<B: Book>(book: &mut B, memo: &Memo) -> Result<Answer, BookFault>
    ensures served { Adds B.means book.old book.new result memo.now }
    ensures fault { Faults B.means book.old book.new (FallsBack B.means book.old book.new) (LeavesLast B.means book.old book.new) result }
{
    let MemoFields { agent, airline, .. } = *memo.fields();
    let count = book.issued_count(agent, airline)?;
    if count >= u64::from(limit(book.plan())) {
        return Ok(Answer::Refused(RequestRefusal::Memo(MemoFault::LimitReached)));
    }
    book.add_memo(memo)?;
    Ok(Answer::Changed(Change::Done))
}

/// Adds a memo, unless its airline has one of its number.
fn place<B: Book>(book: &mut B, memo: &Memo) -> Result<Answer, BookFault>
    ensures served { Serves B.means book.old book.new result (placing memo.now) (placed memo.now) }
    ensures fault { Faults B.means book.old book.new (FallsBack B.means book.old book.new) (LeavesLast B.means book.old book.new) result }
{
    match book.memo(MemoKey::of(memo.fields()))? {
        Some(other) if memo.is_same_issue(&other) => Ok(Answer::Changed(Change::Held)),
        Some(_) => Ok(Answer::Refused(RequestRefusal::Memo(MemoFault::OtherContent))),
        None => add(book, memo),
    }
}

/// Issues a memo to an agent, if it is registered.
fn issue_to<B: Book>(
    book: &mut B,
    airline: AirlineCode,
    agent: AgentCode,
    issue: &MemoIssue,
) -> Result<Answer, BookFault>
    ensures served { ServesIssue B.means book.old book.new result airline issue.now (Some agent) }
    ensures fault { Faults B.means book.old book.new (FallsBack B.means book.old book.new) (LeavesLast B.means book.old book.new) result }
{
    if book.agent_token(agent)?.is_none() {
        let fault = MemoFault::AgentNotRegistered;
        return Ok(Answer::Refused(RequestRefusal::Memo(fault)));
    }
    let day = book.plan().day();
    let MemoIssue {
        amount,
        document,
        kind,
        reason,
        ..
    } = *issue;
    match Memo::issue(airline, document, agent, kind, amount, reason, day) {
        Ok(memo) => place(book, &memo),
        Err(fault) => Ok(Answer::Refused(RequestRefusal::Memo(fault))),
    }
}

/// Issues a memo to the agent that the body states, whose check digit may be wrong.
fn issue_stated<B: Book>(
    book: &mut B,
    airline: AirlineCode,
    issue: &MemoIssue,
) -> Result<Answer, BookFault>
    requires { B.means.has_failed book.old ≡ false }
    ensures served { ServesIssue B.means book.old book.new result airline issue.now issue.now.agent.code }
    ensures fault { Faults B.means book.old book.new (FallsBack B.means book.old book.new) (LeavesLast B.means book.old book.new) result }
{
    match issue.agent.code {
        Some(agent) => issue_to(book, airline, agent, issue),
        None => Ok(Answer::Refused(RequestRefusal::Memo(MemoFault::AgentNotRegistered))),
    }
}

/// An airline issues a memo, by a body of `agent`, `amount` in minor units, `document`, `kind` and `reason`. It
/// answers the first of N04, M08, M04, held, M05 and M07 that applies, or done.
///
/// # Errors
///
/// `NoRoom` where there was no room; then what the transaction wrote is undone. `Failed`.
pub fn issue<B: Book>(
    alloc: Global,
    book: &mut B,
    airline: AirlineCode,
    body: &[u8],
) -> Result<Answer, BookFault>
    requires { B.means.has_failed book.old ≡ false }
    ensures served { ServesAirline B.means book.old book.new result airline (IssueMemo (body_of issue_form body.now)) }
    ensures fault { EndsOnFault B.means book.old book.new result }
{
    match read_issue(alloc, body) {
        Ok(issue) => issue_stated(book, airline, &issue),
        Err(fault) => not_read(book, fault),
    }
}
