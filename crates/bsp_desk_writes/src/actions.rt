//! What an agent and an airline do about a memo.

ghost use Rattle.std.specs.Prelude.{◌≡◌, IfOk, OnOk, false};
ghost use Rattle.bsp_book.specs.Calls.{FallsBack, Faults, Keeps, LeavesLast, Shows};
ghost use Rattle.bsp_messages.specs.Bodies.{body_of, document_form, named_memo_form, reduction_form};
ghost use Rattle.bsp_desk_sales.specs.Serves.{EndsOnFault, ServesAgent, ServesAirline};
ghost use Rattle.bsp_office_spec.specs.AirlineLedger.{issue_key};
ghost use Rattle.bsp_office_spec.specs.Ledger.{memo_named};
ghost use Rattle.bsp_office_spec.specs.Requests.AgentRequest.{AgreeMemo, DisputeMemo};
ghost use Rattle.bsp_office_spec.specs.Requests.AirlineRequest.{ReduceMemo, UpholdMemo, WithdrawMemo};
ghost use Rattle.bsp_desk_writes.specs.Actions.{ActsOn, ServesAction, meaning_of, memo_by, memo_to};

use crate::action::{Action, act, review_days};
use crate::memo_bodies::not_read;
use bsp_book::{Book, BookFault};
use bsp_memos::{Memo, MemoFault};
use bsp_messages::{
    Answer, NamedMemo, RequestRefusal, read_memo_document, read_named_memo, read_reduction,
};
use bsp_rows::{AgentCode, AirlineCode, Change, DocNumber, MemoKey};
use std::alloc::Global;

/// The memo of a key, if it is to the agent.
fn memo_to<B: Book>(book: &mut B, agent: AgentCode, key: MemoKey) -> Result<Option<Memo>, BookFault>
    ensures found { IfOk result (λ found. Shows B.means book.old book.new found (memo_to agent key)) }
    ensures ok { OnOk result (Keeps B.means book.old book.new) }
    ensures fault { Faults B.means book.old book.new (FallsBack B.means book.old book.new) (LeavesLast B.means book.old book.new) result }
{
    match book.memo(key)? {
        Some(memo) if memo.fields().agent == agent => Ok(Some(memo)),
        _ => Ok(None),
    }
}

/// Takes an action on the memo that the caller has, and keeps what it changes.
fn act_on<B: Book>(book: &mut B, memo: Option<Memo>, action: Action) -> Result<Answer, BookFault>
    requires { B.means.has_failed book.old ≡ false }
    ensures served { ActsOn B.means book.old book.new result (meaning_of action) memo }
    ensures fault { Faults B.means book.old book.new (FallsBack B.means book.old book.new) (LeavesLast B.means book.old book.new) result }
{
    let Some(mut memo) = memo else {
        return Ok(Answer::Refused(RequestRefusal::Memo(MemoFault::NoSuchMemo)));
    };
    let day = book.plan().day();
    let review_days = review_days(book.plan());
    match act(&mut memo, action, day, review_days) {
        Ok(Change::Done) => {
            book.set_memo(&memo)?;
            Ok(Answer::Changed(Change::Done))
        }
        Ok(Change::Held) => Ok(Answer::Changed(Change::Held)),
        Err(fault) => Ok(Answer::Refused(RequestRefusal::Memo(fault))),
    }
}

/// Takes an action of an agent on a memo that it names.
fn act_for_agent<B: Book>(
    book: &mut B,
    agent: AgentCode,
    named: NamedMemo,
    action: Action,
) -> Result<Answer, BookFault>
    ensures served { ServesAction B.means book.old book.new result (meaning_of action) (memo_named named) (memo_to agent) }
    ensures fault { Faults B.means book.old book.new (FallsBack B.means book.old book.new) (LeavesLast B.means book.old book.new) result }
{
    let key = MemoKey {
        airline: named.airline,
        document: named.document,
    };
    let memo = memo_to(book, agent, key)?;
    act_on(book, memo, action)
}

/// Takes an action of an airline on its memo of a document number.
fn act_for_airline<B: Book>(
    book: &mut B,
    airline: AirlineCode,
    document: DocNumber,
    action: Action,
) -> Result<Answer, BookFault>
    ensures served { ServesAction B.means book.old book.new result (meaning_of action) (issue_key airline document) (memo_by airline) }
    ensures fault { Faults B.means book.old book.new (FallsBack B.means book.old book.new) (LeavesLast B.means book.old book.new) result }
{
    let memo = book.memo(MemoKey { airline, document })?;
    act_on(book, memo, action)
}

/// An agent disputes a memo to it, by a body of `airline` and `document`. It answers the first of N04, M01, M06,
/// held, M03 and M02 that applies, or done.
///
/// # Errors
///
/// `NoRoom` where there was no room; then what the transaction wrote is undone. `Failed`.
pub fn dispute<B: Book>(
    alloc: Global,
    book: &mut B,
    agent: AgentCode,
    body: &[u8],
) -> Result<Answer, BookFault>
    requires { B.means.has_failed book.old ≡ false }
    ensures served { ServesAgent B.means book.old book.new result agent (DisputeMemo (body_of named_memo_form body.now)) }
    ensures fault { EndsOnFault B.means book.old book.new result }
{
    match read_named_memo(alloc, body) {
        Ok(named) => act_for_agent(book, agent, named, Action::Dispute),
        Err(fault) => not_read(book, fault),
    }
}

/// An agent agrees to a memo to it, by a body of `airline` and `document`. It answers the first of N04, M01, M06,
/// held, M03 and M02 that applies, or done.
///
/// # Errors
///
/// `NoRoom` where there was no room; then what the transaction wrote is undone. `Failed`.
pub fn agree<B: Book>(
    alloc: Global,
    book: &mut B,
    agent: AgentCode,
    body: &[u8],
) -> Result<Answer, BookFault>
    requires { B.means.has_failed book.old ≡ false }
    ensures served { ServesAgent B.means book.old book.new result agent (AgreeMemo (body_of named_memo_form body.now)) }
    ensures fault { EndsOnFault B.means book.old book.new result }
{
    match read_named_memo(alloc, body) {
        Ok(named) => act_for_agent(book, agent, named, Action::Agree),
        Err(fault) => not_read(book, fault),
    }
}

/// An airline upholds a disputed memo of its own, by a body of `document`. It answers the first of N04, M01, M06,
/// held and M03 that applies, or done.
///
/// # Errors
///
/// `NoRoom` where there was no room; then what the transaction wrote is undone. `Failed`.
pub fn uphold<B: Book>(
    alloc: Global,
    book: &mut B,
    airline: AirlineCode,
    body: &[u8],
) -> Result<Answer, BookFault>
    requires { B.means.has_failed book.old ≡ false }
    ensures served { ServesAirline B.means book.old book.new result airline (UpholdMemo (body_of document_form body.now)) }
    ensures fault { EndsOnFault B.means book.old book.new result }
{
    match read_memo_document(alloc, body) {
        Ok(document) => act_for_airline(book, airline, document, Action::Uphold),
        Err(fault) => not_read(book, fault),
    }
}

/// An airline withdraws a memo of its own that is not billed, by a body of `document`. It answers the first of N04,
/// M01, M06, held and M03 that applies, or done.
///
/// # Errors
///
/// `NoRoom` where there was no room; then what the transaction wrote is undone. `Failed`.
pub fn withdraw<B: Book>(
    alloc: Global,
    book: &mut B,
    airline: AirlineCode,
    body: &[u8],
) -> Result<Answer, BookFault>
    requires { B.means.has_failed book.old ≡ false }
    ensures served { ServesAirline B.means book.old book.new result airline (WithdrawMemo (body_of document_form body.now)) }
    ensures fault { EndsOnFault B.means book.old book.new result }
{
    match read_memo_document(alloc, body) {
        Ok(document) => act_for_airline(book, airline, document, Action::Withdraw),
        Err(fault) => not_read(book, fault),
    }
}

/// An airline reduces a disputed memo of its own, by a body of `amount` and `document`: to minor units from 1 to
/// below the old amount. It answers the first of N04, M01, M06, held, M03 and M04 that applies, or done.
///
/// # Errors
///
/// `NoRoom` where there was no room; then what the transaction wrote is undone. `Failed`.
pub fn reduce<B: Book>(
    alloc: Global,
    book: &mut B,
    airline: AirlineCode,
    body: &[u8],
) -> Result<Answer, BookFault>
    requires { B.means.has_failed book.old ≡ false }
    ensures served { ServesAirline B.means book.old book.new result airline (ReduceMemo (body_of reduction_form body.now)) }
    ensures fault { EndsOnFault B.means book.old book.new result }
{
    match read_reduction(alloc, body) {
        Ok(reduction) => {
            let action = Action::Reduce(reduction.amount);
            act_for_airline(book, airline, reduction.document, action)
        }
        Err(fault) => not_read(book, fault),
    }
}
