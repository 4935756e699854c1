//! The ranges of agents.

ghost use Rattle.std.specs.Prelude.{◌≡◌, false, Some};
ghost use Rattle.std.specs.List.{list_any};
ghost use Rattle.bsp_book.specs.Calls.{FallsBack, Faults, LeavesLast, LooksUp};
ghost use Rattle.bsp_desk_sales.specs.Replies.{is_same_range};
ghost use Rattle.bsp_messages.specs.Bodies.{body_of, stock_change_form};
ghost use Rattle.bsp_desk_sales.specs.Serves.{EndsOnFault, ServesOffice};
ghost use Rattle.bsp_office_spec.specs.Requests.OfficeRequest.{AllotRange, WithdrawRange};
ghost use Rattle.bsp_office_spec.specs.Step.{has_range, is_out_of_order, is_registered};

use crate::bodies::unread;
use bsp_book::{Book, BookFault};
use bsp_messages::{Answer, RequestRefusal, StockChange, StockFault, read_stock_change};
use bsp_rows::{AgentCode, Change, Range};
use std::alloc::Global;

/// The refusal of a change of stock.
fn refused(fault: StockFault) -> Answer
    ensures { result ≡ Answer.Refused (RequestRefusal.Stock fault) }
{
    Answer::Refused(RequestRefusal::Stock(fault))
}

/// Whether a range is among these.
fn is_among(ranges: &[Range], range: Range) -> bool
    ensures { result ≡ list_any (is_same_range range) ranges.now }
{
    ranges.iter().any(|other| *other == range)
}

/// Whether an agent is registered.
fn is_registered<B: Book>(book: &mut B, agent: AgentCode) -> Result<bool, BookFault>
    ensures { LooksUp B.means book.old book.new result (λ found. found) (is_registered agent) }
{
    Ok(book.agent_token(agent)?.is_some())
}

/// Whether an agent has this very range.
fn has_range<B: Book>(book: &mut B, agent: AgentCode, range: Range) -> Result<bool, BookFault>
    ensures { LooksUp B.means book.old book.new result (λ found. found) (has_range agent range) }
{
    let ranges = book.ranges(agent)?;
    Ok(is_among(&ranges, range))
}

/// Allots a range whose first number is not after its last.
fn allot_to<B: Book>(book: &mut B, agent: AgentCode, range: Range) -> Result<Answer, BookFault>
    requires { is_out_of_order range ≡ false }
    ensures served { ServesOffice B.means book.old book.new result (AllotRange (Some (record { agent = record { code = Some agent }; range = range }))) }
    ensures fault { EndsOnFault B.means book.old book.new result }
{
    if !is_registered(book, agent)? {
        return Ok(refused(StockFault::NotRegistered));
    }
    if has_range(book, agent, range)? {
        return Ok(Answer::Changed(Change::Held));
    }
    if book.meets_range(range)? {
        return Ok(refused(StockFault::MeetsRange));
    }
    book.add_range(agent, range)?;
    Ok(Answer::Changed(Change::Done))
}

/// Withdraws a range whose first number is not after its last.
fn withdraw_from<B: Book>(book: &mut B, agent: AgentCode, range: Range) -> Result<Answer, BookFault>
    requires { is_out_of_order range ≡ false }
    ensures served { ServesOffice B.means book.old book.new result (WithdrawRange (Some (record { agent = record { code = Some agent }; range = range }))) }
    ensures fault { EndsOnFault B.means book.old book.new result }
{
    if !is_registered(book, agent)? {
        return Ok(refused(StockFault::NotRegistered));
    }
    if !has_range(book, agent, range)? {
        return Ok(refused(StockFault::NoSuchRange));
    }
    if book.is_range_used(agent, range)? {
        return Ok(refused(StockFault::RangeUsed));
    }
    book.withdraw_range(agent, range)?;
    Ok(Answer::Changed(Change::Done))
}

/// Allots the range that is stated, if the first of K01, K02, held and K03 that applies is none.
///
/// # Errors
///
/// `NoRoom`, and what the open transaction wrote is then undone, or `Failed`.
pub fn allot_stated<B: Book>(book: &mut B, body: &StockChange) -> Result<Answer, BookFault>
    requires { B.means.has_failed book.old ≡ false }
    ensures served { ServesOffice B.means book.old book.new result (AllotRange (Some body.now)) }
    ensures fault { EndsOnFault B.means book.old book.new result }
{
    if body.range.last < body.range.first {
        return Ok(refused(StockFault::FirstAfterLast));
    }
    match body.agent.code {
        Some(agent) => allot_to(book, agent, body.range),
        None => Ok(refused(StockFault::NotRegistered)),
    }
}

/// Withdraws the range that a body states.
fn withdraw_stated<B: Book>(book: &mut B, body: &StockChange) -> Result<Answer, BookFault>
    requires { B.means.has_failed book.old ≡ false }
    ensures served { ServesOffice B.means book.old book.new result (WithdrawRange (Some body.now)) }
    ensures fault { EndsOnFault B.means book.old book.new result }
{
    if body.range.last < body.range.first {
        return Ok(refused(StockFault::FirstAfterLast));
    }
    match body.agent.code {
        Some(agent) => withdraw_from(book, agent, body.range),
        None => Ok(refused(StockFault::NotRegistered)),
    }
}

/// Allots a range of document numbers to an agent: `POST /office/stock/allot`.
///
/// # Errors
///
/// `NoRoom` where an allocation was refused, or `Failed`.
pub fn allot<B: Book>(alloc: Global, book: &mut B, body: &[u8]) -> Result<Answer, BookFault>
    requires { B.means.has_failed book.old ≡ false }
    ensures served { ServesOffice B.means book.old book.new result (AllotRange (body_of stock_change_form body.now)) }
    ensures fault { EndsOnFault B.means book.old book.new result }
{
    match read_stock_change(alloc, body) {
        Ok(change) => allot_stated(book, &change),
        Err(fault) => unread(book, fault),
    }
}

/// Withdraws an unused range of an agent: `POST /office/stock/withdraw`.
///
/// # Errors
///
/// `NoRoom` where an allocation was refused, or `Failed`.
pub fn withdraw_range<B: Book>(
    alloc: Global,
    book: &mut B,
    body: &[u8],
) -> Result<Answer, BookFault>
    requires { B.means.has_failed book.old ≡ false }
    ensures served { ServesOffice B.means book.old book.new result (WithdrawRange (body_of stock_change_form body.now)) }
    ensures fault { EndsOnFault B.means book.old book.new result }
{
    match read_stock_change(alloc, body) {
        Ok(change) => withdraw_stated(book, &change),
        Err(fault) => unread(book, fault),
    }
}
