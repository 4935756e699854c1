//! The memos of an agent and of an airline.

ghost use Rattle.std.specs.Prelude.{◌≡◌, IfOk};
ghost use Rattle.bsp_book.specs.Calls.{FallsBack, Faults, LeavesLast};
ghost use Rattle.bsp_desk_sales.specs.Serves.{EndsOnFault, Serves, ServesAgent, ServesAirline};
ghost use Rattle.bsp_office_spec.specs.Requests.AgentRequest.{AskMemos};
ghost use Rattle.bsp_office_spec.specs.Requests.AirlineRequest.{AskIssuedMemos};
ghost use Rattle.bsp_desk_writes.specs.Answered.{listed};

use bsp_book::{Book, BookFault};
use bsp_desk_sales::give_up;
use bsp_memos::{Memo, MemoFields};
use bsp_messages::Answer;
use bsp_rows::{AgentCode, AirlineCode, Memos};
use std::alloc::{AllocError, Global};

/// The fields of memos.
fn fields_of(alloc: Global, memos: &[Memo]) -> Result<Vec<MemoFields>, AllocError>
    ensures { IfOk result (λ fields. fields.items ≡ memos.now) }
{
    memos.iter().map(|memo| *memo.fields()).collect(alloc)
}

/// The memos that are asked for, as an answer.
fn show<B: Book>(alloc: Global, book: &mut B, which: Memos) -> Result<Answer, BookFault>
    ensures served { Serves B.means book.old book.new result (listed which) (λ rows. rows) }
    ensures fault { Faults B.means book.old book.new (FallsBack B.means book.old book.new) (LeavesLast B.means book.old book.new) result }
{
    let memos = book.memos(which)?;
    match fields_of(alloc, &memos) {
        Ok(fields) => Ok(Answer::Memos(fields)),
        Err(_) => give_up(book),
    }
}

/// Shows the memos to an agent, rising by airline and document.
///
/// # Errors
///
/// `NoRoom` where there was no room; then what the transaction wrote is undone. `Failed`.
pub fn agent_memos<B: Book>(
    alloc: Global,
    book: &mut B,
    agent: AgentCode,
) -> Result<Answer, BookFault>
    ensures served { ServesAgent B.means book.old book.new result agent AskMemos }
    ensures fault { EndsOnFault B.means book.old book.new result }
{
    show(alloc, book, Memos::OfAgent(agent))
}

/// Shows the memos of an airline, rising by document.
///
/// # Errors
///
/// `NoRoom` where there was no room; then what the transaction wrote is undone. `Failed`.
pub fn airline_memos<B: Book>(
    alloc: Global,
    book: &mut B,
    airline: AirlineCode,
) -> Result<Answer, BookFault>
    ensures served { ServesAirline B.means book.old book.new result airline AskIssuedMemos }
    ensures fault { EndsOnFault B.means book.old book.new result }
{
    show(alloc, book, Memos::OfAirline(airline))
}
