//! The billing statement of an agent.

ghost use Rattle.std.specs.Prelude.{◌≡◌, false};
ghost use Rattle.bsp_desk_sales.specs.Serves.{EndsOnFault, ServesAgent};
ghost use Rattle.bsp_desk_sales.specs.Requests.AgentRequest.{AskStatement};

use bsp_book::{Book, BookFault};
use bsp_desk_sales::give_up;
use bsp_messages::{Answer, RequestRefusal};
use bsp_rows::{AgentCode, PeriodCode, Tallies};
use bsp_statement::{StatementFault, statement_of};
use std::alloc::Global;

/// Shows the billing statement of an agent for a closed period, over the agent's own rows. In a period of form 2 it
/// shows the tax on commission.
///
/// The answer is S01 where the period is unknown or not closed. The rows stay as they are.
///
/// # Errors
///
/// `NoRoom` where an allocation was refused, or `Failed`.
pub fn statement<B: Book>(
    alloc: Global,
    book: &mut B,
    agent: AgentCode,
    period: &[u8],
) -> Result<Answer, BookFault>
    requires works { B.means.has_failed book.old ≡ false }
    ensures served { ServesAgent B.means book.old book.new result agent (AskStatement period.now) }
    ensures fault { EndsOnFault B.means book.old book.new result }
{
    let Ok(code) = PeriodCode::read(period) else {
        return Ok(Answer::Refused(RequestRefusal::UnknownPeriod));
    };
    if book.plan().closed_period(code).is_none() {
        return Ok(Answer::Refused(RequestRefusal::UnknownPeriod));
    }
    let tallies = book.tallies(Tallies::OfAgentIn(agent, code))?;
    match statement_of(alloc, agent, code, &tallies, book.plan()) {
        Ok(text) => Ok(Answer::Report(text)),
        Err(StatementFault::NotClosed) => Ok(Answer::Refused(RequestRefusal::UnknownPeriod)),
        Err(StatementFault::NoMemory) => give_up(book),
    }
}
