//! The settlement of a period.

ghost use Rattle.std.specs.Prelude.{◌≡◌, false};
ghost use Rattle.bsp_desk_sales.specs.Serves.{EndsOnFault, ServesOffice};
ghost use Rattle.bsp_desk_sales.specs.Requests.OfficeRequest.{AskSettlement};

use bsp_book::{Book, BookFault};
use bsp_desk_sales::give_up;
use bsp_messages::{Answer, RequestRefusal};
use bsp_rows::{PeriodCode, Tallies};
use bsp_statement::{StatementFault, settlement_of};
use std::alloc::Global;

/// Shows the settlement of a closed period, over the rows of all agents and airlines.
///
/// The answer is S01 where the period is unknown or not closed. The rows stay as they are.
///
/// # Errors
///
/// `NoRoom` where an allocation was refused, or `Failed`.
pub fn settlement<B: Book>(alloc: Global, book: &mut B, period: &[u8]) -> Result<Answer, BookFault>
    requires works { B.means.has_failed book.old ≡ false }
    ensures served { ServesOffice B.means book.old book.new result (AskSettlement period.now) }
    ensures fault { EndsOnFault B.means book.old book.new result }
{
    let Ok(code) = PeriodCode::read(period) else {
        return Ok(Answer::Refused(RequestRefusal::UnknownPeriod));
    };
    if book.plan().closed_period(code).is_none() {
        return Ok(Answer::Refused(RequestRefusal::UnknownPeriod));
    }
    let tallies = book.tallies(Tallies::In(code))?;
    match settlement_of(alloc, code, &tallies, book.plan()) {
        Ok(settlement) => Ok(Answer::Report(settlement.text)),
        Err(StatementFault::NotClosed) => Ok(Answer::Refused(RequestRefusal::UnknownPeriod)),
        Err(StatementFault::NoMemory) => give_up(book),
    }
}
