//! The HOT file of an airline.

ghost use Rattle.std.specs.Prelude.{◌≡◌, false, IfOk, OnOk};
ghost use Rattle.bsp_book.specs.Calls.{FallsBack, Faults, Keeps, LeavesLast, Shows};
ghost use Rattle.bsp_hot.specs.Files.{AnswersOver};
ghost use Rattle.bsp_hot.specs.Rows.{entries};
ghost use Rattle.bsp_desk_sales.specs.Serves.{EndsOnFault, ServesAirline};
ghost use Rattle.bsp_desk_sales.specs.Requests.AirlineRequest.{AskHot};

use bsp_book::{Book, BookFault};
use bsp_desk_sales::{give_up, hot_rows_keep_rules};
use bsp_hot::{HotFault, write_hot_of};
use bsp_messages::{Answer, RequestRefusal};
use bsp_rows::{AirlineCode, Items, Memos, PeriodCode, Tallies};
use std::alloc::Global;

/// Shows the HOT file of an airline for a closed period, over the airline's own rows, in the form of the period.
/// `check_hot` passes it.
///
/// The answer is H02 where the period is unknown or not closed, and H01 where a count or a total does not fit its
/// place. The rows stay as they are.
///
/// # Errors
///
/// `NoRoom` where an allocation was refused, or `Failed`.
pub fn hot<B: Book>(
    alloc: Global,
    book: &mut B,
    airline: AirlineCode,
    period: &[u8],
) -> Result<Answer, BookFault>
    requires works { B.means.has_failed book.old ≡ false }
    ensures served { ServesAirline B.means book.old book.new result airline (AskHot period.now) }
    ensures fault { EndsOnFault B.means book.old book.new result }
{
    let Ok(code) = PeriodCode::read(period) else {
        return Ok(Answer::Refused(RequestRefusal::NoHot));
    };
    if book.plan().closed_period(code).is_none() {
        return Ok(Answer::Refused(RequestRefusal::NoHot));
    }
    let items = book.items(Items::OfAirlineIn(airline, code))?;
    let memos = book.memos(Memos::OfAirlineIn(airline, code))?;
    let tallies = book.tallies(Tallies::OfAirlineIn(airline, code))?;
    match write_hot_of(alloc, airline, code, &items, &memos, &tallies, book.plan()) {
        Ok(file) => {
            hot_rows_keep_rules(&items, &memos);
            Ok(Answer::Hot(file))
        }
        Err(HotFault::TooWide) => Ok(Answer::Refused(RequestRefusal::HotTooLarge)),
        Err(HotFault::NotClosed) => Ok(Answer::Refused(RequestRefusal::NoHot)),
        Err(HotFault::NoMemory) => give_up(book),
    }
}
