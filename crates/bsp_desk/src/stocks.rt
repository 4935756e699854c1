//! The stock of an agent.

ghost use Rattle.std.specs.Prelude.{◌≡◌, false, map, IfOk};
ghost use Rattle.bsp_desk.specs.Stock.{shown_as};
ghost use Rattle.bsp_desk_sales.specs.Serves.{EndsOnFault, ServesAgent};
ghost use Rattle.bsp_desk_sales.specs.Requests.AgentRequest.{AskStock};

use bsp_book::{Book, BookFault, UsedRange};
use bsp_desk_sales::give_up;
use bsp_messages::{Answer, RangeShown};
use bsp_rows::AgentCode;
use std::alloc::{AllocError, Global};

/// Each range with how many of its numbers have an item, as it is shown.
fn shown_stock(alloc: Global, ranges: &[UsedRange]) -> Result<Vec<RangeShown>, AllocError>
    ensures { IfOk result (λ shown. shown.items ≡ map shown_as ranges.now) }
{
    let mut shown = Vec::new(alloc);
    for range in ranges {
        shown.push(RangeShown {
            range: range.range,
            used: range.used,
        })?;
    }
    Ok(shown)
}

/// Shows the ranges of an agent, rising, each with the count of its numbers that have an item; a number with its
/// CANX counts once.
///
/// The rows stay as they are. It reads the ranges of the agent, and none of its items.
///
/// # Errors
///
/// `NoRoom` where an allocation was refused, or `Failed`.
pub fn stock<B: Book>(alloc: Global, book: &mut B, agent: AgentCode) -> Result<Answer, BookFault>
    requires works { B.means.has_failed book.old ≡ false }
    ensures served { ServesAgent B.means book.old book.new result agent AskStock }
    ensures fault { EndsOnFault B.means book.old book.new result }
{
    let ranges = book.stock(agent)?;
    match shown_stock(alloc, &ranges) {
        Ok(shown) => Ok(Answer::Ranges(shown)),
        Err(_) => give_up(book),
    }
}
