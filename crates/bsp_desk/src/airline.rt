//! Serves the calls of an airline.

ghost use Rattle.std.specs.Prelude.{◌≡◌, false};
ghost use Rattle.bsp_desk.specs.Calls.{airline_text};
ghost use Rattle.bsp_desk_writes.specs.Contents.{bytes_in};
ghost use Rattle.bsp_desk_writes.specs.Serves.{EndsOnFault, ServesAirline};
ghost use Rattle.bsp_desk_writes.specs.Requests.{AirlineRequest, IsAirlineRequest};

use crate::hot_files::hot;
use bsp_book::{Book, BookFault};
use bsp_desk_writes::{Content, airline_memos, issue, reduce, uphold, withdraw};
use bsp_messages::Answer;
use bsp_routes::AirlineCall;
use bsp_rows::AirlineCode;
use std::alloc::Global;

/// Serves a call of an airline in the open transaction.
pub(crate) fn serve_airline<B: Book>(
    alloc: Global,
    book: &mut B,
    airline: AirlineCode,
    call: &AirlineCall<&[u8]>,
    content: &Content<'_>,
) -> Result<Answer, BookFault>
    requires { B.means.has_failed book.old ≡ false }
    ensures served { (request : AirlineRequest) → IsAirlineRequest (airline_text call.now) (bytes_in content.now) request → ServesAirline B.means book.old book.new result airline request }
    ensures fault { EndsOnFault B.means book.old book.new result }
{
    let body = content.bytes();
    match call {
        AirlineCall::Memos => airline_memos(alloc, book, airline),
        AirlineCall::Issue => issue(alloc, book, airline, body),
        AirlineCall::Uphold => uphold(alloc, book, airline, body),
        AirlineCall::Withdraw => withdraw(alloc, book, airline, body),
        AirlineCall::Reduce => reduce(alloc, book, airline, body),
        AirlineCall::Hot(code) => hot(alloc, book, airline, code),
    }
}
