//! Serves the calls of the office.

ghost use Rattle.std.specs.Prelude.{◌≡◌, false};
ghost use Rattle.bsp_desk.specs.Calls.{office_text};
ghost use Rattle.bsp_desk_writes.specs.Contents.{IsOfficeCall};
ghost use Rattle.bsp_desk_writes.specs.Serves.{EndsOnFault, ServesOffice};
ghost use Rattle.bsp_desk_writes.specs.Requests.{OfficeRequest};

use crate::settlements::settlement;
use bsp_book::{Book, BookFault};
use bsp_desk_writes::{
    Content, allot, close, publish, register_agent, register_airline, report_of_office, set_day,
    withdraw_range,
};
use bsp_messages::Answer;
use bsp_routes::OfficeCall;
use std::alloc::Global;

/// Serves a call of the office in the open transaction.
pub(crate) fn serve_office<B: Book>(
    alloc: Global,
    book: &mut B,
    call: &OfficeCall<&[u8]>,
    content: &Content<'_>,
) -> Result<Answer, BookFault>
    requires { B.means.has_failed book.old ≡ false }
    ensures served { (request : OfficeRequest) → IsOfficeCall (office_text call.now) content.now request → ServesOffice B.means book.old book.new result request }
    ensures fault { EndsOnFault B.means book.old book.new result }
{
    let body = content.bytes();
    match call {
        OfficeCall::Plan => publish(alloc, book, body),
        OfficeCall::Day => set_day(alloc, book, body),
        OfficeCall::RegisterAgent => register_agent(alloc, book, body),
        OfficeCall::RegisterAirline => register_airline(alloc, book, body),
        OfficeCall::Allot => allot(alloc, book, body),
        OfficeCall::Withdraw => withdraw_range(alloc, book, body),
        OfficeCall::Ret => report_of_office(alloc, book, content),
        OfficeCall::Close => close(alloc, book, body),
        OfficeCall::Settlement(period) => settlement(alloc, book, period),
    }
}
