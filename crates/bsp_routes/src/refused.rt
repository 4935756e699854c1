//! The answers to requests whose head is refused.

ghost use Rattle.std.specs.Prelude.{◌≡◌};
ghost use Rattle.bsp_routes.specs.Replies.{reply_text};
ghost use Rattle.bsp_routes.specs.Responses.{refusal_reply};

use crate::fault::HeadFault;
use crate::reply::Reply;
use crate::status::{Media, Status};
use std::borrow::CowSlice;

/// The status of the answer.
fn status_of(fault: HeadFault) -> Status
    ensures { result ≡ (refusal_reply fault).status }
{
    match fault {
        HeadFault::Malformed => Status::BadRequest,
        HeadFault::LengthRequired => Status::LengthRequired,
        HeadFault::BodyTooLarge => Status::PayloadTooLarge,
        HeadFault::HeadTooLarge => Status::RequestHeaderFieldsTooLarge,
        HeadFault::TransferCoding => Status::NotImplemented,
    }
}

/// The body of the answer, `{"code":"T01"}` to `{"code":"T05"}`.
fn body_of(fault: HeadFault) -> &'static [u8]
    ensures { result.now ≡ (refusal_reply fault).body }
{
    match fault {
        HeadFault::Malformed => b"{\"code\":\"T01\"}",
        HeadFault::LengthRequired => b"{\"code\":\"T02\"}",
        HeadFault::BodyTooLarge => b"{\"code\":\"T03\"}",
        HeadFault::HeadTooLarge => b"{\"code\":\"T04\"}",
        HeadFault::TransferCoding => b"{\"code\":\"T05\"}",
    }
}

/// The answer to a request whose head is refused for this fault: 400 T01, 411 T02, 413 T03, 431 T04 or 501 T05.
/// Behind it the connection closes. It takes no memory.
pub fn refusal(fault: HeadFault) -> Reply
    ensures { reply_text result ≡ refusal_reply fault }
{
    Reply {
        status: status_of(fault),
        media: Media::Json,
        allow: None,
        body: CowSlice::Borrowed(body_of(fault)),
    }
}
