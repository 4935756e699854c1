//! What is answered to a request.

use crate::methods::Methods;
use crate::status::{Media, Status};
use std::alloc::Global;
use std::borrow::CowSlice;

/// What is answered to a request.
#[derive(Drop)]
pub struct Reply {
    /// The status.
    pub status: Status,
    /// The media type of the body.
    pub media: Media,
    /// The methods of the field `Allow`, which a 405 has (RFC 9110, 10.2.1).
    pub allow: Option<Methods>,
    /// The body: a fixed text, which takes no memory, or one that was written for this reply.
    pub body: CowSlice<'static, u8, Global>,
}
