//! The head of a response, and the interim response.

ghost use Rattle.std.specs.Prelude.{◌≡◌, ◌≤◌, ◌+◌, ◌++◌, [], length, vec_capacity, vec_len, if◌then◌else◌};
ghost use Rattle.bsp_routes.specs.ResponseHeads.{head_text};
ghost use Rattle.bsp_routes.specs.Responses.{continue_text};

use crate::append::put;
use crate::lines::{allow_line, body_lines, last_lines, status_line};
use crate::methods::Methods;
use crate::status::{Media, Status};
use crate::text::HeadText;
use itoa::Buffer;

/// Room for the head of any response, in bytes.
pub const HEAD_ROOM: usize = 256;

/// What the head of a response says.
#[derive(Clone, Copy)]
pub struct ResponseHead {
    /// The status.
    pub status: Status,
    /// The media type of the body.
    pub media: Media,
    /// The length of the body in bytes, also where a HEAD is answered and the body is left out
    /// (RFC 9110, 8.6).
    pub length: usize,
    /// The methods of the field `Allow`, which a 405 has (RFC 9110, 10.2.1).
    pub allow: Option<Methods>,
    /// Whether the connection closes behind the response (RFC 9112, 9.6).
    pub closes: bool,
}

impl ResponseHead {
    /// The head as it is sent: the status line, its fields, and the empty line (RFC 9112, section 2.1).
    pub fn text(&self) -> HeadText
        ensures { result ≡ head_text self.now }
    {
        let mut text = HeadText::new();
        text.put(status_line(self.status));
        text.put(body_lines(self.media));
        text.put(Buffer::new().format(self.length).as_bytes());
        text.put(allow_line(self.allow));
        text.put(last_lines(self.closes));
        text
    }

    /// Appends the head as it is sent, to bytes that have room for [`HEAD_ROOM`] more.
    pub fn append_to(&self, bytes: &mut Vec<u8>)
        requires { vec_len bytes.old + 256 ≤ vec_capacity bytes.old }
        ensures items { bytes.new.items ≡ bytes.old.items ++ head_text self.now }
        ensures len { vec_len bytes.new ≤ vec_len bytes.old + 256 }
        ensures capacity { vec_capacity bytes.old ≤ vec_capacity bytes.new }
    {
        put(bytes, status_line(self.status));
        put(bytes, body_lines(self.media));
        put(bytes, Buffer::new().format(self.length).as_bytes());
        put(bytes, allow_line(self.allow));
        put(bytes, last_lines(self.closes));
    }
}

/// What is sent before a body is read: the interim response where the sender waits for it
/// (RFC 9110, 15.2.1), else nothing.
pub fn interim(expects: bool) -> &'static [u8]
    ensures { result.now ≡ (if expects then continue_text else []) }
{
    if expects {
        b"HTTP/1.1 100 Continue\r\n\r\n"
    } else {
        b""
    }
}
