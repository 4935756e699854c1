//! The lines of a response's head.

ghost use Rattle.std.specs.Prelude.{◌≡◌, ◌≤◌, ◌++◌, codes, decimal, length};
ghost use Rattle.bsp_routes.specs.Replies.{code};
ghost use Rattle.bsp_routes.specs.ResponseHeads.{allow_lines, closing_lines, lines_text, media_type, phrase};

use crate::methods::Methods;
use crate::status::{Media, Status};

/// The status line (RFC 9112, section 4).
pub(crate) fn status_line(status: Status) -> &'static [u8]
    ensures value { result.now ≡ codes "HTTP/1.1 " ++ (decimal (code status) ++ (codes " " ++ (phrase status ++ codes "\r\n"))) }
    ensures short { length result.now ≤ 46 }
{
    match status {
        Status::Ok => b"HTTP/1.1 200 OK\r\n",
        Status::BadRequest => b"HTTP/1.1 400 Bad Request\r\n",
        Status::Forbidden => b"HTTP/1.1 403 Forbidden\r\n",
        Status::NotFound => b"HTTP/1.1 404 Not Found\r\n",
        Status::MethodNotAllowed => b"HTTP/1.1 405 Method Not Allowed\r\n",
        Status::Conflict => b"HTTP/1.1 409 Conflict\r\n",
        Status::LengthRequired => b"HTTP/1.1 411 Length Required\r\n",
        Status::PayloadTooLarge => b"HTTP/1.1 413 Payload Too Large\r\n",
        Status::UnprocessableEntity => b"HTTP/1.1 422 Unprocessable Entity\r\n",
        Status::RequestHeaderFieldsTooLarge => b"HTTP/1.1 431 Request Header Fields Too Large\r\n",
        Status::NotImplemented => b"HTTP/1.1 501 Not Implemented\r\n",
        Status::ServiceUnavailable => b"HTTP/1.1 503 Service Unavailable\r\n",
    }
}

/// `Content-Type`, and `Content-Length` without its value.
pub(crate) fn body_lines(media: Media) -> &'static [u8]
    ensures value { result.now ≡ codes "Content-Type: " ++ (media_type media ++ codes "\r\nContent-Length: ") }
    ensures short { length result.now ≤ 48 }
{
    match media {
        Media::Json => b"Content-Type: application/json\r\nContent-Length: ",
        Media::Text => b"Content-Type: text/plain\r\nContent-Length: ",
    }
}

/// The end of a line, and the field `Allow`.
pub(crate) fn allow_line(allow: Option<Methods>) -> &'static [u8]
    ensures value { result.now ≡ codes "\r\n" ++ lines_text (allow_lines allow) }
    ensures short { length result.now ≤ 20 }
{
    match allow {
        None => b"\r\n",
        Some(Methods::Get) => b"\r\nAllow: GET\r\n",
        Some(Methods::Post) => b"\r\nAllow: POST\r\n",
        Some(Methods::GetAndPost) => b"\r\nAllow: GET, POST\r\n",
    }
}

/// The field `Connection`, and the empty line.
pub(crate) fn last_lines(closes: bool) -> &'static [u8]
    ensures value { result.now ≡ lines_text (closing_lines closes) ++ codes "\r\n" }
    ensures short { length result.now ≤ 21 }
{
    if closes {
        b"Connection: close\r\n\r\n"
    } else {
        b"\r\n"
    }
}
