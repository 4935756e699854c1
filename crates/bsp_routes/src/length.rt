//! The length of a body (RFC 9112, 6.3).
ghost use Rattle.std.specs.Prelude.{◌≡◌, ℕ, List, take};
ghost use Rattle.bsp_routes.specs.Found.{IsFound};
ghost use Rattle.bsp_routes.specs.Lengths.{sized, measured, framed};

use crate::HeadFault;
use crate::named::Found;

/// The most bytes that a body may have.
pub const BODY_LIMIT: usize = 4194304;

fn limit_length(len: usize) -> Result<usize, HeadFault>
    ensures { result ≡ sized len }
{
    if len > BODY_LIMIT {
        return Err(HeadFault::BodyTooLarge);
    }
    Ok(len)
}

/// The length of a body from the value of its `Content-Length`.
fn measure(text: &[u8]) -> Result<usize, HeadFault>
    ensures { result ≡ measured text.now }
{
    if text.is_empty() {
        return Err(HeadFault::Malformed);
    }
    let mut len = 0usize;
    for b in text {
        if !b.is_ascii_digit() {
            return Err(HeadFault::Malformed);
        }
        let digit = *b - b'0';
        len = (len * 10 + digit as usize).min(BODY_LIMIT + 1);
    }
    limit_length(len)
}

/// The length of a body from the `Content-Length` fields.
pub(crate) fn frame(posts: bool, text: &[u8], lengths: Found) -> Result<usize, HeadFault>
    requires { (texts : List (List ℕ)) × IsFound text.now texts lengths }
    ensures { (texts : List (List ℕ)) → IsFound text.now texts lengths → result ≡ framed posts texts }
{
    match lengths {
        Found::Nothing if posts => Err(HeadFault::LengthRequired),
        Found::Nothing => Ok(0),
        Found::One(value) => measure(value.of(text)),
        Found::Several => Err(HeadFault::Malformed),
    }
}
