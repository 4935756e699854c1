//! What the fields of a head ask for, or its first fault.
ghost use Rattle.std.specs.Prelude.{◌≡◌, ℕ, List, codes};
ghost use Rattle.bsp_routes.specs.Fields.{Header};
ghost use Rattle.bsp_routes.specs.Found.{AreFields};
ghost use Rattle.bsp_routes.specs.Judging.{is_method, body_of, judge};

use crate::fields::Fields;
use crate::host::are_hosts;
use crate::length::frame;
use crate::named::Found;
use crate::{HeadFault, Wanted};

/// Whether the method has that name; letter case counts (RFC 9110, 9.1).
pub(crate) fn is_method(method: &[u8], name: &[u8]) -> bool
    ensures { result ≡ is_method name.now method.now }
{
    method == name
}

/// The length of the body, or the first fault that applies.
fn find_length(minor: u8, method: &[u8], text: &[u8], fields: &Fields) -> Result<usize, HeadFault>
    requires { (headers : List Header) × AreFields text.now headers fields.now }
    ensures { (headers : List Header) → AreFields text.now headers fields.now → result ≡ body_of minor method.now headers }
{
    if !are_hosts(minor, text, fields.hosts) {
        return Err(HeadFault::Malformed);
    }
    let Found::Nothing = fields.codings else {
        return Err(HeadFault::TransferCoding);
    };
    frame(is_method(method, b"POST"), text, fields.lengths)
}

/// What a head of HTTP/1.`minor` with that method and those fields asks for, or its first fault.
pub(crate) fn judge_fields(
    minor: u8,
    method: &[u8],
    text: &[u8],
    fields: &Fields,
) -> Result<Wanted, HeadFault>
    requires { (headers : List Header) × AreFields text.now headers fields.now }
    ensures { (headers : List Header) → AreFields text.now headers fields.now → result ≡ judge minor method.now headers }
{
    match find_length(minor, method, text, fields) {
        Ok(body) => Ok(Wanted {
            body,
            closes: minor != 1 || fields.closes,
            expects: minor == 1 && body != 0 && fields.expects,
            bare: is_method(method, b"HEAD"),
        }),
        Err(fault) => Err(fault),
    }
}
