//! Reading a whole head.
ghost use Rattle.std.specs.Prelude.{◌≡◌, ℕ, ◌<◌, ◌≤◌, List, [], length, take, map, codes, All, slice_range, Ok, Err, IfOk, IfErr, IfSome, false};
ghost use Rattle.std.specs.Option.{option_map};
ghost use Rattle.httparse.specs.Grammar.{RequestHead};
ghost use Rattle.httparse.specs.Spans.{header_bytes, span_bytes, IsHeaderWithin, IsWithin, IsRequestWithin, IsRequestOf};
ghost use Rattle.bsp_routes.specs.Fields.{token_of};
ghost use Rattle.bsp_routes.specs.Judging.{is_method, judge};
ghost use Rattle.bsp_routes.specs.Head.{judgement, headers_of, IsHead, IsNoHead, Refuses, AreParts};

use crate::fields::Fields;
use crate::judge::{is_method, judge_fields};
use crate::{HeadFault, HeadParts, Refused};
use httparse::spans::{EMPTY_HEADER_SPAN, HeaderSpan, RequestSpans, parse_request};
use httparse::{Error, Status};

/// The most bytes that a head may have, its empty line and the empty lines before it counted.
pub const HEAD_LIMIT: usize = 16384;

/// The most fields that a head may have.
pub const FIELD_LIMIT: usize = 64;

/// As many fields as most heads have at the most. The room for them is made for each head.
const FEW: usize = 16;

/// The spans of the head at the front of a text within the limit.
#[tactic(auto, using(crate::proofs::HeadLemmas::never_now))]
fn parse_front(text: &[u8], headers: &mut [HeaderSpan]) -> Result<RequestSpans, HeadFault>
    requires short { length text.now ≤ 16384 }
    ensures within { IfOk result (IsRequestWithin text.now headers.new) }
    ensures complete { IfOk result (IsRequestOf text.now headers.new) }
    ensures err { length headers.old ≡ 64 → IfErr result (IsNoHead text.now) }
    ensures room { length headers.new ≡ length headers.old }
{
    match parse_request(text, headers) {
        Ok(Status::Complete(head)) => Ok(head),
        Ok(Status::Partial) => Err(HeadFault::Malformed),
        Err(Error::TooManyHeaders) => Err(HeadFault::HeadTooLarge),
        Err(_) => Err(HeadFault::Malformed),
    }
}

/// The spans of the head that the text is.
fn parse(text: &[u8], headers: &mut [HeaderSpan]) -> Result<RequestSpans, HeadFault>
    ensures within { IfOk result (IsRequestWithin text.now headers.new) }
    ensures complete { IfOk result (IsRequestOf text.now headers.new) }
    ensures len { IfOk result (λ head. head.len ≡ length text.now) }
    ensures short { IfOk result (λ head. length text.now ≤ 16384) }
    ensures err { length headers.old ≡ 64 → IfErr result (IsNoHead text.now) }
    ensures room { length headers.new ≡ length headers.old }
{
    if text.len() > HEAD_LIMIT {
        return Err(HeadFault::HeadTooLarge);
    }
    match parse_front(text, headers) {
        Ok(head) => {
            if head.len == text.len() {
                Ok(head)
            } else {
                Err(HeadFault::Malformed)
            }
        }
        Err(fault) => Err(fault),
    }
}

/// What the head of these spans states.
///
/// # Errors
///
/// The first fault that applies, in the order of [`HeadFault`].
fn take_spans(
    text: &[u8],
    head: &RequestSpans,
    headers: &[HeaderSpan],
) -> Result<HeadParts, Refused>
    requires within { IsRequestWithin text.now headers.now head.now }
    requires complete { IsRequestOf text.now headers.now head.now }
    requires len { head.now.len ≡ length text.now }
    requires few { length headers.now ≤ 64 }
    requires short { length text.now ≤ 16384 }
    ensures ok { IfOk result (AreParts text.now) }
    ensures method { IfOk result (λ parts. IsWithin (length text.now) parts.method) }
    ensures target { IfOk result (λ parts. IsWithin (length text.now) parts.target) }
    ensures token { IfOk result (λ parts. IfSome parts.token (IsWithin (length text.now))) }
    ensures err { IfErr result (Refuses text.now) }
{
    let method = head.method.of(text);
    let fields = Fields::of(text, &headers[..head.headers]);
    match judge_fields(head.version, method, text, &fields) {
        Ok(wanted) => Ok(HeadParts {
            method: head.method,
            target: head.path,
            token: fields.tokens.the_one(),
            wanted,
        }),
        Err(fault) => Err(Refused {
            fault,
            bare: is_method(method, b"HEAD"),
        }),
    }
}

/// Reads a head of any number of fields.
///
/// # Errors
///
/// The first fault that applies, in the order of [`HeadFault`].
fn read_any(text: &[u8]) -> Result<HeadParts, Refused>
    ensures ok { IfOk result (AreParts text.now) }
    ensures method { IfOk result (λ parts. IsWithin (length text.now) parts.method) }
    ensures target { IfOk result (λ parts. IsWithin (length text.now) parts.target) }
    ensures token { IfOk result (λ parts. IfSome parts.token (IsWithin (length text.now))) }
    ensures err { IfErr result (Refuses text.now) }
{
    let mut headers = [EMPTY_HEADER_SPAN; FIELD_LIMIT];
    match parse(text, &mut headers) {
        Ok(head) => take_spans(text, &head, &headers),
        Err(fault) => Err(Refused { fault, bare: false }),
    }
}

/// Reads the head that the text is, its last empty line counted. One of few fields is read at once; any other is read
/// with room for as many as it may have.
///
/// # Errors
///
/// The first fault that applies, in the order of [`HeadFault`].
pub fn read_head(text: &[u8]) -> Result<HeadParts, Refused>
    ensures ok { IfOk result (AreParts text.now) }
    ensures method { IfOk result (λ parts. IsWithin (length text.now) parts.method) }
    ensures target { IfOk result (λ parts. IsWithin (length text.now) parts.target) }
    ensures token { IfOk result (λ parts. IfSome parts.token (IsWithin (length text.now))) }
    ensures err { IfErr result (Refuses text.now) }
{
    let mut headers = [EMPTY_HEADER_SPAN; FEW];
    match parse(text, &mut headers) {
        Ok(head) => take_spans(text, &head, &headers),
        Err(_) => read_any(text),
    }
}
