//! The lines of a text.

ghost use Rattle.std.specs.Prelude.{◌≡◌, ◌<◌, length, true, false, IfSome, IfNone};
ghost use Rattle.bsp_fields.specs.Columns.{is_wide};
ghost use Rattle.bsp_fields.specs.Lines.{without_cr, has_end, BeginsWithLine, HasFirstLine, BeginsOtherwise};

use crate::characters::all_printable;
use crate::fields::is_wide;
use memchr::memchr;

/// A line without a CR at its end.
#[tactic(auto, using(crate::proofs::CutLemmas::without_cr_cut, crate::proofs::CutLemmas::without_cr_kept))]
fn without_carriage_return(line: &[u8]) -> &[u8]
    ensures { result.now ≡ without_cr line.now }
{
    let length = line.len();
    if length > 0 && line[length - 1] == b'\r' {
        &line[..length - 1]
    } else {
        line
    }
}

/// The first line that has an end, and the bytes behind that end.
pub fn ended_line(bytes: &[u8]) -> Option<(&[u8], &[u8])>
    ensures some { IfSome result (λ x. BeginsWithLine bytes.now x.0.now x.1.now) }
    ensures none { IfNone result (has_end bytes.now ≡ false) }
{
    match memchr(b'\n', bytes) {
        Some(end) => {
            let line = without_carriage_return(&bytes[..end]);
            Some((line, &bytes[end + 1..]))
        }
        None => None,
    }
}

/// The first line, and the bytes behind it and its end, of some bytes.
pub fn first_line(bytes: &[u8]) -> (&[u8], &[u8])
    requires { 0 < length bytes.now }
    ensures { HasFirstLine bytes.now result.0.now result.1.now }
{
    match ended_line(bytes) {
        Some((line, rest)) => (line, rest),
        None => (bytes, &bytes[bytes.len()..]),
    }
}

/// As [`first_record`], whatever end the line has.
#[inline(never)]
fn any_first_record(bytes: &[u8]) -> Option<(&[u8], &[u8])>
    requires { 0 < length bytes.now }
    ensures first { IfSome result (λ x. HasFirstLine bytes.now x.0.now x.1.now) }
    ensures wide { IfSome result (λ x. is_wide x.0.now ≡ true) }
    ensures long { IfSome result (λ x. length x.0.now ≡ 136) }
    ensures none { IfNone result (BeginsOtherwise bytes.now) }
{
    let (line, rest) = first_line(bytes);
    if is_wide(line) {
        Some((line, rest))
    } else {
        None
    }
}

/// The first line of some bytes, and the bytes behind it and its end, where the line is a record:
/// 136 characters from 0x20 to 0x7E.
#[inline(always)]
pub fn first_record(bytes: &[u8]) -> Option<(&[u8], &[u8])>
    requires { 0 < length bytes.now }
    ensures first { IfSome result (λ x. HasFirstLine bytes.now x.0.now x.1.now) }
    ensures wide { IfSome result (λ x. is_wide x.0.now ≡ true) }
    ensures long { IfSome result (λ x. length x.0.now ≡ 136) }
    ensures none { IfNone result (BeginsOtherwise bytes.now) }
{
    if let Some((line, tail)) = bytes.split_first_chunk::<136>() {
        if let Some((end, after)) = tail.split_first() {
            // Both parts are whole sixteens of characters, which one instruction tests.
            if *end == b'\n' && all_printable(&line[..128]) && all_printable(&line[120..]) {
                return Some((line, after));
            }
        }
    }
    any_first_record(bytes)
}
