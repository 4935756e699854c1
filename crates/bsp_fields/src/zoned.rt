//! The sign of an amount in its last character (zoned decimal).

ghost use Rattle.std.specs.Prelude.{◌≡◌, ◌^◌, ◌<◌, ◌≤◌, ◌↔◌, unsigned_abs, IfOk, List, ℕ};
ghost use Rattle.bsp_fields.specs.Zoned.{IsSpelling, zoned_reading, spelling, ending, ending_reading, with_sign};

use crate::digits::{read_digits, write_digits};
use crate::fault::FieldFault;

/// What the last character of an amount or a total carries: whether a minus, and its digit.
///
/// # Errors
///
/// `NotSign` where it carries none.
#[inline]
pub fn read_ending(last: u8) -> Result<(bool, u8), FieldFault>
    ensures { result ≡ ending_reading last }
{
    match last {
        b'0'..=b'9' => Ok((false, last - b'0')),
        b'{' => Ok((false, 0)),
        b'A'..=b'I' => Ok((false, last - b'A' + 1)),
        b'}' => Ok((true, 0)),
        b'J'..=b'R' => Ok((true, last - b'J' + 1)),
        _ => Err(FieldFault::NotSign),
    }
}

/// The last character for a sign and a digit.
fn write_ending(negative: bool, digit: u8) -> u8
    requires { digit < 10 }
    ensures { result ≡ ending negative digit }
{
    match (negative, digit) {
        (false, 0) => b'{',
        (false, _) => b'A' + digit - 1,
        (true, 0) => b'}',
        (true, _) => b'J' + digit - 1,
    }
}

/// The number of that size, below zero where it is negative.
fn apply_sign(negative: bool, size: u64) -> i64
    requires { size < 10 ^ 18 }
    ensures value { result ≡ with_sign negative size }
    ensures size { unsigned_abs result ≡ size }
{
    let size = size as i64;
    if negative { -size } else { size }
}

/// The value of a signed zoned decimal of `N` characters.
pub(crate) fn read_zoned<const N: usize>(text: &[u8]) -> Result<i64, FieldFault>
    requires some { 1 ≤ N }
    requires few { N ≤ 18 }
    ensures value { result ≡ zoned_reading N text.now }
    ensures bound { IfOk result (λ value. unsigned_abs value < 10 ^ N) }
{
    if text.len() != N {
        return Err(FieldFault::Width);
    }
    let tens = read_digits(&text[..N - 1])?;
    let (negative, digit) = read_ending(text[N - 1])?;
    Ok(apply_sign(negative, tens * 10 + digit as u64))
}

/// The signed zoned decimal of `N` characters with that value.
pub(crate) fn write_zoned<const N: usize>(value: i64) -> [u8; N]
    requires some { 1 ≤ N }
    requires few { N ≤ 18 }
    requires size { unsigned_abs value < 10 ^ N }
    ensures text { result ≡ spelling N value }
    ensures reads_back { zoned_reading N result ≡ Ok value }
    ensures one_spelling { (text : List ℕ) → IsSpelling N value text ↔ (text ≡ result) }
{
    let size = value.unsigned_abs();
    let mut text = write_digits::<N>(size);
    text[N - 1] = write_ending(value < 0, (size % 10) as u8);
    text
}
