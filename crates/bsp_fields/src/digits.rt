//! Numbers of decimal digits.

ghost use Rattle.std.specs.Prelude.{◌≡◌, ◌^◌, ◌<◌, ◌≤◌, length, IfOk};
ghost use Rattle.std.specs.Fmt.{WritesOnOk, WritesStyledOnOk, formatter_spec, padded};
ghost use Rattle.std.specs.Str.{IsAscii};
ghost use Rattle.bsp_fields.specs.Codes.{code_reading};
ghost use Rattle.bsp_fields.specs.Decimal.{digits_reading, fixed_digits};

use crate::fault::FieldFault;
use std::{fmt, str};

/// The number that at most 19 digits write.
///
/// # Errors
///
/// `NotDigit` where a character is none.
#[inline]
pub fn read_digits(text: &[u8]) -> Result<u64, FieldFault>
    requires { length text.now ≤ 19 }
    ensures value { result ≡ digits_reading text.now }
    ensures bound { IfOk result (λ number. number < 10 ^ 19) }
{
    let mut number = 0;
    for digit in text {
        if !digit.is_ascii_digit() {
            return Err(FieldFault::NotDigit);
        }
        number = number * 10 + (*digit - b'0') as u64;
    }
    Ok(number)
}

/// The last `N` digits of the number, with zeros in front.
pub fn write_digits<const N: usize>(mut number: u64) -> [u8; N]
    ensures { result ≡ fixed_digits N number }
{
    let mut text = [b'0'; N];
    for place in (0..N).rev() {
        text[place] = b'0' + (number % 10) as u8;
        number /= 10;
    }
    text
}

/// The number that `N` digits write.
pub(crate) fn read_places<const N: usize>(text: &[u8]) -> Result<u64, FieldFault>
    requires wide { length text.now ≡ N }
    requires few { N ≤ 19 }
    ensures value { result ≡ digits_reading text.now }
    ensures bound { IfOk result (λ number. number < 10 ^ N) }
    ensures spelled { IfOk result (λ number. fixed_digits N number ≡ text.now) }
{
    read_digits(text)
}

/// The number of `N` digits, or `Width` or `NotDigit`.
pub(crate) fn read_code<const N: usize>(text: &[u8]) -> Result<u64, FieldFault>
    requires { N ≤ 19 }
    ensures value { result ≡ code_reading N text.now }
    ensures bound { IfOk result (λ number. number < 10 ^ N) }
    ensures spelled { IfOk result (λ number. fixed_digits N number ≡ text.now) }
{
    if text.len() != N {
        return Err(FieldFault::Width);
    }
    read_places::<N>(text)
}

/// Displays the characters, in the width that the format asks for.
pub(crate) fn display_digits<W: fmt::Write>(text: &[u8], f: &mut fmt::Formatter<W>) -> fmt::Result
    requires { IsAscii text.now }
    ensures writes { WritesOnOk W.write_str_gives f.old result text.now f.new }
    ensures styled { WritesStyledOnOk W.write_str_gives f.old result (padded (formatter_spec f.old) text.now) f.new }
{
    let Ok(text) = str::from_utf8(text) else {
        unreachable!()
    };
    f.pad(text)
}
