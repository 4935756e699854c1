//! Numbers that digits write.

ghost use Rattle.std.specs.Prelude.{◌≡◌, ◌≤◌, length, true};
ghost use Rattle.std.specs.Str.{all_ascii_digits};
ghost use Rattle.bsp_fields.specs.Decimal.{number_of};
ghost use Rattle.bsp_fields.specs.Fields.{spells, spells_at_most};

use crate::characters::all_digits;

/// Whether at most 19 characters are digits that write the number.
#[inline]
pub fn spells(number: usize, text: &[u8]) -> bool
    requires { length text.now ≤ 19 }
    ensures { result ≡ spells number text.now }
{
    all_digits(text) && number_of(text) as usize == number
}

/// Whether at most 19 characters are digits that write the number or less.
#[inline]
pub fn spells_at_most(most: u64, text: &[u8]) -> bool
    requires { length text.now ≤ 19 }
    ensures { result ≡ spells_at_most most text.now }
{
    all_digits(text) && number_of(text) <= most
}

/// The number that at most 19 digits write.
#[inline]
pub fn number_of(text: &[u8]) -> u64
    requires few { length text.now ≤ 19 }
    requires digits { all_ascii_digits text.now ≡ true }
    ensures { result ≡ number_of text.now }
{
    let mut number = 0;
    for digit in text {
        number = number * 10 + (*digit - b'0') as u64;
    }
    number
}
