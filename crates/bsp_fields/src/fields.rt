//! Kinds of fields.

ghost use Rattle.std.specs.Prelude.{◌≡◌, length, true};
ghost use Rattle.bsp_fields.specs.Columns.{is_wide};
ghost use Rattle.bsp_fields.specs.Fields.{is_amount, is_total, is_record_day};

use crate::characters::{all_digits, all_printable};
use crate::day::Day;
use crate::zoned::read_ending;

/// Whether a record has 136 characters, all from 0x20 to 0x7E.
#[tactic(auto, unfolding(crate::specs::Columns::is_wide))]
#[inline]
pub fn is_wide(line: &[u8]) -> bool
    ensures value { result ≡ is_wide line.now }
    ensures long { result ≡ true → length line.now ≡ 136 }
{
    line.len() == 136 && all_printable(line)
}

/// Whether a text is an amount, in any spelling.
#[inline]
pub fn is_amount(text: &[u8]) -> bool
    ensures { result ≡ is_amount text.now }
{
    text.len() == 11 && all_digits(&text[..10]) && read_ending(text[10]).is_ok()
}

/// Whether a text is a total, in any spelling.
#[inline]
pub fn is_total(text: &[u8]) -> bool
    ensures { result ≡ is_total text.now }
{
    text.len() == 15 && all_digits(&text[..14]) && read_ending(text[14]).is_ok()
}

/// Whether a text is a day as YYMMDD.
#[inline]
pub fn is_record_day(text: &[u8]) -> bool
    ensures { result ≡ is_record_day text.now }
{
    Day::read_record(text).is_ok()
}
