//! Whether a document's number is in an agent's stock.

ghost use Rattle.std.specs.Prelude.{◌≡◌, true};
ghost use Rattle.std.specs.List.{list_any};
ghost use Rattle.std.specs.Char.{is_ascii_digit};
ghost use Rattle.std.specs.Str.{all_ascii_digits};
ghost use Rattle.bsp_fields.specs.Decimal.{number_of};
ghost use Rattle.bsp_rules.specs.Rows.{contains, is_in_stock};

use crate::rows::Range;
use bsp_fields::{DocNumber, check_digit};
use bsp_ret_records::ReportedDocument;

fn is_digit(character: u8) -> bool
    ensures { result ≡ is_ascii_digit character }
{
    character.is_ascii_digit()
}

fn all_digits(number: &[u8; 10]) -> bool
    ensures { result ≡ all_ascii_digits number.now }
{
    number.iter().all(|character| is_digit(*character))
}

/// The number of ten digits.
fn number_of(digits: &[u8; 10]) -> DocNumber
    requires { all_ascii_digits digits.now ≡ true }
    ensures { result ≡ number_of digits.now }
{
    let Ok(number) = DocNumber::read(digits, check_digit(digits)) else {
        unreachable!()
    };
    number
}

fn is_in_a_range(number: DocNumber, ranges: &[Range]) -> bool
    ensures { result ≡ list_any (contains number) ranges.now }
{
    ranges
        .iter()
        .any(|range| range.first <= number && number <= range.last)
}

/// Whether the document's number lies in one of the ranges.
pub(crate) fn is_in_stock(document: &ReportedDocument, ranges: &[Range]) -> bool
    ensures { result ≡ is_in_stock document.now ranges.now }
{
    all_digits(&document.number) && is_in_a_range(number_of(&document.number), ranges)
}
