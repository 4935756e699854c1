//! Columns that several records have, and the values of fields that fit.

ghost use Rattle.std.specs.Prelude.{◌≡◌, true, length, Ok};
ghost use Rattle.std.specs.Str.{all_ascii_digits};
ghost use Rattle.bsp_fields.specs.Zoned.{zoned_reading};
ghost use Rattle.bsp_fields.specs.Days.{record_reading};
ghost use Rattle.bsp_fields.specs.Fields.{is_amount, is_record_day};
ghost use Rattle.bsp_ret_records.specs.Records.{transaction_number};
ghost use Rattle.bsp_ret_records.specs.Values.{IsDocument};

use crate::transactions::ReportedDocument;
use bsp_fields::{AirlineCode, Amount, Day, read_amount};

/// The transaction number of records 2, 3, 5 and 8.
#[inline]
pub fn transaction_number(line: &[u8]) -> &[u8]
    requires { length line.now ≡ 136 }
    ensures columns { result.now ≡ transaction_number line.now }
    ensures wide { length result.now ≡ 6 }
{
    &line[1..7]
}

/// The characters of a text of that width.
pub(crate) fn array_of<const N: usize>(text: &[u8]) -> [u8; N]
    requires { length text.now ≡ N }
    ensures { result ≡ text.now }
{
    let Ok(array) = <[u8; N]>::try_from(text) else {
        unreachable!()
    };
    array
}

/// The amount of a field that is one.
pub(crate) fn amount_of(text: &[u8]) -> Amount
    requires { is_amount text.now ≡ true }
    ensures { zoned_reading 11 text.now ≡ Ok result }
{
    let Ok(amount) = read_amount(text) else {
        unreachable!()
    };
    amount
}

/// The day of a field that is one.
pub(crate) fn day_of(text: &[u8]) -> Day
    requires { is_record_day text.now ≡ true }
    ensures { record_reading text.now ≡ Ok result }
{
    let Ok(day) = Day::read_record(text) else {
        unreachable!()
    };
    day
}

/// A document in fourteen digits.
pub(crate) fn document_of(text: &[u8]) -> ReportedDocument
    requires wide { length text.now ≡ 14 }
    requires digits { all_ascii_digits text.now ≡ true }
    ensures { IsDocument text.now result }
{
    let Ok(airline) = AirlineCode::read(&text[..3]) else {
        unreachable!()
    };
    ReportedDocument {
        airline,
        number: array_of::<10>(&text[3..13]),
        check_digit: text[13] - b'0',
    }
}
