//! Record Z, the trailer.

ghost use Rattle.std.specs.Prelude.{◌≡◌, length, Ok};
ghost use Rattle.bsp_fields.specs.Decimal.{number_of};
ghost use Rattle.bsp_fields.specs.Zoned.{zoned_reading};
ghost use Rattle.bsp_ret_records.specs.Records.{IsFit, record_count, transaction_count, total, trailer_fits};

use bsp_fields::{Total, all_digits, all_spaces, is_total, number_of, read_total};

/// The number of records that a trailer reports, in seven characters.
#[inline]
pub fn record_count(line: &[u8]) -> &[u8]
    requires { length line.now ≡ 136 }
    ensures columns { result.now ≡ record_count line.now }
    ensures wide { length result.now ≡ 7 }
{
    &line[1..8]
}

/// The number of transactions that a trailer reports, in seven characters.
#[inline]
pub fn transaction_count(line: &[u8]) -> &[u8]
    requires { length line.now ≡ 136 }
    ensures columns { result.now ≡ transaction_count line.now }
    ensures wide { length result.now ≡ 7 }
{
    &line[8..15]
}

/// The sum that a trailer reports, in fifteen characters.
#[inline]
fn total(line: &[u8]) -> &[u8]
    requires { length line.now ≡ 136 }
    ensures { result.now ≡ total line.now }
{
    &line[15..30]
}

/// Whether the fields of a trailer fit.
#[tactic(auto, unfolding(crate::specs::Records::trailer_fits))]
pub fn trailer_fits(line: &[u8]) -> bool
    requires { length line.now ≡ 136 }
    ensures { result ≡ trailer_fits line.now }
{
    all_digits(record_count(line))
        && all_digits(transaction_count(line))
        && is_total(total(line))
        && all_spaces(&line[30..136])
}

/// The number of records that a trailer reports.
#[tactic(auto, using(crate::proofs::ValueLemmas::trailer_fields))]
pub fn told_records(line: &[u8]) -> usize
    requires { IsFit trailer_fits line.now }
    ensures { result ≡ number_of (record_count line.now) }
{
    number_of(record_count(line)) as usize
}

/// The sum that a trailer reports.
pub fn told_sum(line: &[u8]) -> Total
    requires { IsFit trailer_fits line.now }
    ensures { zoned_reading 15 (total line.now) ≡ Ok result }
{
    let Ok(sum) = read_total(total(line)) else {
        unreachable!()
    };
    sum
}
