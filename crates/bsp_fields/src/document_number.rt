//! Document numbers and their check digit.

ghost use Rattle.std.specs.Prelude.{◌≡◌, ℕ, ◌^◌, ◌<◌, true, IfOk, Some};
ghost use Rattle.std.specs.Str.{all_ascii_digits};
ghost use Rattle.std.specs.Fmt.{padded};
ghost use Rattle.bsp_fields.specs.Decimal.{number_of, fixed_digits};
ghost use Rattle.bsp_fields.specs.Codes.{check_digit_of, code_reading, document_reading};

use crate::digits::{display_digits, read_code, read_digits, write_digits};
use crate::fault::FieldFault;
use std::fmt;
use std::marker::Model;

/// The check digit of a document number of ten digits: the number modulo 7, from 0 to 6.
pub fn check_digit(number: &[u8; 10]) -> u8
    requires { all_ascii_digits number.now ≡ true }
    ensures { result ≡ check_digit_of (number_of number.now) }
{
    let Ok(number) = read_digits(number) else {
        unreachable!()
    };
    (number % 7) as u8
}

/// A document number of ten digits, without its check digit. A contract sees it as the number that
/// the digits write, so the order is that of the digits.
#[derive(Clone, Copy, PartialEq, Eq, PartialOrd, Ord)]
pub struct DocNumber {
    number: u64,
}

impl Model for DocNumber {
    ghost Value = { ℕ };

    ghost view = { λ document. document.number };

    ghost inverse = { λ number. record { number = number } };

    ghost invariant = { λ document. document.number < 10 ^ 10 };
}

impl DocNumber {
    /// Reads ten digits, beside the value 0 to 9 of the check digit that comes with them.
    ///
    /// # Errors
    ///
    /// The first of `Width`, `NotDigit` and `CheckDigit` that applies.
    pub fn read(text: &[u8], check: u8) -> Result<DocNumber, FieldFault>
        ensures value { result ≡ document_reading text.now check }
        ensures spelled { IfOk result (λ document. fixed_digits 10 document ≡ text.now) }
    {
        let number = read_code::<10>(text)?;
        if check as u64 != number % 7 {
            return Err(FieldFault::CheckDigit);
        }
        Ok(DocNumber { number })
    }

    /// Reads ten digits, with no check digit beside them.
    ///
    /// # Errors
    ///
    /// The first of `Width` and `NotDigit` that applies.
    pub fn read_unchecked(text: &[u8]) -> Result<DocNumber, FieldFault>
        ensures value { result ≡ code_reading 10 text.now }
        ensures spelled { IfOk result (λ document. fixed_digits 10 document ≡ text.now) }
    {
        let number = read_code::<10>(text)?;
        Ok(DocNumber { number })
    }

    /// The ten digits.
    pub fn digits(self) -> [u8; 10]
        ensures text { result ≡ fixed_digits 10 self }
        ensures reads_back { document_reading result (check_digit_of self) ≡ Ok self }
    {
        write_digits::<10>(self.number)
    }

    /// The check digit, from 0 to 6.
    pub fn check_digit(self) -> u8
        ensures { result ≡ check_digit_of self }
    {
        (self.number % 7) as u8
    }
}

/// The ten digits, in the width that the format asks for.
impl fmt::Display for DocNumber {
    ghost output = { λ document. Some (fixed_digits 10 document) };

    ghost styled_output = { λ document spec. Some (padded spec (fixed_digits 10 document)) };

    fn fmt<W: fmt::Write>(&self, f: &mut fmt::Formatter<W>) -> fmt::Result {
        display_digits(&self.digits(), f)
    }
}
