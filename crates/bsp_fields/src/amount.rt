//! An amount of eleven digits, as a field of a record and as a number.

ghost use Rattle.std.specs.Prelude.{◌≡◌, ◌≤◌, ◌↔◌, ℤ, unsigned_abs, List, ℕ};
ghost use Rattle.bsp_fields.specs.Zoned.{IsSpelling, zoned_reading, spelling, within};

use crate::fault::FieldFault;
use crate::zoned::{read_zoned, write_zoned};
use std::marker::Model;

/// An amount of money in minor units (hundredths of the currency), of either sign and at most
/// eleven digits. A contract sees it as that whole number.
#[derive(Clone, Copy, PartialEq, Eq, PartialOrd, Ord)]
pub struct Amount {
    units: i64,
}

impl Model for Amount {
    ghost Value = { ℤ };

    ghost view = { λ amount. amount.units };

    ghost inverse = { λ units. record { units = units } };

    ghost invariant = { λ amount. unsigned_abs amount.units ≤ 99_999_999_999 };
}

impl Amount {
    /// The amount of that many minor units.
    ///
    /// # Errors
    ///
    /// `TooLarge` where its size is above 99,999,999,999.
    pub fn new(units: i64) -> Result<Amount, FieldFault>
        ensures { result ≡ within 99_999_999_999 units }
    {
        if units.unsigned_abs() > 99_999_999_999 {
            return Err(FieldFault::TooLarge);
        }
        Ok(Amount { units })
    }

    /// The minor units.
    pub fn get(self) -> i64
        ensures value { result ≡ self }
        ensures bound { unsigned_abs result ≤ 99_999_999_999 }
    {
        self.units
    }
}

/// Reads an amount of 11 characters (DISH signed zoned decimal): ten digits and a last character
/// that carries a digit and the sign. The sign is plus for `{` and `A` to `I`, minus for `}` and
/// `J` to `R`. A last digit `0` to `9` is taken as plus, and minus zero as zero.
///
/// # Errors
///
/// The first of `Width`, `NotDigit` and `NotSign` that applies.
pub fn read_amount(text: &[u8]) -> Result<Amount, FieldFault>
    ensures { result ≡ zoned_reading 11 text.now }
{
    let units = read_zoned::<11>(text)?;
    Ok(Amount { units })
}

/// Writes an amount in its one spelling of 11 characters (DISH signed zoned decimal). It ends in
/// `{` or `A` to `I` for zero and above, and in `}` or `J` to `R` below zero.
pub fn write_amount(amount: Amount) -> [u8; 11]
    ensures text { result ≡ spelling 11 amount }
    ensures one_spelling { (text : List ℕ) → IsSpelling 11 amount text ↔ (text ≡ result) }
    ensures reads_back { zoned_reading 11 result ≡ Ok amount }
{
    write_zoned::<11>(amount.units)
}
