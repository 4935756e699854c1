//! A total of fifteen digits, as a field of a record and as a number.

ghost use Rattle.std.specs.Prelude.{◌≡◌, ◌≤◌, ◌↔◌, ℤ, unsigned_abs, List, ℕ};
ghost use Rattle.bsp_fields.specs.Zoned.{IsSpelling, zoned_reading, spelling, within};

use crate::fault::FieldFault;
use crate::zoned::{read_zoned, write_zoned};
use std::marker::Model;

/// A sum of amounts in minor units (hundredths of the currency), of either sign and at most
/// fifteen digits. A contract sees it as that whole number.
#[derive(Clone, Copy, PartialEq, Eq, PartialOrd, Ord)]
pub struct Total {
    units: i64,
}

impl Model for Total {
    ghost Value = { ℤ };

    ghost view = { λ total. total.units };

    ghost inverse = { λ units. record { units = units } };

    ghost invariant = { λ total. unsigned_abs total.units ≤ 999_999_999_999_999 };
}

impl Total {
    /// The total of that many minor units.
    ///
    /// # Errors
    ///
    /// `TooLarge` where its size is above 999,999,999,999,999.
    pub fn new(units: i128) -> Result<Total, FieldFault>
        ensures { result ≡ within 999_999_999_999_999 units }
    {
        if units.unsigned_abs() > 999_999_999_999_999 {
            return Err(FieldFault::TooLarge);
        }
        let units = units as i64;
        Ok(Total { units })
    }

    /// The minor units.
    pub fn get(self) -> i128
        ensures value { result ≡ self }
        ensures bound { unsigned_abs result ≤ 999_999_999_999_999 }
    {
        self.units as i128
    }
}

/// Reads a total of 15 characters (DISH signed zoned decimal), spelled as an amount is, with
/// fourteen digits in front.
///
/// # Errors
///
/// The first of `Width`, `NotDigit` and `NotSign` that applies.
pub fn read_total(text: &[u8]) -> Result<Total, FieldFault>
    ensures { result ≡ zoned_reading 15 text.now }
{
    let units = read_zoned::<15>(text)?;
    Ok(Total { units })
}

/// Writes a total in its one spelling of 15 characters (DISH signed zoned decimal).
pub fn write_total(total: Total) -> [u8; 15]
    ensures text { result ≡ spelling 15 total }
    ensures one_spelling { (text : List ℕ) → IsSpelling 15 total text ↔ (text ≡ result) }
    ensures reads_back { zoned_reading 15 result ≡ Ok total }
{
    write_zoned::<15>(total.units)
}
