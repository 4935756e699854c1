//! The values of a transaction, as its group of records has them.

ghost use Rattle.std.specs.Prelude.{◌≡◌, true};
ghost use Rattle.std.specs.Str.{all_ascii_digits};
ghost use Rattle.bsp_ret_records.specs.Values.{is_before};

use crate::codes::TransactionCode;
use bsp_fields::{AirlineCode, Amount, Day, number_of};

/// A document as it is reported, its check digit not judged: columns 20 to 33 of record 2, and 8 to
/// 21 of record 3.
#[derive(Clone, Copy, PartialEq, Eq)]
pub struct ReportedDocument {
    /// The airline, three digits.
    pub airline: AirlineCode,
    /// The document number, ten characters `0` to `9`.
    pub number: [u8; 10],
    /// The value of the check digit, 0 to 9, right or wrong.
    pub check_digit: u8,
}

impl ReportedDocument {
    /// Whether the other comes behind it: by the airline, then by the number, as by their bytes.
    pub fn is_before(&self, other: &ReportedDocument) -> bool
        requires digits { all_ascii_digits self.now.number ≡ true }
        requires other_digits { all_ascii_digits other.now.number ≡ true }
        ensures { result ≡ is_before self.now other.now }
    {
        self.airline < other.airline
            || self.airline == other.airline && number_of(&self.number) < number_of(&other.number)
    }
}

/// A used tax place of record 5, 13 columns from 19 on.
#[derive(Clone, Copy, PartialEq, Eq)]
pub struct Tax {
    /// Two characters `A` to `Z` or `0` to `9`.
    pub code: [u8; 2],
    /// In minor units.
    pub amount: Amount,
}

/// Record 5.
#[derive(Clone, Copy, PartialEq, Eq)]
pub struct Amounts {
    /// Columns 8 to 18, in minor units.
    pub fare: Amount,
    /// Columns 19 to 96, six places; the used ones come first, and their codes rise by bytes.
    pub taxes: [Option<Tax>; 6],
    /// Columns 97 to 101, the commission's rate in hundredths of a percent, 0 to 10,000.
    pub rate: u16,
    /// Columns 102 to 112, in minor units.
    pub commission: Amount,
}

/// A record 8 with form CC.
#[derive(Clone, Copy, PartialEq, Eq)]
pub struct CardPayment {
    /// Columns 10 to 20, in minor units.
    pub amount: Amount,
    /// Columns 21 and 22, two characters `A` to `Z` or `0` to `9`.
    pub vendor: [u8; 2],
}

/// The values of a record 2, but for the passenger.
#[derive(Clone, Copy, PartialEq, Eq)]
pub struct Sale {
    /// Columns 8 to 11.
    pub code: TransactionCode,
    /// Columns 12 to 19, the agent's eight characters `0` to `9`, not judged further.
    pub agent: [u8; 8],
    /// Columns 20 to 33.
    pub document: ReportedDocument,
    /// Columns 34 to 39, the day of issue.
    pub issued: Day,
}

/// A record 2, and what its transaction pays.
#[derive(Clone, Copy, PartialEq, Eq)]
pub struct PaidSale {
    /// The record 2.
    pub sale: Sale,
    /// The sum of the forms of payment, in minor units.
    pub paid: i64,
}

/// The values of a transaction: of its record 2, and of its records 3, 5 and 8 where it has them.
#[derive(Clone, Copy, PartialEq, Eq)]
pub struct Transaction {
    /// Columns 8 to 11 of record 2.
    pub code: TransactionCode,
    /// Columns 12 to 19 of record 2, the agent's eight characters `0` to `9`, not judged further.
    pub agent: [u8; 8],
    /// Columns 20 to 33 of record 2.
    pub document: ReportedDocument,
    /// Columns 34 to 39 of record 2, the day of issue.
    pub issued: Day,
    /// Columns 40 to 88 of record 2, the passenger's name, 49 characters from 0x20 to 0x7E.
    pub passenger: [u8; 49],
    /// Records 3; the second place has one only in an exchange that relates to two documents, of
    /// which the second has the greater airline and number by bytes.
    pub related: [Option<ReportedDocument>; 2],
    /// Record 5.
    pub amounts: Option<Amounts>,
    /// Columns 10 to 20 of the record 8 with form CA, in minor units.
    pub cash: Option<Amount>,
    /// The record 8 with form CC.
    pub credit: Option<CardPayment>,
    /// Columns 10 to 20 of the record 8 with form EX, in minor units.
    pub exchange: Option<Amount>,
}
