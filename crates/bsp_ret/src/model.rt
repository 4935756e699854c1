//! What a RET file holds, and what may be wrong with one.

ghost use Rattle.std.specs.Prelude.{◌≡◌};
ghost use Rattle.bsp_ret.specs.Texts.{fault_text};

use bsp_fields::Amount;
use bsp_ret_records::{FormOfPayment, Profile, TransactionCode};
use thiserror::Error;

/// A row of the fault table of RET files.
#[derive(Clone, Copy, Debug, PartialEq, Eq)]
pub enum FaultCode {
    /// Not 136 characters, or a character outside 0x20 to 0x7E.
    F01,
    /// Record 1 is no header of profile 001 or 002.
    F02,
    /// A record, its transaction number or its form is not allowed at its place.
    F03,
    /// The header has no `PROD`.
    F04,
    /// Another field, or a used column that should be a space.
    F05,
    /// A count of the trailer differs.
    F06,
    /// The sum of the trailer differs.
    F07,
    /// The file ends without a trailer.
    F08,
    /// A line follows the trailer.
    F09,
    /// An allocation was refused.
    F10,
}

/// The first fault of a RET file, and the number of its record, counted from 1; F10, out of memory,
/// has record 0.
#[derive(Clone, Copy, Debug, PartialEq, Eq, Error)]
#[error("{code:?} record {at}")]
pub struct RetFault {
    /// The row that applies.
    pub code: FaultCode,
    /// The number of the record.
    pub at: usize,
}

/// What a record says of the file and its transactions: its kind, the profile of a header, the code
/// of a record 2, by what a record 3 is in order, and the form and the amount of a record 8.
#[derive(Clone, Copy)]
pub enum Record {
    /// Record 1.
    Header(Profile),
    /// Record 2.
    Sale(TransactionCode),
    /// Record 3, with its airline and number as the number that their digits write.
    Related(u64),
    /// Record 5.
    Amounts,
    /// Record 8.
    Form(FormOfPayment, Amount),
    /// Record Z.
    Trailer,
}

/// The kind of the last record.
#[derive(Clone, Copy)]
pub enum LastRecord {
    /// There is none.
    Start,
    /// Record 1.
    Header,
    /// Record 2.
    Sale,
    /// Record 3.
    Related,
    /// Record 5.
    Amounts,
    /// Record 8.
    Form(FormOfPayment),
    /// Record Z.
    Trailer,
}

/// The state of the records before a place.
#[derive(Clone, Copy)]
pub struct Standing {
    /// How many there are.
    pub records: usize,
    /// How many transactions.
    pub transactions: usize,
    /// The sum of all forms of payment, in minor units.
    pub sum: i128,
    /// The code of the last record 2, TKTT where there is none.
    pub code: TransactionCode,
    /// The profile of the header, 001 where there is none.
    pub profile: Profile,
    /// Whether a record 3 follows the last record 2.
    pub related: bool,
    /// The airline and the number of that record 3, where it is the only one.
    pub only: Option<u64>,
    /// The kind of the last record.
    pub last: LastRecord,
}

/// How far a reader of pieces is.
#[derive(Clone, Copy, PartialEq, Eq)]
pub enum Progress {
    /// More may come.
    Reading,
    /// The file has ended.
    Ended,
    /// A fault was answered.
    Failed(RetFault),
}

impl FaultCode {
    /// The code as it is reported: `F01` to `F10`.
    pub fn text(self) -> [u8; 3]
        ensures { result ≡ fault_text self }
    {
        match self {
            FaultCode::F01 => *b"F01",
            FaultCode::F02 => *b"F02",
            FaultCode::F03 => *b"F03",
            FaultCode::F04 => *b"F04",
            FaultCode::F05 => *b"F05",
            FaultCode::F06 => *b"F06",
            FaultCode::F07 => *b"F07",
            FaultCode::F08 => *b"F08",
            FaultCode::F09 => *b"F09",
            FaultCode::F10 => *b"F10",
        }
    }
}
