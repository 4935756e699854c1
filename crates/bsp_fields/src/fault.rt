//! Why characters are not a field.

use std::error::Error;
use std::fmt;

/// Why characters are no field, in the order in which a reader looks: where several faults are
/// there, the first of this list is answered.
#[derive(Clone, Copy, Debug, PartialEq, Eq)]
pub enum FieldFault {
    /// The text has another number of characters than the field.
    Width,
    /// A character that has to be a digit `0` to `9` is another.
    NotDigit,
    /// The last character of an amount or a total carries no digit and sign.
    NotSign,
    /// The check digit is not the one of the number.
    CheckDigit,
    /// The size of a value is above the largest of its field.
    TooLarge,
    /// The calendar has no such day, it is not of 2000 to 2099, or a dash is missing.
    NotDay,
}

impl FieldFault {
    fn text(self) -> &'static str {
        match self {
            FieldFault::Width => "not of the field's width",
            FieldFault::NotDigit => "a character is not a digit",
            FieldFault::NotSign => "the last character carries no digit and sign",
            FieldFault::CheckDigit => "the check digit is wrong",
            FieldFault::TooLarge => "the value is too large",
            FieldFault::NotDay => "not a day of 2000 to 2099",
        }
    }
}

impl fmt::Display for FieldFault {
    fn fmt<W: fmt::Write>(&self, f: &mut fmt::Formatter<W>) -> fmt::Result {
        f.write_str(self.text())
    }
}

impl Error for FieldFault {}
