//! The fields of a billing and settlement plan's records: amounts, document numbers, codes, days
//! and money; and what the records of RET and HOT files have in common: the lines of a text, kinds of
//! characters, fields that are numbers, amounts, totals or days, and tax places.
//!
//! Each field is read from its characters to a value or to its first fault, and written in one
//! spelling. A reader answers a value if and only if the definition of `specs/` has one, and otherwise the
//! first fault in the order of [`FieldFault`]. Only [`write_money`] takes memory.
#![tactic(auto)]

mod amount;
mod change;
mod characters;
mod codes;
mod day;
mod digits;
mod document_number;
mod fault;
mod fields;
mod lines;
mod money;
mod numbers;
mod taxes;
mod token;
mod total;
mod zoned;

pub use amount::{Amount, read_amount, write_amount};
pub use change::Change;
pub use characters::{all_digits, all_letters, all_letters_or_digits, all_printable, all_spaces};
pub use codes::{AgentCode, AirlineCode, PeriodCode};
pub use day::Day;
pub use digits::{read_digits, write_digits};
pub use document_number::{DocNumber, check_digit};
pub use fault::FieldFault;
pub use fields::{is_amount, is_record_day, is_total, is_wide};
pub use lines::{ended_line, first_line, first_record};
pub use money::{NoRoom, push_money, write_money};
pub use numbers::{number_of, spells, spells_at_most};
pub use taxes::{tax_code, tax_place, taxes_fit};
pub use token::Token;
pub use total::{Total, read_total, write_total};
pub use zoned::read_ending;
