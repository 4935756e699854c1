//! What people read of a code and of a fault.
//!
//! A code is a letter and two digits, as `E07`. [`listing`] and [`explanation`] say what each means, when it comes, and
//! what to do, by the table of which `docs/CODES.md` is made. Of a fault in a RET file the other items say what comes at
//! a place, the characters of a field, or a total as a record has it.
#![tactic(auto)]

mod books;
mod cause;
mod characters;
mod entry;
mod files;
mod memos;
mod money;
mod order;
mod plans;
mod reports;
mod requests;
mod stocks;
mod table;
mod texts;
mod trailer;
mod verdicts;
mod words;
mod zoned;

pub use cause::{Cause, cause_of, say_width};
pub use characters::Characters;
pub use money::Money;
pub use order::{say_payment, say_place};
pub use texts::{explanation, listing};
pub use trailer::{say_count, say_end, say_sum};
pub use words::Words;
pub use zoned::ZonedTotal;
