//! The records of a HOT file, by which the office reports an airline's documents of one period to
//! it. Here are their names and codes, and what each says, by its columns.
#![tactic(auto)]

mod agent;
mod code;
mod fields;
mod form;
mod model;
mod name;
mod reading;
mod records;
mod totals;

pub use agent::AgentDigits;
pub use code::DocumentCode;
pub use form::FileForm;
pub use model::{
    CodeTotals, Document, FileTotals, Heading, OfficeHeader, OfficeTotals, Part, PartOf,
    PeriodTotals, Record, RelatedDocument, TransactionHeader,
};
pub use name::RecordName;
pub use reading::read_record;
pub use totals::{Sums, Totals};
