//! What is wrong with a record of a HOT file that the reader refused: which field, which number or which
//! total is at fault, with its columns.
#![tactic(auto)]

mod comparing;
mod comparison;
mod explanation;
mod hot_fields;
mod hot_reasons;
mod kind;
mod next;
mod placing;
mod reason;

pub use bsp_hot_records::Heading;
pub use comparison::{Comparison, Value};
pub use explanation::{HotExplanation, explain_line, explain_long, explain_missing};
pub use hot_reasons::{hot_reason, record_name};
pub use kind::Kind;
pub use next::Expected;
pub use reason::{Disorder, HotReason, Shortness};
