//! What is wrong with a record of a RET file that the reader refused: which field, which count or which sum
//! is at fault, with its columns, and what more the record shows. Fields, their forms and their names are of RET and HOT files.
#![tactic(auto)]

mod explanation;
mod field;
mod form;
mod hint;
mod name;
mod reason;
mod ret_fields;
mod ret_reasons;
mod taxes;
mod width;

pub use bsp_fault_texts::{Cause, Money, Words};
pub use explanation::{
    Explanation, explain_line, explain_long, explain_missing, explain_ret, say_columns,
};
pub use field::{Field, first_unfit};
pub use form::Form;
pub use hint::Hint;
pub use name::Name;
pub use reason::Reason;
pub use taxes::tax_field;
pub use width::{long_reason, width_reason};
