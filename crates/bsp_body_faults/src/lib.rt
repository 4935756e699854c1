//! Which fault the body of a request has: whether the route of a call reads it, and where not, why.
//!
//! [`body_fault`] answers of a RET file and of a plan text the first fault, and of a JSON body whether the reader of the
//! route reads it. Where it does not, a [`JsonFault`] has the key at fault and the cause, said for people. It shows
//! no value of 16 characters or more, so no token.
#![tactic(auto)]

mod fault;
mod finding;
mod form;
mod json_fault;
mod key;
mod kind;
mod line;
mod members;
mod reading;
mod remark;
mod syntax;
mod text;
mod value_fault;
mod values;
mod words;

pub use fault::BodyFault;
pub use finding::body_fault;
pub use form::{BodyForm, JsonForm, body_form};
pub use json_fault::{JsonCause, JsonFault};
pub use key::Key;
pub use kind::JsonKind;
pub use line::body_line;
pub use syntax::{Found, Place};
pub use text::{body_text, cause_text};
pub use value_fault::ValueFault;
