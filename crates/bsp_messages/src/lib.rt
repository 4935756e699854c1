//! The messages of the office: what the JSON body of a request says.
//!
//! Each body is one struct of typed values, read by one function over `serde_json`: an object with
//! exactly the keys named, and each value in its form. A reader answers exactly what the form of
//! `specs/` has of the bytes, and otherwise that the body is malformed, or that an allocation was
//! refused. It reads any bytes; what nests deeper than 127 is malformed.
#![tactic(auto)]

mod airline_bodies;
mod answer;
mod body;
mod fault;
mod lists;
mod members;
mod memo_bodies;
mod objects;
mod office_bodies;
mod refusal;
mod reply;
mod values;
mod verdicts;

pub use airline_bodies::{MemoIssue, Reduction, read_issue, read_reduction};
pub use answer::{Answer, DocumentShown, DocumentState, PeriodShown, RangeShown};
pub use fault::BodyFault;
pub use memo_bodies::{NamedMemo, read_memo_document, read_named_memo};
pub use office_bodies::{
    AgentRegistration, AirlineRegistration, StockChange, read_agent_registration,
    read_airline_registration, read_day, read_period, read_stock_change,
};
pub use refusal::{RequestRefusal, StockFault};
pub use reply::reply_of;
pub use values::StatedAgent;
