//! The requests that change a book: RET files, memos, and the office's plan and closes. The lists of memos are here too.
//! Transactions, registrations and stock are those of `bsp_desk_sales`.
//!
//! Each function serves one request in the open transaction of a book, and answers it as `bsp_office_spec` defines
//! over the rows. A change is written where it is done. A refusal and a held change leave the rows as they were. A call
//! that finds no room undoes what the transaction wrote.
//!
//! `specs/` has the words of the contracts: what each part of a request answers, which rows it leaves, and how it ends with
//! a fault. It also says how a call and its content are read as a request.
#![tactic(auto)]

mod action;
mod actions;
mod closes;
mod content;
mod issues;
mod memo_bodies;
mod plan;
mod report;
mod shown;

pub use actions::{agree, dispute, reduce, uphold, withdraw};
pub use bsp_desk_sales::{
    Reporter, allot, allot_stated, give_up, register_agent, register_airline, set_agent,
    withdraw_range,
};
pub use closes::{close, close_period};
pub use content::{Content, contents_are_read};
pub use issues::issue;
pub use plan::{publish, set_business_day, set_day};
pub use report::{report_file, report_of_agent, report_of_office};
pub use shown::{agent_memos, airline_memos};
