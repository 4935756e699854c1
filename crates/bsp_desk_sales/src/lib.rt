//! The transactions of a RET file judged and kept, the registration of callers, and the stock of agents.
//!
//! Each function works in the open transaction of a book, and answers as `bsp_office_spec` defines over the rows. A
//! transaction is judged over the rows that those before it left. What is accepted joins the rows. A refusal and a held
//! change leave the rows as they were. A call that finds no room undoes what the transaction wrote.
//!
//! `specs/` has the words of the contracts: what a part of a request answers, which rows it leaves, and how it ends with a
//! fault.
#![tactic(auto)]

mod bodies;
mod callers;
mod facts;
mod judging;
mod keeping;
mod memory;
mod stock;

pub use bodies::unread;
pub use bsp_office_spec::hot_rows_keep_rules;
pub use bsp_rules::Reporter;
pub use callers::{register_agent, register_airline, set_agent};
pub use judging::judge_all;
pub use memory::give_up;
pub use stock::{allot, allot_stated, withdraw_range};
