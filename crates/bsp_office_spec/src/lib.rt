//! What each request is answered and what it makes of the rows: of all callers, of one agent alone, and of one
//! airline alone.
//!
//! `specs/` has the definitions: requests with their bodies read, the answer to each, and the rows after it.
//! The functions are laws: the contract of each is the statement, and its body has nothing to do.
#![tactic(auto)]

mod hot_rows;
mod laws;
mod unmarked;

pub use hot_rows::{hot_files_pass, hot_rows_keep_rules};
pub use laws::{
    agent_isolation, airline_isolation, answers_are_one_text, closed_periods_stay, nets_add_up,
    numbers_have_one_owner, repeats_are_held, requests_are_read, steps_are_sound, values_agree,
};
pub use unmarked::ledgers_need_no_marks;
