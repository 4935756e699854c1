//! The reports of `check` and `hotcheck`, and the exit statuses of the program.
//!
//! [`check`] reads a RET file and reports on it: a line for each transaction and one for the file, or its first fault.
//! [`hotcheck`] reads a HOT file: its records, documents and net, or its first record at fault. Of a fault both answer
//! which field, count or sum it is.
#![tactic(auto)]

mod checking;
mod fault;
mod hot_judging;
mod hot_lines;
mod hot_list;
mod hot_report;
mod judging;
mod listing;
mod long_line;
mod reading;
mod refusing;
mod report;
mod reporting;
mod ret_judging;
mod ret_report;
mod status;
mod taking;
mod verdict;
mod window;

pub use bsp_hot_explain::Heading;
pub use checking::{check, check_within, hotcheck, hotcheck_within};
pub use fault::Fault;
pub use reading::read_whole;
pub use status::{DONE, FAILED, REFUSED, WRONG_WORDS};
pub use verdict::{Explanation, Verdict, exit_status};
