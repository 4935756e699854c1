//! Trials of what an office would be given: an agent's RET file at a desk over an empty book.
//!
//! [`judge`] has a desk answer all that came before and then the file. It says the verdicts, and what the file adds to what
//! the agent owes. If a statement is asked for, the desk then closes its period, and gives it. Beside the verdicts there is a
//! line for each refusal: what is wrong, and what to do. A cancellation of a number that no file sold has a line, too. These
//! lines are for people.
#![tactic(auto)]

mod amount_remarks;
mod asking;
mod ended_remarks;
mod judging;
mod owed;
mod preparing;
mod refusals;
mod remarks;
mod setup;
mod stating;
mod verdict_lines;

pub use bsp_rules::Range;
pub use judging::{Judged, judge};
pub use preparing::EarlierRemarks;
pub use setup::{Earlier, JudgeFault, RefusedStep, Setup, Step};
