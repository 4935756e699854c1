//! Trials of plan texts, over a plan of nothing.
//!
//! [`try_plan`] says what a plan text publishes, or which text is refused. [`plan_text`] writes a plan as a text.
//! [`refusal_reason`] says why a text is refused: the line or the key at fault, or the entries that disagree. Its words are
//! for people.
#![tactic(auto)]

mod entries;
mod entry;
mod keys;
mod lines;
mod order;
mod plan_lines;
mod plan_trial;
mod reasons;
mod tables;
mod toml_faults;
mod values;
mod words;
mod writing;
mod written;

pub use lines::push_fields;
pub use plan_trial::{PlanRefused, plan_before, try_plan};
pub use reasons::refusal_reason;
pub use words::{Shown, Words};
pub use writing::plan_text;
