//! RET files written, and when a transaction's values make a group.
#![tactic(auto)]

mod content;
mod file_text;
mod writing;

pub use content::is_group;
pub use file_text::write_ret;
pub use writing::write_tax;
