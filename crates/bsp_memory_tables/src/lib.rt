//! The tables of rows in memory, each with the indexes by which its rows are found. Ranges are
//! found by their last number, and items by number and by airline and period. Memos are found by
//! agent and while they are not billed, tallies by airline and period and by period. What was
//! written since the last commit can be taken back.
#![tactic(auto)]

mod items;
mod keys;
mod memos;
mod numbers;
mod places;
mod ranges;
mod tallies;
mod used;

pub use items::ItemTable;
pub use memos::MemoTable;
pub use places::{AirlinePeriod, Parties};
pub use ranges::RangeTable;
pub use tallies::TallyTable;
