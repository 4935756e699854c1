//! The tables of a book in memory: the rows of all callers, the indexes by which they are found, and the
//! tallies, kept by each write. What was written since the last commit can be taken back.
#![tactic(auto)]

mod audit;
mod lookups;
mod no_room;
mod planned;
mod saved_plan;
mod stock;
mod tables;
mod tallies;

pub use no_room::NoRoom;
pub use saved_plan::SavedPlan;
pub use stock::UsedRange;
pub use tables::Tables;
