//! The book in tables of `sqlite`.
#![tactic(auto)]

mod audit;
mod book;
mod keeping;
mod laws;
mod missing_log;
mod on_files;
mod opening;

pub use audit::{AuditFault, Summary, audit_at, audit_store, plan_at};
pub use book::{KeptBook, SqlBook};
pub use bsp_store_open::{Damage, OpenFault};
pub use laws::stops_are_found;
pub use missing_log::SpentLog;
pub use opening::damage_at;
