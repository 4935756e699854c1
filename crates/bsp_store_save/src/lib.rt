//! What is written to the store of a book.
//!
//! [`make_book`] makes the tables of an empty book. [`save`] writes what has changed in memory since the last commit, in
//! one transaction. [`recover`] gives up a transaction that failed.
#![tactic(auto)]

mod airlines;
mod ends;
mod keyed;
mod making;
mod parts;
mod plans;
mod saving;
mod seconds;
mod written;

pub use ends::recover;
pub use making::make_book;
pub use saving::save;
