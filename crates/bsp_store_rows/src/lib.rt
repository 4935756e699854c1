//! The tables of what callers have, and of the published plan: what is written of each.
//!
//! Agents, ranges of stock, memos, tallies and airlines are found by keys. Rates, periods and taxes on commission are lists,
//! each with its place. A table, as [`Memos`], has the statements for its rows.
#![tactic(auto)]

mod airlines;
mod callers;
mod memos;
mod one_row;
mod placed;
mod tallies;

pub use airlines::{Airlines, StoredAirline};
pub use callers::{Agents, Ranges};
pub use memos::Memos;
pub use one_row::{add_first_meta, meta_query, put_meta, put_terms, terms_query};
pub use placed::{CommissionTaxes, Periods, PlacedStatements, PlacedTable, Rates, add_all};
pub use tallies::Tallies;
