//! The rows of a book in memory, made from all rows of its tables.
//!
//! [`all_rows`] answers the rows of a table as they are. [`plan_tables`] makes tables in memory with the plan and the tokens of airlines. [`load_table`] puts the rows of a
//! further table into them, one at a time as a query shows them. The taxes and the second related documents of items are
//! put into maps first, with which the items are then put; the tax of each is taken out of its map. [`are_seconds`] says
//! whether the second related documents are those of the items in memory, [`are_tallies`] and [`are_tally_taxes`] whether
//! the tallies of a store are those of the tables.
#![tactic(auto)]

mod airline_map;
mod airlines;
mod callers;
mod compared;
mod entries;
mod equal;
mod first;
mod formed;
mod item_taxes;
mod items;
mod listed;
mod load;
mod memos;
mod plan;
mod plan_rows;
mod published;
mod seconds;
mod tallies;
mod whole;

pub use bsp_memory_rows::{NoRoom, SavedPlan, Tables};
pub use bsp_rows::{ItemKey, ReportedDocument};
pub use bsp_store_columns::{ItemTax, TicketKey, VERSION, read_version};
pub use callers::{Agents, Ranges};
pub use compared::plan_tables;
pub use equal::is_entry;
pub use first::has_nothing;
pub use formed::{
    formed_agent, formed_airline, formed_closed, formed_day, formed_item, formed_memo,
    formed_period, formed_plan, formed_range,
};
pub use item_taxes::StoredTaxes;
pub use items::{StoredItems, TaxedTables};
pub use listed::{RowOf, are_placed_rows_of, are_rows_of};
pub use load::{StoredTable, load_table};
pub use memos::StoredMemos;
pub use plan_rows::PlanRows;
pub use seconds::{StoredSeconds, are_seconds};
pub use tallies::{are_tallies, are_tally_taxes};
pub use whole::{WholeTable, all_rows};
