//! The tables of a book's store: they are made, a store is tested for them, and what they keep. What one statement makes
//! of them.
//!
//! [`make_tables`] makes the fourteen tables in a store that [`is_bare`]. [`is_ours`] tests that a store has these tables
//! and nothing else, column by column, so that a caller knows the schema that its statements are read by. A
//! [`KeyedTable`] has the statements of a table whose rows are found by keys, and [`put`] leaves a value or none at a key.
//!
//! The tables of the items are here too, each item of the book being one row of `item`. Beside it are the tables of what
//! items and tallies have beside their own rows: the tax on the commission of each item, the tax of each tally, and the
//! second related document of a ticket.
#![tactic(auto)]

mod item_taxes;
mod items;
mod keyed_table;
mod made;
mod plain;
mod schema;
mod seconds;
mod tally_taxes;

pub use item_taxes::ItemTaxes;
pub use items::Items;
pub use keyed_table::{KeyedTable, Statements, put, run_entry};
pub use made::{is_bare, make_tables};
pub use schema::{is_our_table, is_ours};
pub use seconds::Seconds;
pub use tally_taxes::TallyTaxes;
