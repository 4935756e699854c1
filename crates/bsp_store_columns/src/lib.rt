//! The columns of the tables of a book's store, and the rows of their entries.
//!
//! [`table`] has what follows from the description of a table. An [`Entry`] has a row: the cells that are written. A
//! [`ReadEntry`] is read back of its row, and [`read_entry`] reads it: what is read of a row that any program may have
//! written has this row. A [`Column`] is a value that has one column. The values of a row are pairs within pairs, so that
//! reading is proved once for rows of any width.
#![tactic(auto)]

mod airlines;
mod cells;
mod column;
mod digits;
mod entry;
mod reading;
mod tables;
mod tax_places;
mod taxes;
mod tickets;
mod types;

pub use airlines::{AirlineEntry, place_of};
pub use cells::{Cell, values_of};
pub use column::{Column, Columns, End, Filled};
pub use digits::{agent_digits, airline_digits, number_digits, period_digits};
pub use entry::{CellArray, Entry, ReadEntry, read_entry};
pub use reading::{
    agent_at, airline_at, amount_at, below_at, day_at, int_at, is_null, number_at, period_at,
};
pub use tables::item::{BareItem, Completed};
pub use tables::meta::{Meta, VERSION, read_version};
pub use tables::tally::read_tally_key;
pub use taxes::ItemTax;
pub use tickets::{TicketKey, second_related};
