//! A store read as a book, before the book is opened, and a book of an earlier version migrated.
//!
//! [`kept_list`] reads all rows of a store and answers the book in memory that they keep, and [`empty_list`] does so in a
//! new store. [`kept_tables`] answers the tables in memory, also in an open transaction, and [`expect_sound`] tests their
//! rows. [`open_ordered`] opens a connection of which the order of the rows is known, whichever
//! tables it has, and [`again`] opens one again over its own store.
//! [`OpenFault`] says why a store is refused. [`find_damage`] looks for the table, the index, the object or the row at fault
//! in a store that was refused as damaged, and [`Damage`] is a line's end for an operator.
//!
//! [`migrated_list`] adds the tables that an earlier version lacks, reads all rows as an opening does, and commits the
//! whole where they are those of a sound book. [`old_version`] answers which version's tables a schema has, and
//! [`old_refusal`] why they are no book of this version.
#![tactic(auto)]

mod adding;
mod connections;
mod damage;
mod damaged_plan;
mod damaged_schema;
mod damaged_sums;
mod fault;
mod migrating;
mod named;
mod number;
mod old_versions;
mod opening;
mod reading;
mod search;
mod search_end;
mod tables;
mod version;

pub use bsp_store_base::{is_bare, is_ours};
pub use bsp_store_load::{
    formed_agent, formed_airline, formed_closed, formed_day, formed_item, formed_memo,
    formed_period, formed_plan, formed_range,
};
pub use connections::{again, open_ordered};
pub use damage::Damage;
pub use fault::OpenFault;
pub use migrating::migrated_list;
pub use named::Table;
pub use number::old_refusal;
pub use old_versions::{OldVersion, old_version};
pub use opening::{empty_list, expect_sound, kept_list};
pub use reading::refusal;
pub use search::find_damage;
pub use tables::kept_tables;
pub use version::version_in;
