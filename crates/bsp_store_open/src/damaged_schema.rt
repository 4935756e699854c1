//! The table, the index or the view that is not the book's.

use crate::damage::Damage;
use crate::named::{TABLES, Table};
use crate::search_end::End;
use bsp_store_base::is_our_table;
use sqlite_items::Items;
use sqlite_schema::schema::{Index, Schema, Table as StoredTable, View};
use sqlite_value::value::Bytes;
use std::alloc::{AllocError, Global};

/// Whether a book has a table of that name.
fn is_known(name: &Bytes) -> bool {
    for table in &TABLES {
        if name.as_slice() == table.name().as_bytes() {
            return true;
        }
    }
    false
}

fn first_table(tables: &Items<StoredTable>) -> Option<(&'static str, &Bytes)> {
    for table in tables.as_slice() {
        if !is_known(&table.name) {
            return Some(("the table ", &table.name));
        }
    }
    None
}

/// Whether this is the name of an index that a key makes. SQLite names those that it makes itself.
fn is_of_key(name: &Bytes) -> bool {
    name.as_slice().starts_with(b"sqlite_autoindex_")
}

fn first_index(indexes: &Items<Index>) -> Option<(&'static str, &Bytes)> {
    for index in indexes.as_slice() {
        if !is_of_key(&index.name) {
            return Some(("the index ", &index.name));
        }
    }
    None
}

/// The first view or trigger, or table or index of a kind that a book has not. A table that has a trigger, and the index
/// of its key, are none of these.
fn first_object(objects: &Items<View>) -> Option<(&'static str, &Bytes)> {
    for object in objects.as_slice() {
        if !object.is_bound && !is_of_key(&object.name) {
            return Some(("the object ", &object.name));
        }
    }
    None
}

/// Whether there is the book's table.
fn is_there(tables: &Items<StoredTable>, table: Table) -> bool {
    for stored in tables.as_slice() {
        if stored.name.as_slice() == table.name().as_bytes() {
            return is_our_table(stored);
        }
    }
    false
}

/// Ends at the first table of a book that is missing or another.
fn search_missing(tables: &Items<StoredTable>) -> Result<(), End> {
    for table in &TABLES {
        if !is_there(tables, *table) {
            return Err(End::Found(Damage::Table(*table)));
        }
    }
    Ok(())
}

/// The name of something that a book has not, between quotes.
fn quoted(alloc: Global, name: &Bytes) -> Result<String, AllocError> {
    let name = str::from_utf8(name.as_slice()).unwrap_or("?");
    format!(in alloc; "{name:?}")
}

/// Ends at what is in a store beside the tables of a book, or at one of these that is missing or another.
pub(crate) fn search_schema(alloc: Global, schema: &Schema) -> Result<(), End> {
    let foreign = first_table(&schema.tables)
        .or(first_index(&schema.indexes))
        .or(first_object(&schema.views));
    match foreign {
        Some((what, name)) => Err(End::Found(Damage::Foreign(what, quoted(alloc, name)?))),
        None => search_missing(&schema.tables),
    }
}
