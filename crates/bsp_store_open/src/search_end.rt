//! Why the search for what damages a book goes no further, and the key of a row as text.

use crate::damage::Damage;
use crate::fault::OpenFault;
use crate::named::Table;
use bsp_rows::ItemKey;
use sqlite::Row;
use sqlite_value::value::ValueRef;
use std::alloc::{AllocError, Global};
use std::fmt;

/// Why the search for what damages a book goes no further.
#[derive(Drop)]
pub(crate) enum End {
    /// It found this.
    Found(Damage),
    /// It was refused an allocation, or the store failed.
    Failed(OpenFault),
}

impl From<OpenFault> for End {
    fn from(fault: OpenFault) -> End {
        End::Failed(fault)
    }
}

impl From<AllocError> for End {
    fn from(_: AllocError) -> End {
        End::Failed(OpenFault::NoRoom)
    }
}

fn push_text(out: &mut String, text: &[u8]) -> Result<(), AllocError> {
    match str::from_utf8(text) {
        Ok(text) => write!(out, " {text:?}"),
        Err(_) => out.push_str(" ?"),
    }
}

fn push_value(out: &mut String, value: ValueRef<'_>) -> Result<(), AllocError> {
    match value {
        ValueRef::Null => out.push_str(" NULL"),
        ValueRef::Int(number) => write!(out, " {number}"),
        ValueRef::Text(text) => push_text(out, text),
        ValueRef::Real(_) | ValueRef::Blob(_) => out.push_str(" ?"),
    }
}

/// The first columns of a row.
fn row_key(alloc: Global, row: &Row, columns: usize) -> Result<String, AllocError> {
    let mut out = String::new(alloc);
    for at in 0..columns {
        if let Ok(value) = row.get_ref(at) {
            push_value(&mut out, value)?;
        }
    }
    Ok(out)
}

/// A key of two texts.
pub(crate) fn pair_key<A: fmt::Display + Drop, B: fmt::Display + Drop>(
    alloc: Global,
    first: A,
    second: B,
) -> Result<String, AllocError> {
    format!(in alloc; " \"{first}\" \"{second}\"")
}

pub(crate) fn item_key(alloc: Global, key: &ItemKey) -> Result<String, AllocError> {
    let (agent, number, canx) = (key.agent, key.number, key.is_canx as u8);
    format!(in alloc; " \"{agent}\" \"{number}\" {canx}")
}

/// Ends at the row of a table that has a key, as far as there was memory for the key.
pub(crate) fn end_at(table: Table, key: Result<String, AllocError>) -> Result<(), End> {
    Err(End::Found(Damage::Row(table, key?)))
}

/// Ends at a row of a table.
pub(crate) fn end_at_row(alloc: Global, table: Table, row: &Row) -> Result<(), End> {
    end_at(table, row_key(alloc, row, table.key_columns()))
}
