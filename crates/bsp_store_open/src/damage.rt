//! Why a store is no sound book.

use crate::named::Table;
use bsp_store_load::VERSION;
use std::fmt;

/// Why a store is no sound book.
#[derive(Drop)]
pub enum Damage {
    /// A table, an index or another object that a book has not: what it is, and its name between quotes.
    Foreign(&'static str, String),
    /// A table that is missing, or has other columns or another key than the book's.
    Table(Table),
    /// A row of a table by its key. It is none that an office writes, or breaks a rule of the audit.
    Row(Table, String),
    /// A table that has too few rows, or too many.
    Count(Table),
    /// The version in `meta` is an earlier one, which has other tables.
    Version(i64),
    /// No plan is published by the rows of the plan.
    Plan,
    /// A rule on many rows is broken: the ranges of one number, the relations to one ticket, or the documents limit.
    Rows,
}

impl Damage {
    /// The parts of what is said of it. The number of an earlier version comes before the last, and that of this one after it.
    fn parts(&self) -> (&str, &str, &str) {
        match self {
            Damage::Foreign(what, name) => (what, name, " is none of a book"),
            Damage::Table(table) => ("the table ", table.name(), " is missing or another"),
            Damage::Row(table, key) => (table.name(), key, ""),
            Damage::Count(table) => (table.name(), "", " has too few rows or too many"),
            Damage::Version(_) => (
                "meta has version ",
                "",
                ", and the tables are those of version ",
            ),
            Damage::Plan => (
                "no plan has these terms, airlines, rates, taxes, periods and closes",
                "",
                "",
            ),
            Damage::Rows => (
                "ranges meet, two items relate to one ticket, or a limit is passed",
                "",
                "",
            ),
        }
    }
}

impl fmt::Display for Damage {
    fn fmt<W: fmt::Write>(&self, f: &mut fmt::Formatter<W>) -> fmt::Result {
        let (before, name, after) = self.parts();
        match self {
            Damage::Version(number) => write!(f, "{before}{number}{after}{VERSION}"),
            _ => write!(f, "{before}{name}{after}"),
        }
    }
}
