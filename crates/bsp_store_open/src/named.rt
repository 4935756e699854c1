//! The tables of a book, by their names.

use bsp_store_columns::table;

/// A table of a book.
#[derive(Clone, Copy)]
pub struct Table {
    /// Its name in SQL.
    name: &'static str,
    /// How many columns its key has. They are its first.
    key_columns: usize,
}

macro_rules! named {
    ($table:ident) => {
        Table {
            name: table!($table, name),
            key_columns: table!($table, key_width),
        }
    };
}

pub(crate) const META: Table = named!(meta);

pub(crate) const TERMS: Table = named!(terms);

pub(crate) const AIRLINE: Table = named!(airline);

pub(crate) const RATE: Table = named!(rate);

pub(crate) const PERIOD: Table = named!(period);

pub(crate) const AGENT: Table = named!(agent);

pub(crate) const STOCK: Table = named!(stock);

pub(crate) const ITEM: Table = named!(item);

pub(crate) const MEMO: Table = named!(memo);

pub(crate) const TALLY: Table = named!(tally);

pub(crate) const COMMISSION_TAX: Table = named!(commission_tax);

pub(crate) const ITEM_TAX: Table = named!(item_tax);

pub(crate) const TALLY_TAX: Table = named!(tally_tax);

pub(crate) const SECOND_RELATED: Table = named!(second_related);

/// The tables in the order in which they are made.
pub(crate) const TABLES: [Table; 14] = [
    META,
    TERMS,
    AIRLINE,
    RATE,
    PERIOD,
    AGENT,
    STOCK,
    ITEM,
    MEMO,
    TALLY,
    COMMISSION_TAX,
    ITEM_TAX,
    TALLY_TAX,
    SECOND_RELATED,
];

impl Table {
    /// Its name in SQL.
    pub fn name(self) -> &'static str {
        self.name
    }

    /// How many columns its key has. They are its first.
    pub(crate) fn key_columns(self) -> usize {
        self.key_columns
    }
}
