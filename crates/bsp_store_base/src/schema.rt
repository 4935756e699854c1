//! The schema of a store, tested: its fourteen tables and the indexes of their keys.

ghost use Rattle.std.specs.Prelude.{◌≡◌, ◌↔◌, map, IsTrue};
ghost use Rattle.bsp_store_base.specs.Schema.{IsOneOf, of_form, our_schema, our_tables};

use crate::plain::{Form, Strict, Unique, have_forms};
use bsp_store_columns::table;
use sqlite_schema::schema::{Kind, Schema, Table};

const META: Strict = table!(meta, form);

const TERMS: Strict = table!(terms, form);

const AIRLINE: Strict = table!(airline, form);

const RATE: Strict = table!(rate, form);

const PERIOD: Strict = table!(period, form);

const AGENT: Strict = table!(agent, form);

const STOCK: Strict = table!(stock, form);

const ITEM: Strict = table!(item, form);

const MEMO: Strict = table!(memo, form);

const TALLY: Strict = table!(tally, form);

const COMMISSION_TAX: Strict = table!(commission_tax, form);

const ITEM_TAX: Strict = table!(item_tax, form);

const TALLY_TAX: Strict = table!(tally_tax, form);

const SECOND_RELATED: Strict = table!(second_related, form);

/// The forms of the fourteen tables.
static FORMS: [Strict; 14] = [
    META,
    TERMS,
    AIRLINE,
    RATE,
    PERIOD,
    AGENT,
    STOCK,
    ITEM,
    MEMO,
    TALLY,
    COMMISSION_TAX,
    ITEM_TAX,
    TALLY_TAX,
    SECOND_RELATED,
];

/// The indexes of their keys.
static INDEXES: [Unique; 14] = [
    table!(meta, index),
    table!(terms, index),
    table!(airline, index),
    table!(rate, index),
    table!(period, index),
    table!(agent, index),
    table!(stock, index),
    table!(item, index),
    table!(memo, index),
    table!(tally, index),
    table!(commission_tax, index),
    table!(item_tax, index),
    table!(tally_tax, index),
    table!(second_related, index),
];

fn forms() -> &'static [Strict]
    ensures { map of_form result.now ≡ our_tables }
{
    &FORMS
}

fn is_one_of(table: &Table, forms: &[Strict]) -> bool
    ensures { IsTrue result ↔ IsOneOf (map of_form forms.now) table.now }
{
    match forms {
        [] => false,
        [form, more @ ..] => form.fits(table) || is_one_of(table, more),
    }
}

/// Whether the table is one of the fourteen.
pub fn is_our_table(table: &Table) -> bool
    ensures { IsTrue result ↔ IsOneOf our_tables table.now }
{
    is_one_of(table, forms())
}

/// Whether the tables are the fourteen of this crate, and nothing else is in the store.
pub fn is_ours(schema: &Schema) -> bool
    ensures { IsTrue result ↔ (schema.now ≡ our_schema) }
{
    have_forms(schema.tables.as_slice(), forms())
        && have_forms(schema.indexes.as_slice(), &INDEXES)
        && schema.views.is_empty()
}
