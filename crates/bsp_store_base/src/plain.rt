//! Tests of one column, one foreign key, one table and one index, against the forms that the book's have.

ghost use Rattle.std.specs.Prelude.{◌≡◌, ◌↔◌, [], ◌∷◌, map, None, IsTrue, false};
ghost use Rattle.sqlite_value.specs.Keys.{plain};
ghost use Rattle.bsp_store_base.specs.Schema.{of_form, strict_column, refers, key_index};

use sqlite_items::Items;
use sqlite_schema::schema::{Action, Column, Index, Kind, Reference, Table};
use sqlite_value::keys::Collation;
use sqlite_value::value::{Bytes, Value};

/// The form of an item of a schema.
pub(crate) trait Form<T> {
    ghost use Rattle.std.specs.Prelude.{◌≡◌, ◌↔◌, IsTrue};

    // the item of the form
    ghost made: { Self → T };

    /// Whether the item has this form.
    fn fits(&self, item: &T) -> bool
        ensures { IsTrue result ↔ (item.now ≡ made self.now) };
}

/// A column: its name, its kind, and whether it is NOT NULL.
type Field = (&'static str, Kind, bool);

/// A foreign key: the place of its column, and the table to whose code it refers.
type Foreign = (usize, &'static str);

/// A table: its name, its tree, its columns, its foreign keys, and the places of its PRIMARY KEY.
pub(crate) type Strict = (
    &'static str,
    u32,
    &'static [Field],
    &'static [Foreign],
    &'static [usize],
);

/// The automatic index for the PRIMARY KEY of a table: its name, its tree, the tree of the table, and the places.
pub(crate) type Unique = (&'static str, u32, u32, &'static [usize]);

/// Whether the items have these forms, in this order.
pub(crate) fn have_forms<T, F: Form<T>>(items: &[T], forms: &[F]) -> bool
    ensures { IsTrue result ↔ (items.now ≡ map F.made forms.now) }
{
    match (items, forms) {
        ([], []) => true,
        ([item, others @ ..], [form, more @ ..]) => form.fits(item) && have_forms(others, more),
        _ => false,
    }
}

fn is_word(bytes: &Bytes, word: &str) -> bool
    ensures { IsTrue result ↔ (bytes.now ≡ word.now) }
{
    bytes.as_slice() == word.as_bytes()
}

fn are_places(places: &Items<usize>, key: &[usize]) -> bool
    ensures { IsTrue result ↔ (places.now ≡ key.now) }
{
    places.as_slice() == key
}

impl Form<Column> for Field {
    ghost made = { λ f. strict_column f.0.now f.1 f.2 };

    fn fits(&self, column: &Column) -> bool {
        is_word(&column.name, self.0)
            && column.kind == self.1
            && column.is_strict
            && column.not_null == self.2
            && matches!(column.default, Value::Null)
            && column.collation == Collation::Binary
    }
}

impl Form<Reference> for Foreign {
    ghost made = { λ f. refers f.0 f.1.now };

    fn fits(&self, reference: &Reference) -> bool {
        match reference.parent_columns.as_slice() {
            [code] => are_places(&reference.columns, &[self.0])
                && is_word(&reference.parent, self.1)
                && is_word(code, "code")
                && reference.on_delete == Action::NoAction
                && reference.on_update == Action::NoAction
                && !reference.is_deferred,
            _ => false,
        }
    }
}

/// Whether the table has no rule beside its columns, its keys and its foreign keys.
fn has_no_more(table: &Table) -> bool
    ensures { IsTrue result ↔ ((table.now.key ≡ None) × (table.now.checks ≡ []) × (table.now.computed ≡ []) × (table.now.stamps ≡ record { places = []; terms = []; formats = [] }) × (table.now.is_counted ≡ false)) }
{
    table.key.is_none()
        && table.checks.roots.is_empty()
        && table.computed.is_empty()
        && table.stamps.places.is_empty()
        && table.stamps.terms.roots.is_empty()
        && table.stamps.formats.is_empty()
        && !table.is_counted
}

fn has_key(table: &Table, key: &[usize]) -> bool
    ensures { IsTrue result ↔ ((table.now.primary ≡ key.now) × (table.now.uniques ≡ key.now ∷ []) × (table.now.orders ≡ plain ∷ [])) }
{
    match (table.uniques.as_slice(), table.orders.as_slice()) {
        ([unique], [order]) => are_places(&table.primary, key)
            && are_places(unique, key)
            && order.digits == 0,
        _ => false,
    }
}

impl Form<Table> for Strict {
    ghost made = { of_form };

    fn fits(&self, table: &Table) -> bool {
        is_word(&table.name, self.0)
            && table.tree == self.1
            && have_forms(table.columns.as_slice(), self.2)
            && have_forms(table.references.as_slice(), self.3)
            && has_key(table, self.4)
            && has_no_more(table)
    }
}

impl Form<Index> for Unique {
    ghost made = { λ f. key_index f.0.now f.1 f.2 f.3.now };

    fn fits(&self, index: &Index) -> bool {
        is_word(&index.name, self.0)
            && index.tree == self.1
            && index.table == self.2
            && are_places(&index.columns, self.3)
            && index.order.digits == 0
            && index.is_unique
    }
}
