//! The older versions of the tables, and which of them a schema is.

ghost use Rattle.std.specs.Prelude.{◌≡◌, ◌↔◌, ◌+◌, ◌<◌, ◌≤◌, ◌++◌, codes, drop, length, map, pos, slice_get, take, IsTrue, MatchOption, Some};
ghost use Rattle.bsp_store_base.specs.Schema.{our_tables};
ghost use Rattle.bsp_store_open.specs.Old.{index_of, old_number, old_schema, table_count};

use bsp_store_base::is_our_table;
use sqlite_schema::schema::{Index, Schema, Table};

/// A version of the tables before that of this program.
#[derive(Clone, Copy, PartialEq, Eq, Drop)]
pub enum OldVersion {
    /// Version 1: the first ten tables.
    First,
    /// Version 2: the first thirteen tables.
    Second,
}

impl OldVersion {
    /// The number that `meta` has.
    pub fn number(self) -> i64
        ensures { result ≡ pos (old_number self) }
    {
        match self {
            OldVersion::First => 1,
            OldVersion::Second => 2,
        }
    }

    fn table_count(self) -> usize
        ensures { result ≡ table_count self }
    {
        match self {
            OldVersion::First => 10,
            OldVersion::Second => 13,
        }
    }
}

/// Whether the table is ours, and this many of ours are before it.
fn is_at(table: &Table, at: usize) -> bool
    requires { at < 14 }
    ensures { IsTrue result ↔ (slice_get our_tables at ≡ Some table.now) }
{
    table.tree as usize == 2 * at && is_our_table(table)
}

/// Whether the tables are ours from this place on.
fn are_tables(tables: &[Table], at: usize) -> bool
    requires { at + length tables.now ≤ 14 }
    ensures { IsTrue result ↔ (tables.now ≡ take (length tables.now) (drop at our_tables)) }
{
    match tables {
        [] => true,
        [table, others @ ..] => is_at(table, at) && are_tables(others, at + 1),
    }
}

/// Whether SQLite gives this name to the index for the key of the table of that name.
fn is_key_name(name: &[u8], table: &[u8]) -> bool
    ensures { IsTrue result ↔ (name.now ≡ codes "sqlite_autoindex_" ++ (table.now ++ codes "_1")) }
{
    let Some(rest) = name.strip_prefix(b"sqlite_autoindex_") else {
        return false;
    };
    match rest.strip_suffix(b"_1") {
        Some(found) => found == table,
        None => false,
    }
}

/// Whether the index is the automatic one for the PRIMARY KEY of the table.
fn is_index_of(index: &Index, table: &Table) -> bool
    ensures { IsTrue result ↔ (index.now ≡ index_of table.now) }
{
    is_key_name(index.name.as_slice(), table.name.as_slice())
        && index.tree != 0
        && index.tree - 1 == table.tree
        && index.table == table.tree
        && index.columns.as_slice() == table.primary.as_slice()
        && index.order.digits == 0
        && index.is_unique
}

/// Whether the indexes are those for the PRIMARY KEYs of the tables.
fn are_indexes(indexes: &[Index], tables: &[Table]) -> bool
    ensures { IsTrue result ↔ (indexes.now ≡ map index_of tables.now) }
{
    match (indexes, tables) {
        ([], []) => true,
        ([index, others @ ..], [table, more @ ..]) => is_index_of(index, table)
            && are_indexes(others, more),
        _ => false,
    }
}

/// Whether the tables are those of this version, and nothing else is in the store.
fn is_of(schema: &Schema, version: OldVersion) -> bool
    ensures { IsTrue result ↔ (schema.now ≡ old_schema version) }
{
    let tables = schema.tables.as_slice();
    tables.len() == version.table_count()
        && are_tables(tables, 0)
        && are_indexes(schema.indexes.as_slice(), tables)
        && schema.views.is_empty()
}

/// The older version whose tables are in the store, where nothing else is.
pub fn old_version(schema: &Schema) -> Option<OldVersion>
    ensures { MatchOption result ((v : OldVersion) → ¬ (schema.now ≡ old_schema v)) (λ v. schema.now ≡ old_schema v) }
{
    if is_of(schema, OldVersion::First) {
        return Some(OldVersion::First);
    }
    if is_of(schema, OldVersion::Second) {
        return Some(OldVersion::Second);
    }
    None
}
