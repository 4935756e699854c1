//! Looks up the keys of a table of a plan text.

ghost use Rattle.std.specs.Prelude.{◌≡◌, ◌≤◌, IfSome, map, option_map};
ghost use Rattle.toml.specs.Data.{get_member};
ghost use Rattle.toml.specs.View.{table_view, view};
ghost use Rattle.bsp_calendar.specs.PlanDocument.{at, has_only, is_known, number_of};

use crate::reading::values::Form;
use toml::{Table, Value};

/// Whether a key is one of those that are known.
fn is_known(known: &[&str], key: &str) -> bool
    ensures { result ≡ is_known (map (λ name. name.now) known.now) key.now }
{
    known.iter().any(|name| *name == key)
}

/// Whether each key of a table is one of those that are known.
pub fn has_only(table: &Table, known: &[&str]) -> bool
    ensures { result ≡ has_only (map (λ name. name.now) known.now) (table_view table.now) }
{
    table.keys().all(|key| is_known(known, key.as_str()))
}

/// The value at a key.
pub fn value_at<'a>(table: &'a Table, key: &str) -> Option<&'a Value>
    ensures { option_map (λ value. view value.now) result ≡ get_member key.now (table_view table.now) }
{
    table.get(key)
}

/// The value at a key, where it is in its form.
pub fn at<F: Form>(table: &Table, key: &str) -> Option<F::Read>
    ensures { result ≡ at key.now F.form (table_view table.now) }
{
    F::read(value_at(table, key)?)
}

/// The whole number at a key, where it is one from `low` to `high`.
pub fn number_at(table: &Table, key: &str, low: u32, high: u32) -> Option<u32>
    ensures value { result ≡ at key.now (number_of low high) (table_view table.now) }
    ensures bound { IfSome result (λ n. n ≤ high) }
{
    let number = value_at(table, key)?.as_integer()?;
    if i64::from(low) <= number && number <= i64::from(high) {
        Some(number as u32)
    } else {
        None
    }
}
