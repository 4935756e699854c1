//! Reads the lists of a plan text.

ghost use Rattle.std.specs.Option.{ok_or};
ghost use Rattle.toml.specs.Data.{get_member};
ghost use Rattle.toml.specs.View.{array_view, table_view};
ghost use Rattle.bsp_calendar.specs.PlanDocument.{Reads, each, listed};

use crate::fault::PlanFault;
use crate::reading::tables::value_at;
use crate::reading::values::Form;
use std::alloc::Global;
use toml::Table;
use toml::value::Array;

/// The items of a list, each in its form.
fn items<F: Form>(alloc: Global, list: &Array) -> Result<Vec<F::Read>, PlanFault>
    ensures { Reads (ok_or (each F.form (array_view list.now)) PlanFault.WrongKey) (λ v. v.items) result }
{
    let mut items = Vec::new(alloc);
    for value in list {
        let Some(item) = F::read(value) else {
            return Err(PlanFault::WrongKey);
        };
        items.push(item)?;
    }
    Ok(items)
}

/// The items of the list at a key, which may be absent.
pub fn items_at<F: Form>(alloc: Global, table: &Table, key: &str) -> Result<Vec<F::Read>, PlanFault>
    ensures { Reads (ok_or (listed F.form (get_member key.now (table_view table.now))) PlanFault.WrongKey) (λ v. v.items) result }
{
    match value_at(table, key) {
        Some(value) => match value.as_array() {
            Some(list) => items::<F>(alloc, list),
            None => Err(PlanFault::WrongKey),
        },
        None => Ok(Vec::new(alloc)),
    }
}
