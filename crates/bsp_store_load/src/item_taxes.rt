//! The table of the taxes of items: each row, put into a map.

use crate::entries::put_new;
use crate::load::StoredTable;
use bsp_memory_rows::NoRoom;
use bsp_rows::ItemKey;
use bsp_store_base::{ItemTaxes, KeyedTable};
use bsp_store_columns::{ItemTax, read_entry};
use sqlite::Row;
use std::collections::BTreeMap;

/// The taxes of items by the keys of the items.
#[derive(Clone, Copy)]
pub struct StoredTaxes;

impl StoredTable<ItemKey, ItemTax, BTreeMap<ItemKey, ItemTax>> for StoredTaxes {
    ghost use Rattle.std.specs.Prelude.{◌≡◌, map, None};
    ghost use Rattle.std.specs.FinMap.{entries, FinMap, from_entries, get, insert};
    ghost use Rattle.bsp_rows.specs.Rows.{item_cmp};
    ghost use Rattle.bsp_rows.proofs.KeyOrders.{item_total};
    ghost use Rattle.bsp_store_base.specs.Base.{IsTaxEntry, item_tax_part, tax_row};
    ghost use Rattle.bsp_store_columns.specs.declared.taxes.ItemTax.{ItemTax as TaxEntry};
    ghost use Rattle.bsp_store_load.specs.Adding.{entry_added};

    ghost part = { item_tax_part };

    ghost Whole = { FinMap item_cmp TaxEntry };

    ghost whole = { λ taxes. from_entries taxes.entries };

    ghost is_kept = { λ taxes. Unit {0} };

    ghost row_of = { tax_row };

    ghost with_entry = { λ e taxes. insert taxes e.0 e.1 };

    ghost fits = { λ table e. IsTaxEntry e };

    ghost lacks = { λ e taxes. get taxes e.0 ≡ None };

    ghost rows_in = { λ taxes. map tax_row (entries taxes) };

    ghost adds = { entry_added item_total tax_row };

    fn query(&self) -> &'static str {
        ItemTaxes.statements().query
    }

    fn put(&self, taxes: &mut BTreeMap<ItemKey, ItemTax>, row: &Row) -> Result<bool, NoRoom> {
        let Some((key, tax)) = read_entry::<(ItemKey, ItemTax)>(row) else {
            return Ok(false);
        };
        Ok(put_new(taxes, key, tax)?)
    }
}
