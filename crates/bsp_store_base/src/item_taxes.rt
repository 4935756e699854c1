//! The table of the tax on the commission of each item.

use crate::items::item_key_cells;
use crate::{KeyedTable, Statements};
use bsp_rows::{Item, ItemKey};
use bsp_store_columns::{Cell, ItemTax, table};

/// The table of the taxes of items. What it has of an item is the tax on its commission.
pub struct ItemTaxes;

impl KeyedTable<ItemKey, Item> for ItemTaxes {
    ghost use Rattle.bsp_rows.specs.Rows.{item_cmp};
    ghost use Rattle.bsp_store_base.specs.ItemTables.{item_taxes_map};

    type KeyCells = [Cell; 3];

    type Entry = (ItemKey, ItemTax);

    ghost order = { item_cmp };

    ghost table = { item_taxes_map };

    fn statements(&self) -> Statements {
        Statements {
            delete: table!(item_tax, delete),
            insert: table!(item_tax, insert),
            update: table!(item_tax, update),
            query: table!(item_tax, select),
        }
    }

    fn key_cells(&self, key: &ItemKey) -> [Cell; 3] {
        item_key_cells(key)
    }

    fn entry(&self, key: &ItemKey, item: &Item) -> (ItemKey, ItemTax) {
        (*key, ItemTax::of(item))
    }
}
