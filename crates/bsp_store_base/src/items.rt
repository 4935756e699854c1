//! The table of the items.

ghost use Rattle.std.specs.Prelude.{◌≡◌};
ghost use Rattle.bsp_store_columns.specs.Cells.{written};
ghost use Rattle.bsp_store_base.specs.ItemTables.{item_key_row};

use crate::{KeyedTable, Statements};
use bsp_rows::{Item, ItemKey};
use bsp_store_columns::{Cell, agent_digits, number_digits, table};

/// The cells of an item's key.
pub(crate) fn item_key_cells(key: &ItemKey) -> [Cell; 3]
    ensures { written result ≡ item_key_row key.now }
{
    [
        Cell::Eight(agent_digits(key.agent)),
        Cell::Ten(number_digits(key.number)),
        Cell::flag(key.is_canx),
    ]
}

/// The table of the items, their taxes and second related documents apart.
pub struct Items;

impl KeyedTable<ItemKey, Item> for Items {
    ghost use Rattle.bsp_rows.specs.Rows.{item_cmp};
    ghost use Rattle.bsp_store_base.specs.ItemTables.{items_map};

    type KeyCells = [Cell; 3];

    type Entry = (ItemKey, Item);

    ghost order = { item_cmp };

    ghost table = { items_map };

    fn statements(&self) -> Statements {
        Statements {
            delete: table!(item, delete),
            insert: table!(item, insert),
            update: table!(item, update),
            query: table!(item, select),
        }
    }

    fn key_cells(&self, key: &ItemKey) -> [Cell; 3] {
        item_key_cells(key)
    }

    fn entry(&self, key: &ItemKey, item: &Item) -> (ItemKey, Item) {
        (*key, *item)
    }
}
