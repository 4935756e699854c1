//! The table of items: each row, put into memory with what other tables keep of its item. The tax of an item is then taken
//! out of those that are left, so that the taxes of items in memory take no memory twice.

ghost use Rattle.std.specs.Prelude.{◌↔◌, ◌≡◌, false, IfOk, IfSome, IsTrue, map, OnOk, Some};
ghost use Rattle.std.specs.FinMap.{entries, from_entries, get, remove};
ghost use Rattle.bsp_rows.specs.Item.{Item as ItemEntry};
ghost use Rattle.bsp_store_base.specs.Entries.{item_cmp, with_item};
ghost use Rattle.bsp_rows.specs.declared.keys.ItemKey.{ItemKey as KeyEntry};
ghost use Rattle.bsp_memory_rows.specs.Tables.{rows_of};
ghost use Rattle.bsp_store_base.specs.Base.{item_part, item_row, tax_with};
ghost use Rattle.bsp_store_load.specs.Beside.{IsAwaited, IsKeyed, IsStoredItem, second_at, IsRelatedItem, LacksItem, Taxed, kept_tax};
ghost use Rattle.bsp_store_load.specs.Formed.{AreWhole};
ghost use Rattle.bsp_store_load.specs.Adding.{taxed_added};

use crate::formed::formed_item;
use crate::load::StoredTable;
use bsp_memory_rows::{NoRoom, Tables};
use bsp_rows::{Item, ItemKey, ReportedDocument};
use bsp_store_base::{Items, KeyedTable};
use bsp_store_columns::{BareItem, Completed, ItemTax, TicketKey, read_entry};
use sqlite::Row;
use std::collections::BTreeMap;

/// Tables, and the taxes of the items that are not in them yet.
#[derive(Drop)]
pub struct TaxedTables {
    /// The tables.
    pub tables: Tables,
    /// The taxes that are left, by the keys of their items.
    pub taxes: BTreeMap<ItemKey, ItemTax>,
}

/// The tax at a key, if there is one.
fn tax_at(taxes: &BTreeMap<ItemKey, ItemTax>, key: &ItemKey) -> Option<ItemTax>
    ensures { result ≡ get (from_entries {R = item_cmp} taxes.now.entries) key.now }
{
    taxes.get(key).copied()
}

/// Whether the tax of an item is the one at a key.
fn has_tax(taxes: &BTreeMap<ItemKey, ItemTax>, key: &ItemKey, item: &Item) -> bool
    ensures { IsTrue result ↔ (get (from_entries {R = item_cmp} taxes.now.entries) key.now ≡ Some (tax_with item.now)) }
{
    tax_at(taxes, key) == Some(ItemTax::of(item))
}

/// Whether two keys are the same.
fn is_same(own: &ItemKey, other: &ItemKey) -> bool
    ensures { IsTrue result ↔ (own.now ≡ other.now) }
{
    own == other
}

impl TaxedTables {
    /// Puts an item into the tables, and takes its tax out of those that are left. It answers false, and puts nothing,
    /// where the tax that is left at its key is another or none, or there is an item of its key.
    fn put(&mut self, key: &ItemKey, item: &Item) -> Result<bool, NoRoom>
        requires { IsKeyed (key.now, item.now) }
        ensures derived { OnOk result (AreWhole self.old.tables → AreWhole self.new.tables) }
        ensures lacks { IfOk result (λ done. IsTrue done ↔ IsAwaited (from_entries self.old.taxes.entries) (rows_of self.old.tables) (key.now, item.now)) }
        ensures kept { IfOk result (λ done. done ≡ false → self.new ≡ self.old) }
        ensures rows { IfOk result (λ done. IsTrue done → rows_of self.new.tables ≡ with_item item.now (rows_of self.old.tables)) }
        ensures taxes { IfOk result (λ done. IsTrue done → from_entries {R = item_cmp} self.new.taxes.entries ≡ remove (from_entries self.old.taxes.entries) key.now) }
    {
        if !has_tax(&self.taxes, key, item) {
            return Ok(false);
        }
        formed_item(*key, *item);
        if !self.tables.add_new_item(key, item)? {
            return Ok(false);
        }
        self.tables.commit();
        let _ = self.taxes.remove(key);
        Ok(true)
    }
}

/// Items, each with its second related document, which another table keeps.
#[derive(Clone, Copy)]
pub struct StoredItems<'a> {
    /// The second related documents by their tickets.
    pub seconds: &'a BTreeMap<TicketKey, ReportedDocument>,
}

impl StoredItems<'_> {
    /// The second related document of the ticket of a key; none of a CANX.
    fn second_at(&self, key: &ItemKey) -> Option<ReportedDocument>
        ensures { result ≡ second_at (from_entries self.now.seconds.now.entries) key.now }
    {
        let ticket = TicketKey::of(key)?;
        self.seconds.get(&ticket).copied()
    }

    /// The item that a row reads as, under its key; none where no tax of its key is kept.
    fn read(&self, taxes: &BTreeMap<ItemKey, ItemTax>, row: &Row) -> Option<(ItemKey, Item)>
        ensures keyed { IfSome result IsKeyed }
        ensures row { IfSome result (λ e. row.now ≡ item_row e) }
        ensures entry { (e : KeyEntry × ItemEntry) → IsStoredItem (from_entries taxes.now.entries) (from_entries self.now.seconds.now.entries) e → row.now ≡ item_row e → result ≡ Some e }
    {
        let bare = read_entry::<BareItem>(row)?;
        let tax = tax_at(taxes, &bare.key)?;
        let item = bare.item(tax, self.second_at(&bare.key));
        let key = ItemKey::of(&item)?;
        if !is_same(&key, &bare.key) {
            return None;
        }
        Some((key, item))
    }
}

impl<'a> StoredTable<ItemKey, Item, TaxedTables> for StoredItems<'a> {
    ghost part = { item_part };

    ghost Whole = { Taxed };

    ghost whole = { λ memory. (rows_of memory.tables, kept_tax (from_entries memory.taxes.entries) (rows_of memory.tables).items) };

    ghost is_kept = { λ memory. AreWhole memory.tables };

    ghost row_of = { item_row };

    ghost with_entry = { λ e w. (with_item e.1 w.0, w.1) };

    ghost fits = { λ table e. IsRelatedItem (from_entries table.seconds.now.entries) e };

    ghost lacks = { LacksItem };

    ghost rows_in = { λ w. map item_row (entries w.0.items) };

    ghost adds = { taxed_added };

    fn query(&self) -> &'static str {
        Items.statements().query
    }

    fn put(&self, memory: &mut TaxedTables, row: &Row) -> Result<bool, NoRoom> {
        let Some(entry) = self.read(&memory.taxes, row) else {
            return Ok(false);
        };
        memory.put(&entry.0, &entry.1)
    }
}
