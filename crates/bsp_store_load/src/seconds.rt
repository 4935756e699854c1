//! The table of the second related documents: each row, put into a map, and the map against the items in memory.

ghost use Rattle.std.specs.Prelude.{◌↔◌, ◌≡◌, is_some, IsTrue, map, None, Some};
ghost use Rattle.std.specs.FinMap.{entries, FinMap, from_entries, get, insert};
ghost use Rattle.std.specs.List.{filter_map};
ghost use Rattle.bsp_memory_tables.specs.ItemTables.{item_rows};
ghost use Rattle.bsp_store_base.specs.Base.{second_entry, second_part, second_row, seconds_of, ticket_cmp, ticket_total};
ghost use Rattle.bsp_rows.specs.ReportedDocument.{ReportedDocument as Document};
ghost use Rattle.bsp_store_load.specs.Adding.{entry_added};
ghost use Rattle.bsp_store_load.specs.Beside.{IsSecond};

use crate::entries::put_new;
use crate::load::StoredTable;
use bsp_memory_rows::NoRoom;
use bsp_memory_tables::ItemTable;
use bsp_rows::{Item, ItemKey, ReportedDocument};
use bsp_store_base::{KeyedTable, Seconds};
use bsp_store_columns::{TicketKey, read_entry, second_related};
use sqlite::Row;
use std::collections::BTreeMap;

/// The second related documents by their tickets.
#[derive(Clone, Copy)]
pub struct StoredSeconds;

impl StoredTable<TicketKey, ReportedDocument, BTreeMap<TicketKey, ReportedDocument>>
    for StoredSeconds {
    ghost part = { second_part };

    ghost Whole = { FinMap ticket_cmp Document };

    ghost whole = { λ seconds. from_entries seconds.entries };

    ghost is_kept = { λ seconds. Unit {0} };

    ghost row_of = { second_row };

    ghost with_entry = { λ e seconds. insert seconds e.0 e.1 };

    ghost fits = { λ table e. IsSecond e };

    ghost lacks = { λ e seconds. get seconds e.0 ≡ None };

    ghost rows_in = { λ seconds. map second_row (entries seconds) };

    ghost adds = { entry_added ticket_total second_row };

    fn query(&self) -> &'static str {
        Seconds.statements().query
    }

    fn put(
        &self,
        seconds: &mut BTreeMap<TicketKey, ReportedDocument>,
        row: &Row,
    ) -> Result<bool, NoRoom> {
        let Some((key, document)) = read_entry::<(TicketKey, ReportedDocument)>(row) else {
            return Ok(false);
        };
        Ok(put_new(seconds, key, document)?)
    }
}

/// Whether an item has a second related document under its ticket. An item that is no CANX may have one.
fn has_second(key: &ItemKey, item: &Item) -> bool
    ensures { result ≡ is_some (second_entry (key.now, item.now)) }
{
    !key.is_canx && second_related(&item.transaction).is_some()
}

/// Whether these are the ticket of an item and its second related document.
fn is_second(key: &ItemKey, item: &Item, own_key: &TicketKey, own: &ReportedDocument) -> bool
    ensures { IsTrue result ↔ (second_entry (key.now, item.now) ≡ Some (own_key.now, own.now)) }
{
    TicketKey::of(key) == Some(*own_key) && second_related(&item.transaction) == Some(*own)
}

/// Whether the entries of a map are the second related documents of the items of another, in their order.
fn are_seconds_of(
    own: &BTreeMap<TicketKey, ReportedDocument>,
    entries: &BTreeMap<ItemKey, Item>,
) -> bool
    ensures { IsTrue result ↔ (own.now.entries ≡ filter_map second_entry entries.now.entries) }
{
    let mut rest = own.iter();
    for (key, value) in entries {
        if !has_second(key, value) {
            continue;
        }
        let Some((own_key, own_value)) = rest.next() else {
            return false;
        };
        if !is_second(key, value, own_key, own_value) {
            return false;
        }
    }
    rest.next().is_none()
}

/// Whether the documents are the second related documents of the items of a table, each under its ticket.
pub fn are_seconds(seconds: &BTreeMap<TicketKey, ReportedDocument>, items: &ItemTable) -> bool
    ensures { IsTrue result ↔ (from_entries seconds.now.entries ≡ seconds_of (item_rows items.now)) }
{
    let all = items.map();
    let _count = all.len();
    let _own = seconds.len();
    are_seconds_of(seconds, all)
}
