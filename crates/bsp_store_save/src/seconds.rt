//! The table of second related documents. It follows from the items in memory, under the keys of their tickets.

ghost use Rattle.std.specs.Prelude.{◌≡◌, OnErr, OnOk};
ghost use Rattle.bsp_store_base.specs.Base.{Changes, GivesUp, second_in, with_second};
ghost use Rattle.bsp_store_save.specs.Seconds.{gives_second, has_second};

use crate::keyed::Keyed;
use bsp_rows::{Item, ItemKey, ReportedDocument};
use bsp_store_base::{Seconds, put};
use bsp_store_columns::{TicketKey, second_related};
use sqlite::{Alter, Connection, Error};

/// The second related documents of items. A CANX has none.
pub(crate) struct SecondDocuments;

/// The second related document of an item, if there is an item and it has one.
fn second_in(item: Option<Item>) -> Option<ReportedDocument>
    ensures { result ≡ second_in item }
{
    match item {
        Some(item) => second_related(&item.transaction),
        None => None,
    }
}

impl Keyed<ItemKey, Item> for SecondDocuments {
    ghost set = { λ table key value c. record c { seconds = with_second key value c.seconds } };

    ghost holds = { λ key c. has_second key c.seconds };

    ghost rows = { λ table key value. gives_second key value };

    fn has_row(&self, key: ItemKey, value: Option<Item>) -> bool
        ensures { result ≡ gives_second key value }
    {
        !key.is_canx && second_in(value).is_some()
    }

    fn put<S: Alter>(
        &self,
        conn: &mut Connection<S>,
        key: ItemKey,
        is_there: bool,
        value: Option<Item>,
    ) -> Result<(), Error>
        ensures ok { OnOk result (Changes S.Store conn.old conn.new (λ c. has_second key c.seconds ≡ is_there) (λ c. record c { seconds = with_second key value c.seconds })) }
        ensures err { OnErr result (GivesUp S.Store conn.old conn.new) }
    {
        match TicketKey::of(&key) {
            Some(ticket) => put(&Seconds, conn, ticket, is_there, second_in(value)),
            None => Ok(()),
        }
    }
}
