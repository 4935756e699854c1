//! The tables whose rows are found by keys: what each has of a value in memory.

ghost use Rattle.std.specs.Prelude.{◌≡◌, is_some, OnErr, OnOk};
ghost use Rattle.std.specs.Option.{option_flatten};
ghost use Rattle.bsp_store_base.specs.Base.{after, Changes, entry_of, GivesUp, holds_row, place_of};
ghost use Rattle.bsp_store_rows.specs.Tables.{ranges_map, airlines_map};
ghost use Rattle.bsp_store_load.specs.Contents.{used_at};
ghost use Rattle.bsp_store_save.specs.Each.{has_row};

use crate::keyed::Keyed;
use bsp_rows::{AirlineCode, DocNumber, RangeKey, Tally, TallyKey, Token};
use bsp_store_base::{KeyedTable, put};
use bsp_store_columns::{AirlineEntry, place_of};
use bsp_store_rows::{Airlines, Ranges, StoredAirline};
use sqlite::{Alter, Connection, Error};

/// A table that has each value as it is in memory.
pub(crate) struct AsItIs<T> {
    pub(crate) table: T,
}

/// A table that has the tallies to which some row adds.
pub(crate) struct Tallied<T> {
    pub(crate) table: T,
}

/// The ranges. One that was withdrawn has no value.
pub(crate) struct Granted;

/// The tokens of airlines, where these airlines are published.
#[derive(Clone, Copy)]
pub(crate) struct AirlineTokens<'a> {
    pub(crate) published: &'a [AirlineCode],
}

/// The tally, if some row adds to it.
fn used(tally: Option<Tally>) -> Option<Tally>
    ensures { result ≡ used_at tally }
{
    match tally {
        Some(tally) if tally.accepted > 0 || tally.memo_count > 0 => Some(tally),
        _ => None,
    }
}

impl<K: Ord + Copy + Drop, V: Copy + Drop, T: KeyedTable<K, V>> Keyed<K, V> for AsItIs<T> {
    ghost set = { λ table. after T.table };

    ghost holds = { has_row T.table };

    ghost rows = { λ table key value. is_some value };

    fn has_row(&self, _key: K, value: Option<V>) -> bool
        ensures { result ≡ is_some value }
    {
        value.is_some()
    }

    fn put<S: Alter>(
        &self,
        conn: &mut Connection<S>,
        key: K,
        is_there: bool,
        value: Option<V>,
    ) -> Result<(), Error>
        ensures ok { OnOk result (Changes S.Store conn.old conn.new (holds_row T.table key is_there) (after T.table key value)) }
        ensures err { OnErr result (GivesUp S.Store conn.old conn.new) }
    {
        put(&self.table, conn, key, is_there, value)
    }
}

impl<T: KeyedTable<TallyKey, Tally>> Keyed<TallyKey, Tally> for Tallied<T> {
    ghost set = { λ table key value. after T.table key (used_at value) };

    ghost holds = { has_row T.table };

    ghost rows = { λ table key value. is_some (used_at value) };

    fn has_row(&self, _key: TallyKey, value: Option<Tally>) -> bool
        ensures { result ≡ is_some (used_at value) }
    {
        used(value).is_some()
    }

    fn put<S: Alter>(
        &self,
        conn: &mut Connection<S>,
        key: TallyKey,
        is_there: bool,
        value: Option<Tally>,
    ) -> Result<(), Error>
        ensures ok { OnOk result (Changes S.Store conn.old conn.new (holds_row T.table key is_there) (after T.table key (used_at value))) }
        ensures err { OnErr result (GivesUp S.Store conn.old conn.new) }
    {
        put(&self.table, conn, key, is_there, used(value))
    }
}

impl Keyed<RangeKey, Option<DocNumber>> for Granted {
    ghost set = { λ table key value. after ranges_map key (option_flatten value) };

    ghost holds = { has_row ranges_map };

    ghost rows = { λ table key value. is_some (option_flatten value) };

    fn has_row(&self, _key: RangeKey, value: Option<Option<DocNumber>>) -> bool
        ensures { result ≡ is_some (option_flatten value) }
    {
        value.flatten().is_some()
    }

    fn put<S: Alter>(
        &self,
        conn: &mut Connection<S>,
        key: RangeKey,
        is_there: bool,
        value: Option<Option<DocNumber>>,
    ) -> Result<(), Error>
        ensures ok { OnOk result (Changes S.Store conn.old conn.new (holds_row ranges_map key is_there) (after ranges_map key (option_flatten value))) }
        ensures err { OnErr result (GivesUp S.Store conn.old conn.new) }
    {
        put(&Ranges, conn, key, is_there, value.flatten())
    }
}

impl<'a> Keyed<AirlineCode, Token> for AirlineTokens<'a> {
    ghost set = { λ table key value. after airlines_map key (entry_of (place_of key table.published.now) value) };

    ghost holds = { has_row airlines_map };

    ghost rows = { λ table key value. is_some (entry_of (place_of key table.published.now) value) };

    fn has_row(&self, key: AirlineCode, value: Option<Token>) -> bool
        ensures { result ≡ is_some (entry_of (place_of key self.now.published.now) value) }
    {
        AirlineEntry::of(place_of(key, self.published), value).is_some()
    }

    fn put<S: Alter>(
        &self,
        conn: &mut Connection<S>,
        key: AirlineCode,
        is_there: bool,
        value: Option<Token>,
    ) -> Result<(), Error>
        ensures ok { OnOk result (Changes S.Store conn.old conn.new (holds_row airlines_map key is_there) (after airlines_map key (entry_of (place_of key self.now.published.now) value))) }
        ensures err { OnErr result (GivesUp S.Store conn.old conn.new) }
    {
        let airline = AirlineEntry::of(place_of(key, self.published), value);
        let stored = StoredAirline::of(airline);
        put(&Airlines, conn, key, is_there, stored)
    }
}
