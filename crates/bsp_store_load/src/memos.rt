//! The table of memos: each row, put into memory.

use crate::formed::formed_memo;
use crate::load::StoredTable;
use bsp_memory_rows::{NoRoom, Tables};
use bsp_rows::{Memo, MemoKey};
use bsp_store_base::KeyedTable;
use bsp_store_columns::read_entry;
use bsp_store_rows::Memos;
use sqlite::Row;

/// Memos.
#[derive(Clone, Copy)]
pub struct StoredMemos;

impl StoredTable<MemoKey, Memo, Tables> for StoredMemos {
    ghost use Rattle.std.specs.Prelude.{◌≡◌, map, None, true};
    ghost use Rattle.std.specs.FinMap.{entries, get};
    ghost use Rattle.bsp_store_base.specs.Entries.{is_memo, memo_key, Rows, with_memo};
    ghost use Rattle.bsp_memory_rows.specs.Tables.{rows_of};
    ghost use Rattle.bsp_store_base.specs.Base.{IsMemoEntry, memo_part, memo_row};
    ghost use Rattle.bsp_store_load.specs.Adding.{memo_added};
    ghost use Rattle.bsp_store_load.specs.Formed.{AreWhole};

    ghost part = { memo_part };

    ghost Whole = { Rows };

    ghost whole = { rows_of };

    ghost is_kept = { AreWhole };

    ghost row_of = { memo_row };

    ghost with_entry = { λ e. with_memo e.1 };

    ghost fits = { λ table e. IsMemoEntry e × (memo_key e.1 ≡ e.0) × (is_memo e.1 ≡ true) };

    ghost lacks = { λ e rows. (memo_key e.1 ≡ e.0) × (get rows.memos e.0 ≡ None) };

    ghost rows_in = { λ rows. map memo_row (entries rows.memos) };

    ghost adds = { memo_added };

    fn query(&self) -> &'static str {
        Memos.statements().query
    }

    fn put(&self, tables: &mut Tables, row: &Row) -> Result<bool, NoRoom> {
        let Some(entry) = read_entry::<(MemoKey, Memo)>(row) else {
            return Ok(false);
        };
        let (key, memo) = &entry;
        if tables.memo(*key).is_some() {
            return Ok(false);
        }
        formed_memo(*key, *memo.fields());
        tables.put_memo(memo)?;
        tables.commit();
        Ok(true)
    }
}
