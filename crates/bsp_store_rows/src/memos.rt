//! The table of the memos.

use bsp_rows::{Memo, MemoKey};
use bsp_store_base::{KeyedTable, Statements};
use bsp_store_columns::{Cell, airline_digits, number_digits, table};

/// The table of the memos.
pub struct Memos;

impl KeyedTable<MemoKey, Memo> for Memos {
    ghost use Rattle.bsp_rows.specs.Rows.{memo_cmp};
    ghost use Rattle.bsp_store_rows.specs.Tables.{memos_map};

    type KeyCells = [Cell; 2];

    type Entry = (MemoKey, Memo);

    ghost order = { memo_cmp };

    ghost table = { memos_map };

    #[tactic(auto, using(crate::proofs::Tables::memos_lawful))]
    fn statements(&self) -> Statements {
        Statements {
            delete: table!(memo, delete),
            insert: table!(memo, insert),
            update: table!(memo, update),
            query: table!(memo, select),
        }
    }

    fn key_cells(&self, key: &MemoKey) -> [Cell; 2] {
        [
            Cell::Three(airline_digits(key.airline)),
            Cell::Ten(number_digits(key.document)),
        ]
    }

    fn entry(&self, key: &MemoKey, memo: &Memo) -> (MemoKey, Memo) {
        (*key, *memo)
    }
}
