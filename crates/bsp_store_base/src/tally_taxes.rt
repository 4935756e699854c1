//! The table of the tax of each tally.

use crate::{KeyedTable, Statements};
use bsp_rows::{Tally, TallyKey};
use bsp_store_columns::{Cell, agent_digits, airline_digits, period_digits, table};

/// The table of the taxes of tallies.
pub struct TallyTaxes;

impl KeyedTable<TallyKey, Tally> for TallyTaxes {
    ghost use Rattle.bsp_rows.specs.Tallies.{tally_cmp};
    ghost use Rattle.bsp_store_base.specs.ItemTables.{tally_taxes_map};

    type KeyCells = [Cell; 3];

    type Entry = (TallyKey, i64);

    ghost order = { tally_cmp };

    ghost table = { tally_taxes_map };

    fn statements(&self) -> Statements {
        Statements {
            delete: table!(tally_tax, delete),
            insert: table!(tally_tax, insert),
            update: table!(tally_tax, update),
            query: table!(tally_tax, select),
        }
    }

    fn key_cells(&self, key: &TallyKey) -> [Cell; 3] {
        [
            Cell::Eight(agent_digits(key.agent)),
            Cell::Three(airline_digits(key.airline)),
            Cell::Five(period_digits(key.period)),
        ]
    }

    fn entry(&self, key: &TallyKey, tally: &Tally) -> (TallyKey, i64) {
        (*key, tally.tax)
    }
}
