//! The table of the tallies.

use bsp_rows::{Tally, TallyKey};
use bsp_store_base::{KeyedTable, Statements};
use bsp_store_columns::{Cell, agent_digits, airline_digits, period_digits, table};

/// The table of the tallies, their taxes apart.
pub struct Tallies;

impl KeyedTable<TallyKey, Tally> for Tallies {
    ghost use Rattle.bsp_rows.specs.Tallies.{tally_cmp};
    ghost use Rattle.bsp_store_rows.specs.Tables.{tallies_map};

    type KeyCells = [Cell; 3];

    type Entry = (TallyKey, Tally);

    ghost order = { tally_cmp };

    ghost table = { tallies_map };

    #[tactic(auto, using(crate::proofs::Tables::tallies_lawful))]
    fn statements(&self) -> Statements {
        Statements {
            delete: table!(tally, delete),
            insert: table!(tally, insert),
            update: table!(tally, update),
            query: table!(tally, select),
        }
    }

    fn key_cells(&self, key: &TallyKey) -> [Cell; 3] {
        [
            Cell::Eight(agent_digits(key.agent)),
            Cell::Three(airline_digits(key.airline)),
            Cell::Five(period_digits(key.period)),
        ]
    }

    fn entry(&self, key: &TallyKey, tally: &Tally) -> (TallyKey, Tally) {
        (*key, *tally)
    }
}
