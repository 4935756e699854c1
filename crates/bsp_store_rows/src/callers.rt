//! The tables of agents and of ranges of stock.

use bsp_rows::{AgentCode, DocNumber, RangeKey, Token};
use bsp_store_base::{KeyedTable, Statements};
use bsp_store_columns::{Cell, agent_digits, number_digits, table};

/// The table of agents: their tokens.
pub struct Agents;

impl KeyedTable<AgentCode, Token> for Agents {
    ghost use Rattle.std.specs.Ordering.{nat_cmp};
    ghost use Rattle.bsp_store_rows.specs.Tables.{agents_map};

    type KeyCells = [Cell; 1];

    type Entry = (AgentCode, Token);

    ghost order = { nat_cmp };

    ghost table = { agents_map };

    #[tactic(auto, using(crate::proofs::Tables::agents_lawful))]
    fn statements(&self) -> Statements {
        Statements {
            delete: table!(agent, delete),
            insert: table!(agent, insert),
            update: table!(agent, update),
            query: table!(agent, select),
        }
    }

    fn key_cells(&self, code: &AgentCode) -> [Cell; 1] {
        [Cell::Eight(agent_digits(*code))]
    }

    fn entry(&self, code: &AgentCode, token: &Token) -> (AgentCode, Token) {
        (*code, *token)
    }
}

/// The table of ranges of stock: the last number of each, under its first.
pub struct Ranges;

impl KeyedTable<RangeKey, DocNumber> for Ranges {
    ghost use Rattle.bsp_rows.specs.Rows.{range_cmp};
    ghost use Rattle.bsp_store_rows.specs.Tables.{ranges_map};

    type KeyCells = [Cell; 2];

    type Entry = (RangeKey, DocNumber);

    ghost order = { range_cmp };

    ghost table = { ranges_map };

    #[tactic(auto, using(crate::proofs::Tables::ranges_lawful))]
    fn statements(&self) -> Statements {
        Statements {
            delete: table!(stock, delete),
            insert: table!(stock, insert),
            update: table!(stock, update),
            query: table!(stock, select),
        }
    }

    fn key_cells(&self, key: &RangeKey) -> [Cell; 2] {
        [
            Cell::Eight(agent_digits(key.agent)),
            Cell::Ten(number_digits(key.first)),
        ]
    }

    fn entry(&self, key: &RangeKey, up_to: &DocNumber) -> (RangeKey, DocNumber) {
        (*key, *up_to)
    }
}
