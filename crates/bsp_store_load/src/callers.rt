//! The tables of agents and of ranges: each row, put into memory.

ghost use Rattle.std.specs.Prelude.{◌≡◌, map, None};
ghost use Rattle.std.specs.FinMap.{entries, get};
ghost use Rattle.bsp_store_base.specs.Entries.{range_of, Rows, with_agent_token, with_range};
ghost use Rattle.bsp_memory_rows.specs.Tables.{rows_of};
ghost use Rattle.bsp_store_base.specs.Base.{agent_part, agent_row, IsAgentEntry, IsRangeEntry, stock_part, stock_row};
ghost use Rattle.bsp_store_load.specs.Adding.{agent_added, range_added};
ghost use Rattle.bsp_store_load.specs.Formed.{AreWhole};

use crate::formed::{formed_agent, formed_range};
use crate::load::StoredTable;
use bsp_memory_rows::{NoRoom, Tables};
use bsp_rows::{AgentCode, DocNumber, RangeKey, Token};
use bsp_store_base::KeyedTable;
use bsp_store_columns::read_entry;
use bsp_store_rows::{Agents as AgentTable, Ranges as RangeTable};
use sqlite::Row;

/// Tokens of agents.
#[derive(Clone, Copy)]
pub struct Agents;

impl StoredTable<AgentCode, Token, Tables> for Agents {
    ghost part = { agent_part };

    ghost Whole = { Rows };

    ghost whole = { rows_of };

    ghost is_kept = { AreWhole };

    ghost row_of = { agent_row };

    ghost with_entry = { λ e. with_agent_token e.0 e.1 };

    ghost fits = { λ table e. IsAgentEntry e };

    ghost lacks = { λ e rows. get rows.agents e.0 ≡ None };

    ghost rows_in = { λ rows. map agent_row (entries rows.agents) };

    ghost adds = { agent_added };

    fn query(&self) -> &'static str {
        AgentTable.statements().query
    }

    fn put(&self, tables: &mut Tables, row: &Row) -> Result<bool, NoRoom> {
        let Some((agent, token)) = read_entry::<(AgentCode, Token)>(row) else {
            return Ok(false);
        };
        if tables.agent_token(agent).is_some() {
            return Ok(false);
        }
        formed_agent(agent, token);
        tables.set_agent_token(agent, token)?;
        tables.commit();
        Ok(true)
    }
}

/// Ranges of stock.
#[derive(Clone, Copy)]
pub struct Ranges;

impl StoredTable<RangeKey, DocNumber, Tables> for Ranges {
    ghost part = { stock_part };

    ghost Whole = { Rows };

    ghost whole = { rows_of };

    ghost is_kept = { AreWhole };

    ghost row_of = { stock_row };

    ghost with_entry = { λ e. with_range e.0.agent (range_of e) };

    ghost fits = { λ table e. IsRangeEntry e };

    ghost lacks = { λ e rows. get rows.ranges e.0 ≡ None };

    ghost rows_in = { λ rows. map stock_row (entries rows.ranges) };

    ghost adds = { range_added };

    fn query(&self) -> &'static str {
        RangeTable.statements().query
    }

    fn put(&self, tables: &mut Tables, row: &Row) -> Result<bool, NoRoom> {
        let Some(entry) = read_entry::<(RangeKey, DocNumber)>(row) else {
            return Ok(false);
        };
        let (key, last) = &entry;
        if tables.range_table().get(*key).is_some() {
            return Ok(false);
        }
        formed_range(*key, *last);
        tables.add_range(key.agent, &key.up_to(*last))?;
        tables.commit();
        Ok(true)
    }
}
