//! The tables whose rows are read all at once.

ghost use Rattle.bsp_store_base.specs.Shows.{ShowsAll, ShowsTable};
ghost use Rattle.bsp_store_load.specs.Whole.{part_of};

use bsp_store_base::{KeyedTable, TallyTaxes};
use bsp_store_rows::{
    Airlines, CommissionTaxes, Periods, PlacedTable, Rates, Tallies, meta_query, terms_query,
};
use sqlite::{Alter, Connection, Error, Row};

/// A table whose rows are read all at once, and not put into memory one at a time.
#[derive(Clone, Copy)]
pub enum WholeTable {
    /// The version of the tables, the business day and how many periods are closed.
    Meta,
    /// The terms of the market.
    Terms,
    /// The airlines that are published or registered.
    Airlines,
    /// The rates of commission.
    Rates,
    /// The billing periods.
    Periods,
    /// The taxes on commission.
    CommissionTaxes,
    /// The tallies.
    Tallies,
    /// The taxes of tallies.
    TallyTaxes,
}

impl WholeTable {
    /// The query for its rows, in the order of their keys or places.
    fn query(self) -> &'static str
        ensures { ShowsTable (part_of self) result.now }
    {
        match self {
            WholeTable::Meta => meta_query(),
            WholeTable::Terms => terms_query(),
            WholeTable::Airlines => Airlines.statements().query,
            WholeTable::Rates => Rates.statements().query,
            WholeTable::Periods => Periods.statements().query,
            WholeTable::CommissionTaxes => CommissionTaxes.statements().query,
            WholeTable::Tallies => Tallies.statements().query,
            WholeTable::TallyTaxes => TallyTaxes.statements().query,
        }
    }
}

/// All rows of a table, in the order of their keys or places.
///
/// # Errors
///
/// Where the store fails.
pub fn all_rows<S: Alter>(conn: &mut Connection<S>, table: WholeTable) -> Result<Vec<Row>, Error>
    ensures { ShowsAll (part_of table) S.Store conn.old conn.new result }
{
    conn.query_all(table.query(), &[])
}
