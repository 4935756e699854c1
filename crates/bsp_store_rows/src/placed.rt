//! Tables whose rows are the entries of a list, each with its place: what is new in the list is added. They are those of the
//! plan: rates of commission, periods and taxes on commission.

ghost use Rattle.std.specs.Prelude.{◌<◌, ◌^◌, length, OnErr, OnOk};
ghost use Rattle.bsp_store_base.specs.Base.{Changes, GivesUpIf};
ghost use Rattle.bsp_store_base.specs.MapTables.{HasRun};
ghost use Rattle.bsp_store_rows.specs.PlacedTables.{has_first, with_all};

use bsp_rows::{CommissionTax, Period, Rate};
use bsp_store_base::run_entry;
use bsp_store_columns::{Entry, table};
use sqlite::{Alter, Connection, Error};

/// The statements that write and read the rows of a table.
#[derive(Clone, Copy)]
pub struct PlacedStatements {
    /// Adds a row.
    pub insert: &'static str,
    /// Asks for all rows, in the order of their places.
    pub query: &'static str,
}

/// A table whose rows are the entries of a list, each with its place.
pub trait PlacedTable<A: Copy> {
    ghost use Rattle.std.specs.Prelude.{◌<◌, ◌≡◌, ◌^◌};
    ghost use Rattle.bsp_store_rows.specs.PlacedTables.{ArePlacedStatements, IsPlacedList, PlacedList};

    /// The entry that has a row.
    type Entry: Entry + Drop;

    // its rows are the entries of a list of the content
    ghost list: { PlacedList A };

    /// The statements for its rows.
    fn statements(&self) -> PlacedStatements
        ensures meant { ArePlacedStatements list result }
        ensures lawful { IsPlacedList list };

    /// The entry of a value at a place, counted from 1.
    fn entry(&self, place: usize, value: &A) -> Self::Entry
        requires { place < 2 ^ 63 }
        ensures row { Self.Entry.Entry.row result ≡ list.row_of (place, value.now) }
        ensures fits { Self.Entry.Entry.fits result };
}

/// Writes the entries of a list from a place on, counted from 0. The table has those before it.
///
/// # Errors
///
/// That of the statement which failed.
pub fn add_all<A: Copy, T: PlacedTable<A>, S: Alter>(
    table: &T,
    conn: &mut Connection<S>,
    from: usize,
    entries: &[A],
) -> Result<(), Error>
    requires { length entries.now < 2 ^ 63 }
    ensures ok { OnOk result (Changes S.Store conn.old conn.new (has_first T.list from entries.now) (with_all T.list entries.now)) }
    ensures err { OnErr result (GivesUpIf S.Store conn.old conn.new (has_first T.list from entries.now)) }
{
    let statements = table.statements();
    for at in from..entries.len() {
        run_row(table, conn, statements.insert, at + 1, &entries[at])?;
    }
    Ok(())
}

/// Runs a statement whose parameters are the columns of the row of a value at a place.
fn run_row<A: Copy, T: PlacedTable<A>, S: Alter>(
    table: &T,
    conn: &mut Connection<S>,
    text: &str,
    place: usize,
    value: &A,
) -> Result<usize, Error>
    requires { place < 2 ^ 63 }
    ensures { HasRun S.Store text.now (T.list.row_of (place, value.now)) conn.old conn.new result }
{
    let entry = table.entry(place, value);
    run_entry(conn, text, &entry)
}

/// The table of the commission rates.
pub struct Rates;

impl PlacedTable<Rate> for Rates {
    ghost use Rattle.bsp_store_rows.specs.Tables.{rates_list};

    type Entry = (usize, Rate);

    ghost list = { rates_list };

    #[tactic(auto, using(crate::proofs::Tables::rates_lawful))]
    fn statements(&self) -> PlacedStatements {
        PlacedStatements {
            insert: table!(rate, insert),
            query: table!(rate, placed),
        }
    }

    fn entry(&self, place: usize, rate: &Rate) -> (usize, Rate) {
        (place, *rate)
    }
}

/// The table of the periods.
pub struct Periods;

impl PlacedTable<Period> for Periods {
    ghost use Rattle.bsp_store_rows.specs.Tables.{periods_list};

    type Entry = (usize, Period);

    ghost list = { periods_list };

    #[tactic(auto, using(crate::proofs::Tables::periods_lawful))]
    fn statements(&self) -> PlacedStatements {
        PlacedStatements {
            insert: table!(period, insert),
            query: table!(period, placed),
        }
    }

    fn entry(&self, place: usize, period: &Period) -> (usize, Period) {
        (place, *period)
    }
}

/// The table of the taxes on commission.
pub struct CommissionTaxes;

impl PlacedTable<CommissionTax> for CommissionTaxes {
    ghost use Rattle.bsp_store_rows.specs.Tables.{commission_taxes_list};

    type Entry = (usize, CommissionTax);

    ghost list = { commission_taxes_list };

    #[tactic(auto, using(crate::proofs::Tables::commission_taxes_lawful))]
    fn statements(&self) -> PlacedStatements {
        PlacedStatements {
            insert: table!(commission_tax, insert),
            query: table!(commission_tax, placed),
        }
    }

    fn entry(&self, place: usize, tax: &CommissionTax) -> (usize, CommissionTax) {
        (place, *tax)
    }
}
