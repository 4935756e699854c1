//! All rows of the plan's tables of a store, and of its tallies and their taxes.

ghost use Rattle.std.specs.Prelude.{◌≡◌, ⊤, true, IfErr, MatchResult, OnOk};
ghost use Rattle.bsp_store_base.specs.Base.{AreAllOf, our_schema, Spares};
ghost use Rattle.bsp_store_load.specs.Whole.{part_of};
ghost use Rattle.bsp_store_open.specs.Faults.{is_refusal, refusal_for};
ghost use Rattle.bsp_store_open.specs.Opening.{ArePlanRows, IsAskedVersion, IsOfVersion, IsReading, IsRefusalOf, IsTableRead, Reports, ShowsNoBook};

use crate::fault::{OpenFault, fault_of};
use crate::version::{VERSION_TEXT, is_known};
use bsp_store_base::is_ours;
use bsp_store_load::{PlanRows, VERSION, WholeTable, all_rows, read_version};
use sqlite::{Alter, Connection, Error as StoreError, Row};

/// Refuses a store that has other tables than a book. A query says nothing of the tables after it on a disk that gave
/// wrong bytes, so each is preceded by this test.
pub(crate) fn expect_tables<S: Alter>(conn: &Connection<S>) -> Result<(), OpenFault>
    ensures tables { MatchResult result (λ done. conn.now.schema ≡ our_schema) (λ fault. ¬ (conn.now.schema ≡ our_schema)) }
    ensures damaged { IfErr result (λ fault. fault ≡ OpenFault.Damaged) }
{
    if is_ours(conn.schema()) {
        Ok(())
    } else {
        Err(OpenFault::Damaged)
    }
}

/// Refuses rows of `meta` with another version than this one, or none. A known version is damage: the tables are not its own.
fn expect_version(rows: &[Row]) -> Result<(), OpenFault>
    ensures ok { OnOk result (IsOfVersion rows.now) }
    ensures refused { IfErr result (λ fault. ¬ IsOfVersion rows.now) }
    ensures reported { IfErr result (λ fault. Reports fault rows.now) }
    ensures refuses { IfErr result (λ fault. is_refusal fault ≡ true) }
{
    let Some(row) = rows.first() else {
        return Err(OpenFault::Damaged);
    };
    match read_version(row) {
        Some(VERSION) => Ok(()),
        Some(version) if !is_known(version) => Err(OpenFault::OtherVersion),
        _ => Err(OpenFault::Damaged),
    }
}

/// All rows of a table.
///
/// # Errors
///
/// `Damaged`, where the tables are not those of a book. Those of the store.
pub(crate) fn rows_of<S: Alter>(
    conn: &mut Connection<S>,
    table: WholeTable,
) -> Result<Vec<Row>, OpenFault>
    ensures { IsTableRead S.Store conn.old conn.new result (λ _. ⊤) (λ rows trees. AreAllOf (part_of table) trees rows.items) }
{
    expect_tables(conn)?;
    Ok(all_rows(conn, table)?)
}

/// All rows of the plan's tables.
///
/// # Errors
///
/// `OtherVersion`, where `meta` has a version that is none of 1 to 3. `Damaged`, where it has none or that of another
/// known version, or the tables are not those of a book. Those of the
/// store.
pub(crate) fn plan_rows<S: Alter>(conn: &mut Connection<S>) -> Result<PlanRows, OpenFault>
    ensures { IsReading S.Store conn.old conn.new result (λ rows. IsOfVersion rows.meta.items) (λ rows trees. ArePlanRows trees rows) ShowsNoBook }
{
    let meta = rows_of(conn, WholeTable::Meta)?;
    expect_version(&meta)?;
    let terms = rows_of(conn, WholeTable::Terms)?;
    let airlines = rows_of(conn, WholeTable::Airlines)?;
    let rates = rows_of(conn, WholeTable::Rates)?;
    let periods = rows_of(conn, WholeTable::Periods)?;
    let commission_taxes = rows_of(conn, WholeTable::CommissionTaxes)?;
    Ok(PlanRows {
        meta,
        terms,
        airlines,
        rates,
        periods,
        commission_taxes,
    })
}

/// Why tables are refused that cannot be asked for their version.
fn refusal_for(error: StoreError) -> OpenFault
    ensures { result ≡ refusal_for error }
{
    match error {
        StoreError::SqliteFailure(_) => fault_of(error),
        _ => OpenFault::Damaged,
    }
}

/// Why tables that are not those of a book are refused, by what they answer when they are asked for their version.
fn refusal_of(found: Result<Vec<Row>, StoreError>) -> OpenFault
    ensures { IsRefusalOf found result }
{
    match found {
        Ok(rows) => match expect_version(&rows) {
            Ok(()) => OpenFault::Damaged,
            Err(fault) => fault,
        },
        Err(error) => refusal_for(error),
    }
}

/// Why tables that are not those of a book are refused: their version is none of 1 to 3, they are damaged, or the store fails. It
/// reads the version, and writes nothing.
pub fn refusal<S: Alter>(conn: &mut Connection<S>) -> OpenFault
    ensures asked { IsAskedVersion S.Store result conn.old conn.new }
    ensures spares { Spares S.Store conn.old conn.new }
{
    refusal_of(conn.query_all(VERSION_TEXT, &[]))
}
