//! Tables in memory with the plan and the tokens of airlines of a store.

ghost use Rattle.std.specs.Prelude.{◌≡◌, IfOk, IfSome, IsSomeAnd, IsTrue, List, OnOk, true, ℕ};
ghost use Rattle.std.specs.FinMap.{empty, FinMap};
ghost use Rattle.std.specs.Ordering.{nat_cmp};
ghost use Rattle.bsp_store_base.specs.Entries.{IsSoundPlan, no_rows, opening, Published};
ghost use Rattle.bsp_memory_rows.specs.Tables.{rows_of};
ghost use Rattle.bsp_store_load.specs.Formed.{AreWhole};
ghost use Rattle.bsp_store_load.specs.Stored.{AreRowsOfPlan, IsFormedPlan, PutsPlan};

use crate::airline_map::{Airlines, are_airlines};
use crate::airlines::put_tokens;
use crate::formed::formed_plan;
use crate::plan::{CommissionTaxes, Periods, Rates, are_meta, are_placed, are_terms};
use crate::plan_rows::{PlanRows, read_all};
use crate::published::put_plan;
use bsp_memory_rows::{NoRoom, Tables};
use std::alloc::{AllocError, Global};

/// Whether the rows are those of the plan of tables and of their airlines, table by table and in the same order.
fn are_rows_of_plan(alloc: Global, rows: &PlanRows, tables: &Tables) -> Result<bool, AllocError>
    ensures same { IfOk result (λ are. IsTrue are → AreRowsOfPlan (rows_of tables.now).published (rows_of tables.now).airlines rows.now) }
    ensures whole { IfOk result (λ are. IsFormedPlan (rows_of tables.now).published (rows_of tables.now).airlines → AreRowsOfPlan (rows_of tables.now).published (rows_of tables.now).airlines rows.now → IsTrue are) }
{
    let airlines = are_airlines(alloc, &rows.airlines, tables)?;
    let plan = tables.plan();
    Ok(
        airlines
            && are_meta(&rows.meta, plan)
            && are_terms(&rows.terms, plan)
            && are_placed(&Rates, &rows.rates, plan.rates())
            && are_placed(&Periods, &rows.periods, plan.periods())
            && are_placed(
                &CommissionTaxes,
                &rows.commission_taxes,
                plan.commission_taxes(),
            ),
    )
}

/// Puts the plan that rows say, and the tokens of airlines, into tables that have none, and answers false where the rows
/// are those of no plan.
fn put_rows(alloc: Global, tables: &mut Tables, rows: &PlanRows) -> Result<bool, NoRoom>
    ensures puts { OnOk result (PutsPlan tables.old tables.new) }
    ensures plan { IfOk result (λ done. (p : Published) (tokens : FinMap nat_cmp (List ℕ)) → IsSoundPlan p → IsFormedPlan p tokens → AreRowsOfPlan p tokens rows.now → (rows_of tables.old).published ≡ opening → (rows_of tables.old).airlines ≡ empty
        → (done ≡ true) × (rows_of tables.new ≡ record (rows_of tables.old) { published = p; airlines = tokens })) }
{
    let Some(airlines) = read_all(alloc, &Airlines, &rows.airlines)? else {
        return Ok(false);
    };
    if !put_plan(alloc, tables, rows, &airlines)? {
        return Ok(false);
    }
    put_tokens(tables, &airlines)?;
    Ok(true)
}

/// Makes the plan that rows say, with the tokens of airlines, in tables that have none, and answers false where they are
/// the rows of no plan.
fn put_whole_plan(alloc: Global, tables: &mut Tables, rows: &PlanRows) -> Result<bool, NoRoom>
    ensures puts { OnOk result (PutsPlan tables.old tables.new) }
    ensures rows { IfOk result (λ done. IsTrue done → AreRowsOfPlan (rows_of tables.new).published (rows_of tables.new).airlines rows.now) }
    ensures plan { IfOk result (λ done. (p : Published) (tokens : FinMap nat_cmp (List ℕ)) → IsSoundPlan p → IsFormedPlan p tokens → AreRowsOfPlan p tokens rows.now → (rows_of tables.old).published ≡ opening → (rows_of tables.old).airlines ≡ empty
        → (done ≡ true) × (rows_of tables.new ≡ record (rows_of tables.old) { published = p; airlines = tokens })) }
{
    if !put_rows(alloc, tables, rows)? {
        return Ok(false);
    }
    Ok(are_rows_of_plan(alloc, rows, tables)?)
}

/// Tables in memory with the plan and the tokens of airlines whose rows these are, and nothing else; none where they are
/// the rows of no plan.
///
/// # Errors
///
/// `NoRoom` where an allocation was refused.
pub fn plan_tables(alloc: Global, rows: &PlanRows) -> Result<Option<Tables>, NoRoom>
    ensures whole { IfOk result (λ found. IfSome found AreWhole) }
    ensures rows { IfOk result (λ found. IfSome found (λ tables. AreRowsOfPlan (rows_of tables).published (rows_of tables).airlines rows.now)) }
    ensures alone { IfOk result (λ found. IfSome found (λ tables. rows_of tables ≡ record no_rows { published = (rows_of tables).published; airlines = (rows_of tables).airlines })) }
    ensures plan { IfOk result (λ found. (p : Published) (tokens : FinMap nat_cmp (List ℕ)) → IsSoundPlan p → IsFormedPlan p tokens → AreRowsOfPlan p tokens rows.now
        → IsSomeAnd found (λ tables. rows_of tables ≡ record no_rows { published = p; airlines = tokens })) }
{
    let mut tables = Tables::new(alloc);
    if !put_whole_plan(alloc, &mut tables, rows)? {
        return Ok(None);
    }
    formed_plan(tables.plan());
    Ok(Some(tables))
}
