//! The plan, its airlines apart, brought up to date: what is new in it is written.

ghost use Rattle.std.specs.Prelude.{◌≡◌, ◌<◌, ◌^◌, Some, length};
ghost use Rattle.std.specs.Bool.{Decides};
ghost use Rattle.bsp_rows.specs.SoundPlan.{Continues};
ghost use Rattle.bsp_store_rows.specs.PlacedTables.{has_first, with_all};
ghost use Rattle.bsp_store_load.specs.Plans.{IsSaved, plan_before};
ghost use Rattle.bsp_store_save.specs.Saving.{HasPlan, Saves, meta_of, meta_with, with_plan};

use bsp_rows::{Day, Plan};
use bsp_store_load::SavedPlan;
use bsp_store_rows::{CommissionTaxes, Periods, PlacedTable, Rates, add_all, put_meta, put_terms};
use sqlite::{Alter, Connection, Error};

/// Whether a plan has a business day and a number of closed periods.
fn has_meta(plan: &Plan, day: Day, closed: usize) -> bool
    ensures { Decides result (meta_with day closed ≡ meta_of plan.now) }
{
    day == plan.day() && closed == plan.closed_count()
}

/// Whether they have the same terms.
fn same_terms(old: &Plan, new: &Plan) -> bool
    ensures { Decides result (old.now.terms ≡ new.now.terms) }
{
    old.terms() == new.terms()
}

/// Writes the business day and the number of closed periods where they differ from those of the table.
fn save_meta<S: Alter>(
    conn: &mut Connection<S>,
    day: Day,
    closed: usize,
    new: &Plan,
) -> Result<(), Error>
    ensures { Saves S.Store conn.old conn.new result (λ c. c.meta ≡ Some (meta_with day closed)) (λ c. record c { meta = Some (meta_of new.now) }) }
{
    if has_meta(new, day, closed) {
        return Ok(());
    }
    put_meta(conn, true, new.day(), new.closed_count())
}

/// Writes the terms where they differ.
fn save_terms<S: Alter>(conn: &mut Connection<S>, old: &Plan, new: &Plan) -> Result<(), Error>
    ensures { Saves S.Store conn.old conn.new result (λ c. c.terms ≡ old.now.terms) (λ c. record c { terms = new.now.terms }) }
{
    if same_terms(old, new) {
        return Ok(());
    }
    put_terms(conn, new.terms())
}

/// Writes the entries of a list that are new in it.
fn save_more<A: Copy, T: PlacedTable<A>, S: Alter>(
    table: &T,
    conn: &mut Connection<S>,
    kept: &[A],
    all: &[A],
) -> Result<(), Error>
    requires { length all.now < 2 ^ 63 }
    ensures { Saves S.Store conn.old conn.new result (has_first T.list (length kept.now) all.now) (with_all T.list all.now) }
{
    add_all(table, conn, kept.len(), all)
}

/// Writes what is new in a plan that continues another, its airlines apart.
fn save_growth<S: Alter>(conn: &mut Connection<S>, old: &Plan, new: &Plan) -> Result<(), Error>
    requires { Continues old.now new.now }
    ensures { Saves S.Store conn.old conn.new result (HasPlan old.now) (with_plan new.now) }
{
    save_meta(conn, old.day(), old.closed_count(), new)?;
    save_terms(conn, old, new)?;
    let kept = old.rates();
    let all = new.rates();
    save_more(&Rates, conn, kept, all)?;
    let kept = old.periods();
    let all = new.periods();
    save_more(&Periods, conn, kept, all)?;
    let kept = old.commission_taxes();
    let all = new.commission_taxes();
    save_more(&CommissionTaxes, conn, kept, all)
}

/// Writes what is new in a plan, its airlines apart. Where only its business day and its closed periods are, it takes the same time for every
/// plan.
pub(crate) fn save_plan<S: Alter>(
    conn: &mut Connection<S>,
    saved: &SavedPlan,
    plan: &Plan,
) -> Result<(), Error>
    requires { IsSaved plan.now saved.now }
    ensures { Saves S.Store conn.old conn.new result (HasPlan (plan_before plan.now saved.now)) (with_plan plan.now) }
{
    match saved {
        SavedPlan::Same => Ok(()),
        SavedPlan::Dated { day, closed } => save_meta(conn, *day, *closed, plan),
        SavedPlan::Whole(old) => save_growth(conn, old, plan),
    }
}
