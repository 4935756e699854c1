//! What a plan was at the last commit.

ghost use Rattle.std.specs.Prelude.{◌≡◌, IfOk, OnOk, true, false};
ghost use Rattle.bsp_memory_rows.specs.Plans.{IsSaved, is_same, is_whole, plan_before};

use crate::no_room::NoRoom;
use bsp_rows::{Day, Plan, PlanFault};

/// What a plan was at the last commit, beside the plan as it is now.
#[derive(Drop)]
pub enum SavedPlan {
    /// The same plan.
    Same,
    /// The plan on an earlier business day, with so many of its first periods closed.
    Dated { day: Day, closed: usize },
    /// Another plan, which the plan continues.
    Whole(Plan),
}

impl SavedPlan {
    /// Whether the plan is as it was.
    fn is_same(&self) -> bool
        ensures { result ≡ is_same self.now }
    {
        matches!(self, SavedPlan::Same)
    }

    /// Whether a whole plan is saved.
    fn is_whole(&self) -> bool
        ensures { result ≡ is_whole self.now }
    {
        matches!(self, SavedPlan::Whole(_))
    }
}

/// A copy of the plan at the last commit.
///
/// # Errors
///
/// `NoMemory`.
fn copy_before(plan: &Plan, saved: &SavedPlan) -> Result<Plan, PlanFault>
    requires { IsSaved plan.now saved.now }
    ensures { IfOk result (λ copy. copy ≡ plan_before plan.now saved.now) }
{
    match saved {
        SavedPlan::Same => plan.copied(),
        SavedPlan::Dated { day, closed } => {
            let mut copy = plan.copied()?;
            copy.put_back(*day, *closed);
            Ok(copy)
        }
        SavedPlan::Whole(whole) => whole.copied(),
    }
}

/// Saves the business day and the number of closed periods of a plan, if nothing of it is saved yet.
pub(crate) fn save_day(plan: &Plan, saved: &mut SavedPlan)
    requires { IsSaved plan.now saved.old }
    ensures saved { IsSaved plan.now saved.new }
    ensures before { plan_before plan.now saved.new ≡ plan_before plan.now saved.old }
    ensures some { is_same saved.new ≡ false }
{
    if !saved.is_same() {
        return;
    }
    plan.meets_rules();
    let day = plan.day();
    let closed = plan.closed_count();
    *saved = SavedPlan::Dated { day, closed };
}

/// Saves a whole plan, if it is not saved yet.
///
/// # Errors
///
/// `NoRoom` where an allocation was refused.
pub(crate) fn save_whole(plan: &Plan, saved: &mut SavedPlan) -> Result<(), NoRoom>
    requires { IsSaved plan.now saved.old }
    ensures saved { IsSaved plan.now saved.new }
    ensures before { plan_before plan.now saved.new ≡ plan_before plan.now saved.old }
    ensures whole { OnOk result (is_whole saved.new ≡ true) }
{
    if saved.is_whole() {
        return Ok(());
    }
    match copy_before(plan, saved) {
        Ok(copy) => {
            *saved = SavedPlan::Whole(copy);
            Ok(())
        }
        Err(_) => Err(NoRoom),
    }
}
