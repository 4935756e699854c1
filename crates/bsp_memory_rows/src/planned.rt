//! A plan, and what it was at the last commit.

ghost use Rattle.std.specs.Prelude.{◌≡◌, IfOk, OnOk};
ghost use Rattle.bsp_rows.specs.Published.{opening};
ghost use Rattle.bsp_rows.specs.History.Request.{Close, Publish, SetDay};
ghost use Rattle.bsp_memory_rows.specs.Plans.{IsSaved, plan_after, plan_answer, plan_before};

use crate::no_room::NoRoom;
use crate::saved_plan::{SavedPlan, save_day, save_whole};
use bsp_rows::{Change, Day, PeriodCode, Plan, PlanFault, PlanText};
use std::alloc::Global;
use std::marker::Model;
use std::mem;

/// A plan, and what it was at the last commit. A contract sees two plans.
#[derive(Drop)]
pub(crate) struct Planned {
    plan: Plan,
    saved: SavedPlan,
}

impl Model for Planned {
    ghost use Rattle.bsp_memory_rows.specs.Plans.{IsSaved, TwoPlans, plan_before};

    ghost Value = { TwoPlans };

    ghost view = { λ p. record { plan = p.plan; before = plan_before p.plan p.saved } };

    ghost invariant = { λ p. IsSaved p.plan p.saved };
}

impl Planned {
    /// The plan before anything is published.
    pub(crate) fn new(alloc: Global) -> Self
        ensures now { result.plan ≡ opening }
        ensures before { result.before ≡ opening }
    {
        Planned {
            plan: Plan::empty(alloc),
            saved: SavedPlan::Same,
        }
    }

    /// The plan.
    pub(crate) fn plan(&self) -> &Plan
        ensures { result.now ≡ self.now.plan }
    {
        &self.plan
    }

    /// What the plan was at the last commit.
    pub(crate) fn saved(&self) -> &SavedPlan
        ensures before { self.now.before ≡ plan_before self.now.plan result.now }
        ensures saved { IsSaved self.now.plan result.now }
    {
        &self.saved
    }

    /// Forgets the plan of the last commit: the changes so far are kept.
    pub(crate) fn commit(&mut self)
        ensures now { self.new.plan ≡ self.old.plan }
        ensures before { self.new.before ≡ self.old.plan }
    {
        self.saved = SavedPlan::Same;
    }

    /// Puts back the plan of the last commit. It takes no memory.
    pub(crate) fn roll_back(&mut self)
        ensures now { self.new.plan ≡ self.old.before }
        ensures before { self.new.before ≡ self.old.before }
    {
        match mem::replace(&mut self.saved, SavedPlan::Same) {
            SavedPlan::Same => {}
            SavedPlan::Dated { day, closed } => self.plan.put_back(day, closed),
            SavedPlan::Whole(plan) => self.plan = plan,
        }
    }

    /// Publishes the entries of a text that are new.
    pub(crate) fn publish(&mut self, text: &PlanText) -> Result<Result<Change, PlanFault>, NoRoom>
        ensures told { IfOk result (λ answer. answer ≡ plan_answer (Publish text.now) self.old.plan) }
        ensures now { OnOk result (self.new.plan ≡ plan_after (Publish text.now) self.old.plan) }
        ensures before { self.new.before ≡ self.old.before }
    {
        save_whole(&self.plan, &mut self.saved)?;
        match self.plan.extend(text) {
            Err(PlanFault::NoMemory) => Err(NoRoom),
            answer => Ok(answer),
        }
    }

    /// Sets the business day. It takes no memory.
    pub(crate) fn set_day(&mut self, day: Day) -> Result<Change, PlanFault>
        ensures told { result ≡ plan_answer (SetDay day) self.old.plan }
        ensures now { self.new.plan ≡ plan_after (SetDay day) self.old.plan }
        ensures before { self.new.before ≡ self.old.before }
    {
        save_day(&self.plan, &mut self.saved);
        self.plan.set_day(day)
    }

    /// Closes a period. It takes no memory.
    pub(crate) fn close(&mut self, code: PeriodCode) -> Result<Change, PlanFault>
        ensures told { result ≡ plan_answer (Close code) self.old.plan }
        ensures now { self.new.plan ≡ plan_after (Close code) self.old.plan }
        ensures before { self.new.before ≡ self.old.before }
    {
        save_day(&self.plan, &mut self.saved);
        self.plan.close_next(code)
    }
}
