//! Plan texts that are tried, over a plan of nothing.

ghost use Rattle.std.specs.Prelude.{◌≡◌, MatchResult, Some, option_map};
ghost use Rattle.std.specs.List.{FoldsTo};
ghost use Rattle.bsp_calendar.specs.Published.{Published, opening};
ghost use Rattle.bsp_plan_trial.specs.Turns.{StopsAt};
ghost use Rattle.bsp_plan_trial.specs.Plans.{IsOnDay, IsPublished, IsReady, IsRefused, IsRefusedBefore, IsReported, IsTried, IsStopped, code_of, texts_of};

use crate::plan_lines::{counts_of, plan_lines};
use bsp_calendar::{Plan, PlanFault, read_plan};
use bsp_fields::{Change, Day};
use std::alloc::Global;

/// The first of some plan texts that is refused.
#[derive(Clone, Copy, Drop)]
pub struct PlanRefused {
    /// Its place among them, from 0.
    pub place: usize,
    /// Its first fault, or `NoMemory`.
    pub fault: PlanFault,
}

impl PlanRefused {
    /// The code of the fault; none where memory was short.
    pub fn code(self) -> Option<&'static str>
        ensures { option_map (λ code. code.now) result ≡ code_of self.fault }
    {
        match self.fault {
            PlanFault::NoMemory => None,
            fault => Some(fault.code()),
        }
    }
}

/// Publishes a plan text.
///
/// # Errors
///
/// Its first fault, or `NoMemory`. The plan is then as it was.
pub(crate) fn publish(alloc: Global, plan: &mut Plan, text: &[u8]) -> Result<Change, PlanFault>
    ensures { IsTried plan.old text.now plan.new result }
{
    let read = read_plan(alloc, text)?;
    plan.extend(&read)
}

/// Publishes some texts in turn.
///
/// # Errors
///
/// The first of them that is refused over the plan of those before it, or for which there was no memory.
fn publish_all(alloc: Global, plan: &mut Plan, texts: &[Vec<u8>]) -> Result<(), PlanRefused>
    ensures { MatchResult result (λ _. FoldsTo IsPublished plan.old (texts_of texts.now) plan.new) (λ refused. StopsAt IsPublished (λ plan text. IsStopped plan text refused.fault) plan.old (texts_of texts.now) refused.place) }
{
    for (place, text) in texts.iter().enumerate() {
        match publish(alloc, plan, text) {
            Ok(_) => {}
            Err(fault) => return Err(PlanRefused { place, fault }),
        }
    }
    Ok(())
}

/// Sets the business day of a plan that is at the opening day.
fn set_day(plan: &mut Plan, day: Day)
    requires { plan.old.day ≡ opening.day }
    ensures { IsOnDay (Some day) plan.old plan.new }
{
    // No day is before the opening day, which has the least number.
    let _number = day.number();
    match plan.set_day(day) {
        Ok(_) => {}
        Err(_) => unreachable!(),
    }
}

/// A plan that is at the opening day, on the business day, if one is given.
fn on_day(mut plan: Plan, day: Option<Day>) -> Plan
    requires { plan.day ≡ opening.day }
    ensures { IsOnDay day plan result }
{
    match day {
        None => plan,
        Some(day) => {
            set_day(&mut plan, day);
            plan
        }
    }
}

/// The plan of the texts published before, which are published on the opening day, on the business day of the trial.
///
/// # Errors
///
/// The first of them that is refused over the plan of those before it, or for which there was no memory.
pub fn plan_before(
    alloc: Global,
    published: &[Vec<u8>],
    day: Option<Day>,
) -> Result<Plan, PlanRefused>
    ensures { MatchResult result (IsReady (texts_of published.now) day) (IsRefusedBefore (texts_of published.now)) }
{
    let mut plan = Plan::empty(alloc);
    match publish_all(alloc, &mut plan, published) {
        Ok(_) => Ok(on_day(plan, day)),
        Err(refused) => Err(refused),
    }
}

/// What a text publishes over a plan of so many texts, as lines.
fn report_after(
    alloc: Global,
    plan: &mut Plan,
    place: usize,
    text: &[u8],
) -> Result<Vec<u8>, PlanRefused>
    ensures { MatchResult result (λ lines. IsReported plan.old text.now lines.items) (λ refused. IsStopped plan.old text.now refused.fault × (refused.place ≡ place)) }
{
    let known = counts_of(plan);
    let change = match publish(alloc, plan, text) {
        Ok(change) => change,
        Err(fault) => return Err(PlanRefused { place, fault }),
    };
    let fault = PlanFault::NoMemory;
    match plan_lines(alloc, change, known, plan) {
        Ok(lines) => Ok(lines),
        Err(_) => Err(PlanRefused { place, fault }),
    }
}

/// What a plan text publishes over a plan of the texts published before, as lines: `done` or `held`, the terms, and each
/// entry that is new. The texts published before are published on the opening day, 2000-01-01. The business day is set
/// then, if one is given.
///
/// # Errors
///
/// The first of the texts that is refused over the plan of those before it, or for which there was no memory. The text
/// that is tried comes after those published before.
pub fn try_plan(
    alloc: Global,
    published: &[Vec<u8>],
    day: Option<Day>,
    text: &[u8],
) -> Result<Vec<u8>, PlanRefused>
    ensures { MatchResult result (λ lines. (plan : Published) × IsReady (texts_of published.now) day plan × IsReported plan text.now lines.items)
        (IsRefused (texts_of published.now) day text.now) }
{
    match plan_before(alloc, published, day) {
        Ok(mut plan) => report_after(alloc, &mut plan, published.len(), text),
        Err(refused) => Err(refused),
    }
}
