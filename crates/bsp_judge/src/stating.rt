//! The statement of an agent after a file, whose period is closed first.

ghost use Rattle.std.specs.Prelude.{◌≡◌, ◌∷◌, ◌+◌, IfErr, IfOk, OnOk, Some, drop, length, map, ℕ};
ghost use Rattle.std.specs.List.{filter};
ghost use Rattle.bsp_calendar.specs.DayOrder.{is_up_to};
ghost use Rattle.bsp_judge.specs.Asked.{closing_of, later_day, tasks};
ghost use Rattle.bsp_judge.specs.Asked.Task.{Close, SetDay};
ghost use Rattle.bsp_judge.specs.Judged.{IsStated, IsStatedIfAsked};
ghost use Rattle.bsp_judge.specs.Steps.{IsSettled, Moves, rows_in};
ghost use Rattle.bsp_judge.specs.Unjudged.{IsStopIn, IsUnstatedOver};

use crate::asking::{ask_statement, change};
use crate::setup::{JudgeFault, Setup, Step};
use bsp_book::ListBook;
use bsp_calendar::{Period, Plan};
use bsp_desk::{Desk, Instruction};
use bsp_fields::{Day, PeriodCode};
use std::alloc::{AllocError, Global};

/// The later of two days.
fn later_day(a: Day, b: Day) -> Day
    ensures { result ≡ later_day a b }
{
    if a.number() < b.number() { b } else { a }
}

/// The periods of a plan that are not closed.
fn open_periods(plan: &Plan) -> &[Period]
    ensures { result.now ≡ drop (length plan.now.closed) plan.now.periods }
{
    match plan.periods().get(plan.closed_count()..) {
        Some(periods) => periods,
        None => &[],
    }
}

/// Whether a period ends by a day.
fn ends_by(period: &Period, last: Day) -> bool
    ensures { result ≡ is_up_to period.now.last last }
{
    period.last.number() <= last.number()
}

/// The codes of the periods that end by a day.
fn codes_until(alloc: Global, periods: &[Period], last: Day) -> Result<Vec<PeriodCode>, AllocError>
    ensures { IfOk result (λ codes. codes.items ≡ map (λ q. q.code) (filter (λ q. is_up_to q.last last) periods.now)) }
{
    let mut codes = Vec::new(alloc);
    for period in periods {
        if ends_by(period, last) {
            codes.push(period.code)?;
        }
    }
    Ok(codes)
}

/// What closes a period.
#[derive(Drop)]
struct Closing {
    /// The business day.
    day: Day,
    /// The periods that are closed then, in their order.
    codes: Vec<PeriodCode>,
}

/// What closes a period of a plan.
fn closing_of(alloc: Global, plan: &Plan, period: &Period) -> Result<Closing, AllocError>
    ensures { IfOk result (λ closing. closing_of plan.now (Some period.now) ≡ SetDay closing.day ∷ map (λ code. Close code) closing.codes.items) }
{
    let day = later_day(plan.day(), period.remittance);
    let codes = codes_until(alloc, open_periods(plan), period.last)?;
    Ok(Closing { day, codes })
}

/// Closes periods in turn.
fn close_all(
    alloc: Global,
    desk: &mut Desk<ListBook>,
    setup: &Setup<'_>,
    codes: &[PeriodCode],
) -> Result<(), JudgeFault>
    requires { IsSettled desk.old.book }
    ensures passed { OnOk result (Moves desk.old.book (map (λ code. Close code) codes.now) desk.new.book) }
    ensures stopped { IfErr result (IsStopIn setup.now (length (tasks setup.now) + 2) (rows_in desk.old.book) (map (λ code. Close code) codes.now)) }
{
    for (place, code) in codes.iter().enumerate() {
        let instruction = Instruction::Close(*code);
        change(alloc, desk, setup, Step::Closing(place + 1), &instruction)?;
    }
    Ok(())
}

/// Sets the day, and then closes the periods.
fn close(
    alloc: Global,
    desk: &mut Desk<ListBook>,
    setup: &Setup<'_>,
    closing: &Closing,
) -> Result<(), JudgeFault>
    requires { IsSettled desk.old.book }
    ensures passed { OnOk result (Moves desk.old.book (SetDay closing.now.day ∷ map (λ code. Close code) closing.now.codes.items) desk.new.book) }
    ensures stopped { IfErr result (IsStopIn setup.now (length (tasks setup.now) + 1) (rows_in desk.old.book) (SetDay closing.now.day ∷ map (λ code. Close code) closing.now.codes.items)) }
{
    let day = Instruction::SetDay(closing.day);
    change(alloc, desk, setup, Step::Closing(0), &day)?;
    close_all(alloc, desk, setup, &closing.codes)
}

/// The agent's statement of a period, which is closed first.
fn state(
    alloc: Global,
    desk: &mut Desk<ListBook>,
    setup: &Setup<'_>,
    code: PeriodCode,
) -> Result<String, JudgeFault>
    requires { IsSettled desk.old.book }
    ensures stated { IfOk result (IsStated setup.now.agent (rows_in desk.old.book) code) }
    ensures unstated { IfErr result (IsUnstatedOver setup.now (rows_in desk.old.book) code) }
{
    let plan = desk.book().tables().plan();
    let Some((period, _)) = plan.period(code) else {
        return Err(JudgeFault::UnknownPeriod);
    };
    let Ok(closing) = closing_of(alloc, plan, &period) else {
        return Err(JudgeFault::Memory);
    };
    close(alloc, desk, setup, &closing)?;
    ask_statement(alloc, desk, setup, closing.codes.len() + 1, code)
}

/// The statement that is asked for, if one is.
pub(crate) fn state_if_asked(
    alloc: Global,
    desk: &mut Desk<ListBook>,
    setup: &Setup<'_>,
) -> Result<Option<String>, JudgeFault>
    requires { IsSettled desk.old.book }
    ensures stated { IfOk result (IsStatedIfAsked setup.now.agent (rows_in desk.old.book) setup.now.statement) }
    ensures unstated { IfErr result (λ fault. (period : ℕ) × (setup.now.statement ≡ Some period) × IsUnstatedOver setup.now (rows_in desk.old.book) period fault) }
{
    match setup.statement {
        None => Ok(None),
        Some(period) => {
            let text = state(alloc, desk, setup, period)?;
            Ok(Some(text))
        }
    }
}
