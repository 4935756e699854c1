//! What a desk is asked before the file that is judged.

ghost use Rattle.std.specs.Prelude.{◌≡◌, ◌+◌, IfErr, IfOk, IsOkUnless, List, OnOk, length, map, ℕ};
ghost use Rattle.bsp_judge.specs.Asked.{caller_tasks, earlier_task, earlier_tasks, plan_tasks, place_of, stock_tasks, tasks};
ghost use Rattle.bsp_judge.specs.Asked.Task.{Report};
ghost use Rattle.bsp_judge.specs.Steps.{IsSettled, Moved, Moves, rows_in};
ghost use Rattle.bsp_judge.specs.Unjudged.{IsStopIn, IsStopOf};
ghost use Rattle.bsp_judge.specs.declared.setup.Step.TheVariants as step;

use crate::asking::{change, report};
use crate::remarks::{Known, remarks_on};
use crate::setup::{Earlier, JudgeFault, Setup, Step};
use bsp_book::ListBook;
use bsp_desk::{Desk, Instruction, Token};
use bsp_ret::{FaultCode, RetFile, read_ret};
use bsp_rules::Verdict;
use std::alloc::Global;

/// What is said of an earlier file.
#[derive(Drop)]
pub struct EarlierRemarks {
    /// Its place among what came before, from 0.
    pub place: usize,
    /// A line for each refusal, and for each CANX that uses up a number. The words are for people.
    pub lines: Vec<u8>,
}

/// Publishes the plan texts.
fn publish_all(
    alloc: Global,
    desk: &mut Desk<ListBook>,
    setup: &Setup<'_>,
) -> Result<(), JudgeFault>
    requires { IsSettled desk.old.book }
    ensures passed { OnOk result (Moves desk.old.book (plan_tasks setup.now) desk.new.book) }
    ensures stopped { IfErr result (IsStopIn setup.now 0 (rows_in desk.old.book) (plan_tasks setup.now)) }
{
    for (place, text) in setup.plans.iter().enumerate() {
        let instruction = Instruction::Publish(text);
        change(alloc, desk, setup, Step::Plan(place), &instruction)?;
    }
    Ok(())
}

/// Sets the day and registers the agent.
fn introduce(
    alloc: Global,
    desk: &mut Desk<ListBook>,
    setup: &Setup<'_>,
    token: Token,
) -> Result<(), JudgeFault>
    requires { IsSettled desk.old.book }
    ensures passed { OnOk result (Moves desk.old.book (caller_tasks setup.now) desk.new.book) }
    ensures stopped { IfErr result (IsStopIn setup.now (length setup.now.plans.now) (rows_in desk.old.book) (caller_tasks setup.now)) }
{
    let day = Instruction::SetDay(setup.day);
    change(alloc, desk, setup, Step::Day, &day)?;
    let agent = Instruction::Register(setup.agent, token);
    change(alloc, desk, setup, Step::Agent, &agent)?;
    Ok(())
}

/// Allots the ranges.
fn allot_all(alloc: Global, desk: &mut Desk<ListBook>, setup: &Setup<'_>) -> Result<(), JudgeFault>
    requires { IsSettled desk.old.book }
    ensures passed { OnOk result (Moves desk.old.book (stock_tasks setup.now) desk.new.book) }
    ensures stopped { IfErr result (IsStopIn setup.now (length setup.now.plans.now + 2) (rows_in desk.old.book) (stock_tasks setup.now)) }
{
    for (place, range) in setup.stock.iter().enumerate() {
        let instruction = Instruction::Allot(setup.agent, range.first, range.last);
        change(alloc, desk, setup, Step::Stock(place), &instruction)?;
    }
    Ok(())
}

/// Keeps what is said of an earlier file, if anything is.
fn note(
    alloc: Global,
    known: &Known<'_>,
    place: usize,
    file: &RetFile<'_>,
    verdicts: &[Verdict],
    said: &mut Vec<EarlierRemarks>,
) -> Result<(), JudgeFault>
    ensures { IsOkUnless result JudgeFault.Memory }
{
    let Ok(lines) = remarks_on(alloc, known, file, verdicts) else {
        return Err(JudgeFault::Memory);
    };
    if lines.is_empty() {
        return Ok(());
    }
    match said.push(EarlierRemarks { place, lines }) {
        Ok(()) => Ok(()),
        Err(_) => Err(JudgeFault::Memory),
    }
}

/// Posts an earlier file.
fn report_again(
    alloc: Global,
    desk: &mut Desk<ListBook>,
    setup: &Setup<'_>,
    place: usize,
    text: &[u8],
    said: &mut Vec<EarlierRemarks>,
) -> Result<(), JudgeFault>
    requires { IsSettled desk.old.book }
    ensures passed { OnOk result (Moved desk.old.book (Report setup.now.agent text.now) desk.new.book) }
    ensures stopped { IfErr result (IsStopOf setup.now (place_of setup.now (step.Closed place)) (rows_in desk.old.book) (Report setup.now.agent text.now)) }
{
    let file = match read_ret(alloc, text) {
        Ok(file) => file,
        Err(fault) if fault.code == FaultCode::F10 => return Err(JudgeFault::Memory),
        Err(fault) => return Err(JudgeFault::Earlier(place, fault)),
    };
    let verdicts = report(desk, setup.agent, &file)?;
    let known = setup.known(desk.book());
    note(alloc, &known, place, &file, &verdicts, said)
}

/// Asks for what came before at a place.
fn repeat(
    alloc: Global,
    desk: &mut Desk<ListBook>,
    setup: &Setup<'_>,
    place: usize,
    earlier: &Earlier,
    said: &mut Vec<EarlierRemarks>,
) -> Result<(), JudgeFault>
    requires { IsSettled desk.old.book }
    ensures passed { OnOk result (Moved desk.old.book (earlier_task setup.now.agent earlier.now) desk.new.book) }
    ensures stopped { IfErr result (IsStopOf setup.now (place_of setup.now (step.Closed place)) (rows_in desk.old.book) (earlier_task setup.now.agent earlier.now)) }
{
    match earlier {
        Earlier::File(text) => report_again(alloc, desk, setup, place, text, said),
        Earlier::Closed(period) => {
            let instruction = Instruction::Close(*period);
            change(alloc, desk, setup, Step::Closed(place), &instruction)
        }
    }
}

/// Asks for all that came before, in its order.
fn repeat_all(
    alloc: Global,
    desk: &mut Desk<ListBook>,
    setup: &Setup<'_>,
    said: &mut Vec<EarlierRemarks>,
) -> Result<(), JudgeFault>
    requires { IsSettled desk.old.book }
    ensures passed { OnOk result (Moves desk.old.book (earlier_tasks setup.now) desk.new.book) }
    ensures stopped { IfErr result (IsStopIn setup.now (length setup.now.plans.now + 2 + length setup.now.stock.now) (rows_in desk.old.book) (earlier_tasks setup.now)) }
{
    for (place, earlier) in setup.earlier.iter().enumerate() {
        repeat(alloc, desk, setup, place, earlier, said)?;
    }
    Ok(())
}

/// Asks for all that comes before the file.
pub(crate) fn prepare(
    alloc: Global,
    desk: &mut Desk<ListBook>,
    setup: &Setup<'_>,
    token: Token,
    said: &mut Vec<EarlierRemarks>,
) -> Result<(), JudgeFault>
    requires { IsSettled desk.old.book }
    ensures passed { OnOk result (Moves desk.old.book (tasks setup.now) desk.new.book) }
    ensures stopped { IfErr result (IsStopIn setup.now 0 (rows_in desk.old.book) (tasks setup.now)) }
{
    publish_all(alloc, desk, setup)?;
    introduce(alloc, desk, setup, token)?;
    allot_all(alloc, desk, setup)?;
    repeat_all(alloc, desk, setup, said)?;
    Ok(())
}
