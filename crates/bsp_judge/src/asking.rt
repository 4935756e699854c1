//! What a desk is asked in a trial.

ghost use Rattle.std.specs.Prelude.{◌≡◌, IfErr, IfOk, IsOkUnless, List, OnOk};
ghost use Rattle.bsp_fields.specs.Decimal.{fixed_digits};
ghost use Rattle.bsp_ret.specs.Ret.{HasLines};
ghost use Rattle.bsp_rows.specs.Transaction.{Transaction};
ghost use Rattle.bsp_rows.specs.Writing.{HaveContents};
ghost use Rattle.bsp_messages.specs.declared.answer.Answer.TheVariants as message;
ghost use Rattle.bsp_desk_writes.specs.Requests.AgentRequest.{AskStatement};
ghost use Rattle.bsp_desk_writes.specs.Texts.{Says};
ghost use Rattle.bsp_desk.specs.Instructions.{IsMeant, IsReport, Own, own_answer};
ghost use Rattle.bsp_desk.specs.Instructions.Own.{OfAgent};
ghost use Rattle.bsp_judge.specs.Asked.{Task, place_of};
ghost use Rattle.bsp_judge.specs.Asked.Task.{AskFor};
ghost use Rattle.bsp_judge.specs.Steps.{IsAnswered, IsFor, IsReported, IsSettled, Moved, refusal_in, rows_in, verdicts_in};
ghost use Rattle.bsp_judge.specs.Unjudged.{IsStopOf};
ghost use Rattle.bsp_judge.specs.declared.setup.Step.TheVariants as step;

use crate::refusals::refused;
use crate::setup::{JudgeFault, Setup, Step};
use bsp_book::ListBook;
use bsp_desk::{BookFault, Desk, Instruction};
use bsp_fields::{AgentCode, PeriodCode};
use bsp_messages::{Answer, RequestRefusal};
use bsp_ret::RetFile;
use bsp_rules::Verdict;
use std::alloc::Global;

/// The refusal that an answer is, if it is one.
fn refusal_in(answer: &Answer) -> Option<RequestRefusal>
    ensures { result ≡ refusal_in answer.now }
{
    match answer {
        Answer::Refused(refusal) => Some(*refusal),
        _ => None,
    }
}

/// The verdicts that an answer has.
fn verdicts_in(answer: Answer) -> Option<Vec<Verdict>>
    ensures { result ≡ verdicts_in answer }
{
    match answer {
        Answer::Verdicts(verdicts) => Some(verdicts),
        _ => None,
    }
}

/// Asks the desk. A book in memory never fails.
fn ask(desk: &mut Desk<ListBook>, instruction: &Instruction<'_>) -> Result<Answer, JudgeFault>
    requires { IsSettled desk.old.book }
    ensures answered { IfOk result (λ message. (own : Own) → IsMeant instruction.now own → IsAnswered desk.old.book own message desk.new.book) }
    ensures fault { IsOkUnless result JudgeFault.Memory }
{
    match desk.outcome(instruction) {
        Ok(answer) => Ok(answer),
        Err(BookFault::NoRoom) => Err(JudgeFault::Memory),
        Err(BookFault::Failed) => unreachable!(),
    }
}

/// Asks the office for a change, which is done, held or refused.
pub(crate) fn change(
    alloc: Global,
    desk: &mut Desk<ListBook>,
    setup: &Setup<'_>,
    step: Step,
    instruction: &Instruction<'_>,
) -> Result<(), JudgeFault>
    requires { IsSettled desk.old.book }
    ensures passed { OnOk result ((task : Task) → IsFor task instruction.now → Moved desk.old.book task desk.new.book) }
    ensures stopped { IfErr result (λ fault. (task : Task) → IsFor task instruction.now → IsStopOf setup.now (place_of setup.now step) (rows_in desk.old.book) task fault) }
{
    let answer = ask(desk, instruction)?;
    match refusal_in(&answer) {
        None => Ok(()),
        Some(refusal) => Err(refused(alloc, desk.book(), setup, step, refusal)),
    }
}

/// Posts a RET file for the agent. A book in memory never fails.
fn post(
    desk: &mut Desk<ListBook>,
    agent: AgentCode,
    file: &RetFile<'_>,
) -> Result<Answer, JudgeFault>
    requires { IsSettled desk.old.book }
    ensures answered { IfOk result (λ message. (own : Own) → IsReport agent file.now own → IsAnswered desk.old.book own message desk.new.book) }
    ensures fault { IsOkUnless result JudgeFault.Memory }
{
    match desk.report(agent, file) {
        Ok(answer) => Ok(answer),
        Err(BookFault::NoRoom) => Err(JudgeFault::Memory),
        Err(BookFault::Failed) => unreachable!(),
    }
}

/// The verdicts on a RET file of the agent.
pub(crate) fn report(
    desk: &mut Desk<ListBook>,
    agent: AgentCode,
    file: &RetFile<'_>,
) -> Result<Vec<Verdict>, JudgeFault>
    requires settled { IsSettled desk.old.book }
    requires whole { HasLines file.now }
    ensures reported { IfOk result (λ verdicts. (ts : List Transaction) → HaveContents 1 file.now.groups ts → IsReported desk.old.book agent ts verdicts.items desk.new.book) }
    ensures fault { IsOkUnless result JudgeFault.Memory }
{
    let answer = post(desk, agent, file)?;
    let Some(verdicts) = verdicts_in(answer) else {
        unreachable!()
    };
    Ok(verdicts)
}

/// The agent's statement of a period.
pub(crate) fn ask_statement(
    alloc: Global,
    desk: &mut Desk<ListBook>,
    setup: &Setup<'_>,
    place: usize,
    period: PeriodCode,
) -> Result<String, JudgeFault>
    requires { IsSettled desk.old.book }
    ensures given { IfOk result (λ text. Says (own_answer (OfAgent setup.now.agent (AskStatement (fixed_digits 5 period))) (rows_in desk.old.book)) (message.Report text)) }
    ensures stopped { IfErr result (IsStopOf setup.now (place_of setup.now (step.Closing place)) (rows_in desk.old.book) (AskFor setup.now.agent period)) }
{
    let answer = ask(desk, &Instruction::Statement(setup.agent, period))?;
    match answer {
        Answer::Report(text) => Ok(text),
        Answer::Refused(refusal) => {
            let step = Step::Closing(place);
            Err(refused(alloc, desk.book(), setup, step, refusal))
        }
        _ => unreachable!(),
    }
}
