//! A RET file judged by a desk over an empty book.

ghost use Rattle.std.specs.Prelude.{◌≡◌, ◌++◌, IfErr, IfOk, IsOkUnless, List, OnOk, ℕ};
ghost use Rattle.std.specs.List.{list_all};
ghost use Rattle.bsp_ret.specs.Lines.{lines};
ghost use Rattle.bsp_ret.specs.Ret.{HasLines, Ret};
ghost use Rattle.bsp_rows.specs.Rows.{no_rows};
ghost use Rattle.bsp_judge.specs.Judged.{IsJudged, IsSaid, is_taken, net_line, verdict_lines};
ghost use Rattle.bsp_judge.specs.Steps.{IsSettled, rows_in};
ghost use Rattle.bsp_judge.specs.Unjudged.{IsUnjudged};

use crate::asking::report;
use crate::owed::owed;
use crate::preparing::{EarlierRemarks, prepare};
use crate::remarks::{Known, remarks_on};
use crate::setup::{JudgeFault, Setup};
use crate::stating::state_if_asked;
use crate::verdict_lines::push_verdicts;
use bsp_book::ListBook;
use bsp_desk::{Desk, Token};
use bsp_fields::{NoRoom, write_money};
use bsp_plan_trial::push_fields;
use bsp_ret::{FaultCode, RetFile, read_ret};
use bsp_rules::Verdict;
use std::alloc::Global;

/// What an office says of a file.
#[derive(Drop)]
pub struct Judged {
    /// A line for each verdict, and the net.
    pub lines: Vec<u8>,
    /// A line for each refusal that says more of it, and for each CANX that uses up a number. The words are for people.
    pub remarks: Vec<u8>,
    /// What is said of the earlier files, in their order.
    pub earlier: Vec<EarlierRemarks>,
    /// Whether no transaction of the file is refused.
    pub is_taken: bool,
    /// The agent's statement of the period that is asked for, as it is when the office closes that period after the file.
    pub statement: Option<String>,
}

/// The lines of verdicts and a net in minor units.
fn lines_of(alloc: Global, verdicts: &[Verdict], net: i128) -> Result<Vec<u8>, NoRoom>
    ensures { IfOk result (λ lines. lines.items ≡ verdict_lines 1 verdicts.now ++ net_line net) }
{
    let mut lines = Vec::new(alloc);
    push_verdicts(&mut lines, verdicts)?;
    let net = write_money(alloc, net)?;
    push_fields(&mut lines, &[b"net ", net.as_bytes(), b"\n"])?;
    Ok(lines)
}

/// Whether no transaction is refused.
fn are_taken(verdicts: &[Verdict]) -> bool
    ensures { result ≡ list_all is_taken verdicts.now }
{
    verdicts.iter().all(|it| !matches!(it, Verdict::Refused(_)))
}

/// What is said of a file with these verdicts, and of the net that it adds.
fn say(
    alloc: Global,
    known: &Known<'_>,
    verdicts: &[Verdict],
    net: i128,
    file: &RetFile<'_>,
    earlier: Vec<EarlierRemarks>,
) -> Result<Judged, JudgeFault>
    ensures said { IfOk result (λ judged. (judged.lines.items ≡ verdict_lines 1 verdicts.now ++ net_line net) × (judged.is_taken ≡ list_all is_taken verdicts.now)) }
    ensures fault { IsOkUnless result JudgeFault.Memory }
{
    let Ok(lines) = lines_of(alloc, verdicts, net) else {
        return Err(JudgeFault::Memory);
    };
    let Ok(remarks) = remarks_on(alloc, known, file, verdicts) else {
        return Err(JudgeFault::Memory);
    };
    let is_taken = are_taken(verdicts);
    Ok(Judged {
        lines,
        remarks,
        earlier,
        is_taken,
        statement: None,
    })
}

/// What is said of a file by a desk that was asked all that comes before, but for a statement.
fn judge_at(
    alloc: Global,
    desk: &mut Desk<ListBook>,
    setup: &Setup<'_>,
    file: &RetFile<'_>,
    earlier: Vec<EarlierRemarks>,
) -> Result<Judged, JudgeFault>
    requires settled { IsSettled desk.old.book }
    requires whole { HasLines file.now }
    ensures judged { IfOk result (λ judged. (text : List ℕ) → Ret (lines text) file.now → IsSaid setup.now.agent (rows_in desk.old.book) (rows_in desk.new.book) text judged.lines.items judged.is_taken) }
    ensures left { OnOk result (IsSettled desk.new.book) }
    ensures fault { IsOkUnless result JudgeFault.Memory }
{
    let before = owed(alloc, desk.book(), setup.agent)?;
    let verdicts = report(desk, setup.agent, file)?;
    let after = owed(alloc, desk.book(), setup.agent)?;
    let net = after - before;
    let known = setup.known(desk.book());
    say(alloc, &known, &verdicts, net, file, earlier)
}

/// What is said of a file after all that comes before, with the statement that is asked for.
fn judge_after(
    alloc: Global,
    desk: &mut Desk<ListBook>,
    token: Token,
    setup: &Setup<'_>,
    file: &RetFile<'_>,
) -> Result<Judged, JudgeFault>
    requires settled { IsSettled desk.old.book }
    requires empty { rows_in desk.old.book ≡ no_rows }
    requires whole { HasLines file.now }
    ensures judged { IfOk result (λ judged. (text : List ℕ) → Ret (lines text) file.now → IsJudged setup.now text judged.lines.items judged.is_taken judged.statement) }
    ensures unjudged { IfErr result (λ fault. (text : List ℕ) → Ret (lines text) file.now → IsUnjudged setup.now text fault) }
{
    let mut earlier = Vec::new(alloc);
    prepare(alloc, desk, setup, token, &mut earlier)?;
    let mut judged = judge_at(alloc, desk, setup, file, earlier)?;
    judged.statement = state_if_asked(alloc, desk, setup)?;
    Ok(judged)
}

/// A desk of an office over an empty book.
fn new_desk(alloc: Global, office: Token) -> Desk<ListBook>
    ensures settled { IsSettled result.book }
    ensures empty { rows_in result.book ≡ no_rows }
{
    match Desk::open(alloc, ListBook::new(alloc), office) {
        Ok(desk) => desk,
        Err(_) => unreachable!(),
    }
}

/// A token for the office and the agent of a trial.
fn trial_token() -> Token {
    match Token::read(b"trialtoken000001") {
        Some(token) => token,
        None => unreachable!(),
    }
}

/// What a new desk over an empty book says of a file.
fn judge_file(alloc: Global, setup: &Setup<'_>, file: &RetFile<'_>) -> Result<Judged, JudgeFault>
    requires { HasLines file.now }
    ensures judged { IfOk result (λ judged. (text : List ℕ) → Ret (lines text) file.now → IsJudged setup.now text judged.lines.items judged.is_taken judged.statement) }
    ensures unjudged { IfErr result (λ fault. (text : List ℕ) → Ret (lines text) file.now → IsUnjudged setup.now text fault) }
{
    let token = trial_token();
    let mut desk = new_desk(alloc, token);
    judge_after(alloc, &mut desk, token, setup, file)
}

/// The verdicts that an office gives on the RET file of an agent, and what the file adds to what the agent owes. They are
/// those of the office of `bsp_office_spec` after it published the plan texts, set the day, registered the agent and
/// allotted its ranges, and after the earlier files and closes in their order. If a statement is asked for, it is the one
/// that the agent then has: the office first sets the day to the period's remittance day, unless it is later, and closes
/// the open periods up to this one.
///
/// # Errors
///
/// Why the file is not judged: see [`JudgeFault`]. It is the first fault, but one of the file that is judged comes before
/// all others. A period of a statement that the plan has not is found last.
pub fn judge(alloc: Global, setup: &Setup<'_>, text: &[u8]) -> Result<Judged, JudgeFault>
    ensures judged { IfOk result (λ judged. IsJudged setup.now text.now judged.lines.items judged.is_taken judged.statement) }
    ensures refused { IfErr result (IsUnjudged setup.now text.now) }
{
    let file = match read_ret(alloc, text) {
        Ok(file) => file,
        Err(fault) if fault.code == FaultCode::F10 => return Err(JudgeFault::Memory),
        Err(fault) => return Err(JudgeFault::File(fault)),
    };
    judge_file(alloc, setup, &file)
}
