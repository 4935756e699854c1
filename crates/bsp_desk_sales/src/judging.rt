//! The transactions of a file, judged one after the other.

ghost use Rattle.std.specs.Prelude.{◌≡◌, ◌≤◌, OnOk, Some, [], false, length, true, vec_capacity};
ghost use Rattle.bsp_rows.specs.Decimal.{fixed_digits};
ghost use Rattle.bsp_rows.specs.GroupValues.{is_group_values};
ghost use Rattle.bsp_desk_sales.specs.Serves.{EndsOnFault, Finds};
ghost use Rattle.bsp_office_spec.specs.Ledger.{agent_of};
ghost use Rattle.bsp_desk_sales.specs.Judged.{AreJudged, IsJudged, owner_of, rows_next};

use crate::facts::facts;
use crate::keeping::{accepted, keep_accepted};
use bsp_book::{Book, BookFault};
use bsp_ret::{RetFile, transaction};
use bsp_rows::{AgentCode, Transaction};
use bsp_rules::{Refusal, Reporter, Verdict, judge};

/// The agent over whose rows a transaction is judged: of the office's file the one that it bears, of an agent's
/// file that agent.
fn owner(reporter: &Reporter, transaction: &Transaction) -> Option<AgentCode>
    ensures { result ≡ owner_of reporter.now transaction.now }
{
    match reporter {
        Reporter::Office => AgentCode::read(&transaction.agent).ok(),
        Reporter::Agent(agent) => Some(*agent),
    }
}

/// An agent's code is read from its digits.
fn reads_back(agent: AgentCode)
    ensures { agent_of (fixed_digits 8 agent) ≡ Some agent }
{
    let _text = agent.digits();
}

/// Judges a transaction over the agent's rows, and keeps it where it is accepted.
fn judge_for<B: Book>(
    book: &mut B,
    reporter: &Reporter,
    agent: AgentCode,
    transaction: &Transaction,
) -> Result<Verdict, BookFault>
    requires own { owner_of reporter.now transaction.now ≡ Some agent }
    requires group { is_group_values transaction.now ≡ true }
    ensures judged { Finds B.means book.old book.new result (IsJudged reporter.now transaction.now) (rows_next reporter.now transaction.now) }
    ensures fault { EndsOnFault B.means book.old book.new result }
{
    reads_back(agent);
    let facts = facts(book, agent, transaction)?;
    let verdict = judge(*reporter, transaction, &facts, book.plan());
    let item = accepted(agent, transaction, &facts, book.plan(), &verdict);
    keep_accepted(book, &item)?;
    Ok(verdict)
}

/// Judges the next transaction, and keeps it where it is accepted.
fn judge_next<B: Book>(
    book: &mut B,
    reporter: &Reporter,
    transaction: &Transaction,
) -> Result<Verdict, BookFault>
    requires works { B.means.has_failed book.old ≡ false }
    requires group { is_group_values transaction.now ≡ true }
    ensures judged { Finds B.means book.old book.new result (IsJudged reporter.now transaction.now) (rows_next reporter.now transaction.now) }
    ensures fault { EndsOnFault B.means book.old book.new result }
{
    match owner(reporter, transaction) {
        Some(agent) => judge_for(book, reporter, agent, transaction),
        None => Ok(Verdict::Refused(Refusal::WrongAgent)),
    }
}

/// Judges the transactions of a file in order, and puts the verdicts into an empty list that has room for them.
pub fn judge_all<B: Book>(
    book: &mut B,
    reporter: &Reporter,
    file: &RetFile<'_>,
    verdicts: &mut Vec<Verdict>,
) -> Result<(), BookFault>
    requires works { B.means.has_failed book.old ≡ false }
    requires none { verdicts.old.items ≡ [] }
    requires room { length file.now.groups ≤ vec_capacity verdicts.old }
    ensures judged { OnOk result (AreJudged B.means book.old book.new reporter.now file.now.groups verdicts.new.items) }
    ensures fault { EndsOnFault B.means book.old book.new result }
{
    for index in 0..file.transactions() {
        let Some(found) = transaction(file, index) else {
            unreachable!()
        };
        let verdict = judge_next(book, reporter, &found)?;
        let _ = verdicts.push(verdict);
    }
    Ok(())
}
