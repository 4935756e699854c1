//! Serves an instruction in one transaction of the book.

ghost use Rattle.std.specs.Prelude.{◌≡◌, Some, false};
ghost use Rattle.bsp_rows.specs.Decimal.{fixed_digits};
ghost use Rattle.bsp_desk_writes.specs.Ledger.{agent_of};
ghost use Rattle.bsp_desk.specs.Instructions.{CommitsOwn, EndsOwn, EndsWithin, IsMeant, IsReport, ServesOwn};

use crate::instruction::Instruction;
use crate::statements::statement;
use bsp_book::{Book, BookFault};
use bsp_desk_writes::{
    Reporter, allot_stated, close_period, publish, report_file, set_agent, set_business_day,
};
use bsp_messages::{Answer, StatedAgent, StockChange};
use bsp_ret::RetFile;
use bsp_rows::{AgentCode, DocNumber, Range};
use std::alloc::Global;

/// A range of an agent whose code is right.
fn change_of(agent: AgentCode, first: DocNumber, last: DocNumber) -> StockChange
    ensures { result ≡ record { agent = record { code = Some agent }; range = record { first = first; last = last } } }
{
    StockChange {
        agent: StatedAgent { code: Some(agent) },
        range: Range { first, last },
    }
}

/// An agent's code is read from its digits.
pub(crate) fn reads_back(agent: AgentCode)
    ensures { agent_of (fixed_digits 8 agent) ≡ Some agent }
{
    let _text = agent.digits();
}

/// Serves an instruction in the open transaction.
fn serve_instruction<B: Book>(
    alloc: Global,
    book: &mut B,
    instruction: &Instruction<'_>,
) -> Result<Answer, BookFault>
    requires { B.means.has_failed book.old ≡ false }
    ensures served { ServesOwn B.means book.old book.new (IsMeant instruction.now) result }
    ensures fault { EndsWithin B.means book.old book.new (IsMeant instruction.now) result }
{
    match instruction {
        Instruction::Publish(text) => publish(alloc, book, text),
        Instruction::SetDay(day) => set_business_day(book, *day),
        Instruction::Register(agent, token) => set_agent(book, *agent, *token),
        Instruction::Allot(agent, first, last) => {
            allot_stated(book, &change_of(*agent, *first, *last))
        }
        Instruction::Close(period) => close_period(book, *period),
        Instruction::Statement(agent, period) => statement(alloc, book, *agent, &period.digits()),
    }
}

/// Serves an instruction in one transaction.
pub(crate) fn carry_out<B: Book>(
    alloc: Global,
    book: &mut B,
    instruction: &Instruction<'_>,
) -> Result<Answer, BookFault>
    ensures kept { CommitsOwn B.means book.old book.new (IsMeant instruction.now) result }
    ensures fault { EndsOwn B.means book.old book.new (IsMeant instruction.now) result }
{
    book.begin()?;
    let answer = serve_instruction(alloc, book, instruction)?;
    book.commit()?;
    Ok(answer)
}

/// Serves the file of an agent in the open transaction.
fn serve_file<B: Book>(
    alloc: Global,
    book: &mut B,
    agent: AgentCode,
    file: &RetFile<'_>,
) -> Result<Answer, BookFault>
    requires { B.means.has_failed book.old ≡ false }
    ensures served { ServesOwn B.means book.old book.new (IsReport agent file.now) result }
    ensures fault { EndsWithin B.means book.old book.new (IsReport agent file.now) result }
{
    report_file(alloc, book, &Reporter::Agent(agent), file)
}

/// Serves the file of an agent in one transaction.
pub(crate) fn take_file<B: Book>(
    alloc: Global,
    book: &mut B,
    agent: AgentCode,
    file: &RetFile<'_>,
) -> Result<Answer, BookFault>
    ensures kept { CommitsOwn B.means book.old book.new (IsReport agent file.now) result }
    ensures fault { EndsOwn B.means book.old book.new (IsReport agent file.now) result }
{
    book.begin()?;
    let answer = serve_file(alloc, book, agent, file)?;
    book.commit()?;
    Ok(answer)
}
