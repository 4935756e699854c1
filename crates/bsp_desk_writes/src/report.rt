//! What a RET file is answered.

ghost use Rattle.std.specs.Prelude.{◌≡◌, ◌≢◌, Err, IfOk, List, Ok, false};
ghost use Rattle.bsp_ret.specs.Reading.{no_memory};
ghost use Rattle.bsp_rows.specs.Transaction.{Transaction};
ghost use Rattle.bsp_rows.specs.Writing.{HaveContents};
ghost use Rattle.bsp_rows.specs.Reporter.{Reporter};
ghost use Rattle.bsp_rows.specs.Reporter.TheVariants.{Agent, Office};
ghost use Rattle.bsp_desk_writes.specs.Contents.{IsFileIn};
ghost use Rattle.bsp_desk_sales.specs.Serves.{EndsOnFault, ServesAgent, ServesOffice};
ghost use Rattle.bsp_office_spec.specs.Requests.{FileRead, IsFileOf};
ghost use Rattle.bsp_office_spec.specs.Requests.AgentRequest.{AgentFile};
ghost use Rattle.bsp_office_spec.specs.Requests.OfficeRequest.{OfficeFile};
ghost use Rattle.bsp_desk_writes.specs.Reported.{ServesFile};

use crate::content::Content;
use bsp_book::{Book, BookFault};
use bsp_desk_sales::{Reporter, give_up, judge_all};
use bsp_messages::Answer;
use bsp_ret::{FaultCode, RetFault, RetFile, read_ret};
use bsp_rows::AgentCode;
use std::alloc::Global;

/// The verdicts on a file that was read, of an agent or of the office.
///
/// # Errors
///
/// `NoRoom`, and what the open transaction wrote is then undone, or `Failed`.
pub fn report_file<B: Book>(
    alloc: Global,
    book: &mut B,
    reporter: &Reporter,
    file: &RetFile<'_>,
) -> Result<Answer, BookFault>
    requires { B.means.has_failed book.old ≡ false }
    ensures served { (ts : List Transaction) → HaveContents 1 file.now.groups ts → ServesFile B.means book.old book.new result reporter.now (Ok ts) }
    ensures fault { EndsOnFault B.means book.old book.new result }
{
    let mut verdicts = match Vec::with_capacity(alloc, file.transactions()) {
        Ok(verdicts) => verdicts,
        Err(_) => return give_up(book),
    };
    judge_all(book, reporter, file, &mut verdicts)?;
    Ok(Answer::Verdicts(verdicts))
}

/// A fault of a file is answered; out of memory, F10, ends the transaction.
fn report_fault<B: Book>(book: &mut B, fault: RetFault) -> Result<Answer, BookFault>
    requires { B.means.has_failed book.old ≡ false }
    ensures served { (who : Reporter) → ServesFile B.means book.old book.new result who (Err fault) }
    ensures read { IfOk result (λ answer. fault ≢ no_memory) }
    ensures fault { EndsOnFault B.means book.old book.new result }
{
    if fault.code == FaultCode::F10 {
        return give_up(book);
    }
    Ok(Answer::FileFault(fault))
}

/// A file is read from its bytes, and reported.
fn report_text<B: Book>(
    alloc: Global,
    book: &mut B,
    reporter: &Reporter,
    bytes: &[u8],
) -> Result<Answer, BookFault>
    requires { B.means.has_failed book.old ≡ false }
    ensures served { (file : FileRead) → IsFileOf bytes.now file → ServesFile B.means book.old book.new result reporter.now file }
    ensures fault { EndsOnFault B.means book.old book.new result }
{
    match read_ret(alloc, bytes) {
        Ok(file) => report_file(alloc, book, reporter, &file),
        Err(fault) => report_fault(book, fault),
    }
}

/// Any reporter's file.
fn report<B: Book>(
    alloc: Global,
    book: &mut B,
    reporter: &Reporter,
    content: &Content<'_>,
) -> Result<Answer, BookFault>
    requires { B.means.has_failed book.old ≡ false }
    ensures served { (file : FileRead) → IsFileIn content.now file → ServesFile B.means book.old book.new result reporter.now file }
    ensures fault { EndsOnFault B.means book.old book.new result }
{
    match content {
        Content::Bytes(bytes) => report_text(alloc, book, reporter, bytes),
        Content::File(file) => report_file(alloc, book, reporter, file),
        Content::Fault(fault) => report_fault(book, *fault),
    }
}

/// A RET file of the office: its first fault, or a verdict on each transaction over the rows of the agent that
/// it bears.
///
/// # Errors
///
/// `NoRoom`, and what the open transaction wrote is then undone, or `Failed`.
pub fn report_of_office<B: Book>(
    alloc: Global,
    book: &mut B,
    content: &Content<'_>,
) -> Result<Answer, BookFault>
    requires { B.means.has_failed book.old ≡ false }
    ensures served { (file : FileRead) → IsFileIn content.now file → ServesOffice B.means book.old book.new result (OfficeFile file) }
    ensures fault { EndsOnFault B.means book.old book.new result }
{
    report(alloc, book, &Reporter::Office, content)
}

/// A RET file of an agent: its first fault, or a verdict on each transaction over the agent's rows.
///
/// # Errors
///
/// `NoRoom`, and what the open transaction wrote is then undone, or `Failed`.
pub fn report_of_agent<B: Book>(
    alloc: Global,
    book: &mut B,
    agent: AgentCode,
    content: &Content<'_>,
) -> Result<Answer, BookFault>
    requires { B.means.has_failed book.old ≡ false }
    ensures served { (file : FileRead) → IsFileIn content.now file → ServesAgent B.means book.old book.new result agent (AgentFile file) }
    ensures fault { EndsOnFault B.means book.old book.new result }
{
    report(alloc, book, &Reporter::Agent(agent), content)
}
