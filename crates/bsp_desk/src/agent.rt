//! Serves the calls of an agent.

ghost use Rattle.std.specs.Prelude.{◌≡◌, false};
ghost use Rattle.bsp_desk.specs.Calls.{agent_text};
ghost use Rattle.bsp_desk_writes.specs.Contents.{IsAgentCall};
ghost use Rattle.bsp_desk_writes.specs.Serves.{EndsOnFault, ServesAgent};
ghost use Rattle.bsp_desk_writes.specs.Requests.{AgentRequest};

use crate::documents::document;
use crate::periods::period;
use crate::statements::statement;
use crate::stocks::stock;
use bsp_book::{Book, BookFault};
use bsp_desk_writes::{Content, agent_memos, agree, dispute, report_of_agent};
use bsp_messages::Answer;
use bsp_routes::AgentCall;
use bsp_rows::AgentCode;
use std::alloc::Global;

/// Serves a call of an agent in the open transaction.
pub(crate) fn serve_agent<B: Book>(
    alloc: Global,
    book: &mut B,
    agent: AgentCode,
    call: &AgentCall<&[u8]>,
    content: &Content<'_>,
) -> Result<Answer, BookFault>
    requires { B.means.has_failed book.old ≡ false }
    ensures served { (request : AgentRequest) → IsAgentCall (agent_text call.now) content.now request → ServesAgent B.means book.old book.new result agent request }
    ensures fault { EndsOnFault B.means book.old book.new result }
{
    let body = content.bytes();
    match call {
        AgentCall::Ret => report_of_agent(alloc, book, agent, content),
        AgentCall::Document(number) => document(book, agent, number),
        AgentCall::Period(code) => period(book, agent, code),
        AgentCall::Stock => stock(alloc, book, agent),
        AgentCall::Memos => agent_memos(alloc, book, agent),
        AgentCall::Dispute => dispute(alloc, book, agent, body),
        AgentCall::Agree => agree(alloc, book, agent, body),
        AgentCall::Statement(code) => statement(alloc, book, agent, code),
    }
}
