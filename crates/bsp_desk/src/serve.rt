//! Serves a call after its caller is found.

ghost use Rattle.std.specs.Prelude.{◌≡◌, false, []};
ghost use Rattle.bsp_desk.specs.Callers.{calling};
ghost use Rattle.bsp_desk.specs.Calls.{agent_text, airline_text, office_text};
ghost use Rattle.bsp_desk.specs.Reading.{token_text};
ghost use Rattle.bsp_desk.specs.Steps.{ServesRequest};
ghost use Rattle.bsp_desk_writes.specs.Contents.{IsAgentCall, IsOfficeCall, bytes_in};
ghost use Rattle.bsp_desk_writes.specs.Serves.{EndsOnFault, Serves};
ghost use Rattle.bsp_desk_writes.specs.Requests.{AgentRequest, AirlineRequest, IsAirlineRequest, OfficeRequest};
ghost use Rattle.bsp_desk_writes.specs.Requests.Asked.{ByAgent, ByAirline, ByOffice};
ghost use Rattle.bsp_desk_writes.specs.Step.{asked_after, asked_answer};

use crate::agent::serve_agent;
use crate::airline::serve_airline;
use crate::caller::{known_agent, known_airline};
use crate::office::serve_office;
use crate::token::is_token_of;
use bsp_book::{Book, BookFault};
use bsp_desk_writes::Content;
use bsp_messages::{Answer, RequestRefusal};
use bsp_routes::{AgentCall, AirlineCall, Call, OfficeCall};
use bsp_rows::Token;
use std::alloc::Global;

/// Serves a call in the open transaction: the caller and its token first, then what is asked.
pub(crate) fn serve<B: Book>(
    alloc: Global,
    book: &mut B,
    office: &Token,
    token: Option<&[u8]>,
    call: &Call<&[u8]>,
    content: &Content<'_>,
) -> Result<Answer, BookFault>
    requires { B.means.has_failed book.old ≡ false }
    ensures served { ServesRequest B.means book.old book.new (calling token.entry call.now content.now) office.now result }
    ensures fault { EndsOnFault B.means book.old book.new result }
{
    match call {
        Call::Office(call) => by_office(alloc, book, office, token, call, content),
        Call::Agent(code, call) => by_agent(alloc, book, token, code, call, content),
        Call::Airline(code, call) => by_airline(alloc, book, token, code, call, content),
    }
}

fn by_office<B: Book>(
    alloc: Global,
    book: &mut B,
    office: &Token,
    token: Option<&[u8]>,
    call: &OfficeCall<&[u8]>,
    content: &Content<'_>,
) -> Result<Answer, BookFault>
    requires { B.means.has_failed book.old ≡ false }
    ensures served { (request : OfficeRequest) → IsOfficeCall (office_text call.now) content.now request →
        let answer = asked_answer office.now (token_text token.entry) (ByOffice request) in
        Serves B.means book.old book.new result answer (λ rows. asked_after (ByOffice request) (answer rows) rows) }
    ensures fault { EndsOnFault B.means book.old book.new result }
{
    if is_token_of(office, token) {
        serve_office(alloc, book, call, content)
    } else {
        Ok(Answer::Refused(RequestRefusal::Forbidden))
    }
}

fn by_agent<B: Book>(
    alloc: Global,
    book: &mut B,
    token: Option<&[u8]>,
    code: &[u8],
    call: &AgentCall<&[u8]>,
    content: &Content<'_>,
) -> Result<Answer, BookFault>
    requires { B.means.has_failed book.old ≡ false }
    ensures served { (request : AgentRequest) → IsAgentCall (agent_text call.now) content.now request →
        let answer = asked_answer [] (token_text token.entry) (ByAgent code.now request) in
        Serves B.means book.old book.new result answer (λ rows. asked_after (ByAgent code.now request) (answer rows) rows) }
    ensures fault { EndsOnFault B.means book.old book.new result }
{
    match known_agent(book, token, code)? {
        Some(agent) => serve_agent(alloc, book, agent, call, content),
        None => Ok(Answer::Refused(RequestRefusal::Forbidden)),
    }
}

fn by_airline<B: Book>(
    alloc: Global,
    book: &mut B,
    token: Option<&[u8]>,
    code: &[u8],
    call: &AirlineCall<&[u8]>,
    content: &Content<'_>,
) -> Result<Answer, BookFault>
    requires { B.means.has_failed book.old ≡ false }
    ensures served { (request : AirlineRequest) → IsAirlineRequest (airline_text call.now) (bytes_in content.now) request →
        let answer = asked_answer [] (token_text token.entry) (ByAirline code.now request) in
        Serves B.means book.old book.new result answer (λ rows. asked_after (ByAirline code.now request) (answer rows) rows) }
    ensures fault { EndsOnFault B.means book.old book.new result }
{
    match known_airline(book, token, code)? {
        Some(airline) => serve_airline(alloc, book, airline, call, content),
        None => Ok(Answer::Refused(RequestRefusal::Forbidden)),
    }
}
