//! The registration of agents and airlines.

ghost use Rattle.std.specs.Prelude.{◌≡◌, false, Some};
ghost use Rattle.bsp_book.specs.Calls.{FallsBack, Faults, LeavesLast};
ghost use Rattle.bsp_messages.specs.Bodies.{agent_registration_form, airline_registration_form, body_of};
ghost use Rattle.bsp_desk_sales.specs.Serves.{EndsOnFault, ServesOffice};
ghost use Rattle.bsp_office_spec.specs.Requests.OfficeRequest.{RegisterAgent, RegisterAirline};
ghost use Rattle.bsp_office_spec.specs.Step.{is_token};

use crate::bodies::unread;
use bsp_book::{Book, BookFault};
use bsp_messages::{
    AgentRegistration, AirlineRegistration, Answer, RequestRefusal, read_agent_registration,
    read_airline_registration,
};
use bsp_rows::{AgentCode, AirlineCode, Change, Token};
use std::alloc::Global;

/// Whether a caller has a token, and it is this one.
fn has_token(known: Option<Token>, token: Token) -> bool
    ensures { result ≡ is_token known (Some token) }
{
    match known {
        Some(own) => own == token,
        None => false,
    }
}

/// Registers an agent, or gives it another token. It answers held or done.
///
/// # Errors
///
/// `NoRoom`, and what the open transaction wrote is then undone, or `Failed`.
pub fn set_agent<B: Book>(book: &mut B, agent: AgentCode, token: Token) -> Result<Answer, BookFault>
    ensures served { ServesOffice B.means book.old book.new result (RegisterAgent (Some (record { agent = record { code = Some agent }; token = token }))) }
    ensures fault { Faults B.means book.old book.new (FallsBack B.means book.old book.new) (LeavesLast B.means book.old book.new) result }
{
    if has_token(book.agent_token(agent)?, token) {
        return Ok(Answer::Changed(Change::Held));
    }
    book.set_agent_token(agent, token)?;
    Ok(Answer::Changed(Change::Done))
}

/// Registers an airline, or gives it another token. The airline must be in the plan.
fn set_airline<B: Book>(
    book: &mut B,
    airline: AirlineCode,
    token: Token,
) -> Result<Answer, BookFault>
    requires { B.means.has_failed book.old ≡ false }
    ensures served { ServesOffice B.means book.old book.new result (RegisterAirline (Some (record { airline = airline; token = token }))) }
    ensures fault { Faults B.means book.old book.new (FallsBack B.means book.old book.new) (LeavesLast B.means book.old book.new) result }
{
    if !book.plan().has_airline(airline) {
        return Ok(Answer::Refused(RequestRefusal::AirlineNotInPlan));
    }
    if has_token(book.airline_token(airline)?, token) {
        return Ok(Answer::Changed(Change::Held));
    }
    book.set_airline_token(airline, token)?;
    Ok(Answer::Changed(Change::Done))
}

/// Registers the agent that a body states.
fn register_stated<B: Book>(book: &mut B, body: &AgentRegistration) -> Result<Answer, BookFault>
    requires { B.means.has_failed book.old ≡ false }
    ensures served { ServesOffice B.means book.old book.new result (RegisterAgent (Some body.now)) }
    ensures fault { Faults B.means book.old book.new (FallsBack B.means book.old book.new) (LeavesLast B.means book.old book.new) result }
{
    match body.agent.code {
        Some(agent) => set_agent(book, agent, body.token),
        None => Ok(Answer::Refused(RequestRefusal::WrongAgentCode)),
    }
}

/// Registers an agent, or gives it another token: `POST /office/agents`.
///
/// # Errors
///
/// `NoRoom` where an allocation was refused, or `Failed`.
pub fn register_agent<B: Book>(
    alloc: Global,
    book: &mut B,
    body: &[u8],
) -> Result<Answer, BookFault>
    requires { B.means.has_failed book.old ≡ false }
    ensures served { ServesOffice B.means book.old book.new result (RegisterAgent (body_of agent_registration_form body.now)) }
    ensures fault { EndsOnFault B.means book.old book.new result }
{
    match read_agent_registration(alloc, body) {
        Ok(registration) => register_stated(book, &registration),
        Err(fault) => unread(book, fault),
    }
}

/// Registers an airline of the plan, or gives it another token: `POST /office/airlines`.
///
/// # Errors
///
/// `NoRoom` where an allocation was refused, or `Failed`.
pub fn register_airline<B: Book>(
    alloc: Global,
    book: &mut B,
    body: &[u8],
) -> Result<Answer, BookFault>
    requires { B.means.has_failed book.old ≡ false }
    ensures served { ServesOffice B.means book.old book.new result (RegisterAirline (body_of airline_registration_form body.now)) }
    ensures fault { EndsOnFault B.means book.old book.new result }
{
    match read_airline_registration(alloc, body) {
        Ok(registration) => set_airline(book, registration.airline, registration.token),
        Err(fault) => unread(book, fault),
    }
}
