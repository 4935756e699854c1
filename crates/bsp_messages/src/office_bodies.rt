//! The bodies of the office's requests.

ghost use Rattle.std.specs.Prelude.{◌≡◌};
ghost use Rattle.serde_json.specs.View.{view};
ghost use Rattle.bsp_messages.specs.Bodies.{Answers, body_of, day_form, agent_registration_form, airline_registration_form, stock_change_form, period_form};

use crate::body::read_value;
use crate::fault::BodyFault;
use crate::members::{agent_at, airline_at, document_at, has_members, text_at, token_at};
use crate::values::StatedAgent;
use bsp_fields::{AirlineCode, Day, PeriodCode, Token};
use bsp_rules::Range;
use serde_json::Value;
use std::alloc::Global;

/// An agent and the token by which it is known: `agent`, `token`.
#[derive(Clone, Copy)]
pub struct AgentRegistration {
    /// The code of the agent, as it is stated.
    pub agent: StatedAgent,
    /// Its token.
    pub token: Token,
}

/// An airline and the token by which it is known: `airline`, `token`.
#[derive(Clone, Copy)]
pub struct AirlineRegistration {
    /// The code of the airline.
    pub airline: AirlineCode,
    /// Its token.
    pub token: Token,
}

/// A range of documents that is allotted to an agent or withdrawn from it: `agent`, `first`, `last`.
/// Nothing says that the first is not after the last.
#[derive(Clone, Copy)]
pub struct StockChange {
    /// The code of the agent, as it is stated.
    pub agent: StatedAgent,
    /// The range.
    pub range: Range,
}

fn day_in(value: &Value) -> Option<Day>
    ensures { result ≡ day_form (view value.now) }
{
    if !has_members(value, 1) {
        return None;
    }
    Day::read_text(text_at(value, "day")?.as_bytes()).ok()
}

fn agent_registration_in(value: &Value) -> Option<AgentRegistration>
    ensures { result ≡ agent_registration_form (view value.now) }
{
    if !has_members(value, 2) {
        return None;
    }
    let Some(agent) = agent_at(value, "agent") else {
        return None;
    };
    let Some(token) = token_at(value, "token") else {
        return None;
    };
    Some(AgentRegistration { agent, token })
}

fn airline_registration_in(value: &Value) -> Option<AirlineRegistration>
    ensures { result ≡ airline_registration_form (view value.now) }
{
    if !has_members(value, 2) {
        return None;
    }
    let Some(airline) = airline_at(value, "airline") else {
        return None;
    };
    let Some(token) = token_at(value, "token") else {
        return None;
    };
    Some(AirlineRegistration { airline, token })
}

fn stock_change_in(value: &Value) -> Option<StockChange>
    ensures { result ≡ stock_change_form (view value.now) }
{
    if !has_members(value, 3) {
        return None;
    }
    let agent = agent_at(value, "agent")?;
    let first = document_at(value, "first")?;
    let last = document_at(value, "last")?;
    let range = Range { first, last };
    Some(StockChange { agent, range })
}

fn period_in(value: &Value) -> Option<PeriodCode>
    ensures { result ≡ period_form (view value.now) }
{
    if !has_members(value, 1) {
        return None;
    }
    PeriodCode::read(text_at(value, "period")?.as_bytes()).ok()
}

/// Reads the body of `POST /office/day`: `day`, a text YYYY-MM-DD.
///
/// # Errors
///
/// `Malformed` where it is no such body; `NoRoom` where an allocation was refused.
pub fn read_day(alloc: Global, body: &[u8]) -> Result<Day, BodyFault>
    ensures { Answers (body_of day_form body.now) body.now result }
{
    let value = read_value(alloc, body)?;
    day_in(&value).ok_or(BodyFault::Malformed)
}

/// Reads the body of `POST /office/agents`: `agent`, a text of eight digits, and `token`, a text.
///
/// # Errors
///
/// `Malformed` where it is no such body; `NoRoom` where an allocation was refused.
pub fn read_agent_registration(alloc: Global, body: &[u8]) -> Result<AgentRegistration, BodyFault>
    ensures { Answers (body_of agent_registration_form body.now) body.now result }
{
    let value = read_value(alloc, body)?;
    match agent_registration_in(&value) {
        Some(found) => Ok(found),
        None => Err(BodyFault::Malformed),
    }
}

/// Reads the body of `POST /office/airlines`: `airline`, a text of three digits, and `token`, a text.
///
/// # Errors
///
/// `Malformed` where it is no such body; `NoRoom` where an allocation was refused.
pub fn read_airline_registration(
    alloc: Global,
    body: &[u8],
) -> Result<AirlineRegistration, BodyFault>
    ensures { Answers (body_of airline_registration_form body.now) body.now result }
{
    let value = read_value(alloc, body)?;
    airline_registration_in(&value).ok_or(BodyFault::Malformed)
}

/// Reads the body of `POST /office/stock/allot` and `/office/stock/withdraw`: `agent`, a text of
/// eight digits, `first` and `last`, texts of ten digits.
///
/// # Errors
///
/// `Malformed` where it is no such body; `NoRoom` where an allocation was refused.
pub fn read_stock_change(alloc: Global, body: &[u8]) -> Result<StockChange, BodyFault>
    ensures { Answers (body_of stock_change_form body.now) body.now result }
{
    let value = read_value(alloc, body)?;
    match stock_change_in(&value) {
        Some(found) => Ok(found),
        None => Err(BodyFault::Malformed),
    }
}

/// Reads the body of `POST /office/close`: `period`, a text of five digits.
///
/// # Errors
///
/// `Malformed` where it is no such body; `NoRoom` where an allocation was refused.
pub fn read_period(alloc: Global, body: &[u8]) -> Result<PeriodCode, BodyFault>
    ensures { Answers (body_of period_form body.now) body.now result }
{
    let value = read_value(alloc, body)?;
    period_in(&value).ok_or(BodyFault::Malformed)
}
