//! Which rows a look-up asks for.

use bsp_fields::{AgentCode, AirlineCode, PeriodCode};

/// Which items.
#[derive(Clone, Copy)]
pub enum Items {
    /// Those of an agent.
    OfAgent(AgentCode),
    /// Those of an agent that were accepted in a period.
    OfAgentIn(AgentCode, PeriodCode),
    /// Those of an airline that were accepted in a period, of all agents.
    OfAirlineIn(AirlineCode, PeriodCode),
}

/// Which memos.
#[derive(Clone, Copy)]
pub enum Memos {
    /// Those to an agent.
    OfAgent(AgentCode),
    /// Those of an airline.
    OfAirline(AirlineCode),
    /// Those of an airline that were billed in a period.
    OfAirlineIn(AirlineCode, PeriodCode),
    /// Those that are not billed, of all airlines.
    Unbilled,
}

/// Which tallies.
#[derive(Clone, Copy)]
pub enum Tallies {
    /// Those of an agent.
    OfAgent(AgentCode),
    /// Those of an agent in a period.
    OfAgentIn(AgentCode, PeriodCode),
    /// Those of an airline in a period, of all agents.
    OfAirlineIn(AirlineCode, PeriodCode),
    /// Those of a period, of all agents and airlines.
    In(PeriodCode),
}
