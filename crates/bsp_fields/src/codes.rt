//! The codes of agents, airlines and periods.

ghost use Rattle.std.specs.Prelude.{◌≡◌, ℕ, ◌%◌, ◌/◌, ◌^◌, ◌<◌, IfOk, Some};
ghost use Rattle.std.specs.Fmt.{padded};
ghost use Rattle.bsp_fields.specs.Decimal.{fixed_digits};
ghost use Rattle.bsp_fields.specs.Codes.{check_digit_of, code_reading, agent_reading};

use crate::digits::{display_digits, read_code, write_digits};
use crate::fault::FieldFault;
use std::fmt;
use std::marker::Model;

/// An agent's code of eight digits, the eighth of which is the first seven modulo 7. A contract
/// sees it as the number that the eight digits write.
#[derive(Clone, Copy, PartialEq, Eq, PartialOrd, Ord)]
pub struct AgentCode {
    number: u32,
}

impl Model for AgentCode {
    ghost Value = { ℕ };

    ghost view = { λ agent. agent.number };

    ghost inverse = { λ number. record { number = number } };

    ghost invariant = { λ agent. (agent.number < 10 ^ 8) × (agent.number % 10 ≡ check_digit_of (agent.number / 10)) };
}

impl AgentCode {
    /// Reads eight digits.
    ///
    /// # Errors
    ///
    /// The first of `Width`, `NotDigit` and `CheckDigit` that applies.
    pub fn read(text: &[u8]) -> Result<AgentCode, FieldFault>
        ensures value { result ≡ agent_reading text.now }
        ensures spelled { IfOk result (λ agent. fixed_digits 8 agent ≡ text.now) }
    {
        let number = read_code::<8>(text)? as u32;
        if number % 10 != number / 10 % 7 {
            return Err(FieldFault::CheckDigit);
        }
        Ok(AgentCode { number })
    }

    /// The eight digits.
    pub fn digits(self) -> [u8; 8]
        ensures text { result ≡ fixed_digits 8 self }
        ensures reads_back { agent_reading result ≡ Ok self }
    {
        write_digits::<8>(self.number as u64)
    }
}

/// The eight digits, in the width that the format asks for.
impl fmt::Display for AgentCode {
    ghost output = { λ agent. Some (fixed_digits 8 agent) };

    ghost styled_output = { λ agent spec. Some (padded spec (fixed_digits 8 agent)) };

    fn fmt<W: fmt::Write>(&self, f: &mut fmt::Formatter<W>) -> fmt::Result {
        display_digits(&self.digits(), f)
    }
}

/// An airline's code of three digits. A contract sees it as the number that they write.
#[derive(Clone, Copy, PartialEq, Eq, PartialOrd, Ord)]
pub struct AirlineCode {
    number: u16,
}

impl Model for AirlineCode {
    ghost Value = { ℕ };

    ghost view = { λ airline. airline.number };

    ghost inverse = { λ number. record { number = number } };

    ghost invariant = { λ airline. airline.number < 10 ^ 3 };
}

impl AirlineCode {
    /// Reads three digits.
    ///
    /// # Errors
    ///
    /// The first of `Width` and `NotDigit` that applies.
    pub fn read(text: &[u8]) -> Result<AirlineCode, FieldFault>
        ensures value { result ≡ code_reading 3 text.now }
        ensures spelled { IfOk result (λ airline. fixed_digits 3 airline ≡ text.now) }
    {
        let number = read_code::<3>(text)? as u16;
        Ok(AirlineCode { number })
    }

    /// The three digits.
    pub fn digits(self) -> [u8; 3]
        ensures text { result ≡ fixed_digits 3 self }
        ensures reads_back { code_reading 3 result ≡ Ok self }
    {
        write_digits::<3>(self.number as u64)
    }
}

/// The three digits, in the width that the format asks for.
impl fmt::Display for AirlineCode {
    ghost output = { λ airline. Some (fixed_digits 3 airline) };

    ghost styled_output = { λ airline spec. Some (padded spec (fixed_digits 3 airline)) };

    fn fmt<W: fmt::Write>(&self, f: &mut fmt::Formatter<W>) -> fmt::Result {
        display_digits(&self.digits(), f)
    }
}

/// The code of a billing period, of five digits. A contract sees it as the number that they write.
#[derive(Clone, Copy, PartialEq, Eq, PartialOrd, Ord)]
pub struct PeriodCode {
    number: u32,
}

impl Model for PeriodCode {
    ghost Value = { ℕ };

    ghost view = { λ period. period.number };

    ghost inverse = { λ number. record { number = number } };

    ghost invariant = { λ period. period.number < 10 ^ 5 };
}

impl PeriodCode {
    /// Reads five digits.
    ///
    /// # Errors
    ///
    /// The first of `Width` and `NotDigit` that applies.
    pub fn read(text: &[u8]) -> Result<PeriodCode, FieldFault>
        ensures value { result ≡ code_reading 5 text.now }
        ensures spelled { IfOk result (λ period. fixed_digits 5 period ≡ text.now) }
    {
        let number = read_code::<5>(text)? as u32;
        Ok(PeriodCode { number })
    }

    /// The five digits.
    pub fn digits(self) -> [u8; 5]
        ensures text { result ≡ fixed_digits 5 self }
        ensures reads_back { code_reading 5 result ≡ Ok self }
    {
        write_digits::<5>(self.number as u64)
    }
}

/// The five digits, in the width that the format asks for.
impl fmt::Display for PeriodCode {
    ghost output = { λ period. Some (fixed_digits 5 period) };

    ghost styled_output = { λ period spec. Some (padded spec (fixed_digits 5 period)) };

    fn fmt<W: fmt::Write>(&self, f: &mut fmt::Formatter<W>) -> fmt::Result {
        display_digits(&self.digits(), f)
    }
}
