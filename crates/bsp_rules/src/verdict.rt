//! Who reports, and what is answered.

ghost use Rattle.std.specs.Prelude.{◌≡◌};
ghost use Rattle.bsp_rules.specs.Refusals.{code_text};

use bsp_fields::{AgentCode, PeriodCode};
use std::error::Error;
use std::fmt;

/// Who reports a transaction.
#[derive(Clone, Copy, PartialEq, Eq)]
pub enum Reporter {
    /// The office, for any agent.
    Office,
    /// An agent, for itself.
    Agent(AgentCode),
}

/// Why a transaction is refused, in the order in which it is judged.
#[derive(Clone, Copy, Debug, PartialEq, Eq)]
pub enum Refusal {
    /// The agent is not registered, or another agent reports.
    WrongAgent,
    /// The airline is not in the plan.
    UnknownAirline,
    /// A check digit of record 2 or 3 is wrong.
    WrongCheckDigit,
    /// It is issued after the business day.
    NotYetIssued,
    /// Its number is in no range of the agent.
    NotInStock,
    /// Its number has been accepted: of a CANX, in a CANX.
    NumberUsed,
    /// Its amounts or its commission are wrong by themselves or by the published rate.
    WrongAmounts,
    /// A related ticket is missing or of another airline; of a CANX, its number is another airline's.
    NoTicket,
    /// A related ticket is cancelled or related to; of a CANX, its number's transaction is related to
    /// or lies in a closed period.
    TicketEnded,
    /// Its amounts or its commission do not agree with the related ticket.
    WrongAgainstTicket,
    /// There is no target period.
    NoPeriod,
    /// Agent, airline and target hold as many accepted transactions as the documents limit.
    LimitReached,
}

/// The verdict on a transaction.
#[derive(Clone, Copy, PartialEq, Eq)]
pub enum Verdict {
    /// It was accepted before, in this period.
    Held(PeriodCode),
    /// It is accepted, in this period.
    Accepted(PeriodCode),
    /// It is refused.
    Refused(Refusal),
}

impl Refusal {
    /// The code of the refusal, `E01` to `E12`.
    pub fn code(self) -> &'static str
        ensures { result.now ≡ code_text self }
    {
        match self {
            Refusal::UnknownAirline => "E01",
            Refusal::WrongAgent => "E02",
            Refusal::WrongCheckDigit => "E03",
            Refusal::NotYetIssued => "E04",
            Refusal::NotInStock => "E05",
            Refusal::NumberUsed => "E06",
            Refusal::WrongAmounts => "E07",
            Refusal::NoTicket => "E08",
            Refusal::TicketEnded => "E09",
            Refusal::NoPeriod => "E10",
            Refusal::LimitReached => "E11",
            Refusal::WrongAgainstTicket => "E12",
        }
    }

    fn text(self) -> &'static str {
        match self {
            Refusal::WrongAgent => {
                "E02: the agent is not registered, or is not the one that reports"
            }
            Refusal::UnknownAirline => "E01: the airline is not in the plan",
            Refusal::WrongCheckDigit => "E03: a check digit is wrong",
            Refusal::NotYetIssued => "E04: it is issued after the business day",
            Refusal::NotInStock => "E05: the number is not in the agent's stock",
            Refusal::NumberUsed => "E06: the number has been used",
            Refusal::WrongAmounts => "E07: amounts or commission are wrong",
            Refusal::NoTicket => "E08: there is no such ticket of this airline",
            Refusal::TicketEnded => "E09: the ticket is no longer open",
            Refusal::WrongAgainstTicket => {
                "E12: amounts or commission do not agree with the ticket"
            }
            Refusal::NoPeriod => "E10: there is no period to bill it in",
            Refusal::LimitReached => "E11: the documents limit is reached",
        }
    }
}

impl fmt::Display for Refusal {
    fn fmt<W: fmt::Write>(&self, f: &mut fmt::Formatter<W>) -> fmt::Result {
        f.write_str(self.text())
    }
}

impl Error for Refusal {}
