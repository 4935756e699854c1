//! What is asked of a desk by a known caller.

use bsp_rows::{AgentCode, Day, DocNumber, PeriodCode, Token};

/// A request of the office or of an agent whose caller is known and whose content is read. That of a RET file is apart:
/// see [`Desk::report`](crate::Desk::report).
#[derive(Clone, Copy)]
pub enum Instruction<'r> {
    /// The office publishes the plan text of these bytes.
    Publish(&'r [u8]),
    /// The office sets the business day.
    SetDay(Day),
    /// The office registers an agent with a token, or gives it another one.
    Register(AgentCode, Token),
    /// The office allots to an agent the range from a first number to a last. The first may be after the last.
    Allot(AgentCode, DocNumber, DocNumber),
    /// The office closes a period.
    Close(PeriodCode),
    /// An agent asks for its statement of a period.
    Statement(AgentCode, PeriodCode),
}
