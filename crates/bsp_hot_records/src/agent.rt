//! The agents of a HOT file.

ghost use Rattle.std.specs.Prelude.{◌≡◌, ◌<◌, ◌^◌, ℕ, length, true, false, IfSome, IfNone};
ghost use Rattle.std.specs.Str.{all_ascii_digits};
ghost use Rattle.bsp_hot_records.specs.Records.{number_in};

use crate::fields::number_in;
use std::marker::Model;

/// An agent's eight digits as a HOT file has them, where the last one is not judged. A contract
/// sees them as the number that they write.
#[derive(Clone, Copy, PartialEq, Eq, PartialOrd, Ord)]
pub struct AgentDigits {
    number: u32,
}

impl Model for AgentDigits {
    ghost Value = { ℕ };

    ghost view = { λ agent. agent.number };

    ghost inverse = { λ number. record { number = number } };

    ghost invariant = { λ agent. agent.number < 10 ^ 8 };
}

impl AgentDigits {
    /// The number that the digits write.
    pub fn number(self) -> u32
        ensures { result ≡ self }
    {
        self.number
    }

    /// The agent that eight digits write.
    #[inline]
    pub(crate) fn read(text: &[u8]) -> Option<AgentDigits>
        requires { length text.now ≡ 8 }
        ensures fits { IfSome result (λ agent. all_ascii_digits text.now ≡ true) }
        ensures value { IfSome result (λ agent. agent ≡ number_in text.now) }
        ensures none { IfNone result (all_ascii_digits text.now ≡ false) }
    {
        let number = number_in(text)? as u32;
        Some(AgentDigits { number })
    }
}
