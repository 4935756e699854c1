//! Values as a body states them.

ghost use Rattle.std.specs.Prelude.{◌≡◌};
ghost use Rattle.bsp_messages.specs.Values.{agent_in};

use bsp_fields::{AgentCode, FieldFault};

/// An agent's code of eight digits, as a body states it.
#[derive(Clone, Copy)]
pub struct StatedAgent {
    /// The code, and none where the eighth digit is not its check digit: nobody has such a code.
    pub code: Option<AgentCode>,
}

impl StatedAgent {
    /// The code of eight digits, whatever the check digit, and none of another text.
    pub fn read(text: &[u8]) -> Option<StatedAgent>
        ensures { result ≡ agent_in text.now }
    {
        match AgentCode::read(text) {
            Ok(agent) => Some(StatedAgent { code: Some(agent) }),
            Err(FieldFault::CheckDigit) => Some(StatedAgent { code: None }),
            Err(_) => None,
        }
    }
}
