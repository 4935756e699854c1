//! Finds a caller by its code and its token.

ghost use Rattle.std.specs.Prelude.{◌≡◌, ℕ, false, IfOk, OnOk};
ghost use Rattle.bsp_book.specs.Calls.{LooksUp};
ghost use Rattle.bsp_desk.specs.Callers.{known_agent, known_airline};
ghost use Rattle.bsp_desk.specs.Reading.{token_text};

use crate::token::is_token_of;
use bsp_book::{Book, BookFault};
use bsp_rows::{AgentCode, AirlineCode};

/// The agent of this code, where it is registered and the token is its own.
pub(crate) fn known_agent<B: Book>(
    book: &mut B,
    token: Option<&[u8]>,
    code: &[u8],
) -> Result<Option<AgentCode>, BookFault>
    requires { B.means.has_failed book.old ≡ false }
    ensures { LooksUp B.means book.old book.new result (λ found. found) (known_agent (token_text token.entry) code.now) }
{
    let Ok(agent) = AgentCode::read(code) else {
        return Ok(None);
    };
    match book.agent_token(agent)? {
        Some(own) if is_token_of(&own, token) => Ok(Some(agent)),
        _ => Ok(None),
    }
}

/// The airline of this code, where it is registered and the token is its own.
pub(crate) fn known_airline<B: Book>(
    book: &mut B,
    token: Option<&[u8]>,
    code: &[u8],
) -> Result<Option<AirlineCode>, BookFault>
    requires { B.means.has_failed book.old ≡ false }
    ensures { LooksUp B.means book.old book.new result (λ found. found) (known_airline (token_text token.entry) code.now) }
{
    let Ok(airline) = AirlineCode::read(code) else {
        return Ok(None);
    };
    match book.airline_token(airline)? {
        Some(own) if is_token_of(&own, token) => Ok(Some(airline)),
        _ => Ok(None),
    }
}
