//! Compares a token with a caller's own.

ghost use Rattle.std.specs.Prelude.{◌≡◌, Some};
ghost use Rattle.bsp_desk.specs.Reading.{token_text};
ghost use Rattle.bsp_desk_writes.specs.Step.{is_token};

use bsp_rows::Token;

/// Whether the token given is this one.
pub(crate) fn is_token_of(own: &Token, given: Option<&[u8]>) -> bool
    ensures { result ≡ is_token (Some own.now) (token_text given.entry) }
{
    match given {
        None => false,
        Some(text) => match Token::read(text) {
            Some(token) => *own == token,
            None => own.as_bytes() == text,
        },
    }
}
