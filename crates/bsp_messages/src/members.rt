//! The members of a JSON object.

ghost use Rattle.std.specs.Prelude.{◌≡◌, option_map};
ghost use Rattle.serde_json.specs.View.{view};
ghost use Rattle.bsp_fields.specs.Tokens.{token_reading};
ghost use Rattle.bsp_messages.specs.Members.{has_members, text_at, number_at, value_at};
ghost use Rattle.bsp_messages.specs.Values.{agent_in, airline_in, document_in};

use crate::values::StatedAgent;
use bsp_fields::{AirlineCode, DocNumber, Token};
use serde_json::Value;

/// Whether the value is an object of that many members.
pub(crate) fn has_members(value: &Value, count: usize) -> bool
    ensures { result ≡ has_members count (view value.now) }
{
    match value.as_object() {
        Some(members) => members.len() == count,
        None => false,
    }
}

/// The member of that key, where it is a text.
pub(crate) fn text_at<'a>(value: &'a Value, key: &str) -> Option<&'a str>
    ensures { option_map (λ text. text.now) result ≡ text_at key.now (view value.now) }
{
    match value.get(key) {
        Some(member) => member.as_str(),
        None => None,
    }
}

/// The member of that key, where it is a whole number that fits an `i64`.
pub(crate) fn number_at(value: &Value, key: &str) -> Option<i64>
    ensures { result ≡ number_at key.now (view value.now) }
{
    match value.get(key) {
        Some(member) => member.as_i64(),
        None => None,
    }
}

/// The member of that key, where it is an agent's code, whatever its check digit.
pub(crate) fn agent_at(value: &Value, key: &str) -> Option<StatedAgent>
    ensures { result ≡ value_at agent_in key.now (view value.now) }
{
    StatedAgent::read(text_at(value, key)?.as_bytes())
}

/// The member of that key, where it is an airline's code.
pub(crate) fn airline_at(value: &Value, key: &str) -> Option<AirlineCode>
    ensures { result ≡ value_at airline_in key.now (view value.now) }
{
    AirlineCode::read(text_at(value, key)?.as_bytes()).ok()
}

/// The member of that key, where it is a document number.
pub(crate) fn document_at(value: &Value, key: &str) -> Option<DocNumber>
    ensures { result ≡ value_at document_in key.now (view value.now) }
{
    DocNumber::read_unchecked(text_at(value, key)?.as_bytes()).ok()
}

/// The member of that key, where it is a token.
pub(crate) fn token_at(value: &Value, key: &str) -> Option<Token>
    ensures { result ≡ value_at token_reading key.now (view value.now) }
{
    Token::read(text_at(value, key)?.as_bytes())
}
