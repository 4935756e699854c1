//! What is to be known of a body that its route reads.

use crate::form::{BodyForm, body_form};
use crate::key::Key;
use bsp_fields::{AgentCode, FieldFault, NoRoom};
use bsp_routes::Call;
use serde_json::Value;
use std::alloc::Global;
use std::fmt::InlineText;

/// The code that a JSON value has under `agent`, where its check digit is wrong, so that nobody has it.
fn wrong_code_in(value: &Value) -> Option<InlineText<8>> {
    let Some(Value::String(text)) = value.get(Key::Agent.name()) else {
        return None;
    };
    let text = text.as_str();
    match AgentCode::read(text.as_bytes()) {
        Err(FieldFault::CheckDigit) => Some(InlineText::of(text)),
        _ => None,
    }
}

/// The agent's code with a wrong check digit in a body that the route of a call reads, if it has one.
///
/// # Errors
///
/// `NoRoom` where an allocation was refused.
pub(crate) fn wrong_code<V: Copy>(
    alloc: Global,
    call: Call<V>,
    body: &[u8],
) -> Result<Option<InlineText<8>>, NoRoom> {
    let BodyForm::Json(_) = body_form(call) else {
        return Ok(None);
    };
    match Value::from_slice(alloc, body) {
        Ok(value) => Ok(wrong_code_in(&value)),
        Err(error) if error.is_memory() => Err(NoRoom),
        Err(_) => Ok(None),
    }
}
