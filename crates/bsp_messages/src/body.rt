//! The JSON value of a body.

ghost use Rattle.bsp_messages.specs.Bodies.{DataAnswers, data_of};

use crate::fault::BodyFault;
use serde_json::Value;
use std::alloc::Global;

/// The value of a body that is one JSON text.
///
/// # Errors
///
/// `Malformed` where it is none, or nests deeper than 127; `NoRoom` where an allocation was refused.
pub(crate) fn read_value(alloc: Global, body: &[u8]) -> Result<Value, BodyFault>
    ensures { DataAnswers (data_of body.now) body.now result }
{
    match Value::from_slice(alloc, body) {
        Ok(value) => Ok(value),
        Err(error) => {
            if error.is_memory() {
                Err(BodyFault::NoRoom)
            } else {
                Err(BodyFault::Malformed)
            }
        }
    }
}
