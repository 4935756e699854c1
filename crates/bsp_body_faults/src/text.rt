//! What is said of a body, for people.

use crate::fault::BodyFault;
use crate::finding::body_fault;
use crate::json_fault::JsonFault;
use crate::remark::wrong_code;
use crate::words::Words;
use bsp_fields::NoRoom;
use bsp_routes::Call;
use std::alloc::Global;

/// The text of a malformed body's fault.
fn fault_text(alloc: Global, fault: JsonFault) -> Result<Option<String>, NoRoom> {
    let mut words = Words::new(alloc);
    fault.say(&mut words);
    Ok(Some(words.finished()?))
}

/// The text of what is to be known of a body that its route reads, if anything.
fn remark_text<V: Copy>(
    alloc: Global,
    call: Call<V>,
    body: &[u8],
) -> Result<Option<String>, NoRoom> {
    let Some(code) = wrong_code(alloc, call, body)? else {
        return Ok(None);
    };
    let mut words = Words::new(alloc);
    words.add("agent is \"");
    words.add(code.as_str());
    words.add("\", whose check digit is wrong: nobody has this code");
    Ok(Some(words.finished()?))
}

/// What is said of the body of a call with this fault, or with none: why it is malformed, or what is to be known of one
/// that its route reads. None of a RET file and of a plan text.
///
/// # Errors
///
/// `NoRoom` where an allocation was refused.
pub fn body_text<V: Copy>(
    alloc: Global,
    call: Call<V>,
    body: &[u8],
    found: Option<BodyFault>,
) -> Result<Option<String>, NoRoom> {
    match found {
        Some(BodyFault::Json(fault)) => fault_text(alloc, fault),
        Some(_) => Ok(None),
        None => remark_text(alloc, call, body),
    }
}

/// Why the body of a call is malformed. None where it is not.
///
/// # Errors
///
/// `NoRoom` where an allocation was refused.
pub fn cause_text<V: Copy>(
    alloc: Global,
    call: Call<V>,
    body: &[u8],
) -> Result<Option<String>, NoRoom> {
    match body_fault(alloc, call, body)? {
        Some(BodyFault::Json(fault)) => fault_text(alloc, fault),
        _ => Ok(None),
    }
}
