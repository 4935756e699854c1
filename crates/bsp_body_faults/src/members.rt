//! Why bytes are no JSON body of a form.

use crate::form::JsonForm;
use crate::json_fault::JsonCause;
use crate::key::Key;
use crate::kind::JsonKind;
use crate::syntax::{Found, Place, bytes_before, found_after};
use crate::values::{shown, value_fault};
use bsp_fields::NoRoom;
use serde_json::{Error, Map, Value};
use std::alloc::Global;

/// The byte order mark of UTF-8.
const MARK: &[u8] = b"\xEF\xBB\xBF";

/// Whether the bytes are one JSON text.
fn is_json(alloc: Global, bytes: &[u8]) -> Result<bool, NoRoom> {
    match Value::from_slice(alloc, bytes) {
        Ok(_) => Ok(true),
        Err(error) if error.is_memory() => Err(NoRoom),
        Err(_) => Ok(false),
    }
}

/// Whether the bytes before a place in a text are one JSON object.
fn is_object_before(alloc: Global, body: &[u8], before: usize) -> Result<bool, NoRoom> {
    if body.trim_ascii_start().starts_with(b"{") && before < body.len() {
        return is_json(alloc, &body[..before]);
    }
    Ok(false)
}

/// Why a text is no JSON text, by the place that its reader has of the error.
fn place_cause(alloc: Global, text: &str, place: Place) -> Result<JsonCause, NoRoom> {
    let body = text.as_bytes();
    let before = bytes_before(text, place);
    match is_object_before(alloc, body, before) {
        Ok(true) => Ok(JsonCause::MoreFollows(place)),
        Ok(false) => Ok(JsonCause::NotJson(place, found_after(body, before))),
        Err(error) => Err(error),
    }
}

/// Why bytes are no JSON text, by the error of its reader.
fn text_cause(alloc: Global, body: &[u8], error: &Error) -> Result<JsonCause, NoRoom> {
    if body.is_empty() {
        return Ok(JsonCause::Empty);
    }
    if body.starts_with(MARK) {
        return Ok(JsonCause::ByteOrderMark);
    }
    let Ok(text) = str::from_utf8(body) else {
        return Ok(JsonCause::NotUtf8);
    };
    let place = Place {
        line: error.line(),
        column: error.column(),
    };
    if error.is_eof() {
        return Ok(JsonCause::NotJson(place, Found::End));
    }
    place_cause(alloc, text, place)
}

/// Whether the form has a key of this name.
fn has_key(form: JsonForm, name: &str) -> bool {
    for key in form.keys() {
        if key.name() == name {
            return true;
        }
    }
    false
}

/// The first key of an object that is none of the form.
fn unknown_key(form: JsonForm, members: &Map<String, Value>) -> Option<&str> {
    for (name, _) in members {
        let name = name.as_str();
        if !has_key(form, name) {
            return Some(name);
        }
    }
    None
}

/// The first key of the form that an object lacks.
fn missing_key(form: JsonForm, members: &Map<String, Value>) -> Option<Key> {
    for key in form.keys() {
        if !members.contains_key(key.name()) {
            return Some(*key);
        }
    }
    None
}

/// The first value of an object that is none of its key.
fn value_cause(form: JsonForm, members: &Map<String, Value>) -> Option<JsonCause> {
    for key in form.keys() {
        if let Some(value) = members.get(key.name()) {
            if let Some(fault) = value_fault(*key, value) {
                return Some(JsonCause::Value(*key, fault));
            }
        }
    }
    None
}

/// Why an object is none of the form. None where nothing is found.
fn object_cause(form: JsonForm, members: &Map<String, Value>) -> Option<JsonCause> {
    if let Some(name) = unknown_key(form, members) {
        return Some(JsonCause::UnknownKey(shown(name)));
    }
    match missing_key(form, members) {
        Some(key) => Some(JsonCause::Missing(key)),
        None => value_cause(form, members),
    }
}

/// Why a JSON value is no body of the form.
fn data_cause(form: JsonForm, value: &Value) -> JsonCause {
    match value {
        Value::Object(members) => match object_cause(form, members) {
            Some(cause) => cause,
            None => JsonCause::NotObject(JsonKind::Object),
        },
        other => JsonCause::NotObject(JsonKind::of(other)),
    }
}

/// Why bytes that are no JSON body of the form are none. It takes time linear in the bytes, and for their keys the time
/// of sorting them.
pub(crate) fn json_cause(alloc: Global, form: JsonForm, body: &[u8]) -> Result<JsonCause, NoRoom> {
    match Value::from_slice(alloc, body) {
        Ok(value) => Ok(data_cause(form, &value)),
        Err(error) if error.is_memory() => Err(NoRoom),
        Err(error) => text_cause(alloc, body, &error),
    }
}
