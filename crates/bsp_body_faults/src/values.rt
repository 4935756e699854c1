//! Whether a JSON value is one of its key.

use crate::key::Key;
use crate::kind::JsonKind;
use crate::value_fault::{Shown, ValueFault};
use bsp_fields::{AirlineCode, Day, DocNumber, FieldFault, PeriodCode, Token};
use bsp_memos::{MemoKind, Reason};
use bsp_messages::StatedAgent;
use serde_json::{Number, Value};
use std::fmt::InlineText;

/// Whether a character is shown: from 0x20 to 0x7E, and none that JSON writes in another way.
fn is_shown(byte: u8) -> bool {
    b' ' <= byte && byte <= b'~' && byte != b'"' && byte != b'\\'
}

/// A text that is shown, or its front.
pub(crate) fn shown(text: &str) -> Option<Shown> {
    if text.bytes().all(is_shown) {
        return Some(InlineText::of(text));
    }
    None
}

/// What is wrong with a text that is not in the form of a key that has texts of less than 16 characters.
fn form_fault(text: &str) -> ValueFault {
    match shown(text) {
        None => ValueFault::Character,
        Some(_) if text.len() > 15 => ValueFault::Width(text.len()),
        Some(shown) => ValueFault::Text(shown),
    }
}

/// Whether a text has digits alone.
fn are_digits(text: &[u8]) -> bool {
    text.iter().all(|byte| byte.is_ascii_digit())
}

/// Whether the text has the form of YYYY-MM-DD.
fn has_day_form(text: &[u8]) -> bool {
    text.len() == 10
        && text[4] == b'-'
        && text[7] == b'-'
        && are_digits(&text[..4])
        && are_digits(&text[5..7])
        && are_digits(&text[8..])
}

/// What is wrong with a text that is no day.
fn day_fault(text: &str) -> ValueFault {
    match form_fault(text) {
        ValueFault::Text(shown) if has_day_form(text.as_bytes()) && text.starts_with("20") => {
            ValueFault::NotDay(shown)
        }
        fault => fault,
    }
}

/// What is wrong with a text that is no token.
fn token_fault(text: &str) -> ValueFault {
    if text.bytes().all(|byte| byte.is_ascii_alphanumeric()) {
        return ValueFault::Width(text.len());
    }
    ValueFault::Character
}

/// What is wrong with a text that is no reason.
fn reason_fault(text: &str) -> ValueFault {
    if text.bytes().all(|byte| b' ' <= byte && byte <= b'~') {
        return ValueFault::Width(text.len());
    }
    ValueFault::Character
}

/// Whether a text is a value of a key. Of `amount`, which has a number, it is not asked.
fn is_text_of(key: Key, text: &str) -> bool {
    let bytes = text.as_bytes();
    match key {
        Key::Agent => StatedAgent::read(bytes).is_some(),
        Key::Airline => AirlineCode::read(bytes).is_ok(),
        Key::Period => PeriodCode::read(bytes).is_ok(),
        Key::Document | Key::First | Key::Last => DocNumber::read_unchecked(bytes).is_ok(),
        Key::Day => Day::read_text(bytes).is_ok(),
        Key::Kind => MemoKind::read(text).is_some(),
        Key::Reason => Reason::read(bytes).is_some(),
        Key::Token => Token::read(bytes).is_some(),
        Key::Amount => true,
    }
}

/// What is wrong with a text as the value of a key, if anything.
fn text_fault(key: Key, text: &str) -> Option<ValueFault> {
    if is_text_of(key, text) {
        return None;
    }
    Some(match key {
        Key::Day => day_fault(text),
        Key::Reason => reason_fault(text),
        Key::Token => token_fault(text),
        _ => form_fault(text),
    })
}

/// What is wrong with a number that is no whole one of 64 bits with a sign.
fn number_fault(number: &Number) -> ValueFault {
    if number.as_u64().is_some() {
        return ValueFault::TooLarge;
    }
    match number.as_f64() {
        Some(value) if value == 0.0 && value.is_sign_negative() => ValueFault::MinusZero,
        Some(value) if value.abs() >= 9223372036854775808.0 => ValueFault::TooLarge,
        _ => ValueFault::NotWhole,
    }
}

/// What is wrong with a text in the place of an amount.
fn quoted_fault(text: &str) -> ValueFault {
    match shown(text) {
        Some(shown) if text.len() <= 15 => ValueFault::Quoted(shown),
        _ => ValueFault::Kind(JsonKind::Text),
    }
}

/// What is wrong with the value of `amount`, if anything.
fn amount_fault(value: &Value) -> Option<ValueFault> {
    match value {
        Value::Number(number) => match number.as_i64() {
            Some(_) => None,
            None => Some(number_fault(number)),
        },
        Value::String(text) => Some(quoted_fault(text.as_str())),
        other => Some(ValueFault::Kind(JsonKind::of(other))),
    }
}

/// What is wrong with a number in the place of a text. One that is a value of the key, but for its quotes, is shown,
/// unless the key is `token`.
fn unquoted_fault(key: Key, number: &Number) -> ValueFault {
    match number.as_u64() {
        Some(whole) if whole < 1_000_000_000_000_000 && !matches!(key, Key::Token) => {
            let digits = InlineText::of(whole);
            match text_fault(key, digits.as_str()) {
                None => ValueFault::Unquoted(digits),
                Some(_) => ValueFault::Kind(JsonKind::Number),
            }
        }
        _ => ValueFault::Kind(JsonKind::Number),
    }
}

/// What is wrong with a value as that of a key, if anything.
pub(crate) fn value_fault(key: Key, value: &Value) -> Option<ValueFault> {
    match (key, value) {
        (Key::Amount, _) => amount_fault(value),
        (_, Value::String(text)) => text_fault(key, text.as_str()),
        (_, Value::Number(number)) => Some(unquoted_fault(key, number)),
        (_, other) => Some(ValueFault::Kind(JsonKind::of(other))),
    }
}
