//! Why bytes are no TOML text: P01.

use crate::keys::are_digits;
use crate::words::{Shown, Words};
use crate::written::{header, key, line_of, value};
use std::str;
use toml::de::Error;

/// What is wrong with the coding of a text, or with the ends of its lines.
fn coding_fault(text: &[u8]) -> Option<&'static str> {
    if text.starts_with(b"\xff\xfe") || text.starts_with(b"\xfe\xff") {
        Some("the text is in UTF-16: save it as UTF-8")
    } else if text.contains(&0) {
        Some("the text has a byte 0, as UTF-16 has: save it as UTF-8")
    } else if text.contains(&b'\r') && !text.contains(&b'\n') {
        Some("the lines end by CR alone: end them by LF, or by CR and LF")
    } else {
        None
    }
}

/// The digits of a number that has zeros in front, without these.
fn without_zeros(value: &str) -> Option<&str> {
    let digits = value.strip_prefix('0')?;
    if digits.is_empty() || !are_digits(digits.as_bytes()) {
        return None;
    }
    match digits.trim_start_matches('0') {
        "" => Some("0"),
        rest => Some(rest),
    }
}

/// Whether a value is a word, or words.
fn is_bare(value: &str) -> bool {
    match value.as_bytes().first() {
        Some(first) => first.is_ascii_alphabetic() && !value.contains('"'),
        None => false,
    }
}

/// Says why a line has no value.
fn say_value(words: &mut Words, written: &str, message: &str) {
    let value = value(written).unwrap_or_default();
    let shown = value.as_bytes();
    if let Some(digits) = without_zeros(value) {
        let text = "{} has a zero in front: write {}";
        words.quote(text, &[shown, digits.as_bytes()]);
    } else if is_bare(value) {
        let text = "{} is no value: a text is in quotes, as \"{}\"";
        words.quote(text, &[shown, shown]);
    } else {
        words.add(message.as_bytes());
    }
}

/// Says that a key or a table comes twice.
fn say_twice(words: &mut Words, written: &str) {
    match header(written) {
        Some(name) => {
            let name = name.as_bytes();
            let text = "[{}] comes twice: write [[{}]] above each {}";
            words.quote(text, &[name, name, name]);
        }
        None => words.quote("{} comes twice", &[key(written).as_bytes()]),
    }
}

/// What people read in place of some messages.
fn plainer(message: &str) -> Option<&'static str> {
    if message.starts_with("invalid UTF-8") {
        Some("a character is no UTF-8: save the text as UTF-8")
    } else if message.starts_with("invalid string") {
        Some("a text has no quote at its end")
    } else if message.starts_with("missing comma between array") {
        Some("a comma is missing between two items of a list")
    } else {
        None
    }
}

/// Says what is wrong in a line, of which this comes from the fault on.
fn say_line(words: &mut Words, written: &str, rest: &str, message: &str) {
    if let Some(text) = plainer(message) {
        words.add(text.as_bytes());
    } else if message.starts_with("duplicate key") {
        say_twice(words, written);
    } else if message.starts_with("invalid value") {
        say_value(words, written, message);
    } else if message.starts_with("unexpected key or value") && value(written).is_some() {
        let text = "after the value comes \"{}\": a number has no comma, and a line has one key";
        words.quote(text, &[rest.as_bytes()]);
    } else {
        words.add(message.as_bytes());
        words.add(b": a plan is a TOML text, as currency = \"EUR\"");
    }
}

/// Says what is wrong at a place of a text.
fn say_at(words: &mut Words, text: &[u8], place: usize, message: &str) {
    let place = place.min(text.len());
    // The text before the fault is UTF-8.
    let before = str::from_utf8(&text[..place]).unwrap_or_default();
    let rest = str::from_utf8(&text[place..]).unwrap_or_default();
    let number = before.split('\n').count();
    words.say("line {}: ", &[Shown::Number(number as u64)]);
    let written = line_of(str::from_utf8(text).unwrap_or_default(), number);
    say_line(words, written, line_of(rest, 1).trim_ascii(), message);
}

/// Says why the bytes are no TOML text.
pub(crate) fn say_toml_fault(words: &mut Words, text: &[u8], error: &Error) {
    let message = error.message();
    match (coding_fault(text), error.span()) {
        (Some(fault), _) => words.add(fault.as_bytes()),
        (None, Some(span)) => say_at(words, text, span.start, message),
        (None, None) => words.add(message.as_bytes()),
    }
}
