//! What is wrong with a value of a plan text.

use crate::keys::{Form, Key, are_digits};
use crate::words::Words;
use toml::Value;

/// Whether a text has the form of a day: digits and dashes.
fn is_like_a_day(text: &[u8]) -> bool {
    text.len() == 10
        && text[4] == b'-'
        && text[7] == b'-'
        && are_digits(&text[..4])
        && are_digits(&text[5..7])
        && are_digits(&text[8..])
}

/// Why a text in quotes is no day.
fn day_fault(day: &[u8]) -> &'static str {
    if !is_like_a_day(day) {
        ", and not a day as \"2024-01-05\""
    } else if day.starts_with(b"20") {
        ", which is no day of the calendar"
    } else {
        ", and not of the years 2000 to 2099"
    }
}

/// What is said of the form that a value is not in.
fn wanted_text(form: Form, value: &Value) -> &'static str {
    match form {
        Form::Number(low, _) if low == 0 && value.as_str().is_none() =>
            ", and not {}: 5.00 percent is 500",
        Form::Number(_, _) if value.is_float() => ", and not {}, without a point",
        _ => ", and not {}",
    }
}

/// Says why a value that is written in this way is not in its form.
fn say_value(words: &mut Words, form: Form, value: &Value, written: &[u8]) {
    match (form, value.as_str()) {
        (Form::Day, Some(day)) => words.add(day_fault(day.as_bytes()).as_bytes()),
        (Form::Number(_, _), Some(text)) if are_digits(text.as_bytes()) => {
            words.quote(" in quotes, and not {}", &[form.wanted().as_bytes()]);
            words.quote(", as {}", &[text.as_bytes()]);
        }
        (form, None) if form.fits_text(written) => {
            words.quote(" without quotes: write \"{}\"", &[written]);
        }
        _ => words.quote(wanted_text(form, value), &[form.wanted().as_bytes()]),
    }
}

/// Says why the value at a key is wrong, of which this is written, if it is known.
pub(crate) fn say_wrong(words: &mut Words, key: Key, value: &Value, written: Option<&str>) {
    words.add(key.name.as_bytes());
    if let Some(written) = written {
        let written = written.as_bytes();
        words.quote(" is {}", &[written]);
        say_value(words, key.form, value, written);
    } else {
        let wanted = key.form.wanted().as_bytes();
        words.quote(" is wrong: it is {}", &[wanted]);
    }
}
