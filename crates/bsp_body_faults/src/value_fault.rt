//! What is wrong with the value of a key.

use crate::key::Key;
use crate::kind::JsonKind;
use crate::words::Words;
use std::fmt::InlineText;

/// A text of less than 16 characters, so that it is no token, or the front of one.
pub type Shown = InlineText<15>;

/// What is wrong with the value of a key.
#[derive(Clone, Copy)]
pub enum ValueFault {
    /// It is of another kind than the key has.
    Kind(JsonKind),
    /// It is this number, and the key has a text.
    Unquoted(Shown),
    /// It is this text, and the key has a number.
    Quoted(Shown),
    /// It is this text, which is not in the form of the key.
    Text(Shown),
    /// It is this text, which has the form of a day, and is none of the calendar.
    NotDay(Shown),
    /// It is a text of so many characters, and the key has others.
    Width(usize),
    /// It is a text with a character that the key does not have.
    Character,
    /// It is a number with a point or an exponent.
    NotWhole,
    /// It is `-0`.
    MinusZero,
    /// It is a number that does not fit 64 bits with a sign.
    TooLarge,
}

/// What is said further of a text that is not in the form of a key.
fn text_remark(key: Key, text: &str) -> &'static str {
    match key {
        Key::Document | Key::First | Key::Last if text.len() == 11 => ": it has no check digit",
        _ => "",
    }
}

/// What is said of a value with a character that the key does not have, in two pieces.
fn character_text(key: Key) -> (&'static str, &'static str) {
    match key {
        Key::Token => (
            " has another character than letters A to Z, a to z and digits",
            "",
        ),
        Key::Reason => (" has a character that is not from space to ~", ""),
        Key::Day | Key::Kind => (" is not ", key.form()),
        _ => (" has a character that is not a digit", ""),
    }
}

/// Says how many characters the value of a key has, and how many it has to have.
fn say_width(words: &mut Words, key: Key, count: usize) {
    words.add(" has ");
    words.show(count);
    words.add(if count == 1 {
        " character"
    } else {
        " characters"
    });
    words.add_all(&[", and not ", key.width()]);
}

/// Says that the value of a key is this number, and no text.
fn say_unquoted(words: &mut Words, text: &str) {
    words.add(" is ");
    words.add(text);
    words.add(" without quotes: write \"");
    words.add(text);
    words.add("\"");
}

/// Says that the value of a key is this text, and these texts after it.
fn say_text(words: &mut Words, text: &str, after: &[&'static str]) {
    words.add(" is \"");
    words.add(text);
    words.add_all(after);
}

impl ValueFault {
    /// Says a fault of which no text and no number is shown.
    fn say_unshown(&self, words: &mut Words, key: Key) {
        let form = key.form();
        match self {
            ValueFault::NotWhole => {
                words.add_all(&[" has a point or an exponent, and is not ", form]);
            }
            ValueFault::MinusZero => words.add_all(&[" is -0, and not ", form, ": write 0"]),
            ValueFault::Character => {
                let (start, end) = character_text(key);
                words.add_all(&[start, end]);
            }
            // (`TooLarge`: `say` says the others)
            _ => words.add(
                " is not from -9223372036854775808 to 9223372036854775807, as 64 bits hold it",
            ),
        }
    }

    /// Says the key and the fault, which its value has.
    pub(crate) fn say(&self, words: &mut Words, key: Key) {
        words.add(key.name());
        let form = key.form();
        match self {
            ValueFault::Kind(kind) => {
                words.add_all(&[" is ", kind.text(), ", and not ", key.before_form(), form]);
            }
            ValueFault::Width(count) => say_width(words, key, *count),
            ValueFault::Unquoted(text) => say_unquoted(words, text.as_str()),
            ValueFault::Quoted(text) => {
                say_text(words, text.as_str(), &["\" in quotes, and not ", form]);
            }
            ValueFault::Text(text) => {
                let text = text.as_str();
                say_text(words, text, &["\", and not ", form, text_remark(key, text)]);
            }
            ValueFault::NotDay(text) => {
                say_text(
                    words,
                    text.as_str(),
                    &["\", which is no day of the calendar"],
                );
            }
            _ => self.say_unshown(words, key),
        }
    }
}
