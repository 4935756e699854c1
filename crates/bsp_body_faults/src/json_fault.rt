//! Why a JSON body is malformed, as people read it.

use crate::form::JsonForm;
use crate::key::Key;
use crate::kind::JsonKind;
use crate::syntax::{Found, Place};
use crate::value_fault::{Shown, ValueFault};
use crate::words::Words;

/// Why bytes are no JSON body of a form.
#[derive(Clone, Copy)]
pub enum JsonCause {
    /// There are no bytes.
    Empty,
    /// They begin with the byte order mark of UTF-8, which an editor wrote.
    ByteOrderMark,
    /// They are not UTF-8.
    NotUtf8,
    /// They are no JSON text, or one that nests deeper than 127.
    NotJson(Place, Found),
    /// They are a JSON text, which ends before this place, and more.
    MoreFollows(Place),
    /// They are a value of this kind, and no object.
    NotObject(JsonKind),
    /// A key of this name, where it can be shown, is none of the form.
    UnknownKey(Option<Shown>),
    /// The key is missing.
    Missing(Key),
    /// The value of the key is none that it has.
    Value(Key, ValueFault),
}

/// Why bytes are no JSON body of this form. It is said as `day is "2024-02-30", which is no day of the calendar`.
#[derive(Clone, Copy)]
pub struct JsonFault {
    /// The form that the body has to have.
    pub form: JsonForm,
    /// The cause.
    pub cause: JsonCause,
}

/// Says a body of the form.
fn say_body(words: &mut Words, form: JsonForm) {
    let mut mark = ": {\"";
    for key in form.keys() {
        words.add_all(&[mark, key.name(), "\":", key.example()]);
        mark = ",\"";
    }
    words.add("}");
}

/// What comes before a key where `count` keys are said.
fn mark_before(place: usize, count: usize) -> &'static str {
    if place == 0 {
        ": the body has exactly "
    } else if place.saturating_add(1) == count {
        " and "
    } else {
        ", "
    }
}

/// Says the keys of the form, as `: the body has exactly agent, first and last`.
fn say_keys(words: &mut Words, form: JsonForm) {
    let keys = form.keys();
    for (place, key) in keys.iter().enumerate() {
        words.add_all(&[mark_before(place, keys.len()), key.name()]);
    }
}

/// Says that bytes are no JSON text, by what is found at a place.
fn say_not_json(words: &mut Words, place: Place, found: Found) {
    words.add("the body is no JSON text (");
    match found {
        Found::End => {
            words.add("it ends at ");
            words.show(place);
        }
        _ => {
            words.show(place);
            words.add(" has ");
            words.show(found);
        }
    }
    words.add(")");
}

impl JsonCause {
    /// What is said of a cause that shows nothing of the bytes and names no key.
    fn text(&self) -> &'static str {
        match self {
            JsonCause::Empty => "the body is empty",
            JsonCause::ByteOrderMark => {
                "the body begins with a byte order mark: save it without one"
            }
            JsonCause::NotUtf8 => "the body is no UTF-8: save it as UTF-8",
            // (`UnknownKey`: `say` says all others)
            _ => "a key is unknown",
        }
    }

    /// Says the cause.
    fn say(&self, words: &mut Words) {
        match self {
            JsonCause::NotJson(place, found) => say_not_json(words, *place, *found),
            JsonCause::MoreFollows(place) => {
                words.add("text follows the object (");
                words.show(*place);
                words.add(")");
            }
            JsonCause::NotObject(kind) => {
                words.add_all(&["the body is ", kind.text(), ", and not one object"]);
            }
            JsonCause::UnknownKey(Some(name)) => {
                words.add(name.as_str());
                words.add(" is unknown");
            }
            JsonCause::Missing(key) => {
                let (name, form) = (key.name(), key.form());
                words.add_all(&[name, " is missing: it is ", key.before_form(), form]);
            }
            JsonCause::Value(key, fault) => fault.say(words, *key),
            _ => words.add(self.text()),
        }
    }
}

impl JsonFault {
    /// Says the cause, and where it shows nothing of the form, what the form is.
    pub(crate) fn say(&self, words: &mut Words) {
        self.cause.say(words);
        match self.cause {
            JsonCause::Empty | JsonCause::NotJson(..) | JsonCause::NotObject(_) => {
                say_body(words, self.form);
            }
            JsonCause::UnknownKey(_) => say_keys(words, self.form),
            _ => {}
        }
    }
}
