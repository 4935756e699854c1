//! The first key of a plan text that is missing, unknown or wrong: P02.

use crate::keys::{Form, Key, PERIOD, RATE, TAX, TEXT, is_among, keys_of};
use crate::values::say_wrong;
use crate::words::{Shown, Words};
use crate::written::{Place, TOP, below_a_table, find_written};
use itoa::Buffer;
use std::str;
use toml::{Table, Value};

/// What is wrong with a table.
enum TableFault<'t> {
    NoTable,
    Unknown(&'t str),
    Missing(Key),
    Wrong(Key, &'t Value),
}

/// The first key of a table that is none of these.
fn unknown_key<'t>(table: &'t Table, keys: &[Key]) -> Option<&'t str> {
    for name in table.keys() {
        let name = name.as_str();
        if !is_among(keys, name) {
            return Some(name);
        }
    }
    None
}

/// What is wrong with the first of some keys that is not in its form.
fn keys_fault<'t>(table: &'t Table, keys: &[Key]) -> Option<TableFault<'t>> {
    for key in keys {
        match (table.get(key.name), key.form) {
            (Some(value), form) if !form.fits(value) => return Some(TableFault::Wrong(*key, value)),
            (Some(_), _) | (None, Form::List) => {}
            (None, _) => return Some(TableFault::Missing(*key)),
        }
    }
    None
}

/// What is wrong with a table, the items of its lists apart.
fn table_fault<'t>(table: &'t Table, keys: &[Key]) -> Option<TableFault<'t>> {
    match unknown_key(table, keys) {
        Some(name) => Some(TableFault::Unknown(name)),
        None => keys_fault(table, keys),
    }
}

/// What is wrong with an item of a list.
fn item_fault<'t>(value: &'t Value, keys: &[Key]) -> Option<TableFault<'t>> {
    match value.as_table() {
        Some(table) => table_fault(table, keys),
        None => Some(TableFault::NoTable),
    }
}

/// Says that a table has a key which it may not have.
fn say_unknown(words: &mut Words, list: &str, name: &str) {
    words.add(name.as_bytes());
    if !list.is_empty() && is_among(&TEXT, name) {
        words.add(b" is a key of the text: write it above the first table");
    } else {
        words.add(b" is unknown: ");
        words.add(keys_of(list).as_bytes());
    }
}

/// The line below the head of a table that has a key which the text itself lacks.
fn misplaced(text: &str, list: &str, key: Key) -> Option<usize> {
    if list.is_empty() {
        below_a_table(text, key.name)
    } else {
        None
    }
}

/// Says that a table lacks a key.
fn say_missing(words: &mut Words, text: &str, list: &str, key: Key) {
    let name = key.name.as_bytes();
    match misplaced(text, list, key) {
        Some(number) => {
            words.say("line {}: ", &[Shown::Number(number as u64)]);
            words.add(name);
            words.add(b" is below the head of a table: write it above the first table");
        }
        None => {
            let wanted = key.form.wanted().as_bytes();
            words.quote("{} is missing: it is {}", &[name, wanted]);
        }
    }
}

/// Says what is wrong with a table.
fn say_fault(words: &mut Words, text: &str, place: Place<'_>, fault: TableFault<'_>) {
    let list = place.list;
    match fault {
        TableFault::NoTable => {
            let text = "it is no table: write [[{}]] above its keys";
            words.quote(text, &[list.as_bytes()]);
        }
        TableFault::Unknown(name) => say_unknown(words, list, name),
        TableFault::Missing(key) => say_missing(words, text, list, key),
        TableFault::Wrong(key, value) => {
            say_wrong(words, key, value, find_written(text, place, key.name));
        }
    }
}

/// The code of a period, where it is one.
fn code_of(item: &Value) -> Option<&str> {
    match item.get("code") {
        Some(Value::String(code)) if Form::Period.fits_text(code.as_bytes()) => Some(code.as_str()),
        _ => None,
    }
}

/// Says the name of an item: the code of a period, or its number in the list.
fn say_name(words: &mut Words, place: Place<'_>, item: &Value) {
    words.add(place.list.as_bytes());
    if let Some(code) = code_of(item) {
        words.quote(" {}: ", &[code.as_bytes()]);
    } else {
        let number = (place.entry as u64).saturating_add(1);
        words.say(" {}: ", &[Shown::Number(number)]);
    }
}

/// Says what is wrong with the first item of a list that is at fault, and answers whether one is.
fn say_items(words: &mut Words, text: &str, list: &str, items: &[Value], keys: &[Key]) -> bool {
    for (entry, item) in items.iter().enumerate() {
        if let Some(fault) = item_fault(item, keys) {
            let place = Place { list, entry };
            say_name(words, place, item);
            say_fault(words, text, place, fault);
            return true;
        }
    }
    false
}

/// Says what is wrong with the list of tables at a key, and answers whether anything is.
fn say_list(words: &mut Words, text: &str, document: &Table, list: &str, keys: &[Key]) -> bool {
    match document.get(list) {
        Some(Value::Array(items)) => say_items(words, text, list, items, keys),
        Some(_) => {
            let name = list.as_bytes();
            let text = "{} is no list: write [[{}]] in place of [{}]";
            words.quote(text, &[name, name, name]);
            true
        }
        None => false,
    }
}

/// Says what is wrong with a number in the list of airlines.
fn say_number(words: &mut Words, number: i64) {
    let mut digits = Buffer::new();
    let digits = digits.format(number).as_bytes();
    if Form::Airline.fits_text(digits) {
        let text = "airline: {} has no quotes: write \"{}\"";
        words.quote(text, &[digits, digits]);
    } else {
        let text = "airline: {} is not {}";
        words.quote(text, &[digits, Form::Airline.wanted().as_bytes()]);
    }
}

/// Says what is wrong with an item of the list of airlines.
fn say_airline(words: &mut Words, item: &Value) {
    let wanted = Form::Airline.wanted().as_bytes();
    match item {
        Value::String(text) => {
            words.quote("airline: \"{}\" is not ", &[text.as_bytes()]);
            words.add(wanted);
        }
        Value::Integer(number) => say_number(words, *number),
        _ => words.quote("airline: each item is {}", &[wanted]),
    }
}

/// Says what is wrong with the list of airlines, and answers whether anything is.
fn say_airlines(words: &mut Words, document: &Table) -> bool {
    let Some(value) = document.get("airline") else {
        return false;
    };
    let Some(items) = value.as_array() else {
        words.add(b"airline is no list: it is as [\"125\", \"220\"]");
        return true;
    };
    for item in items {
        if !Form::Airline.fits(item) {
            say_airline(words, item);
            return true;
        }
    }
    false
}

/// Says what is wrong with the first list at fault, and answers whether one is.
fn say_lists(words: &mut Words, text: &str, document: &Table) -> bool {
    say_airlines(words, document)
        || say_list(words, text, document, "rate", &RATE)
        || say_list(words, text, document, "period", &PERIOD)
        || say_list(words, text, document, "commission_tax", &TAX)
}

/// Says what is wrong with the first key of a plan text that is missing, unknown or wrong.
pub(crate) fn say_document_fault(words: &mut Words, text: &[u8], document: &Table) {
    // It is UTF-8, as each TOML text is.
    let text = str::from_utf8(text).unwrap_or_default();
    match table_fault(document, &TEXT) {
        Some(fault) => say_fault(words, text, TOP, fault),
        None => {
            let _said = say_lists(words, text, document);
        }
    }
}
