//! What a record shows of the mistake in it, beside its fault. It is for people.

use crate::field::Field;
use crate::form::Form;
use crate::reason::Reason;
use crate::ret_reasons::record_field;
use bsp_fault_texts::{Cause, Characters, Words};
use bsp_fields::is_record_day;

/// What a record shows of the mistake in it.
#[derive(Clone, Copy)]
pub enum Hint {
    /// The record is a character too short, and with a space at its end this field is the first that is not in its form.
    Short(Field),
    /// The columns that begin one later have a day.
    Later,
    /// The columns that begin one earlier have a day.
    Earlier,
}

/// Whether a line has a day in the six columns after so many.
fn has_day(line: &[u8], before: usize) -> bool {
    match line.get(before..before.saturating_add(6)) {
        Some(text) => is_record_day(text),
        None => false,
    }
}

/// Where the day of a field is that has none.
fn moved_day(line: &[u8], field: Field) -> Option<Hint> {
    let first = field.first as usize;
    match field.form {
        Form::Day if has_day(line, first) => Some(Hint::Later),
        Form::Day if has_day(line, first.saturating_sub(2)) => Some(Hint::Earlier),
        _ => None,
    }
}

/// The first field that is not in its form, of a line that is a character too short.
fn short_field(line: &[u8], is_first: bool) -> Option<Hint> {
    if line.len() != 135 {
        return None;
    }
    let mut padded = [b' '; 136];
    padded[..135].copy_from_slice(line);
    match record_field(is_first, &padded) {
        Some(field) => Some(Hint::Short(field)),
        None => None,
    }
}

/// What a line shows of its mistake. The first line of a file is its header.
pub(crate) fn hint_of(line: &[u8], is_first: bool, reason: Reason) -> Option<Hint> {
    match reason {
        Reason::Width {
            cause: Cause::Unknown,
            ..
        } => short_field(line, is_first),
        Reason::Unfit(field) => moved_day(line, field),
        _ => None,
    }
}

/// Says that a record is a character too short, of which that field is the first out of its form.
pub(crate) fn say_short(words: &mut Words, field: Field) {
    words.add("it has 135 characters, 1 too few: ");
    field.name.say(words);
    words.add(" in columns ");
    words.show(field.first);
    words.add("-");
    words.show(field.last);
    words.add(" is the first field out of its form, so it or one before it is too short");
}

/// The fields between the first column and a day that begins in that one: of record 2, or of the header.
fn fields_before(first: u8) -> &'static str {
    match first {
        34 => "number 2-7, code 8-11, agent 12-19, airline 20-22, document 23-32, check digit 33",
        _ => "system id 2-5",
    }
}

/// Says that a field has no day, which is a column away.
pub(crate) fn say_moved_day(words: &mut Words, field: Field, found: Characters, hint: Hint) {
    let (column, off) = match hint {
        Hint::Earlier => (field.first.saturating_sub(1), "short"),
        _ => (field.first.saturating_add(1), "long"),
    };
    field.name.say(words);
    words.add(" ");
    found.say(words);
    words.add(" is not a day YYMMDD, and a day begins in column ");
    words.show(column);
    words.add_all(&[": one of the fields before it is a column too ", off, " ("]);
    words.add_all(&[fields_before(field.first), ")"]);
}
