//! What is wrong with a record at fault of a HOT file, from the record and the state before it.

ghost use Rattle.std.specs.Prelude.{◌≡◌, ◌+◌, ◌<◌, ◌^◌, ◌++◌, ℕ, List, length, codes};
ghost use Rattle.std.specs.Str.{bytes_eq};
ghost use Rattle.bsp_fields.specs.Columns.{columns};
ghost use Rattle.bsp_fields.specs.Lines.{lines};
ghost use Rattle.bsp_explain.specs.Lines.{IsLine};
ghost use Rattle.bsp_hot_check.specs.Standings.{IsSmall};
ghost use Rattle.bsp_hot_explain.specs.HotReasons.{SaysOfHot, record_name};

use crate::comparison::say_bytes;
use crate::hot_reasons::{hot_reason, record_name};
use crate::kind::Kind;
use crate::next::Expected;
use crate::reason::{HotReason, Shortness};
use bsp_explain::{Words, long_reason, say_columns};
use bsp_fields::first_line;
use bsp_hot_check::Standing;
use bsp_hot_records::RecordName;
use std::fmt;

/// What is wrong with a record of a HOT file. It is displayed as `record 16 (BOT94), columns 30-44: CA
/// is 0.00, and the items give 285.00`, and after that what to do.
#[derive(Clone, Copy)]
pub struct HotExplanation {
    /// The number of the record, counted from 1.
    pub record: usize,
    /// Its name, where it has one.
    pub name: Option<RecordName>,
    /// What is wrong with it.
    pub reason: HotReason,
}

/// Why a line has fewer characters than a record, where it may be one. `rest` is the text from the line
/// on, and `after` the text after it.
fn shortness(line: &[u8], rest: &[u8], after: &[u8]) -> Option<Shortness> {
    if line.len() >= 136 {
        return None;
    }
    if after.is_empty() && rest.len() == line.len() {
        return Some(Shortness::Cut);
    }
    match record_name(line) {
        Some(_) => Some(Shortness::Trimmed),
        None => None,
    }
}

/// Whether a line may be the first of a HOT file, by its letters.
fn begins_file(line: &[u8]) -> bool
    ensures { result ≡ bytes_eq (columns 1 3 line.now) (codes "BFH") }
{
    line.len() >= 3 && &line[..3] == b"BFH".as_slice()
}

/// What is wrong with the first line of a text after the records of this state.
fn line_reason(at: &Standing, line: &[u8], rest: &[u8], after: &[u8]) -> HotReason
    requires small { IsSmall at.now }
    requires room { at.now.records < 2 ^ 63 }
    ensures { SaysOfHot at.now line.now result }
{
    let Some(reason) = hot_reason(at, line) else {
        return HotReason::NotFound;
    };
    if at.records == 0 && !begins_file(line) {
        return HotReason::Foreign(Kind::of(rest));
    }
    let width = line.len();
    if width == 136 {
        return reason;
    }
    match shortness(line, rest, after) {
        Some(shortness) => HotReason::Short { width, shortness },
        None => reason,
    }
}

/// What is missing after the records of this state, where a text ends there.
fn missing(at: &Standing) -> HotReason {
    if at.records == 0 {
        HotReason::Foreign(Kind::Empty)
    } else {
        HotReason::Missing(Expected::of(at))
    }
}

/// Says the number of a record, and the letters and the digits of its name, as `record 16 (BKS24)`, where it has one.
fn say_record(words: &mut Words, number: usize, name: Option<RecordName>) {
    words.add("record ");
    words.show(number);
    if let Some(name) = name {
        words.add(" (");
        say_bytes(words, &name.letters());
        say_bytes(words, &name.digits());
        words.add(")");
    }
}

impl fmt::Display for HotExplanation {
    fn fmt<W: fmt::Write>(&self, f: &mut fmt::Formatter<W>) -> fmt::Result {
        let mut words = Words::new();
        say_record(&mut words, self.record, self.name);
        say_columns(&mut words, self.reason.columns());
        words.add(": ");
        self.reason.say(&mut words);
        f.write_str(words.text())
    }
}

/// Explains a line that the records of this state do not allow. `rest` is the text from the line on, or so much of
/// it that the end of the line is in it.
pub fn explain_line(at: &Standing, rest: &[u8]) -> HotExplanation
    requires some { 0 < length rest.now }
    requires small { IsSmall at.now }
    requires room { at.now.records < 2 ^ 63 }
    ensures number { result.record ≡ at.now.records + 1 }
    // The name is that of the line, and the reason is true of it, after the records before it.
    ensures name { (line : List ℕ) → IsLine 0 (lines rest.now) line → result.name ≡ record_name line }
    ensures says { (line : List ℕ) → IsLine 0 (lines rest.now) line → SaysOfHot at.now line result.reason }
{
    let (line, after) = first_line(rest);
    let reason = line_reason(at, line, rest, after);
    HotExplanation {
        record: at.records + 1,
        name: record_name(line),
        reason,
    }
}

/// What is wrong with a line of more characters than a record has, of which these are the first.
fn long_line_reason(at: &Standing, head: &[u8], width: usize) -> HotReason
    requires long { 136 < width }
    requires head { 12 < length head.now }
    ensures { (more : List ℕ) → length (head.now ++ more) ≡ width → SaysOfHot at.now (head.now ++ more) result }
{
    if at.records == 0 && !begins_file(head) {
        return HotReason::Foreign(Kind::of(head));
    }
    HotReason::Form(long_reason(head, width))
}

/// Explains a line of so many characters, more than a record has, of which these are the first.
pub fn explain_long(at: &Standing, head: &[u8], width: usize) -> HotExplanation
    requires long { 136 < width }
    requires head { 12 < length head.now }
    requires room { at.now.records < 2 ^ 63 }
    ensures number { result.record ≡ at.now.records + 1 }
    ensures name { (more : List ℕ) → result.name ≡ record_name (head.now ++ more) }
    ensures says { (more : List ℕ) → length (head.now ++ more) ≡ width → SaysOfHot at.now (head.now ++ more) result.reason }
{
    HotExplanation {
        record: at.records + 1,
        name: record_name(head),
        reason: long_line_reason(at, head, width),
    }
}

/// Explains that a text ends before the next record, after the records of this state.
pub fn explain_missing(at: &Standing) -> HotExplanation
    requires room { at.now.records < 2 ^ 63 }
    ensures number { result.record ≡ at.now.records + 1 }
{
    HotExplanation {
        record: at.records + 1,
        name: None,
        reason: missing(at),
    }
}
