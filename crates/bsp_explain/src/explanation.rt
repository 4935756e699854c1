//! Explanations as people read them.

ghost use Rattle.std.specs.Prelude.{◌≡◌, ◌≢◌, ◌+◌, ◌++◌, ◌≤◌, ◌<◌, ◌^◌, ℕ, List, length, true, None, Err, IfSome, IfNone, IfOk, IfErr};
ghost use Rattle.bsp_fields.specs.Lines.{lines};
ghost use Rattle.bsp_ret.specs.Table.{standing, first_fault, row_fault};
ghost use Rattle.bsp_ret.specs.Pieces.{IsClear};
ghost use Rattle.bsp_explain.specs.Lines.{IsLine};
ghost use Rattle.bsp_explain.specs.RetReasons.{Says, is_reason_of};
ghost use Rattle.bsp_explain.specs.RetFaults.{SaysOfRetFault};

use crate::field::Field;
use crate::form::Form;
use crate::hint::{Hint, hint_of, say_moved_day, say_short};
use crate::name::Name;
use crate::reason::Reason;
use crate::ret_reasons::{is_start, ret_reason};
use crate::width::long_reason;
use bsp_fault_texts::{Characters, Words};
use bsp_fields::first_line;
use bsp_ret::{FaultCode, Standing};
use std::fmt;

/// What is wrong with a record of a RET file. It is displayed as ``record 3, columns 32-33: tax place 2 has
/// `AB` after `RA` ``.
#[derive(Clone, Copy)]
pub struct Explanation {
    /// The number of the record, counted from 1.
    pub record: usize,
    /// What is wrong with it.
    pub reason: Reason,
    /// What the record has in the columns at fault, where that is shown.
    pub found: Option<Characters>,
    /// What the record shows of the mistake, where it shows more.
    pub hint: Option<Hint>,
}

/// What a line has in the columns at fault.
fn found_in(line: &[u8], reason: Reason) -> Option<Characters> {
    match reason.columns() {
        Some((first, last)) => Characters::between(line, first, last),
        None => None,
    }
}

/// What is wrong with a line by that row of the fault table, or that it has no such fault.
#[tactic(auto, using(crate::proofs::RowLemmas::row_is))]
fn line_reason(at: Standing, code: FaultCode, line: &[u8]) -> Reason
    requires room { at.records < 2 ^ 63 }
    requires counted { at.transactions ≤ at.records }
    ensures says { Says (at.records + 1) at line.now result }
    ensures row { row_fault at line.now ≡ Err code → is_reason_of code result ≡ true }
{
    match ret_reason(at, code, line) {
        Some(reason) => reason,
        None => Reason::NotFound,
    }
}

/// Explains the line with which a text begins, which the records of this state do not allow, by that row of the
/// fault table.
pub fn explain_line(at: &Standing, code: FaultCode, text: &[u8]) -> Explanation
    requires some { 0 < length text.now }
    requires room { at.now.records < 2 ^ 63 }
    requires counted { at.now.transactions ≤ at.now.records }
    ensures number { result.record ≡ at.now.records + 1 }
    // The reason is true of the line, after the records before it.
    ensures says { (line : List ℕ) → IsLine 0 (lines text.now) line → Says (at.now.records + 1) at.now line result.reason }
    // Where the line is at fault in that row, the reason is one of the row.
    ensures row { (line : List ℕ) → IsLine 0 (lines text.now) line → row_fault at.now line ≡ Err code → is_reason_of code result.reason ≡ true }
{
    let (line, _) = first_line(text);
    let reason = line_reason(*at, code, line);
    Explanation {
        record: at.records + 1,
        reason,
        found: found_in(line, reason),
        hint: hint_of(line, is_start(*at), reason),
    }
}

/// What is wrong with a line of so many characters, of which these are the first.
fn long_line_reason(code: FaultCode, head: &[u8], width: usize) -> Reason
    requires other { width ≢ 136 }
    ensures says { (at : Standing) (more : List ℕ) → length (head.now ++ more) ≡ width → Says (at.records + 1) at (head.now ++ more) result }
    ensures row { (at : Standing) (more : List ℕ) → length (head.now ++ more) ≡ width → row_fault at (head.now ++ more) ≡ Err code → is_reason_of code result ≡ true }
{
    match code {
        FaultCode::F09 => Reason::AfterTrailer { width },
        _ => long_reason(head, width),
    }
}

/// Explains a line of so many characters, which are not as many as a record has, by that row of the fault table. These
/// are the first of them.
pub fn explain_long(at: &Standing, code: FaultCode, head: &[u8], width: usize) -> Explanation
    requires other { width ≢ 136 }
    requires room { at.now.records < 2 ^ 63 }
    ensures number { result.record ≡ at.now.records + 1 }
    ensures says { (more : List ℕ) → length (head.now ++ more) ≡ width → Says (at.now.records + 1) at.now (head.now ++ more) result.reason }
    ensures row { (more : List ℕ) → length (head.now ++ more) ≡ width → row_fault at.now (head.now ++ more) ≡ Err code → is_reason_of code result.reason ≡ true }
{
    Explanation {
        record: at.records + 1,
        reason: long_line_reason(code, head, width),
        found: None,
        hint: None,
    }
}

/// Explains that a file ends without a trailer, after the records of this state.
pub fn explain_missing(at: &Standing) -> Explanation
    requires { at.now.records < 2 ^ 63 }
    ensures number { result.record ≡ at.now.records + 1 }
    // The trailer has to state what is counted in the records.
    ensures trailer { result.reason ≡ Reason.NoTrailer (at.now.records + 1) at.now }
{
    let records = at.records + 1;
    Explanation {
        record: records,
        reason: Reason::NoTrailer { records, at: *at },
        found: None,
        hint: None,
    }
}

/// Judges the lines of a text. Answers their state.
///
/// # Errors
///
/// The explanation of the first line that those before it do not allow.
fn judge_lines(text: &[u8]) -> Result<Standing, Explanation>
    ensures state { IfOk result (λ at. at ≡ standing (lines text.now)) }
    ensures clear { IfOk result (λ at. IsClear (lines text.now)) }
    ensures few { IfOk result (λ at. at.records < 2 ^ 63) }
    ensures explained { IfErr result (SaysOfRetFault (lines text.now)) }
{
    let mut at = Standing::start();
    let mut rest = text;
    while !rest.is_empty() {
        let (line, after) = first_line(rest);
        match at.step(line) {
            Ok(_) => {}
            Err(code) => return Err(explain_line(&at, code, rest)),
        }
        rest = after;
    }
    Ok(at)
}

/// Explains the first fault of the text of a RET file, if it has one.
pub fn explain_ret(text: &[u8]) -> Option<Explanation>
    ensures explained { IfSome result (SaysOfRetFault (lines text.now)) }
    ensures none { IfNone result (first_fault (lines text.now) ≡ None) }
{
    let at = match judge_lines(text) {
        Ok(at) => at,
        Err(explanation) => return Some(explanation),
    };
    if at.last.has_ended() {
        None
    } else {
        Some(explain_missing(&at))
    }
}

/// Says the columns at fault, where it is not the whole record.
pub fn say_columns(words: &mut Words, columns: Option<(u8, u8)>) {
    let Some((first, last)) = columns else {
        return;
    };
    words.add(if first == last {
        ", column "
    } else {
        ", columns "
    });
    words.show(first);
    if first != last {
        words.add("-");
        words.show(last);
    }
}

/// Says a field, its characters, and this of them.
fn say_found(words: &mut Words, field: Field, found: Characters, text: &str) {
    field.name.say(words);
    words.add(" ");
    found.say(words);
    words.add(text);
}

/// Says a field that has not this many characters of a kind, with those that it has.
fn say_kind(words: &mut Words, field: Field, found: Characters, kind: &str) {
    say_found(words, field, found, " is not ");
    words.show(field.last.saturating_sub(field.first).saturating_add(1));
    words.add(kind);
}

/// Says a field of letters or digits, or of another form, that is not in it, with its characters.
fn say_characters(words: &mut Words, field: Field, found: Characters) {
    match (field.form, field.name) {
        (Form::Digits, _) if field.first == field.last => {
            say_found(words, field, found, " is not a digit");
        }
        (Form::Digits, _) => say_kind(words, field, found, " digits"),
        (Form::Letters, _) => say_kind(words, field, found, " capital letters"),
        (Form::LettersOrDigits, Name::CardVendor) => {
            let text = " is not 2 digits or capital letters, as `VI`: with CC comes the card";
            say_found(words, field, found, text);
        }
        (Form::LettersOrDigits, _) => {
            say_kind(words, field, found, " digits or capital letters");
        }
        (form, _) => {
            say_found(words, field, found, " ");
            form.say(words);
        }
    }
}

/// Says that a tax code does not come after the one before it, which is this as a number.
fn say_order(words: &mut Words, field: Field, found: Characters, before: u16) {
    field.name.say(words);
    words.add(" has ");
    found.say(words);
    words.add(" after `");
    words.show((before / 256) as u8 as char);
    words.show((before % 256) as u8 as char);
    words.add("`: codes rise, and each comes once");
}

/// Says that columns have something, where only spaces may be.
fn say_unused(words: &mut Words, found: Characters) {
    words.add("only spaces may be here, and column ");
    words.show(found.first);
    words.add(" begins `");
    words.add(found.trimmed());
    words.add("`");
}

/// Says that a field is not in its form, with its characters.
fn say_field(words: &mut Words, field: Field, found: Characters) {
    match (field.form, field.name) {
        (Form::HeaderMark, _) if found.has_any(b"B") => {
            let text = " is not `1`: a HOT file begins so, and `hotcheck` reads it";
            say_found(words, field, found, text);
        }
        (Form::Above(before), _) => say_order(words, field, found, before),
        (Form::Unused, _) if field.last == 96 => {
            say_characters(words, field, found);
            words.add(", and the rate begins in column 97");
        }
        (Form::Spaces, Name::CardVendor) => {
            let text = " is not spaces: only a record 8 with CC has a card";
            say_found(words, field, found, text);
        }
        (Form::Spaces, _) => say_unused(words, found),
        _ => say_characters(words, field, found),
    }
}

/// Says that the transaction number is not the next one, with its characters.
fn say_number(words: &mut Words, found: Characters, next: usize) {
    words.add("the transaction number ");
    found.say(words);
    words.add(" is not ");
    words.show_padded(next, 6);
    words.add(
        ": records 2 rise by one from 000001, and records 3, 5 and 8 have the number of their record 2",
    );
}

/// Says that a related document is not above the one before it, with its characters.
fn say_related(words: &mut Words, found: Characters) {
    words.add("the related document ");
    found.say(words);
    words.add(
        " is not above that of the record 3 before it, by airline and number: exchange the two, or take out the second",
    );
}

impl Explanation {
    /// Says what is wrong with the record, with the characters that show it.
    fn say_reason(&self, words: &mut Words) {
        match (self.reason, self.found, self.hint) {
            (Reason::Unfit(field), Some(found), Some(hint)) => {
                say_moved_day(words, field, found, hint);
            }
            (Reason::Unfit(field), Some(found), None) => say_field(words, field, found),
            (Reason::TransactionNumber(next), Some(found), _) => say_number(words, found, next),
            (Reason::RelatedOrder, Some(found), _) => say_related(words, found),
            (Reason::Width { .. }, _, Some(Hint::Short(field))) => say_short(words, field),
            (reason, _, _) => reason.say(words),
        }
    }
}

impl fmt::Display for Explanation {
    fn fmt<W: fmt::Write>(&self, f: &mut fmt::Formatter<W>) -> fmt::Result {
        let mut words = Words::new();
        words.add("record ");
        words.show(self.record);
        say_columns(&mut words, self.reason.columns());
        words.add(": ");
        self.say_reason(&mut words);
        f.write_str(words.text())
    }
}
