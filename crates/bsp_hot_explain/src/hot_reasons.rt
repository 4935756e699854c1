//! What is wrong with a record of a HOT file, from the record and from the state of those before it.

ghost use Rattle.std.specs.Prelude.{◌≡◌, ◌+◌, ◌<◌, ◌^◌, length, true, false, None, IfSome, IfNone, IsSome};
ghost use Rattle.bsp_fields.specs.Columns.{columns, is_wide};
ghost use Rattle.bsp_hot_records.specs.Records.{name_of, fields_fit};
ghost use Rattle.bsp_hot_records.specs.Reading.{record_at};
ghost use Rattle.bsp_hot_check.specs.Standings.{form_at, step, IsSmall};
ghost use Rattle.bsp_hot_check.specs.Judging.{step_line};
ghost use Rattle.bsp_hot_explain.specs.HotReasons.{SaysOfNamed, SaysOfRecord, SaysOfStep, SaysOfHot, named_fits, record_name};

use crate::comparing::differing;
use crate::hot_fields::hot_field;
use crate::next::Expected;
use crate::placing::{is_in_order, is_in_place};
use crate::reason::{Disorder, HotReason};
use bsp_explain::{Reason, width_reason};
use bsp_fields::spells;
use bsp_hot_check::{DocumentKey, Standing};
use bsp_hot_records::{FileForm, Heading, Record, RecordName, read_record};

/// The names of records.
const NAMES: [RecordName; 14] = [
    RecordName::Bfh01,
    RecordName::Bch02,
    RecordName::Boh03,
    RecordName::Bkt06,
    RecordName::Bks24,
    RecordName::Bks30,
    RecordName::Bks39,
    RecordName::Bks42,
    RecordName::Bks45,
    RecordName::Bkp84,
    RecordName::Bot93,
    RecordName::Bot94,
    RecordName::Bct95,
    RecordName::Bft99,
];

/// The name of a record that has these digits.
fn name_of(digits: &[u8]) -> Option<RecordName>
    ensures { result ≡ name_of digits.now }
{
    for name in NAMES {
        if digits == name.digits().as_slice() {
            return Some(name);
        }
    }
    None
}

/// What is wrong with the letters or a field of a record whose digits are those of that name, in a
/// file of that form.
fn named_reason(form: FileForm, name: RecordName, line: &[u8]) -> Option<HotReason>
    requires { length line.now ≡ 136 }
    ensures some { IfSome result (λ reason. SaysOfNamed form name line.now reason × (named_fits form name line.now ≡ false)) }
    ensures none { IfNone result (named_fits form name line.now ≡ true) }
{
    if &line[..3] != name.letters().as_slice() {
        return Some(HotReason::NameLetters);
    }
    match hot_field(form, name, line) {
        Some(field) => Some(HotReason::Form(Reason::Unfit(field))),
        None => None,
    }
}

/// The sequence number that a record has.
fn sequence_of(line: &[u8]) -> [u8; 8]
    requires { length line.now ≡ 136 }
    ensures { result ≡ columns 4 11 line.now }
{
    [
        line[3], line[4], line[5], line[6], line[7], line[8], line[9], line[10],
    ]
}

/// What is wrong with a line as record number `number` of a HOT file of that form, whatever the lines
/// before it. `None` where it is a record with that number.
#[tactic(auto, using(crate::proofs::HotRows::narrow_record, crate::proofs::HotRows::other_number, crate::proofs::HotRows::no_name, crate::proofs::HotRows::unfit_record, crate::proofs::HotRows::fit_record))]
fn record_reason(form: FileForm, number: usize, line: &[u8]) -> Option<HotReason>
    // The reason is true of the line, and then the line is no record with that number.
    ensures says { IfSome result (SaysOfRecord form number line.now) }
    ensures refused { IfSome result (λ reason. record_at form number line.now ≡ None) }
    // There is a reason for each line that is none.
    ensures none { IfNone result (IsSome (record_at form number line.now)) }
    ensures wide { IfNone result (is_wide line.now ≡ true) }
    ensures long { IfNone result (length line.now ≡ 136) }
{
    if let Some(reason) = width_reason(line) {
        return Some(HotReason::Form(reason));
    }
    if !spells(number, &line[3..11]) {
        let stated = sequence_of(line);
        return Some(HotReason::Sequence {
            stated,
            next: number,
        });
    }
    match name_of(&line[11..13]) {
        Some(name) => named_reason(form, name, line),
        None => Some(HotReason::NameDigits),
    }
}

/// The form of the file. Before BFH01, which is the same in each form, it is form 1.
fn form_at(heading: Option<Heading>) -> FileForm
    ensures { result ≡ form_at heading }
{
    match heading {
        Some(heading) => heading.form,
        None => FileForm::One,
    }
}

/// What does not come after what, where a record does not come after the one before it.
fn disorder(at: &Standing, found: &Record) -> Disorder {
    match (found, at.agent, at.office.latest) {
        (Record::OfficeHeader(office), Some(before), _) => Disorder::Agents(office.agent, before),
        (Record::Document(document), _, Some(before)) => {
            let key = DocumentKey {
                code: document.code,
                number: document.number,
            };
            Disorder::Documents(key, before)
        }
        _ => Disorder::Unknown,
    }
}

/// Why a record is not allowed after those before it. `None` where it is.
#[tactic(auto, using(crate::proofs::Steps::out_of_place, crate::proofs::Steps::differing_stops, crate::proofs::Steps::out_of_order, crate::proofs::Steps::allowed_steps))]
fn step_reason(at: &Standing, found: &Record) -> Option<HotReason>
    requires small { IsSmall at.now }
    requires room { at.now.records < 2 ^ 63 }
    ensures says { IfSome result (SaysOfStep at.now found.now) }
    ensures refused { IfSome result (λ reason. step at.now found.now ≡ None) }
    ensures none { IfNone result (IsSome (step at.now found.now)) }
{
    if !is_in_place(at, found) {
        return Some(HotReason::Place(Expected::of(at)));
    }
    if let Some(comparison) = differing(at, found) {
        return Some(HotReason::Differs(comparison));
    }
    if !is_in_order(at, found) {
        return Some(HotReason::Order(disorder(at, found)));
    }
    None
}

/// What is wrong with a line after the records of this state. `None` where they allow it.
#[tactic(auto, using(crate::proofs::ReasonLemmas::of_record, crate::proofs::ReasonLemmas::no_record, crate::proofs::ReasonLemmas::of_step, crate::proofs::ReasonLemmas::refused_step, crate::proofs::ReasonLemmas::allowed_step))]
pub fn hot_reason(at: &Standing, line: &[u8]) -> Option<HotReason>
    requires small { IsSmall at.now }
    requires room { at.now.records < 2 ^ 63 }
    // The reason is true of the line, and then the records before it do not allow it.
    ensures says { IfSome result (SaysOfHot at.now line.now) }
    ensures refused { IfSome result (λ reason. step_line at.now line.now ≡ None) }
    // There is a reason for each line that they do not allow.
    ensures none { IfNone result (IsSome (step_line at.now line.now)) }
{
    let (form, number) = (form_at(at.heading), at.records + 1);
    if let Some(reason) = record_reason(form, number, line) {
        return Some(reason);
    }
    match read_record(form, number, line) {
        Some(record) => step_reason(at, &record),
        None => None,
    }
}

/// The name of a record, where it has one.
#[tactic(auto, unfolding(crate::specs::HotReasons::record_name))]
pub fn record_name(line: &[u8]) -> Option<RecordName>
    ensures { result ≡ record_name line.now }
{
    if line.len() < 13 {
        return None;
    }
    let Some(name) = name_of(&line[11..13]) else {
        return None;
    };
    if &line[..3] == name.letters().as_slice() {
        Some(name)
    } else {
        None
    }
}
