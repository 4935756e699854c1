//! What each record says that is judged, where its fields are in their form, by its columns.

ghost use Rattle.std.specs.Prelude.{◌≡◌, length, IfSome};
ghost use Rattle.bsp_hot_records.specs.declared.form.FileForm.{FileForm};
ghost use Rattle.bsp_hot_records.specs.Judged.{IsSmallRecord};
ghost use Rattle.bsp_hot_records.specs.Reading.{judged_if};

use crate::agent::AgentDigits;
use crate::fields::{
    airline_in, amount_in, code_of, count_in, currency_of, document_number_in, form_fits,
    number_in, period_in, tax_in, tax_places_fit, totals_in,
};
use crate::form::FileForm;
use crate::model::{
    CodeTotals, Document, FileTotals, Heading, OfficeHeader, OfficeTotals, Part, PartOf,
    PeriodTotals, Record, RelatedDocument, TransactionHeader,
};
use crate::name::RecordName;
use bsp_fields::{all_digits, all_letters, all_spaces, is_amount, is_record_day, spells_at_most};

#[tactic(auto, unfolding(crate::specs::Records::record_of, crate::specs::Records::fields_fit))]
fn file_header(line: &[u8]) -> Option<Record>
    requires { length line.now ≡ 136 }
    ensures value { (form : FileForm) → result ≡ judged_if form RecordName.Bfh01 line.now }
    ensures small { IfSome result IsSmallRecord }
{
    let Some(airline) = airline_in(&line[13..16]) else {
        return None;
    };
    let Some(period) = period_in(&line[16..21]) else {
        return None;
    };
    if !(is_record_day(&line[21..27]) && all_letters(&line[27..30])) {
        return None;
    }
    let Some(form) = FileForm::of(&line[30..37]) else {
        return None;
    };
    if !all_spaces(&line[37..136]) {
        return None;
    }
    Some(Record::FileHeader(Heading {
        airline,
        period,
        currency: currency_of(&line[27..30]),
        form,
    }))
}

#[tactic(auto, unfolding(crate::specs::Records::record_of, crate::specs::Records::fields_fit))]
fn period_header(line: &[u8]) -> Option<Record>
    requires { length line.now ≡ 136 }
    ensures value { (form : FileForm) → result ≡ judged_if form RecordName.Bch02 line.now }
    ensures small { IfSome result IsSmallRecord }
{
    let Some(period) = period_in(&line[13..18]) else {
        return None;
    };
    let fits = is_record_day(&line[18..24])
        && is_record_day(&line[24..30])
        && is_record_day(&line[30..36])
        && all_spaces(&line[36..136]);
    if !fits {
        return None;
    }
    Some(Record::PeriodHeader(period))
}

#[tactic(auto, unfolding(crate::specs::Records::record_of, crate::specs::Records::fields_fit))]
fn office_header(line: &[u8]) -> Option<Record>
    requires { length line.now ≡ 136 }
    ensures value { (form : FileForm) → result ≡ judged_if form RecordName.Boh03 line.now }
    ensures small { IfSome result IsSmallRecord }
{
    let Some(agent) = AgentDigits::read(&line[13..21]) else {
        return None;
    };
    let Some(period) = period_in(&line[21..26]) else {
        return None;
    };
    if !(all_letters(&line[26..29]) && all_spaces(&line[29..136])) {
        return None;
    }
    Some(Record::OfficeHeader(OfficeHeader {
        agent,
        period,
        currency: currency_of(&line[26..29]),
    }))
}

#[tactic(auto, unfolding(crate::specs::Records::record_of, crate::specs::Records::fields_fit))]
#[inline]
fn transaction_header(line: &[u8]) -> Option<Record>
    requires { length line.now ≡ 136 }
    ensures value { (form : FileForm) → result ≡ judged_if form RecordName.Bkt06 line.now }
    ensures small { IfSome result IsSmallRecord }
{
    let Some(transaction) = count_in(&line[13..21]) else {
        return None;
    };
    let Some(airline) = airline_in(&line[21..24]) else {
        return None;
    };
    if !all_spaces(&line[24..136]) {
        return None;
    }
    Some(Record::TransactionHeader(TransactionHeader {
        transaction,
        airline,
    }))
}

#[tactic(auto, unfolding(crate::specs::Records::record_of, crate::specs::Records::fields_fit))]
#[inline]
fn document(line: &[u8]) -> Option<Record>
    requires { length line.now ≡ 136 }
    ensures value { (form : FileForm) → result ≡ judged_if form RecordName.Bks24 line.now }
    ensures small { IfSome result IsSmallRecord }
{
    let Some(transaction) = count_in(&line[13..21]) else {
        return None;
    };
    if !is_record_day(&line[21..27]) {
        return None;
    }
    let Some(number) = document_number_in(&line[27..37]) else {
        return None;
    };
    if !all_digits(&line[37..38]) {
        return None;
    }
    let Some(code) = code_of(&line[38..42]) else {
        return None;
    };
    let agent = AgentDigits::read(&line[42..50])?;
    if !all_spaces(&line[99..136]) {
        return None;
    }
    Some(Record::Document(Document {
        transaction,
        agent,
        code,
        number,
    }))
}

#[tactic(auto, unfolding(crate::specs::Records::record_of, crate::specs::Records::fields_fit))]
#[inline]
fn amounts(line: &[u8]) -> Option<Record>
    requires { length line.now ≡ 136 }
    ensures value { (form : FileForm) → result ≡ judged_if form RecordName.Bks30 line.now }
    ensures small { IfSome result IsSmallRecord }
{
    let Some(transaction) = count_in(&line[13..21]) else {
        return None;
    };
    let fits = is_amount(&line[21..32]) && tax_places_fit(line) && all_spaces(&line[110..136]);
    if !fits {
        return None;
    }
    Some(Record::PartOf(PartOf {
        transaction,
        part: Part::Amounts(!all_spaces(&line[32..110])),
    }))
}

#[tactic(auto, unfolding(crate::specs::Records::record_of, crate::specs::Records::fields_fit))]
#[inline]
fn commission(line: &[u8]) -> Option<Record>
    requires { length line.now ≡ 136 }
    ensures value { (form : FileForm) → result ≡ judged_if form RecordName.Bks39 line.now }
    ensures small { IfSome result IsSmallRecord }
{
    let Some(transaction) = count_in(&line[13..21]) else {
        return None;
    };
    if !spells_at_most(10_000, &line[21..26]) {
        return None;
    }
    let Some(amount) = amount_in(&line[26..37]) else {
        return None;
    };
    if !all_spaces(&line[37..136]) {
        return None;
    }
    Some(Record::PartOf(PartOf {
        transaction,
        part: Part::Commission(amount),
    }))
}

#[tactic(auto, unfolding(crate::specs::Records::record_of, crate::specs::Records::fields_fit))]
#[inline]
fn commission_tax(line: &[u8]) -> Option<Record>
    requires { length line.now ≡ 136 }
    ensures value { (form : FileForm) → result ≡ judged_if form RecordName.Bks42 line.now }
    ensures small { IfSome result IsSmallRecord }
{
    let Some(transaction) = count_in(&line[13..21]) else {
        return None;
    };
    if !spells_at_most(10_000, &line[21..26]) {
        return None;
    }
    let Some(tax) = amount_in(&line[26..37]) else {
        return None;
    };
    if !all_spaces(&line[37..136]) {
        return None;
    }
    Some(Record::PartOf(PartOf {
        transaction,
        part: Part::CommissionTax(tax),
    }))
}

#[tactic(auto, unfolding(crate::specs::Records::record_of, crate::specs::Records::fields_fit))]
#[inline]
fn related(line: &[u8]) -> Option<Record>
    requires { length line.now ≡ 136 }
    ensures value { (form : FileForm) → result ≡ judged_if form RecordName.Bks45 line.now }
    ensures small { IfSome result IsSmallRecord }
{
    let Some(transaction) = count_in(&line[13..21]) else {
        return None;
    };
    let Some(airline) = airline_in(&line[21..24]) else {
        return None;
    };
    let number = number_in(&line[24..34])?;
    if !(all_digits(&line[34..35]) && all_spaces(&line[35..136])) {
        return None;
    }
    Some(Record::PartOf(PartOf {
        transaction,
        part: Part::Related(RelatedDocument { airline, number }),
    }))
}

#[tactic(auto, unfolding(crate::specs::Records::record_of, crate::specs::Records::fields_fit))]
#[inline]
fn payment(line: &[u8]) -> Option<Record>
    requires { length line.now ≡ 136 }
    ensures value { (form : FileForm) → result ≡ judged_if form RecordName.Bkp84 line.now }
    ensures small { IfSome result IsSmallRecord }
{
    let Some(transaction) = count_in(&line[13..21]) else {
        return None;
    };
    if !form_fits(&line[21..23], &line[34..36]) {
        return None;
    }
    let Some(amount) = amount_in(&line[23..34]) else {
        return None;
    };
    if !all_spaces(&line[36..136]) {
        return None;
    }
    let part = match &line[21..23] {
        b"CA" => Part::Cash(amount),
        b"CC" => Part::Credit(amount),
        _ => Part::Exchange,
    };
    Some(Record::PartOf(PartOf { transaction, part }))
}

#[tactic(auto, unfolding(crate::specs::Records::record_of, crate::specs::Records::fields_fit))]
fn code_totals(form: FileForm, line: &[u8]) -> Option<Record>
    requires { length line.now ≡ 136 }
    ensures value { result ≡ judged_if form RecordName.Bot93 line.now }
    ensures small { IfSome result IsSmallRecord }
{
    let Some(agent) = AgentDigits::read(&line[13..21]) else {
        return None;
    };
    let Some(code) = code_of(&line[21..25]) else {
        return None;
    };
    let Some(tax) = tax_in(form, 94, line) else {
        return None;
    };
    let Some(totals) = totals_in(&line[25..93], tax) else {
        return None;
    };
    Some(Record::CodeTotals(CodeTotals {
        agent,
        code,
        totals,
    }))
}

#[tactic(auto, unfolding(crate::specs::Records::record_of, crate::specs::Records::fields_fit))]
fn office_totals(form: FileForm, line: &[u8]) -> Option<Record>
    requires { length line.now ≡ 136 }
    ensures value { result ≡ judged_if form RecordName.Bot94 line.now }
    ensures small { IfSome result IsSmallRecord }
{
    let Some(agent) = AgentDigits::read(&line[13..21]) else {
        return None;
    };
    let Some(tax) = tax_in(form, 90, line) else {
        return None;
    };
    let Some(totals) = totals_in(&line[21..89], tax) else {
        return None;
    };
    Some(Record::OfficeTotals(OfficeTotals { agent, totals }))
}

#[tactic(auto, unfolding(crate::specs::Records::record_of, crate::specs::Records::fields_fit))]
fn period_totals(form: FileForm, line: &[u8]) -> Option<Record>
    requires { length line.now ≡ 136 }
    ensures value { result ≡ judged_if form RecordName.Bct95 line.now }
    ensures small { IfSome result IsSmallRecord }
{
    let Some(period) = period_in(&line[13..18]) else {
        return None;
    };
    let Some(offices) = count_in(&line[18..26]) else {
        return None;
    };
    let Some(tax) = tax_in(form, 95, line) else {
        return None;
    };
    let Some(totals) = totals_in(&line[26..94], tax) else {
        return None;
    };
    Some(Record::PeriodTotals(PeriodTotals {
        period,
        offices,
        totals,
    }))
}

#[tactic(auto, unfolding(crate::specs::Records::record_of, crate::specs::Records::fields_fit))]
fn file_totals(form: FileForm, line: &[u8]) -> Option<Record>
    requires { length line.now ≡ 136 }
    ensures value { result ≡ judged_if form RecordName.Bft99 line.now }
    ensures small { IfSome result IsSmallRecord }
{
    let Some(airline) = airline_in(&line[13..16]) else {
        return None;
    };
    let Some(records) = count_in(&line[16..24]) else {
        return None;
    };
    let Some(tax) = tax_in(form, 93, line) else {
        return None;
    };
    let Some(totals) = totals_in(&line[24..92], tax) else {
        return None;
    };
    Some(Record::FileTotals(FileTotals {
        airline,
        records,
        totals,
    }))
}

/// What a record with the name in a file of the form says that is judged, where its fields fit.
#[inline(always)]
pub(crate) fn record_of(form: FileForm, name: RecordName, line: &[u8]) -> Option<Record>
    requires { length line.now ≡ 136 }
    ensures value { result ≡ judged_if form name line.now }
    ensures small { IfSome result IsSmallRecord }
{
    match name {
        RecordName::Bfh01 => file_header(line),
        RecordName::Bch02 => period_header(line),
        RecordName::Boh03 => office_header(line),
        RecordName::Bkt06 => transaction_header(line),
        RecordName::Bks24 => document(line),
        RecordName::Bks30 => amounts(line),
        RecordName::Bks39 => commission(line),
        RecordName::Bks42 => commission_tax(line),
        RecordName::Bks45 => related(line),
        RecordName::Bkp84 => payment(line),
        RecordName::Bot93 => code_totals(form, line),
        RecordName::Bot94 => office_totals(form, line),
        RecordName::Bct95 => period_totals(form, line),
        RecordName::Bft99 => file_totals(form, line),
    }
}
