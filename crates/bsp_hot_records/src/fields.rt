//! The values of fields that are in their form.

ghost use Rattle.std.specs.Prelude.{◌≡◌, ◌+◌, ◌-◌, ◌≤◌, length, true, false, IfSome, IfNone};
ghost use Rattle.std.specs.Str.{all_ascii_digits};
ghost use Rattle.bsp_fields.specs.Columns.{columns};
ghost use Rattle.bsp_fields.specs.Fields.{is_amount, is_total};
ghost use Rattle.bsp_hot_records.specs.Records.{code_of, form_fits, tax_places_fit, totals_fit, rest_fits, number_in, amount_of, total_of, totals_of, tax_in};
ghost use Rattle.bsp_hot_records.specs.Judged.{IsSmallAmount};

use crate::code::DocumentCode;
use crate::form::FileForm;
use crate::totals::{Sums, Totals};
use bsp_fields::{
    AirlineCode, DocNumber, PeriodCode, all_digits, all_letters_or_digits, all_spaces, number_of,
    read_amount, read_total, taxes_fit,
};

/// The code of a document, from its four letters.
#[inline]
pub(crate) fn code_of(text: &[u8]) -> Option<DocumentCode>
    ensures { result ≡ code_of text.now }
{
    let codes: &[DocumentCode] = &DocumentCode::ALL;
    for code in codes {
        if text == code.text().as_slice() {
            return Some(*code);
        }
    }
    None
}

/// A form of payment, and a card's vendor with CC only.
#[tactic(auto, unfolding(crate::specs::Records::form_fits))]
#[inline]
pub(crate) fn form_fits(form: &[u8], vendor: &[u8]) -> bool
    ensures { result ≡ form_fits form.now vendor.now }
{
    match form {
        b"CC" => all_letters_or_digits(vendor),
        b"CA" | b"EX" => all_spaces(vendor),
        _ => false,
    }
}

/// The six tax places, which lie as in record 5 of a RET file, 14 columns further on.
#[tactic(auto, unfolding(crate::specs::Records::tax_places_fit))]
#[inline]
pub(crate) fn tax_places_fit(line: &[u8]) -> bool
    requires { length line.now ≡ 136 }
    ensures { result ≡ tax_places_fit line.now }
{
    taxes_fit(&line[14..136])
}

/// The number that digits write.
#[tactic(auto, unfolding(crate::specs::Records::number_in))]
#[inline]
pub(crate) fn number_in(text: &[u8]) -> Option<u64>
    requires { length text.now ≤ 15 }
    ensures fits { IfSome result (λ number. all_ascii_digits text.now ≡ true) }
    ensures value { IfSome result (λ number. number ≡ number_in text.now) }
    ensures none { IfNone result (all_ascii_digits text.now ≡ false) }
{
    if all_digits(text) {
        Some(number_of(text))
    } else {
        None
    }
}

/// The same, as a count.
#[inline]
pub(crate) fn count_in(text: &[u8]) -> Option<usize>
    requires { length text.now ≤ 15 }
    ensures fits { IfSome result (λ number. all_ascii_digits text.now ≡ true) }
    ensures value { IfSome result (λ number. number ≡ number_in text.now) }
    ensures none { IfNone result (all_ascii_digits text.now ≡ false) }
{
    match number_in(text) {
        Some(number) => Some(number as usize),
        None => None,
    }
}

/// The airline that three digits write.
#[tactic(auto, unfolding(crate::specs::Records::number_in))]
#[inline]
pub(crate) fn airline_in(text: &[u8]) -> Option<AirlineCode>
    requires { length text.now ≡ 3 }
    ensures fits { IfSome result (λ airline. all_ascii_digits text.now ≡ true) }
    ensures value { IfSome result (λ airline. airline ≡ number_in text.now) }
    ensures none { IfNone result (all_ascii_digits text.now ≡ false) }
{
    AirlineCode::read(text).ok()
}

/// The period that five digits write.
#[tactic(auto, unfolding(crate::specs::Records::number_in))]
#[inline]
pub(crate) fn period_in(text: &[u8]) -> Option<PeriodCode>
    requires { length text.now ≡ 5 }
    ensures fits { IfSome result (λ period. all_ascii_digits text.now ≡ true) }
    ensures value { IfSome result (λ period. period ≡ number_in text.now) }
    ensures none { IfNone result (all_ascii_digits text.now ≡ false) }
{
    PeriodCode::read(text).ok()
}

/// The document number that ten digits write.
#[tactic(auto, unfolding(crate::specs::Records::number_in))]
#[inline]
pub(crate) fn document_number_in(text: &[u8]) -> Option<DocNumber>
    requires { length text.now ≡ 10 }
    ensures fits { IfSome result (λ document. all_ascii_digits text.now ≡ true) }
    ensures value { IfSome result (λ document. document ≡ number_in text.now) }
    ensures none { IfNone result (all_ascii_digits text.now ≡ false) }
{
    DocNumber::read_unchecked(text).ok()
}

/// The value of an amount.
#[tactic(auto, unfolding(crate::specs::Records::amount_of))]
#[inline]
pub(crate) fn amount_in(text: &[u8]) -> Option<i64>
    ensures fits { IfSome result (λ amount. is_amount text.now ≡ true) }
    ensures value { IfSome result (λ amount. amount ≡ amount_of text.now) }
    ensures small { IfSome result IsSmallAmount }
    ensures none { IfNone result (is_amount text.now ≡ false) }
{
    match read_amount(text) {
        Ok(amount) => Some(amount.get()),
        Err(_) => None,
    }
}

/// The value of a total.
#[tactic(auto, unfolding(crate::specs::Records::total_of))]
#[inline]
fn total_in(text: &[u8]) -> Option<i128>
    ensures fits { IfSome result (λ total. is_total text.now ≡ true) }
    ensures value { IfSome result (λ total. total ≡ total_of text.now) }
    ensures none { IfNone result (is_total text.now ≡ false) }
{
    match read_total(text) {
        Ok(total) => Some(total.get()),
        Err(_) => None,
    }
}

/// The columns of a record from one to another, counted from 1, both included.
fn columns(line: &[u8], from: usize, to: usize) -> &[u8]
    requires first { 1 ≤ from }
    requires order { from ≤ to }
    requires inside { to ≤ length line.now }
    ensures value { result.now ≡ columns from to line.now }
{
    &line[from - 1..to]
}

/// The total of tax on commission that form 2 has from that column on, and spaces behind it. In form
/// 1, where there are spaces alone, it is 0.
#[tactic(auto, unfolding(crate::specs::Records::rest_fits, crate::specs::Records::tax_in))]
pub(crate) fn tax_in(form: FileForm, first: usize, line: &[u8]) -> Option<i128>
    requires long { length line.now ≡ 136 }
    requires begins { 1 ≤ first }
    requires inside { first ≤ 121 }
    ensures fits { IfSome result (λ tax. rest_fits form first line.now ≡ true) }
    ensures value { IfSome result (λ tax. tax ≡ tax_in form first line.now) }
    ensures none { IfNone result (rest_fits form first line.now ≡ false) }
{
    match form {
        FileForm::One => {
            if !all_spaces(columns(line, first, 136)) {
                return None;
            }
            Some(0)
        }
        FileForm::Two => {
            let tax = total_in(columns(line, first, first + 14))?;
            if !all_spaces(columns(line, first + 15, 136)) {
                return None;
            }
            Some(tax)
        }
    }
}

/// Eight digits of documents, and the totals of cash, credit, commission and net, with that tax.
#[tactic(auto, unfolding(crate::specs::Records::totals_fit))]
pub(crate) fn totals_in(text: &[u8], tax: i128) -> Option<Totals>
    requires { length text.now ≡ 68 }
    ensures fits { IfSome result (λ totals. totals_fit text.now ≡ true) }
    ensures value { IfSome result (λ totals. totals ≡ totals_of text.now tax) }
    ensures none { IfNone result (totals_fit text.now ≡ false) }
{
    let Some(documents) = count_in(&text[..8]) else {
        return None;
    };
    let Some(cash) = total_in(&text[8..23]) else {
        return None;
    };
    let Some(credit) = total_in(&text[23..38]) else {
        return None;
    };
    let Some(commission) = total_in(&text[38..53]) else {
        return None;
    };
    let Some(net) = total_in(&text[53..68]) else {
        return None;
    };
    Some(Totals {
        sums: Sums {
            documents,
            cash,
            credit,
            commission,
            tax,
        },
        net,
    })
}

/// The three letters of a currency.
#[inline]
pub(crate) fn currency_of(text: &[u8]) -> [u8; 3]
    requires { length text.now ≡ 3 }
    ensures { result ≡ text.now }
{
    let Ok(currency) = <[u8; 3]>::try_from(text) else {
        unreachable!()
    };
    currency
}
