//! What people read of a record that may not follow those before it.

use crate::words::Words;
use bsp_ret::{LastRecord, Standing};
use bsp_ret_records::{FormOfPayment, Profile, TransactionCode};

/// What comes after the records of this state.
fn next_text(at: &Standing) -> &'static str {
    match (at.last, at.code) {
        (LastRecord::Sale, TransactionCode::Canx) =>
            "a CANX is one record 2 alone, and after it comes a record 2 or the trailer",
        (LastRecord::Sale, TransactionCode::Rfnd) =>
            "a refund (RFND) has a record `3` before its record `5`, which names the ticket, as `300000112513000000016` and 115 spaces",
        (LastRecord::Sale, _) =>
            "after record 2 of a sale (TKTT) comes record 5, or record 3 if it is an exchange",
        (LastRecord::Related, _) => "after record 3 comes record 5",
        (LastRecord::Amounts, _) =>
            "after a record `5` comes a form of payment, a record `8`, as `8000001CA0000002350{` and 116 spaces: each transaction but a CANX has one to three",
        (LastRecord::Form(_), _) =>
            "after record 8 comes another record 8, the record 2 of the next transaction, or the trailer",
        _ => "after the header comes a record 2 or the trailer",
    }
}

/// Why no further record 3 may come after a record 3.
fn related_text(at: &Standing) -> &'static str {
    match (at.code, at.profile) {
        (TransactionCode::Rfnd, _) => "a refund (RFND) has one record 3",
        (_, Profile::P002) => "a sale (TKTT) has at most two records 3",
        _ => "a second record 3 needs profile 002, in columns 28-30 of the header",
    }
}

/// Why a form EX may not come in a transaction.
fn exchange_text(at: &Standing) -> &'static str {
    match at.code {
        TransactionCode::Rfnd => "a refund (RFND) has no form EX",
        _ =>
            "a form EX needs a record `3` before the record `5` of its transaction, which names the old ticket, as `300000112513000000016` and 115 spaces",
    }
}

/// The place of a form of payment in the order of a group.
fn rank(form: FormOfPayment) -> u8 {
    match form {
        FormOfPayment::Cash => 0,
        FormOfPayment::Credit => 1,
        FormOfPayment::Exchange => 2,
    }
}

/// Why a record 8 of that form may not come after the records of this state.
fn payment_text(form: Option<FormOfPayment>, at: &Standing) -> &'static str {
    match (at.last, form) {
        (LastRecord::Amounts, Some(FormOfPayment::Exchange)) => exchange_text(at),
        (LastRecord::Form(before), Some(form)) if rank(before) < rank(form) => exchange_text(at),
        (LastRecord::Form(before), Some(form)) if before == form =>
            "a form of payment comes once: write one record 8 with the sum of both",
        (LastRecord::Form(_), _) =>
            "the forms of a transaction come in the order CA, CC, EX, each once",
        _ => next_text(at),
    }
}

/// Why a record with that identifier may not come after the records of this state.
fn place_text(identifier: char, at: &Standing) -> &'static str {
    match (identifier, at.last) {
        ('3', LastRecord::Related) => related_text(at),
        ('3', LastRecord::Amounts | LastRecord::Form(_)) => "record 3 comes before record 5",
        ('5', LastRecord::Amounts | LastRecord::Form(_)) => "a transaction has one record 5",
        ('2' | 'Z', LastRecord::Form(_)) =>
            "the sale before it has a record 3 and no form EX: add the record 8 with EX, or take out record 3",
        _ => next_text(at),
    }
}

/// What a file lacks before its trailer, where it ends after the records of this state.
pub(crate) fn ending_text(at: &Standing) -> Option<&'static str> {
    match (at.last, at.code) {
        (LastRecord::Start, _) => Some(
            "it is empty, and the smallest file has a header and a trailer",
        ),
        (LastRecord::Sale, TransactionCode::Canx) => None,
        (LastRecord::Sale | LastRecord::Related | LastRecord::Amounts, _) => Some(next_text(at)),
        _ => None,
    }
}

/// Says that a record with that identifier may not come after the records of this state.
pub fn say_place(words: &mut Words, identifier: char, at: &Standing) {
    words.add("a record `");
    words.show(identifier);
    words.add_all(&["` is not allowed here: ", place_text(identifier, at)]);
}

/// Says that a record 8 of that form may not come after the records of this state.
pub fn say_payment(words: &mut Words, form: Option<FormOfPayment>, at: &Standing) {
    let form_text = match form {
        Some(FormOfPayment::Cash) => " with CA",
        Some(FormOfPayment::Credit) => " with CC",
        Some(FormOfPayment::Exchange) => " with EX",
        None => "",
    };
    words.add_all(&["a record `8`", form_text, " is not allowed here: "]);
    words.add(payment_text(form, at));
}
