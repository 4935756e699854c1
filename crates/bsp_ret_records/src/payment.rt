//! Record 8, a form of payment.

ghost use Rattle.std.specs.Prelude.{◌≡◌, length, true, false, Some, IfSome, IfNone};
ghost use Rattle.bsp_ret_records.specs.Records.{IsFit, payment_amount, vendor, form_of, vendor_fits, form_fits, form_amount};
ghost use Rattle.bsp_ret_records.specs.Values.{IsPayment, IsCardPayment};

use crate::codes::FormOfPayment;
use crate::columns::{amount_of, array_of};
use crate::transactions::CardPayment;
use bsp_fields::{Amount, all_letters_or_digits, all_spaces, read_amount};

#[inline]
fn payment_amount(line: &[u8]) -> &[u8]
    requires { length line.now ≡ 136 }
    ensures { result.now ≡ payment_amount line.now }
{
    &line[9..20]
}

#[inline]
fn vendor(line: &[u8]) -> &[u8]
    requires { length line.now ≡ 136 }
    ensures { result.now ≡ vendor line.now }
{
    &line[20..22]
}

/// The form of a record 8.
#[tactic(auto, unfolding(crate::specs::Records::form_of))]
pub fn form_of(line: &[u8]) -> Option<FormOfPayment>
    requires { length line.now ≡ 136 }
    ensures { result ≡ form_of line.now }
{
    match &line[7..9] {
        b"CA" => Some(FormOfPayment::Cash),
        b"CC" => Some(FormOfPayment::Credit),
        b"EX" => Some(FormOfPayment::Exchange),
        _ => None,
    }
}

fn vendor_fits(form: FormOfPayment, text: &[u8]) -> bool
    ensures { result ≡ vendor_fits (Some form) text.now }
{
    match form {
        FormOfPayment::Cash | FormOfPayment::Exchange => all_spaces(text),
        FormOfPayment::Credit => all_letters_or_digits(text),
    }
}

/// The amount of a record 8 with that form, whose other fields fit.
#[tactic(auto, using(crate::proofs::FormTests::other_vendor, crate::proofs::FormTests::no_spaces), unfolding(crate::specs::Records::form_fits, crate::specs::Records::form_amount))]
pub fn paid_amount(line: &[u8], form: FormOfPayment) -> Option<Amount>
    requires wide { length line.now ≡ 136 }
    requires form { form_of line.now ≡ Some form }
    ensures some { IfSome result (λ amount. (form_fits line.now ≡ true) × (amount ≡ form_amount line.now)) }
    ensures none { IfNone result (form_fits line.now ≡ false) }
{
    if !vendor_fits(form, vendor(line)) {
        return None;
    }
    if !all_spaces(&line[22..136]) {
        return None;
    }
    match read_amount(payment_amount(line)) {
        Ok(amount) => Some(amount),
        Err(_) => None,
    }
}

/// The amount of a record 8.
#[tactic(auto, using(crate::proofs::ValueLemmas::form_amount_is))]
pub fn payment_value(line: &[u8]) -> Amount
    requires { IsFit form_fits line.now }
    ensures { IsPayment line.now result }
{
    amount_of(payment_amount(line))
}

/// The amount and the vendor of a record 8 with CC.
pub fn card_values(line: &[u8]) -> CardPayment
    requires { IsFit form_fits line.now }
    ensures { IsCardPayment line.now result }
{
    CardPayment {
        amount: payment_value(line),
        vendor: array_of::<2>(vendor(line)),
    }
}
