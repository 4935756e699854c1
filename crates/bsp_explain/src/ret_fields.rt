//! The fields of the records of a RET file, by their columns. Each function answers the first field
//! that is not in its form, and `None` where the record's own test holds. A transaction's number is
//! judged with its place.

ghost use Rattle.std.specs.Prelude.{◌≡◌, length, true, false, IfSome, IfNone};
ghost use Rattle.bsp_ret_records.specs.Records.{form_of, sale_fits, related_fits, amounts_fit, form_fits, trailer_fits};
ghost use Rattle.bsp_explain.specs.Fields.{all_fit, first_unfit, IsAtFault};
ghost use Rattle.bsp_explain.specs.RetFields.{is_whole_header, header_fields, sale_fields, related_fields, fare_fields, commission_fields, amounts_fields, vendor_form, payment_fields, trailer_fields};

use crate::field::{Field, field, first_unfit};
use crate::form::Form;
use crate::name::Name;
use crate::taxes::tax_field;
use bsp_ret_records::{FormOfPayment, form_of};

/// Record 1, in the order of the fault table.
const HEADER: [Field; 10] = [
    field!(1, 1, Form::HeaderMark, Name::Identifier),
    field!(28, 30, Form::Profile, Name::Profile),
    field!(24, 27, Form::Production, Name::Production),
    field!(2, 5, Form::LettersOrDigits, Name::SystemId),
    field!(6, 11, Form::Day, Name::Date),
    field!(12, 13, Form::AtMost(23), Name::Hours),
    field!(14, 15, Form::AtMost(59), Name::Minutes),
    field!(16, 17, Form::Letters, Name::Country),
    field!(18, 23, Form::Digits, Name::FileNumber),
    field!(31, 136, Form::Spaces, Name::Unused),
];

/// Record 2.
const SALE: [Field; 7] = [
    field!(8, 11, Form::TransactionCode, Name::TransactionCode),
    field!(12, 19, Form::Digits, Name::Agent),
    field!(20, 22, Form::Digits, Name::Airline),
    field!(23, 32, Form::Digits, Name::Document),
    field!(33, 33, Form::Digits, Name::CheckDigit),
    field!(34, 39, Form::Day, Name::DateOfIssue),
    field!(89, 136, Form::Spaces, Name::Unused),
];

/// Record 3.
const RELATED: [Field; 4] = [
    field!(8, 10, Form::Digits, Name::Airline),
    field!(11, 20, Form::Digits, Name::Document),
    field!(21, 21, Form::Digits, Name::CheckDigit),
    field!(22, 136, Form::Spaces, Name::Unused),
];

/// Record 5 before its tax places.
const FARE: [Field; 1] = [field!(8, 18, Form::Amount, Name::Fare)];

/// Record 5 after its tax places.
const COMMISSION: [Field; 3] = [
    field!(97, 101, Form::AtMost(10_000), Name::Rate),
    field!(102, 112, Form::Amount, Name::Commission),
    field!(113, 136, Form::Spaces, Name::Unused),
];

/// Record Z.
const TRAILER: [Field; 4] = [
    field!(2, 8, Form::Digits, Name::RecordCount),
    field!(9, 15, Form::Digits, Name::TransactionCount),
    field!(16, 30, Form::Total, Name::Sum),
    field!(31, 136, Form::Spaces, Name::Unused),
];

/// The first field of a header that is not in its form.
#[tactic(auto, using(crate::proofs::RetLemmas::whole_header))]
pub fn header_field(line: &[u8]) -> Option<Field>
    requires { length line.now ≡ 136 }
    ensures first { result ≡ first_unfit line.now header_fields }
    ensures none { IfNone result (is_whole_header line.now ≡ true) }
    ensures some { IfSome result (λ field. IsAtFault line.now field × (is_whole_header line.now ≡ false)) }
{
    first_unfit(line, &HEADER)
}

/// The first field of a record 2 that is not in its form.
#[tactic(auto, using(crate::proofs::RetLemmas::sale_is))]
pub fn sale_field(line: &[u8]) -> Option<Field>
    requires { length line.now ≡ 136 }
    ensures first { result ≡ first_unfit line.now sale_fields }
    ensures none { IfNone result (sale_fits line.now ≡ true) }
    ensures some { IfSome result (λ field. IsAtFault line.now field × (sale_fits line.now ≡ false)) }
{
    first_unfit(line, &SALE)
}

/// The first field of a record 3 that is not in its form.
#[tactic(auto, using(crate::proofs::RetLemmas::related_is))]
pub fn related_field(line: &[u8]) -> Option<Field>
    requires { length line.now ≡ 136 }
    ensures first { result ≡ first_unfit line.now related_fields }
    ensures none { IfNone result (related_fits line.now ≡ true) }
    ensures some { IfSome result (λ field. IsAtFault line.now field × (related_fits line.now ≡ false)) }
{
    first_unfit(line, &RELATED)
}

/// The first field of a record 5 that is not in its form.
#[tactic(auto, using(crate::proofs::RetLemmas::amounts_is, crate::proofs::Finding::first_of_three))]
pub fn amounts_field(line: &[u8]) -> Option<Field>
    requires { length line.now ≡ 136 }
    ensures first { result ≡ first_unfit line.now (amounts_fields line.now) }
    ensures none { IfNone result (amounts_fit line.now ≡ true) }
    ensures some { IfSome result (λ field. IsAtFault line.now field × (amounts_fit line.now ≡ false)) }
{
    let fare = first_unfit(line, &FARE);
    let tax = tax_field(line, 19);
    let commission = first_unfit(line, &COMMISSION);
    fare.or(tax).or(commission)
}

/// The form of the card vendor in a record 8 of that form of payment.
fn vendor_form(form: Option<FormOfPayment>) -> Form
    ensures { result ≡ vendor_form form }
{
    match form {
        Some(FormOfPayment::Credit) => Form::LettersOrDigits,
        _ => Form::Spaces,
    }
}

/// The first field of a record 8 that is not in its form.
#[tactic(auto, using(crate::proofs::RetLemmas::payment_is))]
pub fn payment_field(line: &[u8]) -> Option<Field>
    requires { length line.now ≡ 136 }
    ensures first { result ≡ first_unfit line.now (payment_fields line.now) }
    ensures none { IfNone result (form_fits line.now ≡ true) }
    ensures some { IfSome result (λ field. IsAtFault line.now field × (form_fits line.now ≡ false)) }
{
    let vendor = vendor_form(form_of(line));
    first_unfit(
        line,
        &[
            field!(8, 9, Form::FormOfPayment, Name::FormOfPayment),
            field!(10, 20, Form::Amount, Name::Amount),
            field!(21, 22, vendor, Name::CardVendor),
            field!(23, 136, Form::Spaces, Name::Unused),
        ],
    )
}

/// The first field of a trailer that is not in its form.
#[tactic(auto, using(crate::proofs::RetLemmas::trailer_is))]
pub fn trailer_field(line: &[u8]) -> Option<Field>
    requires { length line.now ≡ 136 }
    ensures first { result ≡ first_unfit line.now trailer_fields }
    ensures none { IfNone result (trailer_fits line.now ≡ true) }
    ensures some { IfSome result (λ field. IsAtFault line.now field × (trailer_fits line.now ≡ false)) }
{
    first_unfit(line, &TRAILER)
}
