//! The fields of the records of a HOT file from column 14 on, by their columns.

ghost use Rattle.std.specs.Prelude.{◌≡◌, ◌≤◌, ◌++◌, length, true, false, IfSome, IfNone};
ghost use Rattle.std.specs.List.{list_all};
ghost use Rattle.bsp_hot_records.specs.declared.form.FileForm.{FileForm};
ghost use Rattle.bsp_hot_records.specs.Records.{fields_fit};
ghost use Rattle.bsp_explain.specs.Fields.{all_fit, first_unfit, is_inside, IsAtFault};
ghost use Rattle.bsp_hot_explain.specs.HotFields.{card_form, payment_fields, amounts_fields, rest_fields, hot_fields};

use bsp_explain::{Field, Form, Name, field, first_unfit, tax_field};
use bsp_hot_records::{FileForm, RecordName};

/// BFH01.
const FILE_HEADER: [Field; 6] = [
    field!(14, 16, Form::Digits, Name::Airline),
    field!(17, 21, Form::Digits, Name::Period),
    field!(22, 27, Form::Day, Name::RemittanceDay),
    field!(28, 30, Form::Letters, Name::Currency),
    field!(31, 37, Form::ProductionProfile, Name::Production),
    field!(38, 136, Form::Spaces, Name::Unused),
];

/// BCH02.
const PERIOD_HEADER: [Field; 5] = [
    field!(14, 18, Form::Digits, Name::Period),
    field!(19, 24, Form::Day, Name::FirstDay),
    field!(25, 30, Form::Day, Name::LastDay),
    field!(31, 36, Form::Day, Name::RemittanceDay),
    field!(37, 136, Form::Spaces, Name::Unused),
];

/// BOH03.
const OFFICE_HEADER: [Field; 4] = [
    field!(14, 21, Form::Digits, Name::Agent),
    field!(22, 26, Form::Digits, Name::Period),
    field!(27, 29, Form::Letters, Name::Currency),
    field!(30, 136, Form::Spaces, Name::Unused),
];

/// BKT06.
const TRANSACTION_HEADER: [Field; 3] = [
    field!(14, 21, Form::Digits, Name::TransactionNumber),
    field!(22, 24, Form::Digits, Name::Airline),
    field!(25, 136, Form::Spaces, Name::Unused),
];

/// BKS24.
const DOCUMENT: [Field; 7] = [
    field!(14, 21, Form::Digits, Name::TransactionNumber),
    field!(22, 27, Form::Day, Name::DateOfIssue),
    field!(28, 37, Form::Digits, Name::Document),
    field!(38, 38, Form::Digits, Name::CheckDigit),
    field!(39, 42, Form::DocumentCode, Name::DocumentCode),
    field!(43, 50, Form::Digits, Name::Agent),
    field!(100, 136, Form::Spaces, Name::Unused),
];

/// BKS30 before its tax places.
const FARE: [Field; 2] = [
    field!(14, 21, Form::Digits, Name::TransactionNumber),
    field!(22, 32, Form::Amount, Name::Fare),
];

/// BKS30 after its tax places.
const AFTER_TAXES: [Field; 1] = [field!(111, 136, Form::Spaces, Name::Unused)];

/// BKS39.
const COMMISSION: [Field; 4] = [
    field!(14, 21, Form::Digits, Name::TransactionNumber),
    field!(22, 26, Form::AtMost(10_000), Name::Rate),
    field!(27, 37, Form::Amount, Name::Commission),
    field!(38, 136, Form::Spaces, Name::Unused),
];

/// BKS42.
const COMMISSION_TAX: [Field; 4] = [
    field!(14, 21, Form::Digits, Name::TransactionNumber),
    field!(22, 26, Form::AtMost(10_000), Name::CommissionTaxRate),
    field!(27, 37, Form::Amount, Name::CommissionTax),
    field!(38, 136, Form::Spaces, Name::Unused),
];

/// BKS45.
const RELATED: [Field; 5] = [
    field!(14, 21, Form::Digits, Name::TransactionNumber),
    field!(22, 24, Form::Digits, Name::Airline),
    field!(25, 34, Form::Digits, Name::Document),
    field!(35, 35, Form::Digits, Name::CheckDigit),
    field!(36, 136, Form::Spaces, Name::Unused),
];

/// BOT93 up to the net.
const CODE_TOTALS: [Field; 7] = [
    field!(14, 21, Form::Digits, Name::Agent),
    field!(22, 25, Form::DocumentCode, Name::DocumentCode),
    field!(26, 33, Form::Digits, Name::Documents),
    field!(34, 48, Form::Total, Name::Cash),
    field!(49, 63, Form::Total, Name::Credit),
    field!(64, 78, Form::Total, Name::Commission),
    field!(79, 93, Form::Total, Name::Net),
];

/// BOT94 up to the net.
const OFFICE_TOTALS: [Field; 6] = [
    field!(14, 21, Form::Digits, Name::Agent),
    field!(22, 29, Form::Digits, Name::Documents),
    field!(30, 44, Form::Total, Name::Cash),
    field!(45, 59, Form::Total, Name::Credit),
    field!(60, 74, Form::Total, Name::Commission),
    field!(75, 89, Form::Total, Name::Net),
];

/// BCT95 up to the net.
const PERIOD_TOTALS: [Field; 7] = [
    field!(14, 18, Form::Digits, Name::Period),
    field!(19, 26, Form::Digits, Name::Offices),
    field!(27, 34, Form::Digits, Name::Documents),
    field!(35, 49, Form::Total, Name::Cash),
    field!(50, 64, Form::Total, Name::Credit),
    field!(65, 79, Form::Total, Name::Commission),
    field!(80, 94, Form::Total, Name::Net),
];

/// BFT99 up to the net.
const FILE_TOTALS: [Field; 7] = [
    field!(14, 16, Form::Digits, Name::Airline),
    field!(17, 24, Form::Digits, Name::RecordCount),
    field!(25, 32, Form::Digits, Name::Documents),
    field!(33, 47, Form::Total, Name::Cash),
    field!(48, 62, Form::Total, Name::Credit),
    field!(63, 77, Form::Total, Name::Commission),
    field!(78, 92, Form::Total, Name::Net),
];

/// The first field of BKS30.
#[tactic(auto, using(crate::proofs::HotLemmas::hot_is, bsp_explain::proofs::Finding::first_of_three))]
fn amounts_field(line: &[u8]) -> Option<Field>
    requires { length line.now ≡ 136 }
    ensures first { result ≡ first_unfit line.now (amounts_fields line.now) }
    ensures none { (form : FileForm) → IfNone result (fields_fit form RecordName.Bks30 line.now ≡ true) }
    ensures some { (form : FileForm) → IfSome result (λ field. IsAtFault line.now field × (fields_fit form RecordName.Bks30 line.now ≡ false)) }
{
    let fare = first_unfit(line, &FARE);
    let tax = tax_field(line, 33);
    let after = first_unfit(line, &AFTER_TAXES);
    fare.or(tax).or(after)
}

/// The form of the card vendor beside that form of payment.
fn card_form(payment: &[u8]) -> Form
    ensures { result ≡ card_form payment.now }
{
    if payment == b"CC".as_slice() {
        Form::LettersOrDigits
    } else {
        Form::Spaces
    }
}

/// The first field of BKP84.
#[tactic(auto, using(crate::proofs::HotLemmas::hot_is))]
fn payment_field(line: &[u8]) -> Option<Field>
    requires { length line.now ≡ 136 }
    ensures first { result ≡ first_unfit line.now (payment_fields line.now) }
    ensures none { (form : FileForm) → IfNone result (fields_fit form RecordName.Bkp84 line.now ≡ true) }
    ensures some { (form : FileForm) → IfSome result (λ field. IsAtFault line.now field × (fields_fit form RecordName.Bkp84 line.now ≡ false)) }
{
    let vendor = card_form(&line[21..23]);
    first_unfit(
        line,
        &[
            field!(14, 21, Form::Digits, Name::TransactionNumber),
            field!(22, 23, Form::FormOfPayment, Name::FormOfPayment),
            field!(24, 34, Form::Amount, Name::Amount),
            field!(35, 36, vendor, Name::CardVendor),
            field!(37, 136, Form::Spaces, Name::Unused),
        ],
    )
}

/// The first field after the net of totals, from that column on: in form 2 the tax on commission, and
/// then columns that no field uses.
fn rest_field(form: FileForm, line: &[u8], first: u8) -> Option<Field>
    requires wide { length line.now ≡ 136 }
    requires from { 1 ≤ first }
    requires to { first ≤ 121 }
    ensures first { result ≡ first_unfit line.now (rest_fields form first) }
    ensures none { IfNone result (all_fit line.now (rest_fields form first) ≡ true) }
    ensures some { IfSome result (λ field. IsAtFault line.now field × (all_fit line.now (rest_fields form first) ≡ false)) }
{
    match form {
        FileForm::One => first_unfit(line, &[field!(first, 136, Form::Spaces, Name::Unused)]),
        FileForm::Two => {
            let last = first + 14;
            let after = first + 15;
            first_unfit(
                line,
                &[
                    field!(first, last, Form::Total, Name::CommissionTax),
                    field!(after, 136, Form::Spaces, Name::Unused),
                ],
            )
        }
    }
}

/// The first field of totals: of these up to the net, and of those after it from that column on.
#[tactic(auto, using(bsp_explain::proofs::Finding::first_of_two))]
fn totals_field(form: FileForm, line: &[u8], fields: &[Field], after: u8) -> Option<Field>
    requires wide { length line.now ≡ 136 }
    requires inside { list_all is_inside fields.now ≡ true }
    requires from { 1 ≤ after }
    requires to { after ≤ 121 }
    ensures first { result ≡ first_unfit line.now (fields.now ++ rest_fields form after) }
    ensures none { IfNone result (all_fit line.now (fields.now ++ rest_fields form after) ≡ true) }
    ensures some { IfSome result (λ field. IsAtFault line.now field × (all_fit line.now (fields.now ++ rest_fields form after) ≡ false)) }
{
    let total = first_unfit(line, fields);
    let rest = rest_field(form, line, after);
    total.or(rest)
}

/// The first field of a record of that name, of a file of that form, that is not in its form, from
/// column 14 on.
#[tactic(auto, using(crate::proofs::HotLemmas::hot_is))]
pub fn hot_field(form: FileForm, name: RecordName, line: &[u8]) -> Option<Field>
    requires { length line.now ≡ 136 }
    ensures first { result ≡ first_unfit line.now (hot_fields form name line.now) }
    ensures none { IfNone result (fields_fit form name line.now ≡ true) }
    ensures some { IfSome result (λ field. IsAtFault line.now field × (fields_fit form name line.now ≡ false)) }
{
    match name {
        RecordName::Bfh01 => first_unfit(line, &FILE_HEADER),
        RecordName::Bch02 => first_unfit(line, &PERIOD_HEADER),
        RecordName::Boh03 => first_unfit(line, &OFFICE_HEADER),
        RecordName::Bkt06 => first_unfit(line, &TRANSACTION_HEADER),
        RecordName::Bks24 => first_unfit(line, &DOCUMENT),
        RecordName::Bks30 => amounts_field(line),
        RecordName::Bks39 => first_unfit(line, &COMMISSION),
        RecordName::Bks42 => first_unfit(line, &COMMISSION_TAX),
        RecordName::Bks45 => first_unfit(line, &RELATED),
        RecordName::Bkp84 => payment_field(line),
        RecordName::Bot93 => totals_field(form, line, &CODE_TOTALS, 94),
        RecordName::Bot94 => totals_field(form, line, &OFFICE_TOTALS, 90),
        RecordName::Bct95 => totals_field(form, line, &PERIOD_TOTALS, 95),
        RecordName::Bft99 => totals_field(form, line, &FILE_TOTALS, 93),
    }
}
