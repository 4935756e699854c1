//! Writes the records of a transaction, each as its line and LF.

ghost use Rattle.std.specs.Prelude.{◌≡◌, [], ◌∷◌, ◌++◌, map, OnOk};
ghost use Rattle.std.specs.List.{concat};
ghost use Rattle.std.specs.Option.{option_map, option_to_list};
ghost use Rattle.bsp_ret_writer.specs.Writing.{spaces, tax_text, sale_line, related_line, amounts_line, form_line, credit_line, group_lines, text_of};

use bsp_fields::{Amount, write_amount, write_digits};
use bsp_ret_records::{Amounts, CardPayment, ReportedDocument, Tax, Transaction};
use std::alloc::AllocError;

/// Writes a tax place of 13 columns: its code and its amount, or spaces (record 5 of RET, BKS30 of
/// HOT).
pub fn write_tax(tax: Option<Tax>) -> [u8; 13]
    ensures { result ≡ tax_text tax }
{
    let mut text = [b' '; 13];
    if let Some(tax) = tax {
        text[..2].copy_from_slice(&tax.code);
        text[2..].copy_from_slice(&write_amount(tax.amount));
    }
    text
}

/// Appends a record of these fields, and LF.
pub(crate) fn push_line(out: &mut Vec<u8>, fields: &[&[u8]]) -> Result<(), AllocError>
    ensures { OnOk result (out.new.items ≡ out.old.items ++ concat (map (λ field. field.now) fields.now) ++ 10 ∷ []) }
{
    for field in fields {
        out.extend_from_slice(field)?;
    }
    out.extend_from_slice(b"\n")
}

/// Appends the record 2 of the transaction with that number.
#[tactic(auto, unfolding(crate::specs::Writing::sale_line))]
fn push_sale(out: &mut Vec<u8>, number: u64, transaction: &Transaction) -> Result<(), AllocError>
    ensures { OnOk result (out.new.items ≡ out.old.items ++ sale_line number transaction.now ++ 10 ∷ []) }
{
    let number = write_digits::<6>(number);
    let code = transaction.code.text();
    let airline = transaction.document.airline.digits();
    let check = write_digits::<1>(transaction.document.check_digit as u64);
    let issued = transaction.issued.write_record();
    push_line(
        out,
        &[
            b"2".as_slice(),
            &number,
            &code,
            &transaction.agent,
            &airline,
            &transaction.document.number,
            &check,
            &issued,
            &transaction.passenger,
            &[b' '; 48],
        ],
    )
}

/// Appends the record 3 of the transaction with that number.
#[tactic(auto, unfolding(crate::specs::Writing::related_line))]
fn push_related(
    out: &mut Vec<u8>,
    number: u64,
    document: &ReportedDocument,
) -> Result<(), AllocError>
    ensures { OnOk result (out.new.items ≡ out.old.items ++ related_line number document.now ++ 10 ∷ []) }
{
    let number = write_digits::<6>(number);
    let airline = document.airline.digits();
    let check = write_digits::<1>(document.check_digit as u64);
    push_line(
        out,
        &[
            b"3".as_slice(),
            &number,
            &airline,
            &document.number,
            &check,
            &[b' '; 115],
        ],
    )
}

/// Appends the record 5 of the transaction with that number.
#[tactic(auto, unfolding(crate::specs::Writing::amounts_line))]
fn push_amounts(out: &mut Vec<u8>, number: u64, amounts: &Amounts) -> Result<(), AllocError>
    ensures { OnOk result (out.new.items ≡ out.old.items ++ amounts_line number amounts.now ++ 10 ∷ []) }
{
    let number = write_digits::<6>(number);
    let fare = write_amount(amounts.fare);
    let [first, second, third, fourth, fifth, sixth] = amounts.taxes;
    let rate = write_digits::<5>(amounts.rate as u64);
    let commission = write_amount(amounts.commission);
    push_line(
        out,
        &[
            b"5".as_slice(),
            &number,
            &fare,
            &write_tax(first),
            &write_tax(second),
            &write_tax(third),
            &write_tax(fourth),
            &write_tax(fifth),
            &write_tax(sixth),
            &rate,
            &commission,
            &[b' '; 24],
        ],
    )
}

/// Appends a record 8 of the transaction with that number: its form, its amount, and the card's
/// vendor or two spaces.
#[tactic(auto, unfolding(crate::specs::Writing::form_line))]
fn push_form(
    out: &mut Vec<u8>,
    number: u64,
    form: &[u8; 2],
    amount: Amount,
    vendor: &[u8; 2],
) -> Result<(), AllocError>
    ensures { OnOk result (out.new.items ≡ out.old.items ++ form_line number form.now amount vendor.now ++ 10 ∷ []) }
{
    let number = write_digits::<6>(number);
    let amount = write_amount(amount);
    push_line(
        out,
        &[
            b"8".as_slice(),
            &number,
            form,
            &amount,
            vendor,
            &[b' '; 114],
        ],
    )
}

/// Appends a record 3, if there is one.
fn push_some_related(
    out: &mut Vec<u8>,
    number: u64,
    document: &Option<ReportedDocument>,
) -> Result<(), AllocError>
    ensures { OnOk result (out.new.items ≡ out.old.items ++ text_of (option_to_list (option_map (related_line number) document.now))) }
{
    match document {
        Some(document) => push_related(out, number, document),
        None => Ok(()),
    }
}

/// Appends a record 5, if there is one.
fn push_some_amounts(
    out: &mut Vec<u8>,
    number: u64,
    amounts: &Option<Amounts>,
) -> Result<(), AllocError>
    ensures { OnOk result (out.new.items ≡ out.old.items ++ text_of (option_to_list (option_map (amounts_line number) amounts.now))) }
{
    match amounts {
        Some(amounts) => push_amounts(out, number, amounts),
        None => Ok(()),
    }
}

/// Appends a record 8 with form CC, if there is one.
fn push_some_credit(
    out: &mut Vec<u8>,
    number: u64,
    credit: &Option<CardPayment>,
) -> Result<(), AllocError>
    ensures { OnOk result (out.new.items ≡ out.old.items ++ text_of (option_to_list (option_map (credit_line number) credit.now))) }
{
    match credit {
        Some(payment) => push_form(out, number, b"CC", payment.amount, &payment.vendor),
        None => Ok(()),
    }
}

/// Appends a record 8 with form CA or EX, if there is one.
fn push_some_form(
    out: &mut Vec<u8>,
    number: u64,
    form: &[u8; 2],
    amount: Option<Amount>,
) -> Result<(), AllocError>
    ensures { OnOk result (out.new.items ≡ out.old.items ++ text_of (option_to_list (option_map (λ paid. form_line number form.now paid (spaces 2)) amount))) }
{
    match amount {
        Some(amount) => push_form(out, number, form, amount, b"  "),
        None => Ok(()),
    }
}

/// Appends the records of the transaction with that number.
pub(crate) fn push_group(
    out: &mut Vec<u8>,
    number: u64,
    transaction: &Transaction,
) -> Result<(), AllocError>
    ensures { OnOk result (out.new.items ≡ out.old.items ++ text_of (group_lines number transaction.now)) }
{
    push_sale(out, number, transaction)?;
    push_some_related(out, number, &transaction.related[0])?;
    push_some_related(out, number, &transaction.related[1])?;
    push_some_amounts(out, number, &transaction.amounts)?;
    push_some_form(out, number, b"CA", transaction.cash)?;
    push_some_credit(out, number, &transaction.credit)?;
    push_some_form(out, number, b"EX", transaction.exchange)
}
