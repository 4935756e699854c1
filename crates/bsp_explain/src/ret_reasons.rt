//! What is wrong with a record of a RET file, from the record and from the state of those before it.

ghost use Rattle.std.specs.Prelude.{◌≡◌, ◌||◌, ◌+◌, ◌-◌, ◌≤◌, ◌<◌, ◌^◌, ℕ, not, length, true, false, IfSome, IfNone};
ghost use Rattle.bsp_fields.specs.Columns.{is_wide};
ghost use Rattle.bsp_ret_records.specs.Records.{IsFit, trailer_fits};
ghost use Rattle.bsp_ret.specs.Table.{is_start, has_counts, has_sum};
ghost use Rattle.bsp_explain.specs.Fields.{first_unfit, IsAtFault};
ghost use Rattle.bsp_explain.specs.RetReasons.{record_fits, record_fields, wanted_number, has_number, has_next_number, Says, is_reason_of, may_be_second, is_without};

use crate::field::Field;
use crate::reason::Reason;
use crate::ret_fields::{
    amounts_field, header_field, payment_field, related_field, sale_field, trailer_field,
};
use crate::width::width_reason;
use bsp_fault_texts::Money;
use bsp_fields::{number_of, spells};
use bsp_ret::{FaultCode, LastRecord, Standing};
use bsp_ret_records::{
    form_of, record_count, told_records, told_sum, trailer_fits, transaction_count,
    transaction_number,
};

/// The first field of a record that is not in its form: of a header, or of another record by its
/// identifier.
#[tactic(auto, using(crate::proofs::Finding::no_fields))]
pub(crate) fn record_field(is_first: bool, line: &[u8]) -> Option<Field>
    requires { length line.now ≡ 136 }
    ensures first { result ≡ first_unfit line.now (record_fields is_first line.now) }
    ensures none { IfNone result (record_fits is_first line.now ≡ true) }
    ensures some { IfSome result (λ field. IsAtFault line.now field × (record_fits is_first line.now ≡ false)) }
{
    if is_first {
        return header_field(line);
    }
    match line[0] {
        b'2' => sale_field(line),
        b'3' => related_field(line),
        b'5' => amounts_field(line),
        b'8' => payment_field(line),
        b'Z' => trailer_field(line),
        _ => None,
    }
}

/// The number of the transaction that a record has to have after so many transactions.
fn wanted_number(line: &[u8], transactions: usize) -> usize
    requires wide { length line.now ≡ 136 }
    requires room { transactions < 2 ^ 64 - 1 }
    ensures { result ≡ wanted_number line.now transactions }
{
    if line[0] == b'2' {
        transactions + 1
    } else {
        transactions
    }
}

/// Whether a record is one of a transaction, which has its number.
fn has_number(line: &[u8]) -> bool
    requires { length line.now ≡ 136 }
    ensures { result ≡ has_number line.now }
{
    line[0] == b'2' || line[0] == b'3' || line[0] == b'5' || line[0] == b'8'
}

/// Whether a record has the number of the next or the last transaction, where it has to have one.
fn has_next_number(line: &[u8], transactions: usize) -> bool
    requires wide { length line.now ≡ 136 }
    requires room { transactions < 2 ^ 64 - 1 }
    ensures { result ≡ has_next_number transactions line.now }
{
    !has_number(line) || spells(wanted_number(line, transactions), transaction_number(line))
}

/// Why a record may not follow those before it, where it may not.
fn place_reason(at: Standing, line: &[u8]) -> Reason
    requires wide { length line.now ≡ 136 }
    requires room { at.transactions < 2 ^ 64 - 1 }
    ensures says { (n : ℕ) → Says n at line.now result }
    ensures row { is_reason_of FaultCode.F03 result ≡ true }
{
    if !has_next_number(line, at.transactions) {
        return Reason::TransactionNumber(wanted_number(line, at.transactions));
    }
    match line[0] {
        b'8' => Reason::Payment {
            form: form_of(line),
            at,
        },
        b'2' | b'3' | b'5' | b'Z' => Reason::Place {
            identifier: line[0] as char,
            at,
        },
        _ => Reason::Identifier(line[0] as char),
    }
}

/// Whether the next record is the first.
pub(crate) fn is_start(at: Standing) -> bool
    ensures { result ≡ is_start at.last }
{
    matches!(at.last, LastRecord::Start)
}

/// Which field of a record is not in its form.
fn field_reason(at: Standing, line: &[u8]) -> Option<Reason>
    requires { length line.now ≡ 136 }
    ensures says { (n : ℕ) → IfSome result (Says n at line.now) }
    ensures row_two { IfSome result (λ reason. is_reason_of FaultCode.F02 reason ≡ true) }
    ensures row_four { IfSome result (λ reason. is_reason_of FaultCode.F04 reason ≡ true) }
    ensures row_five { IfSome result (λ reason. is_reason_of FaultCode.F05 reason ≡ true) }
    ensures none { IfNone result (record_fits (is_start at.last) line.now ≡ true) }
{
    match record_field(is_start(at), line) {
        Some(field) => Some(Reason::Unfit(field)),
        None => None,
    }
}

/// Which count of a trailer differs from the records with it and the transactions before it.
#[tactic(auto, using(crate::proofs::TrailerLemmas::stated_both, crate::proofs::TrailerLemmas::stated_digits))]
fn count_reason(at: Standing, line: &[u8]) -> Option<Reason>
    requires fits { IsFit trailer_fits line.now }
    requires room { at.records < 2 ^ 63 }
    ensures says { IfSome result (Says (at.records + 1) at line.now) }
    ensures row { IfSome result (λ reason. is_reason_of FaultCode.F06 reason ≡ true) }
    ensures none { IfNone result (has_counts at line.now ≡ true) }
{
    let counted = at.records + 1;
    let stated = told_records(line) as u64;
    if stated != counted as u64 {
        return Some(Reason::RecordCount { stated, counted });
    }
    let counted = at.transactions;
    let stated = number_of(transaction_count(line));
    if stated != counted as u64 {
        return Some(Reason::TransactionCount { stated, counted });
    }
    None
}

/// Whether the sum of a trailer differs from that of the forms before it.
#[tactic(auto, using(crate::proofs::TrailerLemmas::stated_same))]
fn sum_reason(at: Standing, line: &[u8]) -> Option<Reason>
    requires { IsFit trailer_fits line.now }
    ensures says { (n : ℕ) → IfSome result (Says n at line.now) }
    ensures row { IfSome result (λ reason. is_reason_of FaultCode.F07 reason ≡ true) }
    ensures none { IfNone result (has_sum at line.now ≡ true) }
{
    let stated = told_sum(line).get();
    if stated == at.sum {
        return None;
    }
    Some(Reason::Sum {
        stated: Money { units: stated },
        summed: Money { units: at.sum },
    })
}

/// Which field is not in its form, of a record of the right width.
fn field_fault(at: Standing, line: &[u8]) -> Option<Reason>
    ensures says { (n : ℕ) → IfSome result (Says n at line.now) }
    ensures row_two { IfSome result (λ reason. is_reason_of FaultCode.F02 reason ≡ true) }
    ensures row_four { IfSome result (λ reason. is_reason_of FaultCode.F04 reason ≡ true) }
    ensures none { IfNone result ((not (is_wide line.now) || record_fits (is_start at.last) line.now) ≡ true) }
{
    if line.len() != 136 {
        return None;
    }
    field_reason(at, line)
}

/// Whether a record may be the second record 3 of its group.
fn may_be_second(at: Standing, line: &[u8]) -> bool
    requires { length line.now ≡ 136 }
    ensures { result ≡ may_be_second (is_start at.last) line.now }
{
    !is_start(at) && line[0] == b'3'
}

/// Which field is not in its form, or that a record 3 does not come after the one before it.
fn form_fault(at: Standing, line: &[u8]) -> Option<Reason>
    ensures says { (n : ℕ) → IfSome result (Says n at line.now) }
    ensures row { IfSome result (λ reason. is_reason_of FaultCode.F05 reason ≡ true) }
    ensures none { IfNone result (is_without FaultCode.F05 at line.now ≡ true) }
{
    if line.len() != 136 {
        return None;
    }
    if let Some(reason) = field_reason(at, line) {
        return Some(reason);
    }
    if may_be_second(at, line) {
        return Some(Reason::RelatedOrder);
    }
    None
}

/// Why a record of the right width may not follow those before it.
fn place_fault(at: Standing, line: &[u8]) -> Option<Reason>
    requires { at.transactions < 2 ^ 64 - 1 }
    ensures says { (n : ℕ) → IfSome result (Says n at line.now) }
    ensures row { IfSome result (λ reason. is_reason_of FaultCode.F03 reason ≡ true) }
    ensures none { IfNone result (not (is_wide line.now) ≡ true) }
{
    if line.len() != 136 {
        return None;
    }
    Some(place_reason(at, line))
}

/// Which count differs, of a trailer whose fields fit.
fn count_fault(at: Standing, line: &[u8]) -> Option<Reason>
    requires { at.records < 2 ^ 63 }
    ensures says { IfSome result (Says (at.records + 1) at line.now) }
    ensures row { IfSome result (λ reason. is_reason_of FaultCode.F06 reason ≡ true) }
    ensures none { IfNone result (is_without FaultCode.F06 at line.now ≡ true) }
{
    if line.len() != 136 {
        return None;
    }
    if !trailer_fits(line) {
        return None;
    }
    count_reason(at, line)
}

/// Whether the sum differs, of a trailer whose fields fit.
fn sum_fault(at: Standing, line: &[u8]) -> Option<Reason>
    ensures says { (n : ℕ) → IfSome result (Says n at line.now) }
    ensures row { IfSome result (λ reason. is_reason_of FaultCode.F07 reason ≡ true) }
    ensures none { IfNone result (is_without FaultCode.F07 at line.now ≡ true) }
{
    if line.len() != 136 {
        return None;
    }
    if !trailer_fits(line) {
        return None;
    }
    sum_reason(at, line)
}

/// What is wrong with a line by that row of the fault table, after records of this state. `None` where the
/// line has no such fault.
pub(crate) fn ret_reason(at: Standing, code: FaultCode, line: &[u8]) -> Option<Reason>
    requires room { at.records < 2 ^ 63 }
    requires counted { at.transactions ≤ at.records }
    // The reason is true of the line, and is one of the row.
    ensures says { IfSome result (Says (at.records + 1) at line.now) }
    ensures row { IfSome result (λ reason. is_reason_of code reason ≡ true) }
    // There is a reason for each line that is at fault in that row.
    ensures none { IfNone result (is_without code at line.now ≡ true) }
{
    let width = width_reason(line);
    let field = field_fault(at, line);
    let form = form_fault(at, line);
    let place = place_fault(at, line);
    let count = count_fault(at, line);
    let sum = sum_fault(at, line);
    match code {
        FaultCode::F01 => width,
        FaultCode::F02 | FaultCode::F04 => field,
        FaultCode::F03 => place,
        FaultCode::F05 => form,
        FaultCode::F06 => count,
        FaultCode::F07 => sum,
        FaultCode::F09 => Some(Reason::AfterTrailer { width: line.len() }),
        FaultCode::F08 | FaultCode::F10 => None,
    }
}
