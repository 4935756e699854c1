//! The fault table over one record, after records in this state, and what the record says.

ghost use Rattle.std.specs.Prelude.{◌≡◌, ◌+◌, ◌*◌, ◌^◌, ◌<◌, ◌≤◌, ◌&&◌, ◌-◌, length, true, false, unsigned_abs, unwrap_or, Ok, Err, IfOk, IfErr, OnOk, OnErr};
ghost use Rattle.bsp_fields.specs.FirstFault.{first_fault_or};
ghost use Rattle.bsp_fields.specs.Columns.{identifier, is_wide};
ghost use Rattle.bsp_ret_records.specs.Records.{IsFit, profile_of, sale_fits, related_order, related_fits, amounts_fit, form_of, form_fits, trailer_fits};
ghost use Rattle.bsp_ret.specs.Said.{record_in};
ghost use Rattle.bsp_ret.specs.Table.{has_ended, has_counts, has_sum, header_table, is_complete, takes_related, comes_behind, takes_amounts, takes_form, transaction_table, trailer_table, later_table, record_table, row_fault};
ghost use Rattle.bsp_ret.specs.Standings.{standing_behind, FitsIn};

use crate::model::{FaultCode, Record, Standing};
use crate::standing::comes_behind;
use bsp_fields::{is_wide, spells};
use bsp_ret_records::{
    Profile, amounts_fit, form_of, header_fits, is_header, is_production, paid_amount, profile_of,
    record_count, related_fits, related_order, sale_code, told_sum, trailer_fits,
    transaction_count, transaction_number,
};

/// Whether a trailer has the numbers of the records and the transactions.
fn has_counts(at: Standing, line: &[u8]) -> bool
    requires wide { length line.now ≡ 136 }
    requires room { at.records < 2 ^ 63 }
    ensures { result ≡ has_counts at line.now }
{
    spells(at.records + 1, record_count(line)) && spells(at.transactions, transaction_count(line))
}

/// Whether a trailer whose fields fit has the sum of the forms.
fn has_sum(at: Standing, line: &[u8]) -> bool
    requires { IsFit trailer_fits line.now }
    ensures { result ≡ has_sum at line.now }
{
    told_sum(line).get() == at.sum
}

fn header_record(line: &[u8]) -> Result<Record, FaultCode>
    requires { length line.now ≡ 136 }
    ensures { result ≡ first_fault_or (header_table line.now) (Record.Header (unwrap_or (profile_of line.now) Profile.P001)) }
{
    let profile = profile_of(line).unwrap_or(Profile::P001);
    if !is_header(line) {
        Err(FaultCode::F02)
    } else if !is_production(line) {
        Err(FaultCode::F04)
    } else if !header_fits(line) {
        Err(FaultCode::F05)
    } else {
        Ok(Record::Header(profile))
    }
}

#[tactic(auto, unfolding(crate::specs::Said::record_in))]
fn sale_record(at: Standing, line: &[u8]) -> Result<Record, FaultCode>
    requires wide { length line.now ≡ 136 }
    requires kind { identifier line.now ≡ 50 }
    requires room { at.records < 2 ^ 63 }
    requires counted { at.transactions ≤ at.records }
    ensures { result ≡ first_fault_or (transaction_table (is_complete at.last at.code at.related) (at.transactions + 1) (sale_fits line.now) line.now) (record_in line.now) }
{
    if !at.last.is_complete(at.code, at.related)
        || !spells(at.transactions + 1, transaction_number(line))
    {
        return Err(FaultCode::F03);
    }
    match sale_code(line) {
        Some(code) => Ok(Record::Sale(code)),
        None => Err(FaultCode::F05),
    }
}

#[tactic(auto, unfolding(crate::specs::Said::record_in))]
fn related_record(at: Standing, line: &[u8]) -> Result<Record, FaultCode>
    requires wide { length line.now ≡ 136 }
    requires kind { identifier line.now ≡ 51 }
    ensures { result ≡ first_fault_or (transaction_table (takes_related at.last at.code at.profile at.only) at.transactions (related_fits line.now && comes_behind at.only (related_order line.now)) line.now) (record_in line.now) }
{
    if !at.last.takes_related(at.code, at.profile, at.only)
        || !spells(at.transactions, transaction_number(line))
    {
        return Err(FaultCode::F03);
    }
    if !related_fits(line) {
        return Err(FaultCode::F05);
    }
    let order = related_order(line);
    if comes_behind(at.only, order) {
        Ok(Record::Related(order))
    } else {
        Err(FaultCode::F05)
    }
}

#[tactic(auto, unfolding(crate::specs::Said::record_in))]
fn amounts_record(at: Standing, line: &[u8]) -> Result<Record, FaultCode>
    requires wide { length line.now ≡ 136 }
    requires kind { identifier line.now ≡ 53 }
    ensures { result ≡ first_fault_or (transaction_table (takes_amounts at.last at.code) at.transactions (amounts_fit line.now) line.now) (record_in line.now) }
{
    if !at.last.takes_amounts(at.code) || !spells(at.transactions, transaction_number(line)) {
        Err(FaultCode::F03)
    } else if !amounts_fit(line) {
        Err(FaultCode::F05)
    } else {
        Ok(Record::Amounts)
    }
}

#[tactic(auto, using(bsp_ret_records::proofs::FormTests::no_form), unfolding(crate::specs::Said::record_in))]
fn form_record(at: Standing, line: &[u8]) -> Result<Record, FaultCode>
    requires wide { length line.now ≡ 136 }
    requires kind { identifier line.now ≡ 56 }
    ensures { result ≡ first_fault_or (transaction_table (takes_form at.last at.code at.related (form_of line.now)) at.transactions (form_fits line.now) line.now) (record_in line.now) }
{
    let form = form_of(line);
    if !at.last.takes_form(at.code, at.related, form)
        || !spells(at.transactions, transaction_number(line))
    {
        return Err(FaultCode::F03);
    }
    let Some(form) = form else {
        return Err(FaultCode::F05);
    };
    match paid_amount(line, form) {
        Some(amount) => Ok(Record::Form(form, amount)),
        None => Err(FaultCode::F05),
    }
}

/// A trailer, or a record of no kind.
fn trailer_record(at: Standing, line: &[u8]) -> Result<Record, FaultCode>
    requires wide { length line.now ≡ 136 }
    requires room { at.records < 2 ^ 63 }
    ensures { result ≡ first_fault_or (trailer_table at line.now) Record.Trailer }
{
    if line[0] != b'Z' || !at.last.is_complete(at.code, at.related) {
        Err(FaultCode::F03)
    } else if !trailer_fits(line) {
        Err(FaultCode::F05)
    } else if !has_counts(at, line) {
        Err(FaultCode::F06)
    } else if !has_sum(at, line) {
        Err(FaultCode::F07)
    } else {
        Ok(Record::Trailer)
    }
}

fn later_record(at: Standing, line: &[u8]) -> Result<Record, FaultCode>
    requires wide { length line.now ≡ 136 }
    requires room { at.records < 2 ^ 63 }
    requires counted { at.transactions ≤ at.records }
    ensures { result ≡ first_fault_or (later_table at line.now) (record_in line.now) }
{
    match line[0] {
        b'2' => sale_record(at, line),
        b'3' => related_record(at, line),
        b'5' => amounts_record(at, line),
        b'8' => form_record(at, line),
        _ => trailer_record(at, line),
    }
}

/// What a record says that is no fault after records in this state that have not ended, or the
/// first row of the fault table that applies to it.
#[inline(always)]
pub(crate) fn judge_record(at: Standing, line: &[u8]) -> Result<Record, FaultCode>
    requires wide { is_wide line.now ≡ true }
    requires long { length line.now ≡ 136 }
    requires goes_on { has_ended at.last ≡ false }
    requires room { at.records < 2 ^ 63 }
    requires counted { at.transactions ≤ at.records }
    ensures row { IfOk result (λ said. row_fault at line.now ≡ Ok tt) }
    ensures says { IfOk result (λ said. said ≡ record_in line.now) }
    ensures fault { IfErr result (λ code. row_fault at line.now ≡ Err code) }
{
    if at.last.is_start() {
        header_record(line)
    } else {
        later_record(at, line)
    }
}

/// What a line says that is a record without fault after records in this state, or the first row of
/// the fault table that applies to it.
#[tactic(auto, using(crate::proofs::SaidLemmas::ended_row, crate::proofs::SaidLemmas::narrow_row))]
pub(crate) fn judge_line(at: Standing, line: &[u8]) -> Result<Record, FaultCode>
    requires room { at.records < 2 ^ 63 }
    requires counted { at.transactions ≤ at.records }
    ensures row { IfOk result (λ said. row_fault at line.now ≡ Ok tt) }
    ensures says { IfOk result (λ said. said ≡ record_in line.now) }
    ensures fault { IfErr result (λ code. row_fault at line.now ≡ Err code) }
{
    if at.last.has_ended() {
        Err(FaultCode::F09)
    } else if !is_wide(line) {
        Err(FaultCode::F01)
    } else {
        judge_record(at, line)
    }
}

impl Standing {
    #[tactic(auto, using(crate::proofs::SaidLemmas::ended_row))]
    /// Takes the next record, if these records allow it. Answers what it says.
    ///
    /// # Errors
    ///
    /// The first row of the fault table that applies to it. The state is as it was.
    #[inline(always)]
    pub fn step_record(&mut self, line: &[u8]) -> Result<Record, FaultCode>
        requires fits { FitsIn self.old (2 ^ 63 - 1) }
        requires wide { is_wide line.now ≡ true }
        requires long { length line.now ≡ 136 }
        ensures row { OnOk result (row_fault self.old line.now ≡ Ok tt) }
        ensures says { IfOk result (λ said. said ≡ record_in line.now) }
        ensures state { OnOk result (self.new ≡ standing_behind self.old line.now) }
        ensures fits { OnOk result (FitsIn self.new (self.old.records + 1)) }
        ensures fault { IfErr result (λ code. row_fault self.old line.now ≡ Err code) }
        ensures same { OnErr result (self.new ≡ self.old) }
    {
        if self.last.has_ended() {
            return Err(FaultCode::F09);
        }
        match judge_record(*self, line) {
            Ok(next) => {
                *self = self.with(&next);
                Ok(next)
            }
            Err(code) => Err(code),
        }
    }

    /// Takes the next line, if it is a record that these records allow. Answers what it says.
    ///
    /// # Errors
    ///
    /// The first row of the fault table that applies to the line. The state is as it was.
    pub fn step(&mut self, line: &[u8]) -> Result<Record, FaultCode>
        requires { FitsIn self.old (2 ^ 63 - 1) }
        ensures row { OnOk result (row_fault self.old line.now ≡ Ok tt) }
        ensures says { IfOk result (λ said. said ≡ record_in line.now) }
        ensures state { OnOk result (self.new ≡ standing_behind self.old line.now) }
        ensures fits { OnOk result (FitsIn self.new (self.old.records + 1)) }
        ensures fault { IfErr result (λ code. row_fault self.old line.now ≡ Err code) }
        ensures same { OnErr result (self.new ≡ self.old) }
    {
        match judge_line(*self, line) {
            Ok(next) => {
                *self = self.with(&next);
                Ok(next)
            }
            Err(code) => Err(code),
        }
    }
}
