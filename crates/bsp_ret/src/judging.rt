//! A RET file that is judged record by record, of which no text is kept.

ghost use Rattle.std.specs.Prelude.{◌≡◌, true, length, ◌≤◌, ◌<◌, ◌*◌, ◌^◌, ◌++◌, ◌∷◌, [], ℕ, List, Err, Some, IfOk, IfErr, IfSome, OnOk, OnErr, unsigned_abs};
ghost use Rattle.std.specs.Option.{option_to_list};
ghost use Rattle.bsp_fields.specs.Columns.{is_wide};
ghost use Rattle.bsp_ret_records.specs.Records.{IsFit, sale_fits};
ghost use Rattle.bsp_ret_records.specs.declared.codes.TransactionCode.{TransactionCode};
ghost use Rattle.bsp_ret_records.specs.declared.transactions.PaidSale.{PaidSale as Paid};
ghost use Rattle.bsp_ret.specs.Table.{row_fault, first_fault};
ghost use Rattle.bsp_ret.specs.Standings.{standing_behind};
ghost use Rattle.bsp_ret.specs.Judging.{AreTaken, IsFileOf, completed, with_payment, Continues, IsNear};

use crate::model::{FaultCode, Record, RetFault, Standing};
use bsp_ret_records::{PaidSale, sale_values};
use std::marker::Model;

/// What a RET file adds up to.
#[derive(Clone, Copy, PartialEq, Eq)]
pub struct FileTotals {
    /// The records, header and trailer included.
    pub records: usize,
    /// The transactions.
    pub transactions: usize,
    /// The sum of all forms of payment, in minor units.
    pub sum: i128,
}

/// The records of a RET file that were taken, one after another: their state, and the last transaction,
/// where it may go on. A contract sees both.
#[derive(Drop)]
pub struct Judging {
    at: Standing,
    begun: Option<PaidSale>,
}

impl Model for Judging {
    ghost use Rattle.bsp_ret.specs.Judging.{Judged, IsSmall};

    ghost Value = { Judged };

    ghost view = { λ j. record { at = j.at; begun = j.begun } };

    ghost invariant = { λ j. IsSmall j.at j.begun };
}

/// A transaction with one more payment.
fn with_payment(begun: Option<PaidSale>, amount: i64) -> Option<PaidSale>
    requires small { IfSome begun (λ p. unsigned_abs p.paid ≤ 3 * 10 ^ 11) }
    requires amount { unsigned_abs amount ≤ 99_999_999_999 }
    ensures value { result ≡ with_payment begun amount }
    ensures near { IsNear begun result }
{
    match begun {
        Some(PaidSale { sale, paid }) => Some(PaidSale {
            sale,
            paid: paid + amount,
        }),
        None => None,
    }
}

/// The last transaction after one more record, where it may go on.
fn go_on(begun: Option<PaidSale>, next: &Record, line: &[u8]) -> Option<PaidSale>
    requires small { IfSome begun (λ p. unsigned_abs p.paid ≤ 3 * 10 ^ 11) }
    requires fits { (code : TransactionCode) → next.now ≡ Record.Sale code → IsFit sale_fits line.now }
    ensures goes_on { Continues begun next.now line.now result }
    ensures near { IsNear begun result }
{
    match next {
        Record::Sale(_) => Some(PaidSale {
            sale: sale_values(line),
            paid: 0,
        }),
        Record::Form(_, amount) => with_payment(begun, amount.get()),
        Record::Related(_) | Record::Amounts => begun,
        Record::Header(_) | Record::Trailer => None,
    }
}

/// The last transaction, where a record completes it.
fn completed(begun: Option<PaidSale>, next: &Record) -> Option<PaidSale>
    ensures { result ≡ completed begun next.now }
{
    match next {
        Record::Sale(_) | Record::Trailer => begun,
        _ => None,
    }
}

impl Judging {
    /// Before any record.
    pub fn start() -> Judging
        ensures { AreTaken [] result [] }
    {
        Judging {
            at: Standing::start(),
            begun: None,
        }
    }

    /// The state of the records.
    pub fn state(&self) -> Standing
        ensures value { result ≡ self.now.at }
        ensures counted { result.transactions ≤ result.records }
    {
        self.at
    }

    /// Takes the next line, if it is a record that these records allow. Answers the transaction that it
    /// completes, if it does.
    ///
    /// # Errors
    ///
    /// The first row of the fault table that applies to the line. Nothing was taken.
    pub fn step(&mut self, line: &[u8]) -> Result<Option<PaidSale>, FaultCode>
        requires few { self.old.at.records < 2 ^ 62 }
        requires wide { is_wide line.now ≡ true }
        requires long { length line.now ≡ 136 }
        ensures state { OnOk result (self.new.at ≡ standing_behind self.old.at line.now) }
        ensures taken { IfOk result (λ ended. (ls : List (List ℕ)) (sales : List Paid) → AreTaken ls self.old sales → AreTaken (ls ++ line.now ∷ []) self.new (sales ++ option_to_list ended)) }
        ensures ended { IfOk result (λ ended. IfSome ended (λ p. self.old.begun ≡ Some p)) }
        ensures fault { IfErr result (λ code. row_fault self.old.at line.now ≡ Err code) }
        ensures same { OnErr result (self.new ≡ self.old) }
    {
        match self.at.step_record(line) {
            Ok(next) => {
                let ended = completed(self.begun, &next);
                self.begun = go_on(self.begun, &next, line);
                Ok(ended)
            }
            Err(code) => Err(code),
        }
    }

    /// Ends the file. Answers what it adds up to.
    ///
    /// # Errors
    ///
    /// F08, where the last record is no trailer.
    pub fn end(&self) -> Result<FileTotals, RetFault>
        requires { self.now.at.records < 2 ^ 63 }
        ensures file { IfOk result (λ totals. (ls : List (List ℕ)) (sales : List Paid) → AreTaken ls self.now sales → IsFileOf ls sales totals) }
        ensures small { IfOk result (λ totals. unsigned_abs totals.sum ≤ 2 ^ 63 * 10 ^ 11) }
        ensures fault { IfErr result (λ fault. (ls : List (List ℕ)) (sales : List Paid) → AreTaken ls self.now sales → first_fault ls ≡ Some fault) }
    {
        let Standing {
            records,
            transactions,
            sum,
            last,
            ..
        } = self.at;
        if last.has_ended() {
            Ok(FileTotals {
                records,
                transactions,
                sum,
            })
        } else {
            Err(self.at.fault(FaultCode::F08))
        }
    }
}
