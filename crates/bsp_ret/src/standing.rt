//! What may follow a record of each kind.

ghost use Rattle.std.specs.Prelude.{◌≡◌, ◌+◌, ◌*◌, ◌^◌, ◌<◌, ◌≤◌, [], unsigned_abs};
ghost use Rattle.bsp_ret.specs.Standings.{only_with, standing_with};
ghost use Rattle.bsp_ret.specs.Table.{kind, standing, has_ended, is_start, is_complete, takes_related, comes_behind, takes_amounts, has_form, is_later, takes_form};

use crate::model::{FaultCode, LastRecord, Record, RetFault, Standing};
use bsp_ret_records::{FormOfPayment, Profile, TransactionCode};

/// Whether the form may be in a group with the code, which has a record 3 or none.
fn has_form(code: TransactionCode, related: bool, form: FormOfPayment) -> bool
    ensures { result ≡ has_form code related form }
{
    form != FormOfPayment::Exchange || code == TransactionCode::Tktt && related
}

/// Whether the second form comes later in the order CA, CC, EX.
fn is_later(before: FormOfPayment, form: FormOfPayment) -> bool
    ensures { result ≡ is_later before form }
{
    match before {
        FormOfPayment::Cash => form != FormOfPayment::Cash,
        FormOfPayment::Credit => form == FormOfPayment::Exchange,
        FormOfPayment::Exchange => false,
    }
}

/// By what a record 3 is in order that is alone, where the group has another or not.
fn only_with(related: bool, order: u64) -> Option<u64>
    ensures { result ≡ only_with related order }
{
    if related { None } else { Some(order) }
}

/// Whether a record 3 is behind the one before it, if there is one.
pub(crate) fn comes_behind(only: Option<u64>, order: u64) -> bool
    ensures { result ≡ comes_behind only order }
{
    match only {
        Some(first) => first < order,
        None => true,
    }
}

impl Standing {
    /// The state before any record.
    pub fn start() -> Standing
        ensures { result ≡ standing [] }
    {
        Standing {
            records: 0,
            transactions: 0,
            sum: 0,
            code: TransactionCode::Tktt,
            profile: Profile::P001,
            related: false,
            only: None,
            last: LastRecord::Start,
        }
    }

    /// The state with one more record, which says this.
    pub(crate) fn with(self, next: &Record) -> Standing
        requires room { self.records < 2 ^ 63 }
        requires counted { self.transactions ≤ self.records }
        requires small { unsigned_abs self.sum ≤ self.records * 10 ^ 11 }
        ensures standing { result ≡ standing_with self next.now }
        ensures records { result.records ≡ self.records + 1 }
        ensures counted { result.transactions ≤ result.records }
        ensures small { unsigned_abs result.sum ≤ result.records * 10 ^ 11 }
    {
        let at = Standing {
            records: self.records + 1,
            last: next.kind(),
            ..self
        };
        match next {
            Record::Header(profile) => Standing {
                profile: *profile,
                ..at
            },
            Record::Sale(code) => Standing {
                transactions: self.transactions + 1,
                code: *code,
                related: false,
                only: None,
                ..at
            },
            Record::Related(order) => Standing {
                related: true,
                only: only_with(self.related, *order),
                ..at
            },
            Record::Form(_, amount) => Standing {
                sum: self.sum + amount.get() as i128,
                ..at
            },
            Record::Amounts | Record::Trailer => at,
        }
    }

    /// A fault of the next record.
    pub fn fault(self, code: FaultCode) -> RetFault
        requires { self.records < usize.MAX }
        ensures { result ≡ record { code = code; at = self.records + 1 } }
    {
        RetFault {
            code,
            at: self.records + 1,
        }
    }
}

impl Record {
    fn kind(&self) -> LastRecord
        ensures { result ≡ kind self.now }
    {
        match self {
            Record::Header(_) => LastRecord::Header,
            Record::Sale(_) => LastRecord::Sale,
            Record::Related(_) => LastRecord::Related,
            Record::Amounts => LastRecord::Amounts,
            Record::Form(form, _) => LastRecord::Form(*form),
            Record::Trailer => LastRecord::Trailer,
        }
    }
}

impl LastRecord {
    /// Whether it is a trailer.
    pub fn has_ended(self) -> bool
        ensures { result ≡ has_ended self }
    {
        matches!(self, LastRecord::Trailer)
    }

    pub(crate) fn is_start(self) -> bool
        ensures { result ≡ is_start self }
    {
        matches!(self, LastRecord::Start)
    }

    /// Whether the group is complete, or none is there.
    pub(crate) fn is_complete(self, code: TransactionCode, related: bool) -> bool
        ensures { result ≡ is_complete self code related }
    {
        match self {
            LastRecord::Header | LastRecord::Form(FormOfPayment::Exchange) => true,
            LastRecord::Sale => code == TransactionCode::Canx,
            LastRecord::Form(_) => code != TransactionCode::Tktt || !related,
            _ => false,
        }
    }

    /// Whether a record 3 may come here, the first of its group or a second one behind this one that
    /// is alone.
    pub(crate) fn takes_related(
        self,
        code: TransactionCode,
        profile: Profile,
        only: Option<u64>,
    ) -> bool
        ensures { result ≡ takes_related self code profile only }
    {
        match self {
            LastRecord::Sale => code != TransactionCode::Canx,
            LastRecord::Related => {
                code == TransactionCode::Tktt && profile == Profile::P002 && only.is_some()
            }
            _ => false,
        }
    }

    pub(crate) fn takes_amounts(self, code: TransactionCode) -> bool
        ensures { result ≡ takes_amounts self code }
    {
        match self {
            LastRecord::Sale => code == TransactionCode::Tktt,
            LastRecord::Related => true,
            _ => false,
        }
    }

    /// Whether the form, or one that is none of the three, may come here.
    pub(crate) fn takes_form(
        self,
        code: TransactionCode,
        related: bool,
        form: Option<FormOfPayment>,
    ) -> bool
        ensures { result ≡ takes_form self code related form }
    {
        match self {
            LastRecord::Amounts => match form {
                Some(form) => has_form(code, related, form),
                None => true,
            },
            LastRecord::Form(before) => match form {
                Some(form) => is_later(before, form) && has_form(code, related, form),
                None => match before {
                    FormOfPayment::Cash => true,
                    FormOfPayment::Credit => has_form(code, related, FormOfPayment::Exchange),
                    FormOfPayment::Exchange => false,
                },
            },
            _ => false,
        }
    }
}
