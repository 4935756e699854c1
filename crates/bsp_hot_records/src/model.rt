//! What is judged of each record of a HOT file.

use crate::agent::AgentDigits;
use crate::code::DocumentCode;
use crate::form::FileForm;
use crate::totals::Totals;
use bsp_fields::{AirlineCode, DocNumber, PeriodCode};

/// What BFH01 says of the whole file.
#[derive(Clone, Copy)]
pub struct Heading {
    /// The airline whose file it is.
    pub airline: AirlineCode,
    /// Its period.
    pub period: PeriodCode,
    /// The currency, three letters (ISO 4217).
    pub currency: [u8; 3],
    /// The form of the file.
    pub form: FileForm,
}

/// What BOH03 says of an office.
#[derive(Clone, Copy)]
pub struct OfficeHeader {
    /// The agent.
    pub agent: AgentDigits,
    /// The period.
    pub period: PeriodCode,
    /// The currency, three letters (ISO 4217).
    pub currency: [u8; 3],
}

/// BKT06: the number of a transaction, and its airline.
#[derive(Clone, Copy)]
pub struct TransactionHeader {
    /// The number of the transaction, from 1.
    pub transaction: usize,
    /// Its airline.
    pub airline: AirlineCode,
}

/// What is judged of BKS24: its transaction, its agent, and the code and the number of its document.
#[derive(Clone, Copy)]
pub struct Document {
    /// The number of its transaction.
    pub transaction: usize,
    /// The agent that reported it.
    pub agent: AgentDigits,
    /// The code of the document.
    pub code: DocumentCode,
    /// The number of the document.
    pub number: DocNumber,
}

/// What is judged of BKS45: the airline and the number of the related document.
#[derive(Clone, Copy)]
pub struct RelatedDocument {
    /// The airline.
    pub airline: AirlineCode,
    /// The number, which ten digits write.
    pub number: u64,
}

/// A record behind BKS24. Amounts are in minor units.
#[derive(Clone, Copy)]
pub enum Part {
    /// BKS30, and whether it has taxes.
    Amounts(bool),
    /// BKS39, with the commission.
    Commission(i64),
    /// BKS42, with the tax on the commission.
    CommissionTax(i64),
    /// BKS45.
    Related(RelatedDocument),
    /// BKP84 with the form `CA`, and its amount.
    Cash(i64),
    /// BKP84 with the form `CC`, and its amount.
    Credit(i64),
    /// BKP84 with the form `EX`.
    Exchange,
}

/// A record behind BKS24, with its transaction number.
#[derive(Clone, Copy)]
pub struct PartOf {
    /// The number of its transaction.
    pub transaction: usize,
    /// What it says.
    pub part: Part,
}

/// BOT93: an agent's totals of one code.
#[derive(Clone, Copy)]
pub struct CodeTotals {
    /// The agent.
    pub agent: AgentDigits,
    /// The code of the documents.
    pub code: DocumentCode,
    /// Their totals.
    pub totals: Totals,
}

/// BOT94: an agent's totals.
#[derive(Clone, Copy)]
pub struct OfficeTotals {
    /// The agent.
    pub agent: AgentDigits,
    /// The totals of its documents.
    pub totals: Totals,
}

/// BCT95: the number of offices of the period, and its totals.
#[derive(Clone, Copy)]
pub struct PeriodTotals {
    /// The period.
    pub period: PeriodCode,
    /// How many offices it has.
    pub offices: usize,
    /// The totals of its documents.
    pub totals: Totals,
}

/// BFT99: the number of records of the file, and its totals.
#[derive(Clone, Copy)]
pub struct FileTotals {
    /// The airline.
    pub airline: AirlineCode,
    /// How many records the file has, this one too.
    pub records: usize,
    /// The totals of its documents.
    pub totals: Totals,
}

/// What is judged of a record of a HOT file: of BCH02 its period.
#[derive(Clone, Copy)]
pub enum Record {
    /// BFH01.
    FileHeader(Heading),
    /// BCH02, with its period.
    PeriodHeader(PeriodCode),
    /// BOH03.
    OfficeHeader(OfficeHeader),
    /// BKT06.
    TransactionHeader(TransactionHeader),
    /// BKS24.
    Document(Document),
    /// BKS30, BKS39, BKS42, BKS45 or BKP84.
    PartOf(PartOf),
    /// BOT93.
    CodeTotals(CodeTotals),
    /// BOT94.
    OfficeTotals(OfficeTotals),
    /// BCT95.
    PeriodTotals(PeriodTotals),
    /// BFT99.
    FileTotals(FileTotals),
}
