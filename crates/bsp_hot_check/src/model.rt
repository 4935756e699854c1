//! The state of the records before a place.

use bsp_fields::DocNumber;
use bsp_hot_records::{AgentDigits, DocumentCode, Heading, Sums};
use thiserror::Error;

/// The first record at fault of a text that is no HOT file.
#[derive(Clone, Copy, Debug, Error)]
#[error("H04 record {number}")]
pub struct RecordFault {
    /// Its number, counted from 1; where the text ends too early, the number after the last record.
    pub number: usize,
}

/// The totals of a HOT file: its records, its documents, and its net in minor units.
#[derive(Clone, Copy)]
pub struct HotTotals {
    /// The records, headers and totals counted.
    pub records: usize,
    /// The documents: sales, refunds, cancellations and memos.
    pub documents: usize,
    /// Cash less commission and tax on commission, in minor units (BFT99).
    pub net: i128,
}

/// The last record of a document.
#[derive(Clone, Copy)]
pub enum Stage {
    /// BKS24.
    Document,
    /// BKS30.
    Amounts,
    /// BKS39 of form 2, whose BKS42 comes next.
    Commission,
    /// The last record of the commission: BKS39 in form 1, BKS42 in form 2.
    Charged,
    /// BKS45.
    Related,
    /// BKP84 with the form `CA`.
    Cash,
    /// BKP84 with the form `CC`.
    Credit,
    /// BKP84 with the form `EX`.
    Exchange,
}

/// How far the last document is: its code, its last record, whether it has a BKS45, and the number
/// of its last record where that is a BKS45 and alone.
#[derive(Clone, Copy)]
pub struct Progress {
    /// Its code.
    pub code: DocumentCode,
    /// Its last record.
    pub stage: Stage,
    /// Whether it has a BKS45.
    pub related: bool,
    /// The number of its last record where that is a BKS45 and alone.
    pub only: Option<u64>,
}

/// Behind which record a place is.
#[derive(Clone, Copy)]
pub enum Place {
    /// None.
    Start,
    /// BFH01.
    Headed,
    /// BCH02 or BOT94.
    Between,
    /// BOH03.
    Opened,
    /// BKT06.
    Begun,
    /// BKS24 or a record behind it.
    InDocument(Progress),
    /// The BOT93 of that code.
    Totalled(DocumentCode),
    /// BCT95.
    Closed,
    /// BFT99.
    Ended,
}

/// The sums of the documents of each code.
#[derive(Clone, Copy)]
pub struct CodeSums {
    /// Of sales.
    pub tktt: Sums,
    /// Of refunds.
    pub rfnd: Sums,
    /// Of cancelled documents.
    pub canx: Sums,
    /// Of agency debit memos.
    pub adma: Sums,
    /// Of agency credit memos.
    pub acma: Sums,
}

/// By what the documents of an office are in order: the code, then the number.
#[derive(Clone, Copy)]
pub struct DocumentKey {
    /// The code.
    pub code: DocumentCode,
    /// The number.
    pub number: DocNumber,
}

/// What there is of the office so far: its sums by code and in all, and its last document.
#[derive(Clone, Copy)]
pub struct OfficeSums {
    /// Its sums by code.
    pub codes: CodeSums,
    /// Its sums in all.
    pub all: Sums,
    /// Its last document.
    pub latest: Option<DocumentKey>,
}

/// The state of the records before a place. It has how many they are, the place, the heading where
/// BFH01 is among them, and the numbers of complete offices and of transactions. It also has the
/// sums of all documents, the last office's agent, and what there is of an office that is not
/// complete.
#[derive(Clone, Copy)]
pub struct Standing {
    /// How many records there are.
    pub records: usize,
    /// Behind which of them the place is.
    pub place: Place,
    /// What BFH01 says of the file.
    pub heading: Option<Heading>,
    /// How many offices are complete.
    pub offices: usize,
    /// How many transactions there are.
    pub transactions: usize,
    /// The sums of all documents.
    pub file: Sums,
    /// The agent of the last office.
    pub agent: Option<AgentDigits>,
    /// What there is of an office that is not complete.
    pub office: OfficeSums,
}
