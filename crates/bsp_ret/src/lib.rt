//! RET files, in which agents report: read if and only if the grammar has them, else to their first
//! fault.
#![tactic(auto)]

mod fields;
mod file;
mod judge;
mod judging;
mod model;
mod notes;
mod pieces;
mod reader;
mod reading;
mod records;
mod standing;
mod values;

pub use bsp_ret_records::{
    Amounts, CardPayment, FormOfPayment, PaidSale, Profile, ReportedDocument, Sale, Tax,
    Transaction, TransactionCode,
};
pub use fields::{
    AmountsFields, DocumentFields, FormFields, GroupFields, HeaderFields, SaleFields, TaxFields,
    TrailerFields,
};
pub use file::RetFile;
pub use judging::{FileTotals, Judging};
pub use model::{FaultCode, LastRecord, Progress, Record, RetFault, Standing};
pub use reader::RetReader;
pub use reading::{fault_or_file, read_ret};
pub use values::{one_content, transaction};
