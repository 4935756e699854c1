//! The records of RET files: each record's columns, whether its fields fit, and its values.
#![tactic(auto)]

mod amounts;
mod codes;
mod columns;
mod header;
mod payment;
mod related;
mod sale;
mod trailer;
mod transactions;

pub use amounts::{amounts_fit, amounts_values};
pub use codes::{FormOfPayment, Profile, TransactionCode};
pub use columns::transaction_number;
pub use header::{header_fits, is_header, is_production, profile_of};
pub use payment::{card_values, form_of, paid_amount, payment_value};
pub use related::{related_fits, related_order, related_values};
pub use sale::{sale_code, sale_passenger, sale_values};
pub use trailer::{record_count, told_records, told_sum, trailer_fits, transaction_count};
pub use transactions::{Amounts, CardPayment, PaidSale, ReportedDocument, Sale, Tax, Transaction};
