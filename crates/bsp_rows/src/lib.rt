//! The rows of all callers, by their keys: what is looked up in them, what each write makes of them, and the
//! rules that sound rows meet.
#![tactic(auto)]

mod audit;
mod demands;
mod item_rules;
mod keys;
mod laws;
mod limits;
mod questions;
mod rules;
mod sound_item;
mod tax_rules;
mod unsound;

pub use audit::are_sound;
pub use bsp_calendar::{CommissionTax, Currency, Period, Plan, PlanFault, PlanText, Rate, Terms};
pub use bsp_fields::{AgentCode, AirlineCode, Amount, Change, Day, DocNumber, PeriodCode, Token};
pub use bsp_memos::{Memo, MemoFields, MemoKind, MemoState, Reason};
pub use bsp_ret_records::{
    Amounts, CardPayment, ReportedDocument, Tax, Transaction, TransactionCode,
};
pub use bsp_rules::{Item, Range};
pub use bsp_statement::Tally;
pub use keys::{ItemKey, MemoKey, RangeKey, TallyKey};
pub use laws::{facts_from_rows, parts_are_enough, sound_is_kept, tallies_are_sums};
pub use questions::{Items, Memos, Tallies};
pub use unsound::{Unsound, first_unsound};
