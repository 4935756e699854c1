//! The rules of a billing and settlement plan: the verdict on a reported transaction, commission, the tax
//! on it, and net.
#![tactic(auto)]

mod amounts;
mod conditions;
mod facts;
mod gathering;
mod judging;
mod laws;
mod rounding;
mod rows;
mod searching;
mod sharing;
mod stock;
mod sums;
mod taxing;
mod tickets;
mod verdict;

pub use facts::{Facts, OwnNumber, RelatedDocument};
pub use gathering::facts_of;
pub use judging::judge;
pub use laws::{facts_by_key, meaning_of_verdicts, untaxed_in_form_1};
pub use rounding::commission;
pub use rows::{Item, Range};
pub use searching::is_living_relation;
pub use sums::{amount_or_zero, card_amount, commission_amount, net};
pub use taxing::{hundredths_for, tax_of};
pub use verdict::{Refusal, Reporter, Verdict};
