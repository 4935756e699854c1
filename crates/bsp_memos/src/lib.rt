//! Debit and credit memos of airlines to agents, in the manner of IATA Resolution 850m. The crate
//! has what an agent and an airline may do about one, and the billing of each in one period.
//!
//! A [`Memo`] satisfies the rules of its fields at all times. The actions answer by `MemoStep` of
//! `specs/`; after a refusal the memo is as it was. No call takes memory.
#![tactic(auto)]

mod actions;
mod amounts;
mod billing;
mod fault;
mod fields;
mod kind;
mod law;
mod memo;
mod reason;
mod review;
mod state;

pub use actions::{agree, dispute, reduce, uphold, withdraw};
pub use billing::{bill, billed_now, is_rightly_billed};
pub use fault::MemoFault;
pub use fields::MemoFields;
pub use kind::MemoKind;
pub use law::{billed_once, billing_kept};
pub use memo::Memo;
pub use reason::Reason;
pub use state::MemoState;
