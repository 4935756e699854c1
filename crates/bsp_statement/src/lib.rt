//! What the items and the memos of a period post, and the reports of it: the billing statement of an agent, and the
//! settlement, whose two sides add up.
//!
//! A [`Posting`] is what one row adds to the sums of its agent and its airline. A [`Tally`] is what the rows of
//! an agent, an airline and a period add up to. Amounts are in minor units. Both reports are made of the rows passed, in
//! any order: items, memos and the plan, or the tallies that the rows add up to.
#![tactic(auto)]

mod columns;
mod fault;
mod figures;
mod law;
mod nets;
mod period;
mod posting;
mod removal;
mod rows;
mod settlements;
mod statements;
mod tally;

pub use fault::StatementFault;
pub use law::{tallies_grow, tallies_shrink, two_sides};
pub use nets::{AgentNet, AirlineNet, Settlement};
pub use posting::Posting;
pub use rows::{is_counted, postings_of};
pub use settlements::{settlement, settlement_of};
pub use statements::{statement, statement_of};
pub use tally::{Tally, tally_postings};
