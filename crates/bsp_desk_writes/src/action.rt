//! The actions on a memo.

ghost use Rattle.std.specs.Prelude.{◌≡◌};
ghost use Rattle.bsp_memos.specs.Steps.{MemoStep};
ghost use Rattle.bsp_office_spec.specs.Ledger.{review_of};
ghost use Rattle.bsp_desk_writes.specs.Actions.{meaning_of};

use bsp_memos::{Memo, MemoFault, agree, dispute, reduce, uphold, withdraw};
use bsp_rows::{Change, Day, Plan};

/// What is done about a memo. The first two are its agent's, the others its airline's.
#[derive(Clone, Copy)]
pub(crate) enum Action {
    /// The agent disputes it.
    Dispute,
    /// The agent agrees to it.
    Agree,
    /// The airline upholds it after a dispute.
    Uphold,
    /// The airline takes it back.
    Withdraw,
    /// The airline lowers it after a dispute, to an amount in minor units.
    Reduce(i64),
}

/// Takes an action on a memo, which only `Done` changes.
pub(crate) fn act(
    memo: &mut Memo,
    action: Action,
    day: Day,
    review_days: u32,
) -> Result<Change, MemoFault>
    ensures { MemoStep memo.old (meaning_of action) day review_days result memo.new }
{
    match action {
        Action::Dispute => dispute(memo, day, review_days),
        Action::Agree => agree(memo, day, review_days),
        Action::Uphold => uphold(memo),
        Action::Withdraw => withdraw(memo),
        Action::Reduce(amount) => reduce(memo, amount),
    }
}

/// The days in which an agent may dispute a memo, and 0 before terms are published.
pub(crate) fn review_days(plan: &Plan) -> u32
    ensures { result ≡ review_of plan.now.terms }
{
    match plan.terms() {
        Some(terms) => terms.review_days.into(),
        None => 0,
    }
}
