//! The billing of a memo in one period.

ghost use Rattle.std.specs.Prelude.{◌≡◌, IsTrue, OnSome};
ghost use Rattle.bsp_memos.specs.Billing.{amount_due, billed_in, is_due, is_rightly_billed, may_be_billed};

use crate::fields::MemoFields;
use crate::kind::MemoKind;
use crate::memo::Memo;
use crate::review::is_past_review;
use crate::state::MemoState;
use bsp_fields::{Amount, Day, PeriodCode};

/// Whether it is a credit memo, or agreed, upheld, reduced, or open with its last review day before the
/// day.
fn is_due(fields: &MemoFields, day: Day, review_days: u32) -> bool
    ensures { result ≡ is_due fields.now day review_days }
{
    match (fields.kind, fields.state) {
        (MemoKind::Credit, _) => true,
        (_, MemoState::Agreed | MemoState::Upheld | MemoState::Reduced) => true,
        (_, MemoState::Open) => is_past_review(fields, day, review_days),
        (_, MemoState::Disputed | MemoState::Withdrawn) => false,
    }
}

/// The amount that a close on a business day bills. It is that of an unbilled memo which is a
/// credit memo, or agreed, upheld, reduced, or open with its last review day before the day.
pub fn billed_now(memo: &Memo, day: Day, review_days: u32) -> Option<Amount>
    ensures amount { result ≡ amount_due memo.now day review_days }
    ensures may_be_billed { OnSome result (IsTrue (may_be_billed memo.now)) }
{
    let fields = &memo.fields;
    let is_admitted = fields.billed.is_none() && is_due(fields, day, review_days);
    is_admitted.then_some(fields.amount)
}

/// Whether a memo is billed, and a close on the business day would bill it, were it unbilled. A memo
/// that was billed by `billed_now` passes on each later day.
pub fn is_rightly_billed(memo: &Memo, day: Day, review_days: u32) -> bool
    ensures { result ≡ is_rightly_billed memo.now day review_days }
{
    memo.fields.billed.is_some() && is_due(&memo.fields, day, review_days)
}

/// Bills a memo in a period. The memo must be one to which `billed_now` gave an amount.
pub fn bill(memo: &mut Memo, period: PeriodCode)
    requires { IsTrue (may_be_billed memo.old) }
    ensures { memo.new ≡ billed_in period memo.old }
{
    memo.fields.billed = Some(period);
}
