//! The days in which a memo is reviewed.

ghost use Rattle.std.specs.Prelude.{◌≡◌, ◌||◌, is_some, [], ◌∷◌};
ghost use Rattle.bsp_fields.specs.FirstFault.{first_fault_or};
ghost use Rattle.bsp_memos.specs.States.{is_credit};
ghost use Rattle.bsp_memos.specs.Steps.{is_past_review};

use crate::fault::MemoFault;
use crate::fields::MemoFields;
use crate::kind::MemoKind;
use bsp_fields::Day;

/// Whether the last review day of a memo lies before the day.
pub(crate) fn is_past_review(memo: &MemoFields, day: Day, review_days: u32) -> bool
    ensures { result ≡ is_past_review memo.now day review_days }
{
    memo.issued.plus(review_days) < day.number()
}

/// Refuses a credit memo.
pub(crate) fn require_debit(memo: &MemoFields) -> Result<(), MemoFault>
    ensures { result ≡ first_fault_or ((is_credit memo.now.kind, MemoFault.CreditMemo) ∷ []) tt }
{
    match memo.kind {
        MemoKind::Debit => Ok(()),
        MemoKind::Credit => Err(MemoFault::CreditMemo),
    }
}

/// Refuses a memo about which the agent can do no more: its last review day is past, or it is billed.
pub(crate) fn require_review(memo: &MemoFields, day: Day, review_days: u32) -> Result<(), MemoFault>
    ensures { result ≡ first_fault_or
        ((is_some memo.now.billed || is_past_review memo.now day review_days, MemoFault.ReviewOver) ∷ []) tt }
{
    if memo.billed.is_some() || is_past_review(memo, day, review_days) {
        return Err(MemoFault::ReviewOver);
    }
    Ok(())
}
