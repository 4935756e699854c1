//! What an agent and an airline do about a memo. Each action answers whether it is done or stood
//! already, or the first refusal; only what is done changes the memo.

ghost use Rattle.std.specs.Prelude.{ℕ};
ghost use Rattle.bsp_fields.specs.CivilDay.{CivilDay};
ghost use Rattle.bsp_memos.specs.Steps.{Dispute, Agree, Uphold, Reduce, Withdraw, MemoStep};

use crate::amounts::reduced_amount;
use crate::fault::MemoFault;
use crate::memo::Memo;
use crate::review::{require_debit, require_review};
use crate::state::MemoState;
use bsp_fields::{Change, Day};

/// The agent disputes an open memo, on a business day up to its last review day.
///
/// # Errors
///
/// The first of `CreditMemo`, `StateForbids` and `ReviewOver` that applies; a memo that is disputed
/// already is held before the last two. After an error the memo is as it was.
pub fn dispute(memo: &mut Memo, day: Day, review_days: u32) -> Result<Change, MemoFault>
    ensures { MemoStep memo.old Dispute day review_days result memo.new }
{
    require_debit(&memo.fields)?;
    match memo.fields.state {
        MemoState::Disputed => Ok(Change::Held),
        MemoState::Open => {
            require_review(&memo.fields, day, review_days)?;
            memo.fields.state = MemoState::Disputed;
            Ok(Change::Done)
        }
        _ => Err(MemoFault::StateForbids),
    }
}

/// The agent agrees to an open memo, on a business day up to its last review day.
///
/// # Errors
///
/// The first of `CreditMemo`, `StateForbids` and `ReviewOver` that applies; a memo that is agreed
/// already is held before the last two. After an error the memo is as it was.
pub fn agree(memo: &mut Memo, day: Day, review_days: u32) -> Result<Change, MemoFault>
    ensures { MemoStep memo.old Agree day review_days result memo.new }
{
    require_debit(&memo.fields)?;
    match memo.fields.state {
        MemoState::Agreed => Ok(Change::Held),
        MemoState::Open => {
            require_review(&memo.fields, day, review_days)?;
            memo.fields.state = MemoState::Agreed;
            Ok(Change::Done)
        }
        _ => Err(MemoFault::StateForbids),
    }
}

/// The airline upholds a disputed memo.
///
/// # Errors
///
/// The first of `CreditMemo` and `StateForbids` that applies; a memo that is upheld already is held
/// before the second. After an error the memo is as it was.
pub fn uphold(memo: &mut Memo) -> Result<Change, MemoFault>
    ensures { (day : CivilDay) (review : ℕ) → MemoStep memo.old Uphold day review result memo.new }
{
    require_debit(&memo.fields)?;
    match memo.fields.state {
        MemoState::Upheld => Ok(Change::Held),
        MemoState::Disputed => {
            memo.fields.state = MemoState::Upheld;
            Ok(Change::Done)
        }
        _ => Err(MemoFault::StateForbids),
    }
}

/// The airline reduces a disputed memo to an amount from 1 to below the old one. The amount as issued
/// is kept.
///
/// # Errors
///
/// The first of `CreditMemo`, `StateForbids` and `AmountOutOfRange` that applies; a memo that is
/// reduced to this amount already is held before the last two. After an error the memo is as it was.
pub fn reduce(memo: &mut Memo, amount: i64) -> Result<Change, MemoFault>
    ensures { (day : CivilDay) (review : ℕ) → MemoStep memo.old (Reduce amount) day review result memo.new }
{
    require_debit(&memo.fields)?;
    match memo.fields.state {
        MemoState::Reduced if memo.fields.amount.get() == amount => Ok(Change::Held),
        MemoState::Disputed => {
            memo.fields.amount = reduced_amount(memo.fields.amount, amount)?;
            memo.fields.state = MemoState::Reduced;
            Ok(Change::Done)
        }
        _ => Err(MemoFault::StateForbids),
    }
}

/// The airline withdraws a memo that is open or disputed and not billed.
///
/// # Errors
///
/// The first of `CreditMemo` and `StateForbids` that applies; a memo that is withdrawn already is held
/// before the second. After an error the memo is as it was.
pub fn withdraw(memo: &mut Memo) -> Result<Change, MemoFault>
    ensures { (day : CivilDay) (review : ℕ) → MemoStep memo.old Withdraw day review result memo.new }
{
    require_debit(&memo.fields)?;
    match memo.fields.state {
        MemoState::Withdrawn => Ok(Change::Held),
        MemoState::Open | MemoState::Disputed if memo.fields.billed.is_none() => {
            memo.fields.state = MemoState::Withdrawn;
            Ok(Change::Done)
        }
        _ => Err(MemoFault::StateForbids),
    }
}
