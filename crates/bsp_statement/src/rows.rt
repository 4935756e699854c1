//! The postings of rows.

ghost use Rattle.std.specs.Prelude.{◌≡◌, ◌++◌, IfOk, OnOk};
ghost use Rattle.bsp_statement.specs.Postings.{is_counted, item_posting, item_postings, memo_posting, memo_postings, postings};

use crate::posting::Posting;
use bsp_fields::PeriodCode;
use bsp_memos::{Memo, MemoFields};
use bsp_ret_records::TransactionCode;
use bsp_rules::{Item, amount_or_zero, card_amount, commission_amount};
use std::alloc::{AllocError, Global};

/// Whether an item is a living TKTT or RFND of the period: such items have a posting.
pub fn is_counted(period: PeriodCode, item: &Item) -> bool
    ensures { result ≡ is_counted period item.now }
{
    item.lives_in(period) && item.transaction.code != TransactionCode::Canx
}

impl Posting {
    /// What a living TKTT or RFND posts: one document, its cash, credit, commission and tax.
    pub fn of_item(item: &Item) -> Posting
        ensures { result ≡ item_posting item.now }
    {
        let transaction = &item.transaction;
        Posting {
            agent: item.agent,
            airline: transaction.document.airline,
            documents: 1,
            cash: amount_or_zero(transaction.cash),
            credit: card_amount(transaction.credit),
            commission: commission_amount(&transaction.amounts),
            tax: item.tax.get(),
            memos: 0,
        }
    }

    /// What a memo posts in the period in which it is billed: the amount that the agent owes.
    pub fn of_memo(memo: &MemoFields) -> Posting
        ensures { result ≡ memo_posting memo.now }
    {
        Posting {
            agent: memo.agent,
            airline: memo.airline,
            documents: 0,
            cash: 0,
            credit: 0,
            commission: 0,
            tax: 0,
            memos: memo.amount_owed().get(),
        }
    }
}

/// Appends the postings of the living TKTT and RFND of a period.
fn push_items(out: &mut Vec<Posting>, period: PeriodCode, items: &[Item]) -> Result<(), AllocError>
    ensures { OnOk result (out.new.items ≡ out.old.items ++ item_postings period items.now) }
{
    for item in items {
        if is_counted(period, item) {
            out.push(Posting::of_item(item))?;
        }
    }
    Ok(())
}

/// Appends the postings of the memos billed in a period.
fn push_memos(out: &mut Vec<Posting>, period: PeriodCode, memos: &[Memo]) -> Result<(), AllocError>
    ensures { OnOk result (out.new.items ≡ out.old.items ++ memo_postings period memos.now) }
{
    for memo in memos {
        let fields = memo.fields();
        if fields.is_billed_in(period) {
            out.push(Posting::of_memo(fields))?;
        }
    }
    Ok(())
}

/// The postings of a period: those of its living TKTT and RFND, then those of the memos billed in it.
///
/// # Errors
///
/// Where an allocation was refused.
pub fn postings_of(
    alloc: Global,
    period: PeriodCode,
    items: &[Item],
    memos: &[Memo],
) -> Result<Vec<Posting>, AllocError>
    ensures { IfOk result (λ out. out.items ≡ postings period items.now memos.now) }
{
    let mut out = Vec::new(alloc);
    push_items(&mut out, period, items)?;
    push_memos(&mut out, period, memos)?;
    Ok(out)
}
