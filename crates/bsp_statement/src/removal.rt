//! Tallies with a row less.

ghost use Rattle.std.specs.Prelude.{◌≡◌, SomeIff};
ghost use Rattle.bsp_statement.specs.Removal.{HasCharges, HasCounted, HasForms, HasItem, HasMemo, HasMemos, HasPosting, not_counting, without_charges, without_forms, without_item, without_memo, without_memos, without_posting};

use crate::posting::Posting;
use crate::rows::is_counted;
use crate::tally::Tally;
use bsp_memos::MemoFields;
use bsp_ret_records::TransactionCode;
use bsp_rules::Item;

impl Tally {
    /// With the documents and the forms of a posting less.
    fn without_forms(&self, posting: &Posting) -> Option<Tally>
        ensures { SomeIff result (HasForms posting.now self.now) (without_forms posting.now self.now) }
    {
        Some(Tally {
            living: self.living.checked_sub(posting.documents)?,
            cash: self.cash.checked_sub(posting.cash)?,
            credit: self.credit.checked_sub(posting.credit)?,
            ..*self
        })
    }

    /// With the commission of a posting and the tax on it less.
    fn without_charges(&self, posting: &Posting) -> Option<Tally>
        ensures { SomeIff result (HasCharges posting.now self.now) (without_charges posting.now self.now) }
    {
        Some(Tally {
            commission: self.commission.checked_sub(posting.commission)?,
            tax: self.tax.checked_sub(posting.tax)?,
            ..*self
        })
    }

    /// With the memos of a posting less.
    fn without_memos(&self, posting: &Posting) -> Option<Tally>
        ensures { SomeIff result (HasMemos posting.now self.now) (without_memos posting.now self.now) }
    {
        Some(Tally {
            memos: self.memos.checked_sub(posting.memos)?,
            ..*self
        })
    }

    /// With a posting less.
    fn without_posting(&self, posting: &Posting) -> Option<Tally>
        ensures { SomeIff result (HasPosting posting.now self.now) (without_posting posting.now self.now) }
    {
        let unpaid = self.without_forms(posting)?;
        let uncharged = unpaid.without_charges(posting)?;
        uncharged.without_memos(posting)
    }

    /// With an item less among the accepted ones, and among the CANX if it is one.
    fn not_counting(&self, item: &Item) -> Option<Tally>
        ensures { SomeIff result (HasCounted item.now self.now) (not_counting item.now self.now) }
    {
        let is_canx = item.transaction.code == TransactionCode::Canx;
        Some(Tally {
            accepted: self.accepted.checked_sub(1)?,
            canx: self.canx.checked_sub(u32::from(is_canx))?,
            ..*self
        })
    }

    /// Without an item of its agent, airline and period that it counts. None where a count has less than
    /// that, or what is left of a sum does not fit.
    pub fn without_item(&self, item: &Item) -> Option<Tally>
        ensures { SomeIff result (HasItem item.now self.now) (without_item item.now self.now) }
    {
        let counted = self.not_counting(item)?;
        if is_counted(item.period, item) {
            counted.without_posting(&Posting::of_item(item))
        } else {
            Some(counted)
        }
    }

    /// Without a memo that it counts. None where the count has none, or what is left of the sum does not fit.
    pub fn without_memo(&self, memo: &MemoFields) -> Option<Tally>
        ensures { SomeIff result (HasMemo memo.now self.now) (without_memo memo.now self.now) }
    {
        let counted = Tally {
            memo_count: self.memo_count.checked_sub(1)?,
            ..*self
        };
        counted.without_posting(&Posting::of_memo(memo))
    }
}
