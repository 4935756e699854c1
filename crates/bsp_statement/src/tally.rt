//! The tallies of rows, and their postings.

ghost use Rattle.std.specs.Prelude.{◌≡◌, SomeIff, IfOk};
ghost use Rattle.bsp_statement.specs.Tallies.{HasRoomForCharges, HasRoomForForms, HasRoomForItem, HasRoomForMemo, HasRoomForMemos, HasRoomForPosting, HasRoomToCount, counting, is_used, no_tally, tally_posting, tally_postings, with_charges, with_forms, with_item, with_memo, with_memos, with_posting};

use crate::posting::Posting;
use crate::rows::is_counted;
use bsp_fields::{AgentCode, AirlineCode, PeriodCode};
use bsp_memos::MemoFields;
use bsp_ret_records::TransactionCode;
use bsp_rules::Item;
use std::alloc::{AllocError, Global};

/// What an agent's rows of an airline and a period add up to: counts, and sums in minor units.
#[derive(Clone, Copy, PartialEq, Eq, Drop)]
pub struct Tally {
    /// The agent.
    pub agent: AgentCode,
    /// The airline.
    pub airline: AirlineCode,
    /// The period.
    pub period: PeriodCode,
    /// All accepted transactions, cancelled ones and CANX too.
    pub accepted: u32,
    /// The living TKTT and RFND.
    pub living: u32,
    /// The CANX.
    pub canx: u32,
    /// The memos billed.
    pub memo_count: u32,
    /// The cash (form CA) of the living TKTT and RFND.
    pub cash: i64,
    /// The credit (form CC) of the living TKTT and RFND.
    pub credit: i64,
    /// The commission of the living TKTT and RFND.
    pub commission: i64,
    /// The tax on the commission of the living TKTT and RFND.
    pub tax: i64,
    /// The memos billed: debit memos less credit memos.
    pub memos: i64,
}

impl Tally {
    /// The tally of no rows.
    pub fn nothing(agent: AgentCode, airline: AirlineCode, period: PeriodCode) -> Tally
        ensures { result ≡ no_tally agent airline period }
    {
        Tally {
            agent,
            airline,
            period,
            accepted: 0,
            living: 0,
            canx: 0,
            memo_count: 0,
            cash: 0,
            credit: 0,
            commission: 0,
            tax: 0,
            memos: 0,
        }
    }

    /// With the documents and the forms of a posting more.
    fn with_forms(&self, posting: &Posting) -> Option<Tally>
        ensures { SomeIff result (HasRoomForForms posting.now self.now) (with_forms posting.now self.now) }
    {
        Some(Tally {
            living: self.living.checked_add(posting.documents)?,
            cash: self.cash.checked_add(posting.cash)?,
            credit: self.credit.checked_add(posting.credit)?,
            ..*self
        })
    }

    /// With the commission of a posting and the tax on it more.
    fn with_charges(&self, posting: &Posting) -> Option<Tally>
        ensures { SomeIff result (HasRoomForCharges posting.now self.now) (with_charges posting.now self.now) }
    {
        Some(Tally {
            commission: self.commission.checked_add(posting.commission)?,
            tax: self.tax.checked_add(posting.tax)?,
            ..*self
        })
    }

    /// With the memos of a posting more.
    fn with_memos(&self, posting: &Posting) -> Option<Tally>
        ensures { SomeIff result (HasRoomForMemos posting.now self.now) (with_memos posting.now self.now) }
    {
        Some(Tally {
            memos: self.memos.checked_add(posting.memos)?,
            ..*self
        })
    }

    /// With a posting more, where its count and its sums have room for it.
    fn with_posting(&self, posting: &Posting) -> Option<Tally>
        ensures { SomeIff result (HasRoomForPosting posting.now self.now) (with_posting posting.now self.now) }
    {
        let paid = self.with_forms(posting)?;
        let charged = paid.with_charges(posting)?;
        charged.with_memos(posting)
    }

    /// With an item more among the accepted ones, and among the CANX if it is one.
    fn counting(&self, item: &Item) -> Option<Tally>
        ensures { SomeIff result (HasRoomToCount item.now self.now) (counting item.now self.now) }
    {
        let is_canx = item.transaction.code == TransactionCode::Canx;
        Some(Tally {
            accepted: self.accepted.checked_add(1)?,
            canx: self.canx.checked_add(u32::from(is_canx))?,
            ..*self
        })
    }

    /// With an item more of its agent, airline and period: a living TKTT or RFND adds what it posts, and
    /// each item, cancelled ones and CANX too, is counted. None where a count or a sum has no room for it.
    pub fn with_item(&self, item: &Item) -> Option<Tally>
        ensures { SomeIff result (HasRoomForItem item.now self.now) (with_item item.now self.now) }
    {
        let counted = self.counting(item)?;
        if is_counted(item.period, item) {
            counted.with_posting(&Posting::of_item(item))
        } else {
            Some(counted)
        }
    }

    /// With a memo more that is billed in its period to its agent by its airline. None where the count or
    /// the sum has no room for it.
    pub fn with_memo(&self, memo: &MemoFields) -> Option<Tally>
        ensures { SomeIff result (HasRoomForMemo memo.now self.now) (with_memo memo.now self.now) }
    {
        let counted = Tally {
            memo_count: self.memo_count.checked_add(1)?,
            ..*self
        };
        counted.with_posting(&Posting::of_memo(memo))
    }

    /// Whether it is of the period and counts a living TKTT or RFND or a billed memo.
    pub fn is_used_in(&self, period: PeriodCode) -> bool
        ensures { result ≡ is_used period self.now }
    {
        self.period == period && (self.living > 0 || self.memo_count > 0)
    }

    /// What its rows post together.
    pub fn posting(&self) -> Posting
        ensures { result ≡ tally_posting self.now }
    {
        Posting {
            agent: self.agent,
            airline: self.airline,
            documents: self.living,
            cash: self.cash,
            credit: self.credit,
            commission: self.commission,
            tax: self.tax,
            memos: self.memos,
        }
    }
}

/// The postings of a period, one for each tally that is used.
///
/// # Errors
///
/// Where an allocation was refused.
pub fn tally_postings(
    alloc: Global,
    period: PeriodCode,
    tallies: &[Tally],
) -> Result<Vec<Posting>, AllocError>
    ensures { IfOk result (λ out. out.items ≡ tally_postings period tallies.now) }
{
    let mut out = Vec::new(alloc);
    for tally in tallies {
        if tally.is_used_in(period) {
            out.push(tally.posting())?;
        }
    }
    Ok(out)
}
