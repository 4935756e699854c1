//! How an accepted transaction is kept.

ghost use Rattle.std.specs.Prelude.{◌≡◌, IfSome, false, ⊤};
ghost use Rattle.bsp_book.specs.Calls.{Makes};
ghost use Rattle.bsp_rows.specs.Changes.{after_accepted, ended_by};
ghost use Rattle.bsp_rows.specs.Rows.{HasNumberKey, item_at, key_of};
ghost use Rattle.bsp_rows.specs.Writes.{IsFree};
ghost use Rattle.bsp_desk_sales.specs.Judged.{HasFreeKey, item_of, rows_with};

use bsp_book::{Book, BookFault};
use bsp_rows::{AgentCode, ItemKey, Plan, Transaction};
use bsp_rules::{Facts, Item, Verdict};

/// A CANX ends the TKTT or RFND of its number.
fn end_sale<B: Book>(book: &mut B, item: &Item) -> Result<(), BookFault>
    requires works { B.means.has_failed book.old ≡ false }
    requires numbered { HasNumberKey item.now }
    ensures { Makes B.means book.old book.new result (λ now. ⊤) (ended_by item.now) }
{
    let Some(key) = ItemKey::of(item) else {
        unreachable!()
    };
    if key.is_canx {
        book.end_item(key.sale())
    } else {
        Ok(())
    }
}

/// Adds an item, after what it ends.
fn keep<B: Book>(book: &mut B, item: &Item) -> Result<(), BookFault>
    requires works { B.means.has_failed book.old ≡ false }
    requires numbered { HasNumberKey item.now }
    ensures { Makes B.means book.old book.new result (λ now. IsFree (item_at (key_of item.now) (ended_by item.now now))) (after_accepted item.now) }
{
    end_sale(book, item)?;
    book.add_item(item)
}

/// What a transaction of the agent becomes, where the verdict accepts it.
pub(crate) fn accepted(
    agent: AgentCode,
    transaction: &Transaction,
    facts: &Facts,
    plan: &Plan,
    verdict: &Verdict,
) -> Option<Item>
    ensures { result ≡ item_of agent transaction.now facts.now plan.now verdict.now }
{
    match verdict {
        Verdict::Accepted(period) => Some(Item::accepted(agent, *period, transaction, facts, plan)),
        Verdict::Held(_) | Verdict::Refused(_) => None,
    }
}

/// Keeps what a transaction became, if it was accepted.
pub(crate) fn keep_accepted<B: Book>(book: &mut B, item: &Option<Item>) -> Result<(), BookFault>
    requires works { B.means.has_failed book.old ≡ false }
    requires numbered { IfSome item.now HasNumberKey }
    ensures { Makes B.means book.old book.new result (HasFreeKey item.now) (rows_with item.now) }
{
    match item {
        Some(item) => keep(book, item),
        None => Ok(()),
    }
}
