//! The row that breaks a rule of the audit.

ghost use Rattle.std.specs.Prelude.{ℕ, List, MatchOption};
ghost use Rattle.std.specs.FinMap.{FinMap};
ghost use Rattle.std.specs.Ordering.{nat_cmp};
ghost use Rattle.bsp_rows.specs.Audit.{Breaks, IsEachAudited, rows_of};

use crate::demands::first_unmet;
use crate::keys::{ItemKey, MemoKey, RangeKey};
use crate::rules::{OfRegistered, SoundMemo};
use crate::sound_item::SoundItem;
use bsp_calendar::Plan;
use bsp_fields::{AgentCode, DocNumber, Token};
use bsp_memos::Memo;
use bsp_rules::Item;
use std::collections::BTreeMap;

/// The key of a row that breaks a rule of the audit.
#[derive(Clone, Copy)]
pub enum Unsound {
    /// A range whose agent is not registered.
    Range(RangeKey),
    /// An item that breaks one of the rules on an item.
    Item(ItemKey),
    /// A memo that breaks one of the rules on a memo.
    Memo(MemoKey),
}

/// The first row that breaks a rule of the audit, by itself or beside the rows that it names: ranges come first, and then
/// items, and then memos. None where there is no such row. Then rows that are not sound break a rule on many rows: the
/// ranges of one number, the relations to one ticket, or the documents limit. It takes no memory.
pub fn first_unsound(
    plan: &Plan,
    agents: &BTreeMap<AgentCode, Token>,
    ranges: &BTreeMap<RangeKey, DocNumber>,
    items: &BTreeMap<ItemKey, Item>,
    memos: &BTreeMap<MemoKey, Memo>,
) -> Option<Unsound>
    ensures { (airlines : FinMap nat_cmp (List ℕ)) → MatchOption result (IsEachAudited (rows_of plan.now airlines agents.now ranges.now items.now memos.now)) (Breaks (rows_of plan.now airlines agents.now ranges.now items.now memos.now)) }
{
    if let Some(key) = first_unmet(ranges, &OfRegistered(agents)) {
        return Some(Unsound::Range(key));
    }
    let demand = SoundItem {
        plan,
        agents,
        ranges,
        items,
    };
    if let Some(key) = first_unmet(items, &demand) {
        return Some(Unsound::Item(key));
    }
    match first_unmet(memos, &SoundMemo { plan, agents }) {
        Some(key) => Some(Unsound::Memo(key)),
        None => None,
    }
}
