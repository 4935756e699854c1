//! The audit of rows.

ghost use Rattle.std.specs.Prelude.{ℕ, IfOk, List};
ghost use Rattle.std.specs.Bool.{Decides};
ghost use Rattle.std.specs.FinMap.{FinMap};
ghost use Rattle.std.specs.Ordering.{nat_cmp};
ghost use Rattle.bsp_rows.specs.Audit.{AreItemsAudited, AreMemosAudited, as_map, rows_of};
ghost use Rattle.bsp_rows.specs.Rows.{range_cmp};
ghost use Rattle.bsp_rows.specs.Sound.{AreSoundRanges, Sound};

use crate::demands::all_meet;
use crate::keys::{ItemKey, MemoKey, RangeKey};
use crate::limits::{
    are_apart, are_documents_within, are_memos_within, are_related_once, documents_limit,
};
use crate::rules::{OfRegistered, SoundMemo};
use crate::sound_item::SoundItem;
use bsp_calendar::Plan;
use bsp_fields::{AgentCode, DocNumber, Token};
use bsp_memos::Memo;
use bsp_rules::Item;
use std::alloc::{AllocError, Global};
use std::collections::BTreeMap;

/// Whether each range is of a registered agent and has a number, and no number is in two.
fn are_ranges_sound(
    alloc: Global,
    agents: &BTreeMap<AgentCode, Token>,
    ranges: &BTreeMap<RangeKey, DocNumber>,
) -> Result<bool, AllocError>
    ensures { IfOk result (λ sound. Decides sound (AreSoundRanges (as_map nat_cmp agents.now) (as_map range_cmp ranges.now))) }
{
    let _count = ranges.len();
    if !are_apart(alloc, ranges)? {
        return Ok(false);
    }
    Ok(all_meet(ranges, &OfRegistered(agents)))
}

/// Whether the items meet the rules on items, ranges being those of their agents.
fn are_items_sound(
    alloc: Global,
    plan: &Plan,
    agents: &BTreeMap<AgentCode, Token>,
    ranges: &BTreeMap<RangeKey, DocNumber>,
    items: &BTreeMap<ItemKey, Item>,
) -> Result<bool, AllocError>
    ensures { IfOk result (λ sound. Decides sound (AreItemsAudited plan.now agents.now ranges.now items.now)) }
{
    let demand = SoundItem {
        plan,
        agents,
        ranges,
        items,
    };
    if !all_meet(items, &demand) {
        return Ok(false);
    }
    if !are_related_once(alloc, items)? {
        return Ok(false);
    }
    are_documents_within(alloc, items, documents_limit(plan))
}

/// Whether the memos meet the rules on memos.
fn are_memos_sound(
    alloc: Global,
    plan: &Plan,
    agents: &BTreeMap<AgentCode, Token>,
    memos: &BTreeMap<MemoKey, Memo>,
) -> Result<bool, AllocError>
    ensures { IfOk result (λ sound. Decides sound (AreMemosAudited plan.now agents.now memos.now)) }
{
    if !all_meet(memos, &SoundMemo { plan, agents }) {
        return Ok(false);
    }
    are_memos_within(alloc, memos, documents_limit(plan))
}

/// The audit: whether rows are sound, whatever airlines are registered. The rules are those of `Sound` in
/// `specs/`, each a function of its own. It takes time and memory in proportion to the rows, and a
/// logarithm.
///
/// # Errors
///
/// Where an allocation was refused.
pub fn are_sound(
    alloc: Global,
    plan: &Plan,
    agents: &BTreeMap<AgentCode, Token>,
    ranges: &BTreeMap<RangeKey, DocNumber>,
    items: &BTreeMap<ItemKey, Item>,
    memos: &BTreeMap<MemoKey, Memo>,
) -> Result<bool, AllocError>
    ensures { IfOk result (λ sound. (airlines : FinMap nat_cmp (List ℕ)) → Decides sound (Sound (rows_of plan.now airlines agents.now ranges.now items.now memos.now))) }
{
    plan.meets_rules();
    let (_items, _memos) = (items.len(), memos.len());
    if !are_ranges_sound(alloc, agents, ranges)? {
        return Ok(false);
    }
    if !are_items_sound(alloc, plan, agents, ranges, items)? {
        return Ok(false);
    }
    are_memos_sound(alloc, plan, agents, memos)
}
