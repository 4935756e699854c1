//! What the audit demands of ranges and memos, and of whom each row names.

ghost use Rattle.std.specs.Prelude.{◌≡◌, ℕ, Some, IsSome};
ghost use Rattle.std.specs.Bool.{Decides};
ghost use Rattle.std.specs.FinMap.{get};
ghost use Rattle.std.specs.Ordering.{nat_cmp};
ghost use Rattle.bsp_calendar.specs.Published.{is_closed};
ghost use Rattle.bsp_rows.specs.Audit.{IsRightlyBilled, as_map};
ghost use Rattle.bsp_rows.specs.Rows.{memo_key};
ghost use Rattle.bsp_rows.specs.Sound.{IsSoundBilling, IsSoundMemo};

use crate::demands::{Demand, at};
use crate::item_rules::is_up_to;
use crate::keys::{ItemKey, MemoKey, RangeKey};
use bsp_calendar::Plan;
use bsp_fields::{AgentCode, DocNumber, PeriodCode, Token};
use bsp_memos::{Memo, is_rightly_billed};
use bsp_rules::Item;
use std::collections::BTreeMap;

/// Whether an agent is registered.
fn is_registered(agents: &BTreeMap<AgentCode, Token>, agent: AgentCode) -> bool
    ensures { Decides result (IsSome (get (as_map nat_cmp agents.now) agent)) }
{
    at(agents, agent).is_some()
}

/// The agent of a range or an item is registered.
#[derive(Clone, Copy)]
pub(crate) struct OfRegistered<'a>(pub(crate) &'a BTreeMap<AgentCode, Token>);

impl<'a> Demand<RangeKey, DocNumber> for OfRegistered<'a> {
    ghost asks = { λ rule k last. IsSome (get (as_map nat_cmp rule.0.now) k.agent) };

    fn is_met(&self, key: &RangeKey, _last: &DocNumber) -> bool {
        is_registered(self.0, key.agent)
    }
}

impl<'a> Demand<ItemKey, Item> for OfRegistered<'a> {
    ghost asks = { λ rule k i. IsSome (get (as_map nat_cmp rule.0.now) k.agent) };

    fn is_met(&self, key: &ItemKey, _item: &Item) -> bool {
        is_registered(self.0, key.agent)
    }
}

/// Whether a period is closed.
fn is_closed(plan: &Plan, code: PeriodCode) -> bool
    ensures { result ≡ is_closed plan.now code }
{
    plan.meets_rules();
    match plan.period(code) {
        Some((_, closed)) => closed,
        None => false,
    }
}

/// Whether there are terms, and a memo is billed as a close on the business day would bill it.
fn is_admitted(plan: &Plan, memo: &Memo) -> bool
    ensures { Decides result (IsRightlyBilled plan.now memo.now) }
{
    match plan.terms() {
        Some(terms) => is_rightly_billed(memo, plan.day(), terms.review_days as u32),
        None => false,
    }
}

/// Whether a memo is not billed, or is billed in a closed period and as a close would bill it.
fn is_billing_sound(plan: &Plan, memo: &Memo) -> bool
    ensures { Decides result ((period : ℕ) → memo.now.billed ≡ Some period → IsSoundBilling plan.now memo.now period) }
{
    match memo.fields().billed {
        None => true,
        Some(period) => is_closed(plan, period) && is_admitted(plan, memo),
    }
}

/// Whether a memo is at its own key.
fn is_keyed(key: &MemoKey, memo: &Memo) -> bool
    ensures { Decides result (memo_key memo.now ≡ key.now) }
{
    MemoKey::of(memo.fields()) == *key
}

/// A memo is at its own key, to a registered agent, and issued on the business day or before. It is
/// not billed but in a closed period and as a close would bill it.
#[derive(Clone, Copy)]
pub(crate) struct SoundMemo<'a> {
    pub(crate) plan: &'a Plan,
    pub(crate) agents: &'a BTreeMap<AgentCode, Token>,
}

impl<'a> Demand<MemoKey, Memo> for SoundMemo<'a> {
    ghost asks = { λ rule k m. IsSoundMemo rule.plan.now (as_map nat_cmp rule.agents.now) k m };

    fn is_met(&self, key: &MemoKey, memo: &Memo) -> bool {
        let fields = memo.fields();
        if !is_keyed(key, memo) || !is_registered(self.agents, fields.agent) {
            return false;
        }
        if !is_up_to(fields.issued, self.plan.day()) {
            return false;
        }
        is_billing_sound(self.plan, memo)
    }
}
