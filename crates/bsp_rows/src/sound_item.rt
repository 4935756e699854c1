//! All that the audit demands of an item.

ghost use Rattle.std.specs.Bool.{Decides};
ghost use Rattle.std.specs.Ordering.{nat_cmp};
ghost use Rattle.bsp_rows.specs.Audit.{IsAuditedItem, IsRightItem, IsTiedItem, as_map};
ghost use Rattle.bsp_rows.specs.Rows.{item_cmp, range_cmp};

use crate::demands::Demand;
use crate::item_rules::{CancelledByAirline, InStock, InTime, Marked, Related, Right};
use crate::keys::{ItemKey, RangeKey};
use crate::rules::OfRegistered;
use crate::tax_rules::Taxed;
use bsp_calendar::Plan;
use bsp_fields::{AgentCode, DocNumber, Token};
use bsp_rules::Item;
use std::collections::BTreeMap;

/// An item is right by itself, of a registered agent, in its stock and in time. It agrees with the CANX of its number
/// and with the tickets to which it relates. Its tax is that of the plan and of those tickets.
#[derive(Clone, Copy)]
pub(crate) struct SoundItem<'a> {
    pub(crate) plan: &'a Plan,
    pub(crate) agents: &'a BTreeMap<AgentCode, Token>,
    pub(crate) ranges: &'a BTreeMap<RangeKey, DocNumber>,
    pub(crate) items: &'a BTreeMap<ItemKey, Item>,
}

/// Whether an item is right by itself, of a registered agent, in its stock and in time.
fn is_right(rule: &SoundItem<'_>, key: &ItemKey, item: &Item) -> bool
    ensures { Decides result (IsRightItem rule.now.plan.now (as_map nat_cmp rule.now.agents.now) (as_map range_cmp rule.now.ranges.now) key.now item.now) }
{
    Right.is_met(key, item)
        && OfRegistered(rule.agents).is_met(key, item)
        && InStock(rule.ranges).is_met(key, item)
        && InTime(rule.plan).is_met(key, item)
}

/// Whether an item agrees with the CANX of its number and with the tickets to which it relates.
fn is_tied(items: &BTreeMap<ItemKey, Item>, key: &ItemKey, item: &Item) -> bool
    ensures { Decides result (IsTiedItem (as_map item_cmp items.now) key.now item.now) }
{
    if !Marked(items).is_met(key, item) {
        return false;
    }
    if !CancelledByAirline(items).is_met(key, item) {
        return false;
    }
    Related(items).is_met(key, item)
}

impl<'a> Demand<ItemKey, Item> for SoundItem<'a> {
    ghost asks = { λ rule k i. IsAuditedItem rule.plan.now (as_map nat_cmp rule.agents.now) (as_map range_cmp rule.ranges.now) (as_map item_cmp rule.items.now) k i };

    fn is_met(&self, key: &ItemKey, item: &Item) -> bool {
        let taxed = Taxed {
            plan: self.plan,
            items: self.items,
        };
        is_right(self, key, item) && is_tied(self.items, key, item) && taxed.is_met(key, item)
    }
}
