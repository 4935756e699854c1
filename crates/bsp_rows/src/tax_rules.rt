//! What the audit demands of the tax on an item's commission.

ghost use Rattle.std.specs.Prelude.{◌≡◌, option_map};
ghost use Rattle.std.specs.Bool.{Decides};
ghost use Rattle.bsp_fields.specs.Codes.{code_reading};
ghost use Rattle.bsp_rows.specs.Audit.{as_map};
ghost use Rattle.bsp_rows.specs.Rows.{item_cmp};
ghost use Rattle.bsp_rows.specs.Sound.{IsTaxed, document_at, documents_at, numbered_at};

use crate::demands::{Demand, at};
use crate::keys::ItemKey;
use bsp_calendar::Plan;
use bsp_fields::{AgentCode, DocNumber};
use bsp_ret_records::{ReportedDocument, Transaction};
use bsp_rules::{Item, RelatedDocument, hundredths_for, tax_of};
use std::collections::BTreeMap;

/// The agent's TKTT or RFND of a number, where it is ten digits and one is there.
fn numbered(items: &BTreeMap<ItemKey, Item>, agent: AgentCode, number: &[u8; 10]) -> Option<Item>
    ensures { result ≡ numbered_at (as_map item_cmp items.now) agent (code_reading 10 number.now) }
{
    let Ok(number) = DocNumber::read_unchecked(number) else {
        return None;
    };
    let key = ItemKey {
        agent,
        number,
        is_canx: false,
    };
    at(items, key)
}

/// The related document in a place, if there is one, with the agent's ticket of its number.
fn document(
    items: &BTreeMap<ItemKey, Item>,
    agent: AgentCode,
    place: &Option<ReportedDocument>,
) -> Option<RelatedDocument>
    ensures { result ≡ option_map (document_at (as_map item_cmp items.now) agent) place.now }
{
    match place {
        Some(document) => Some(RelatedDocument {
            document: *document,
            ticket: numbered(items, agent, &document.number),
            is_related_to: false,
        }),
        None => None,
    }
}

/// The related documents of an agent's transaction with their tickets, in its places.
fn documents(
    items: &BTreeMap<ItemKey, Item>,
    agent: AgentCode,
    transaction: &Transaction,
) -> [Option<RelatedDocument>; 2]
    ensures { result ≡ documents_at (as_map item_cmp items.now) agent transaction.now }
{
    let [first, second] = &transaction.related;
    [
        document(items, agent, first),
        document(items, agent, second),
    ]
}

/// An item's tax, and the hundredths of a percent that were taken for it, are those of the plan and of
/// the tickets to which it relates.
#[derive(Clone, Copy)]
pub(crate) struct Taxed<'a> {
    pub(crate) plan: &'a Plan,
    pub(crate) items: &'a BTreeMap<ItemKey, Item>,
}

impl<'a> Demand<ItemKey, Item> for Taxed<'a> {
    ghost asks = { λ rule k i. IsTaxed rule.plan.now (as_map item_cmp rule.items.now) k i };

    fn is_met(&self, key: &ItemKey, item: &Item) -> bool {
        let related = documents(self.items, key.agent, &item.transaction);
        let hundredths = hundredths_for(&item.transaction, &related, self.plan);
        item.hundredths == hundredths && item.tax == tax_of(&item.transaction, hundredths)
    }
}
