//! What the audit demands of each item.

ghost use Rattle.std.specs.Prelude.{◌≡◌, ◌==◌, ◌&&◌, ◌||◌, false, not, Ok, Some, IfSome, is_some};
ghost use Rattle.std.specs.Bool.{Decides};
ghost use Rattle.std.specs.FinMap.{get};
ghost use Rattle.std.specs.List.{Contains, list_any};
ghost use Rattle.bsp_fields.specs.Codes.{agent_reading};
ghost use Rattle.bsp_calendar.specs.DayOrder.{is_up_to};
ghost use Rattle.bsp_ret_records.specs.declared.transactions.ReportedDocument.{ReportedDocument as Document};
ghost use Rattle.bsp_rules.specs.Rows.{is_ticket};
ghost use Rattle.bsp_rules.specs.Verdicts.{is_wrong_place};
ghost use Rattle.bsp_rules.specs.declared.rows.Item.{Item as ItemValue};
ghost use Rattle.bsp_rows.specs.Audit.{AreTicketsFound, IsInLastRange, IsLastUpTo, IsTicketFound, as_map, is_living_sale};
ghost use Rattle.bsp_rows.specs.Rows.{HasNumberKey, canx_of, item_cmp, key_of, range_cmp};
ghost use Rattle.bsp_rows.specs.Sound.{IsInTime, IsRight};

use crate::demands::{Demand, at};
use crate::keys::{ItemKey, RangeKey, is_canx};
use bsp_calendar::Plan;
use bsp_fields::{AgentCode, AirlineCode, Day, DocNumber};
use bsp_ret_records::{ReportedDocument, Transaction, TransactionCode};
use bsp_ret_writer::is_group;
use bsp_rules::Item;
use std::collections::BTreeMap;

/// Whether a day is not after another.
pub(crate) fn is_up_to(a: Day, b: Day) -> bool
    ensures { result ≡ is_up_to a b }
{
    a.number() <= b.number()
}

/// Whether an item is at its own key, and its number is ten digits with their check digit.
fn is_keyed(key: &ItemKey, item: &Item) -> bool
    ensures { Decides result ((key_of item.now ≡ key.now) × HasNumberKey item.now) }
{
    match ItemKey::of(item) {
        Some(own) => own == *key,
        None => false,
    }
}

/// Whether an item's agent is the one that its transaction bears.
fn bears_agent(item: &Item) -> bool
    ensures { Decides result (agent_reading item.now.transaction.agent ≡ Ok item.now.agent) }
{
    match AgentCode::read(&item.transaction.agent) {
        Ok(agent) => agent == item.agent,
        Err(_) => false,
    }
}

/// Whether each related document of a transaction has ten digits with their check digit.
fn are_related_checked(transaction: &Transaction) -> bool
    ensures { Decides result (list_any is_wrong_place transaction.now.related ≡ false) }
{
    !transaction.related.iter().any(|place| match place {
        Some(document) => DocNumber::read(&document.number, document.check_digit).is_err(),
        None => false,
    })
}

/// An item is at its own key, and is of the agent that its transaction bears. Its transaction is a
/// group of the RET format with right check digits.
#[derive(Clone, Copy)]
pub(crate) struct Right;

impl Demand<ItemKey, Item> for Right {
    ghost asks = { λ rule k i. IsRight k i };

    fn is_met(&self, key: &ItemKey, item: &Item) -> bool {
        is_keyed(key, item)
            && bears_agent(item)
            && are_related_checked(&item.transaction)
            && is_group(&item.transaction)
    }
}

/// The last range of an agent, or of one before it, that begins at a number or before.
fn last_range(
    ranges: &BTreeMap<RangeKey, DocNumber>,
    agent: AgentCode,
    number: DocNumber,
) -> Option<(RangeKey, DocNumber)>
    ensures { IsLastUpTo (as_map range_cmp ranges.now) (record { agent = agent; first = number }) result }
{
    let key = RangeKey {
        agent,
        first: number,
    };
    let (key, last) = ranges.range(..=key).next_back()?;
    Some((*key, *last))
}

/// A range of the item's agent has its number.
#[derive(Clone, Copy)]
pub(crate) struct InStock<'a>(pub(crate) &'a BTreeMap<RangeKey, DocNumber>);

impl<'a> Demand<ItemKey, Item> for InStock<'a> {
    ghost asks = { λ rule k i. IsInLastRange (as_map range_cmp rule.0.now) k.agent k.number };

    fn is_met(&self, key: &ItemKey, _item: &Item) -> bool {
        match last_range(self.0, key.agent, key.number) {
            Some((range, last)) => range.agent == key.agent && key.number <= last,
            None => false,
        }
    }
}

/// An item's date of issue is neither after the business day nor after the last day of its period.
#[derive(Clone, Copy)]
pub(crate) struct InTime<'a>(pub(crate) &'a Plan);

impl<'a> Demand<ItemKey, Item> for InTime<'a> {
    ghost asks = { λ rule k i. IsInTime rule.0.now i.transaction.issued i.period };

    fn is_met(&self, _key: &ItemKey, item: &Item) -> bool {
        let issued = item.transaction.issued;
        match self.0.period(item.period) {
            Some((period, _)) => is_up_to(issued, self.0.day()) && is_up_to(issued, period.last),
            None => false,
        }
    }
}

/// Whether a key is that of a CANX, or no CANX of its number is there.
fn should_live(items: &BTreeMap<ItemKey, Item>, key: &ItemKey) -> bool
    ensures { result ≡ (key.now.is_canx || not (is_some (get (as_map item_cmp items.now) (canx_of key.now)))) }
{
    key.is_canx || at(items, key.canx()).is_none()
}

/// An item lives if and only if it is a CANX or no CANX of its number is there.
#[derive(Clone, Copy)]
pub(crate) struct Marked<'a>(pub(crate) &'a BTreeMap<ItemKey, Item>);

impl<'a> Demand<ItemKey, Item> for Marked<'a> {
    ghost asks = { λ rule k i. i.lives ≡ (k.is_canx || not (is_some (get (as_map item_cmp rule.0.now) (canx_of k)))) };

    fn is_met(&self, key: &ItemKey, item: &Item) -> bool {
        item.lives == should_live(self.0, key)
    }
}

/// A CANX of an item's number is of its airline.
#[derive(Clone, Copy)]
pub(crate) struct CancelledByAirline<'a>(pub(crate) &'a BTreeMap<ItemKey, Item>);

impl<'a> Demand<ItemKey, Item> for CancelledByAirline<'a> {
    ghost asks = { λ rule k i. (j : ItemValue) → get (as_map item_cmp rule.0.now) (canx_of k) ≡ Some j → j.transaction.document.airline ≡ i.transaction.document.airline };

    fn is_met(&self, key: &ItemKey, item: &Item) -> bool {
        match at(self.0, key.canx()) {
            Some(canx) => canx.transaction.document.airline == item.transaction.document.airline,
            None => true,
        }
    }
}

/// Whether an item is the TKTT of a document's airline and number.
fn is_ticket(document: &ReportedDocument, item: &Item) -> bool
    ensures { result ≡ is_ticket document.now item.now }
{
    let transaction = &item.transaction;
    transaction.code == TransactionCode::Tktt
        && transaction.document.airline == document.airline
        && transaction.document.number == document.number
}

/// Whether an item is a living TKTT or RFND.
pub(crate) fn is_living_sale(item: &Item) -> bool
    ensures { result ≡ is_living_sale item.now }
{
    item.lives && !is_canx(item)
}

/// Whether a document is of the airline, an item is its TKTT, and the item lives if it must.
fn is_open_ticket(
    document: &ReportedDocument,
    airline: AirlineCode,
    lives: bool,
    item: &Item,
) -> bool
    ensures { result ≡ ((document.now.airline == airline) && (is_ticket document.now item.now && (not lives || item.now.lives))) }
{
    document.airline == airline && is_ticket(document, item) && (!lives || item.lives)
}

/// Whether a related document is of the airline and has a TKTT of the agent, which lives where what
/// relates to it lives.
fn has_ticket(
    items: &BTreeMap<ItemKey, Item>,
    agent: AgentCode,
    airline: AirlineCode,
    lives: bool,
    document: &ReportedDocument,
) -> bool
    ensures { Decides result (IsTicketFound (as_map item_cmp items.now) agent airline lives document.now) }
{
    let Ok(number) = DocNumber::read_unchecked(&document.number) else {
        return false;
    };
    let key = ItemKey {
        agent,
        number,
        is_canx: false,
    };
    match at(items, key) {
        Some(ticket) => is_open_ticket(document, airline, lives, &ticket),
        None => false,
    }
}

/// Whether the related document in a place of an item, if there is one, has its ticket.
fn is_place_met(
    items: &BTreeMap<ItemKey, Item>,
    key: &ItemKey,
    item: &Item,
    place: &Option<ReportedDocument>,
) -> bool
    ensures { Decides result ((d : Document) → place.now ≡ Some d → IsTicketFound (as_map item_cmp items.now) key.now.agent item.now.transaction.document.airline (is_living_sale item.now) d) }
{
    match place {
        None => true,
        Some(document) => {
            let airline = item.transaction.document.airline;
            has_ticket(items, key.agent, airline, is_living_sale(item), document)
        }
    }
}

/// Whether each related document in the places of an item has its ticket.
fn are_places_met(
    items: &BTreeMap<ItemKey, Item>,
    key: &ItemKey,
    item: &Item,
    places: &[Option<ReportedDocument>],
) -> bool
    ensures { Decides result ((d : Document) → Contains places.now (Some d) → IsTicketFound (as_map item_cmp items.now) key.now.agent item.now.transaction.document.airline (is_living_sale item.now) d) }
{
    for place in places {
        if !is_place_met(items, key, item, place) {
            return false;
        }
    }
    true
}

/// Each related document of an item is of its airline and has a TKTT of its agent. A living TKTT or RFND
/// relates to no ticket that is ended.
#[derive(Clone, Copy)]
pub(crate) struct Related<'a>(pub(crate) &'a BTreeMap<ItemKey, Item>);

impl<'a> Demand<ItemKey, Item> for Related<'a> {
    ghost asks = { λ rule k i. AreTicketsFound (as_map item_cmp rule.0.now) k i };

    fn is_met(&self, key: &ItemKey, item: &Item) -> bool {
        are_places_met(self.0, key, item, &item.transaction.related)
    }
}
