//! What the audit counts: ranges of one number, relations to one ticket, documents and memos.

ghost use Rattle.std.specs.Prelude.{◌≡◌, ◌<◌, ◌++◌, IfOk, map};
ghost use Rattle.std.specs.BTreeMap.{values};
ghost use Rattle.std.specs.Bool.{Decides};
ghost use Rattle.std.specs.List.{filter_map};
ghost use Rattle.bsp_maps.specs.Spans.{AreDisjoint};
ghost use Rattle.bsp_rules.specs.Verdicts.{limit_of};
ghost use Rattle.bsp_rows.specs.Audit.{AreWithin, parties_cmp, parties_of, relation_cmp, relation_in, relations_of, span_of};
ghost use Rattle.bsp_rows.specs.Tallies.{item_tally_key, tally_cmp};

use crate::item_rules::is_living_sale;
use crate::keys::{ItemKey, MemoKey, RangeKey, TallyKey};
use bsp_calendar::Plan;
use bsp_fields::{AgentCode, AirlineCode, DocNumber, read_digits};
use bsp_maps::{Span, are_disjoint, are_within};
use bsp_memos::{Memo, MemoFields};
use bsp_rules::Item;
use std::alloc::{AllocError, Global};
use std::collections::BTreeMap;

/// The documents limit; 0 before terms are published.
pub(crate) fn documents_limit(plan: &Plan) -> u32
    ensures { result ≡ limit_of plan.now.terms }
{
    match plan.terms() {
        Some(terms) => terms.documents_limit,
        None => 0,
    }
}

/// A document number as a number.
fn number(document: DocNumber) -> u64
    ensures { result ≡ document }
{
    match read_digits(&document.digits()) {
        Ok(number) => number,
        Err(_) => unreachable!(),
    }
}

/// The numbers of each range.
fn spans(alloc: Global, ranges: &BTreeMap<RangeKey, DocNumber>) -> Result<Vec<Span>, AllocError>
    ensures { IfOk result (λ spans. spans.items ≡ map span_of ranges.now.entries) }
{
    let mut spans = Vec::new(alloc);
    for (key, last) in ranges {
        spans.push(Span {
            first: number(key.first),
            last: number(*last),
        })?;
    }
    Ok(spans)
}

/// Whether each range has a number, and no number is in two.
pub(crate) fn are_apart(
    alloc: Global,
    ranges: &BTreeMap<RangeKey, DocNumber>,
) -> Result<bool, AllocError>
    ensures { IfOk result (λ apart. Decides apart (AreDisjoint (map span_of ranges.now.entries))) }
{
    let mut spans = spans(alloc, ranges)?;
    Ok(are_disjoint(&mut spans))
}

/// The agent and the number of a ticket, as it was reported.
#[derive(Clone, Copy, PartialEq, Eq, PartialOrd, Ord, Drop)]
pub(crate) struct RelationKey {
    agent: AgentCode,
    number: [u8; 10],
}

/// The ticket to which an item relates in a place, if it is a living TKTT or RFND.
fn relation(item: &Item, place: usize) -> Option<RelationKey>
    requires { place < 2 }
    ensures { result ≡ relation_in place item.now }
{
    if !is_living_sale(item) {
        return None;
    }
    let Some(document) = &item.transaction.related[place] else {
        return None;
    };
    let number = document.number;
    Some(RelationKey {
        agent: item.agent,
        number,
    })
}

/// Adds the tickets to which living TKTT and RFND relate in a place, each as often as one relates to it.
fn add_relations(
    keys: &mut Vec<RelationKey>,
    items: &BTreeMap<ItemKey, Item>,
    place: usize,
) -> Result<(), AllocError>
    requires { place < 2 }
    ensures { IfOk result (λ done. keys.new.items ≡ keys.old.items ++ filter_map (relation_in place) (values items.now)) }
{
    for item in items.values() {
        if let Some(key) = relation(item, place) {
            keys.push(key)?;
        }
    }
    Ok(())
}

/// The tickets to which living TKTT and RFND relate, each as often as one relates to it.
fn relations(alloc: Global, items: &BTreeMap<ItemKey, Item>) -> Result<Vec<RelationKey>, AllocError>
    ensures { IfOk result (λ keys. keys.items ≡ relations_of (values items.now)) }
{
    let mut keys = Vec::new(alloc);
    add_relations(&mut keys, items, 0)?;
    add_relations(&mut keys, items, 1)?;
    Ok(keys)
}

/// Whether at most one living TKTT or RFND of an agent relates to a ticket.
pub(crate) fn are_related_once(
    alloc: Global,
    items: &BTreeMap<ItemKey, Item>,
) -> Result<bool, AllocError>
    ensures { IfOk result (λ once. Decides once (AreWithin relation_cmp 1 (relations_of (values items.now)))) }
{
    let keys = relations(alloc, items)?;
    are_within(alloc, &keys, 1)
}

/// Whether no agent has more items of an airline in a period than the limit.
pub(crate) fn are_documents_within(
    alloc: Global,
    items: &BTreeMap<ItemKey, Item>,
    limit: u32,
) -> Result<bool, AllocError>
    ensures { IfOk result (λ within. Decides within (AreWithin tally_cmp limit (map item_tally_key (values items.now)))) }
{
    let mut counts: BTreeMap<TallyKey, u32> = BTreeMap::new(alloc);
    for item in items.values() {
        let key = TallyKey::of_item(item);
        let count = counts.get(&key).copied().unwrap_or(0);
        if count >= limit {
            return Ok(false);
        }
        counts.insert(key, count + 1)?;
    }
    Ok(true)
}

/// The airline and the agent of a memo.
#[derive(Clone, Copy, PartialEq, Eq, PartialOrd, Ord, Drop)]
pub(crate) struct PartiesKey {
    airline: AirlineCode,
    agent: AgentCode,
}

impl PartiesKey {
    /// Those of a memo.
    fn of(memo: &MemoFields) -> PartiesKey
        ensures { result ≡ parties_of memo.now }
    {
        PartiesKey {
            airline: memo.airline,
            agent: memo.agent,
        }
    }
}

/// The airline and the agent of each memo.
fn memo_parties(
    alloc: Global,
    memos: &BTreeMap<MemoKey, Memo>,
) -> Result<Vec<PartiesKey>, AllocError>
    ensures { IfOk result (λ keys. keys.items ≡ map parties_of (values memos.now)) }
{
    let mut keys = Vec::new(alloc);
    for memo in memos.values() {
        keys.push(PartiesKey::of(memo.fields()))?;
    }
    Ok(keys)
}

/// Whether no airline has more memos to an agent than the limit.
pub(crate) fn are_memos_within(
    alloc: Global,
    memos: &BTreeMap<MemoKey, Memo>,
    limit: u32,
) -> Result<bool, AllocError>
    ensures { IfOk result (λ within. Decides within (AreWithin parties_cmp limit (map parties_of (values memos.now)))) }
{
    let keys = memo_parties(alloc, memos)?;
    are_within(alloc, &keys, limit)
}
