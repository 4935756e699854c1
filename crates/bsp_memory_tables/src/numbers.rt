//! The index of items by the numbers that they bear. An item is found at its own number by its key, and kept here at each
//! other number.

ghost use Rattle.std.specs.Prelude.{◌≡◌, ◌++◌, IfOk, OnOk, Some};
ghost use Rattle.std.specs.Result.{result_ok};
ghost use Rattle.bsp_maps.specs.Undo.{before, content};
ghost use Rattle.bsp_rows.specs.Codes.{code_reading};
ghost use Rattle.bsp_rows.specs.Selected.{numbers_of};
ghost use Rattle.bsp_memory_tables.specs.Numbers.{bears, is_bearing, is_own, is_with_number, keys_at, keys_at_each, number_cmp, own_keys, place_numbers, with_number, with_numbers};

use crate::keys::{AtNumber, NumberKey};
use bsp_maps::{Every, Logged, Rule};
use bsp_rows::{AgentCode, DocNumber, Item, ItemKey, ReportedDocument, Transaction};
use std::alloc::{AllocError, Global};

/// The keys of items by their agents and the numbers that they bear.
pub type Numbers = Logged<NumberKey, ItemKey>;

/// Whether the digits are those of the key's own number.
fn is_own(key: &ItemKey, digits: &[u8; 10]) -> bool
    ensures { result ≡ is_own key.now digits.now }
{
    match DocNumber::read_unchecked(digits) {
        Ok(number) => number == key.number,
        Err(_) => false,
    }
}

/// Adds an item at a number, unless it is its own.
fn add_number(index: &mut Numbers, key: &ItemKey, number: &[u8; 10]) -> Result<(), AllocError>
    ensures ok { OnOk result (content number_cmp index.new ≡ with_number key.now number.now (content number_cmp index.old)) }
    ensures before { before number_cmp index.new ≡ before number_cmp index.old }
{
    if is_own(key, number) {
        return Ok(());
    }
    index.put(NumberKey::of(key, number), *key)
}

/// Adds an item at the numbers of these documents.
fn add_places(
    index: &mut Numbers,
    key: &ItemKey,
    places: &[Option<ReportedDocument>],
) -> Result<(), AllocError>
    ensures ok { OnOk result (content number_cmp index.new ≡ with_numbers key.now (place_numbers places.now) (content number_cmp index.old)) }
    ensures before { before number_cmp index.new ≡ before number_cmp index.old }
{
    for place in places {
        if let Some(document) = place {
            add_number(index, key, &document.number)?;
        }
    }
    Ok(())
}

/// Adds an item at each number that it bears, but for its own.
pub fn add_numbers(
    index: &mut Numbers,
    key: &ItemKey,
    transaction: &Transaction,
) -> Result<(), AllocError>
    ensures ok { OnOk result (content number_cmp index.new ≡ with_numbers key.now (numbers_of transaction.now) (content number_cmp index.old)) }
    ensures before { before number_cmp index.new ≡ before number_cmp index.old }
{
    add_number(index, key, &transaction.document.number)?;
    add_places(index, key, &transaction.related)
}

/// The keys of the TKTT or RFND and of the CANX of a number.
fn own_keys(agent: AgentCode, number: DocNumber) -> [ItemKey; 2]
    ensures { result ≡ own_keys agent (Some number) }
{
    [
        ItemKey {
            agent,
            number,
            is_canx: false,
        },
        ItemKey {
            agent,
            number,
            is_canx: true,
        },
    ]
}

/// Appends the keys of the TKTT or RFND and of the CANX of a number.
fn add_own_keys(
    found: &mut Vec<ItemKey>,
    agent: AgentCode,
    digits: &[u8; 10],
) -> Result<(), AllocError>
    ensures { OnOk result (found.new.items ≡ found.old.items ++ own_keys agent (result_ok (code_reading 10 digits.now))) }
{
    match DocNumber::read_unchecked(digits) {
        Ok(number) => found.extend_from_slice(&own_keys(agent, number)),
        Err(_) => Ok(()),
    }
}

/// Appends the keys that an agent's items of a number may have.
fn add_keys_at(
    found: &mut Vec<ItemKey>,
    alloc: Global,
    index: &Numbers,
    window: &AtNumber,
) -> Result<(), AllocError>
    ensures { OnOk result (found.new.items ≡ found.old.items ++ keys_at (content number_cmp index.now) window.now.agent window.now.number) }
{
    add_own_keys(found, window.agent, &window.number)?;
    let keys = index.chosen(alloc, window, &Every)?;
    found.extend_from_slice(&keys)
}

/// The keys that an agent's items of a number may have.
pub fn keys_with_number(
    alloc: Global,
    index: &Numbers,
    agent: AgentCode,
    number: &[u8; 10],
) -> Result<Vec<ItemKey>, AllocError>
    ensures { IfOk result (λ found. found.items ≡ keys_at (content number_cmp index.now) agent number.now) }
{
    let mut found = Vec::new(alloc);
    let number = *number;
    add_keys_at(&mut found, alloc, index, &AtNumber { agent, number })?;
    Ok(found)
}

/// Appends the keys of an agent's items at the numbers of these documents.
fn add_keys_at_places(
    found: &mut Vec<ItemKey>,
    alloc: Global,
    index: &Numbers,
    agent: AgentCode,
    places: &[Option<ReportedDocument>],
) -> Result<(), AllocError>
    ensures { OnOk result (found.new.items ≡ found.old.items ++ keys_at_each (content number_cmp index.now) agent (place_numbers places.now)) }
{
    for place in places {
        if let Some(document) = place {
            let number = document.number;
            add_keys_at(found, alloc, index, &AtNumber { agent, number })?;
        }
    }
    Ok(())
}

/// The keys that an agent's items which bear a number of a transaction may have. A key may be there more than once.
pub fn keys_bearing(
    alloc: Global,
    index: &Numbers,
    agent: AgentCode,
    transaction: &Transaction,
) -> Result<Vec<ItemKey>, AllocError>
    ensures { IfOk result (λ found. found.items ≡ keys_at_each (content number_cmp index.now) agent (numbers_of transaction.now)) }
{
    let mut found = Vec::new(alloc);
    let number = transaction.document.number;
    add_keys_at(&mut found, alloc, index, &AtNumber { agent, number })?;
    add_keys_at_places(&mut found, alloc, index, agent, &transaction.related)?;
    Ok(found)
}

/// Items of an agent that share a number with a transaction.
#[derive(Clone, Copy)]
pub struct Bearing<'a> {
    pub agent: AgentCode,
    pub transaction: &'a Transaction,
}

impl<'a> Rule<ItemKey, Item> for Bearing<'a> {
    ghost holds = { λ rule key item. is_bearing rule.agent rule.transaction.now key item };

    fn holds(&self, key: &ItemKey, item: &Item) -> bool {
        key.agent == self.agent && item.shares_number(self.transaction)
    }
}

/// Whether a number is an item's own, or one of its related numbers.
fn bears(item: &Item, number: &[u8; 10]) -> bool
    ensures { result ≡ bears number.now item.now }
{
    item.transaction.document.number == *number
        || item.transaction.related.iter().any(|place| match place {
            Some(document) => document.number == *number,
            None => false,
        })
}

/// Items of an agent that bear a number.
#[derive(Clone, Copy)]
pub struct WithNumber {
    pub agent: AgentCode,
    pub number: [u8; 10],
}

impl Rule<ItemKey, Item> for WithNumber {
    ghost holds = { λ rule key item. is_with_number rule.agent rule.number key item };

    fn holds(&self, key: &ItemKey, item: &Item) -> bool {
        key.agent == self.agent && bears(item, &self.number)
    }
}
