//! How many numbers of a range have an item. A block of level 0 is a number, and one of each further level has a
//! hundred blocks of the level before. A number is counted in its block of each level, so that a range is a few
//! hundred blocks however many numbers it has.

ghost use Rattle.std.specs.Prelude.{◌≡◌, ◌<◌, ◌≤◌, ◌+◌, ◌*◌, ◌^◌, IfOk, OnOk};
ghost use Rattle.bsp_maps.specs.Counts.{counted, counted_before};
ghost use Rattle.bsp_memory_tables.specs.Used.{AreUsedCounted, IsNumberCounted, agent_numbers, block_cmp, count_once, is_between, number_block, used_count};
ghost use Rattle.std.specs.FinMap.{FinMap};
ghost use Rattle.bsp_rows.specs.Item.{Item};
ghost use Rattle.bsp_rows.specs.Rows.{item_cmp};

use bsp_fields::read_digits;
use bsp_maps::Counts;
use bsp_rows::{AgentCode, DocNumber, ItemKey, Range};
use std::alloc::AllocError;

/// Numbers of an agent that differ in their last digits alone, two digits for each level.
#[derive(Clone, Copy, PartialEq, Eq, PartialOrd, Ord)]
pub(crate) struct Block {
    pub(crate) agent: AgentCode,
    pub(crate) level: u8,
    pub(crate) place: u64,
}

/// The levels up to the one of a hundred million numbers to a block.
const LEVELS: u8 = 5;

/// A document number as a number.
fn number(document: DocNumber) -> u64
    ensures value { result ≡ document }
    ensures ten_digits { result < 10 ^ 10 }
{
    match read_digits(&document.digits()) {
        Ok(number) => number,
        Err(_) => unreachable!(),
    }
}

/// Counts the number of an item in its blocks, unless it is counted already.
///
/// # Errors
///
/// Where an allocation was refused, and where there were more numbers than any memory has, as of each function below.
pub(crate) fn count_number(counts: &mut Counts<Block>, key: &ItemKey) -> Result<(), AllocError>
    ensures ok { OnOk result (IsNumberCounted key.now (counted block_cmp counts.old) (counted block_cmp counts.new)) }
    ensures before { counted_before block_cmp counts.new ≡ counted_before block_cmp counts.old }
{
    let agent = key.agent;
    let own = number(key.number);
    let is_first = counts.count_first(Block {
        agent,
        level: 0,
        place: own,
    })?;
    if !is_first {
        return Ok(());
    }
    let mut place = own / 100;
    for level in 1..LEVELS {
        counts.relocate(
            None,
            Block {
                agent,
                level,
                place,
            },
        )?;
        place /= 100;
    }
    Ok(())
}

/// The sum of two counts.
fn sum(count: u64, more: u64) -> Result<u64, AllocError>
    ensures { IfOk result (λ sum. sum ≡ count + more) }
{
    match count.checked_add(more) {
        Some(sum) => Ok(sum),
        None => Err(AllocError),
    }
}

/// How many numbers an agent's blocks of a level have, from one place on and before another.
fn count_places(
    counts: &Counts<Block>,
    agent: AgentCode,
    level: u8,
    from: u64,
    to: u64,
) -> Result<u64, AllocError>
    requires { from ≤ to }
    ensures { IfOk result (λ count. (items : FinMap item_cmp Item) → AreUsedCounted items (counted block_cmp counts.now) → level < 5 → count ≡ count_once (is_between level from to) (agent_numbers agent items)) }
{
    let mut count = 0;
    for place in from..to {
        let block = Block {
            agent,
            level,
            place,
        };
        count = sum(count, counts.at(block))?;
    }
    Ok(count)
}

/// The first block of the next level that has no number before a place.
fn first_whole(from: u64) -> u64
    ensures least { from ≤ result * 100 }
{
    if from % 100 == 0 {
        from / 100
    } else {
        from / 100 + 1
    }
}

/// How many numbers of a range have an item of the agent. It reads at most some two hundred counts of each level.
pub(crate) fn used_count(
    counts: &Counts<Block>,
    agent: AgentCode,
    range: &Range,
) -> Result<u64, AllocError>
    ensures { IfOk result (λ count. (items : FinMap item_cmp Item) → AreUsedCounted items (counted block_cmp counts.now) → count ≡ used_count agent range.now items) }
{
    let mut count = 0;
    let mut from = number(range.first);
    let mut to = number(range.last) + 1;
    if to < from {
        return Ok(0);
    }
    for level in 0..LEVELS - 1 {
        let first = first_whole(from);
        let end = to / 100;
        if end <= first {
            return sum(count, count_places(counts, agent, level, from, to)?);
        }
        count = sum(
            count,
            count_places(counts, agent, level, from, first * 100)?,
        )?;
        count = sum(count, count_places(counts, agent, level, end * 100, to)?)?;
        from = first;
        to = end;
    }
    sum(count, count_places(counts, agent, LEVELS - 1, from, to)?)
}
