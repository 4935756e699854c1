//! Tallies that are kept as rows are written.

ghost use Rattle.std.specs.Prelude.{◌≡◌, ◌∷◌, ◌++◌, List, OnOk, IfSome, IsSome};
ghost use Rattle.std.specs.FinMap.{insert};
ghost use Rattle.std.specs.Option.{option_to_list};
ghost use Rattle.bsp_rows.specs.Item.{Item as ItemValue};
ghost use Rattle.bsp_rows.specs.MemoFields.{MemoFields as MemoValue};
ghost use Rattle.bsp_memory_tables.specs.TallyTables.{AreTalliesKept, WereTalliesKept, tally_rows, tally_rows_before};
ghost use Rattle.bsp_memory_rows.specs.Kept.{AreAddedUp, tally_at};

use crate::no_room::NoRoom;
use bsp_memory_tables::TallyTable;
use bsp_rows::{Item, Memo, MemoFields, Tally, TallyKey};

/// The tally of a key. A key for which none is kept has the tally of no rows.
pub(crate) fn tally_at(tallies: &TallyTable, key: &TallyKey) -> Tally
    ensures { result ≡ tally_at (tally_rows tallies.now) key.now }
{
    match tallies.get(*key) {
        Some(tally) => tally,
        None => Tally::nothing(key.agent, key.airline, key.period),
    }
}

/// Keeps a tally, unless one of its counts or sums had no room.
fn put_tally(tallies: &mut TallyTable, key: &TallyKey, tally: Option<Tally>) -> Result<(), NoRoom>
    ensures ok { OnOk result (IfSome tally (λ t. tally_rows tallies.new ≡ insert (tally_rows tallies.old) key.now t)) }
    ensures some { OnOk result (IsSome tally) }
    ensures before { tally_rows_before tallies.new ≡ tally_rows_before tallies.old }
    ensures kept { OnOk result (AreTalliesKept tallies.old → AreTalliesKept tallies.new) }
    ensures was_kept { WereTalliesKept tallies.old → WereTalliesKept tallies.new }
{
    match tally {
        None => Err(NoRoom),
        Some(tally) => {
            tallies.put(key, &tally)?;
            Ok(())
        }
    }
}

/// Counts an item, and adds what it posts.
fn count_item(tallies: &mut TallyTable, item: &Item) -> Result<(), NoRoom>
    ensures ok { OnOk result ((items : List ItemValue) (memos : List MemoValue) → AreAddedUp items memos (tally_rows tallies.old) → AreAddedUp (item.now ∷ items) memos (tally_rows tallies.new)) }
    ensures before { tally_rows_before tallies.new ≡ tally_rows_before tallies.old }
    ensures kept { OnOk result (AreTalliesKept tallies.old → AreTalliesKept tallies.new) }
    ensures was_kept { WereTalliesKept tallies.old → WereTalliesKept tallies.new }
{
    let key = TallyKey::of_item(item);
    let tally = tally_at(tallies, &key).with_item(item);
    put_tally(tallies, &key, tally)
}

/// Counts an item no more, and takes away what it posts.
fn discount_item(tallies: &mut TallyTable, item: &Item) -> Result<(), NoRoom>
    ensures ok { OnOk result ((items : List ItemValue) (memos : List MemoValue) → AreAddedUp (item.now ∷ items) memos (tally_rows tallies.old) → AreAddedUp items memos (tally_rows tallies.new)) }
    ensures before { tally_rows_before tallies.new ≡ tally_rows_before tallies.old }
    ensures kept { OnOk result (AreTalliesKept tallies.old → AreTalliesKept tallies.new) }
    ensures was_kept { WereTalliesKept tallies.old → WereTalliesKept tallies.new }
{
    let key = TallyKey::of_item(item);
    let tally = tally_at(tallies, &key).without_item(item);
    put_tally(tallies, &key, tally)
}

/// Counts an item in place of the one that was there.
pub(crate) fn recount_item(
    tallies: &mut TallyTable,
    old: Option<Item>,
    item: &Item,
) -> Result<(), NoRoom>
    ensures ok { OnOk result ((items : List ItemValue) (memos : List MemoValue) → AreAddedUp (option_to_list old ++ items) memos (tally_rows tallies.old) → AreAddedUp (item.now ∷ items) memos (tally_rows tallies.new)) }
    ensures before { tally_rows_before tallies.new ≡ tally_rows_before tallies.old }
    ensures kept { OnOk result (AreTalliesKept tallies.old → AreTalliesKept tallies.new) }
    ensures was_kept { WereTalliesKept tallies.old → WereTalliesKept tallies.new }
{
    match old {
        None => count_item(tallies, item),
        Some(old) => {
            discount_item(tallies, &old)?;
            count_item(tallies, item)
        }
    }
}

/// Counts a memo, and adds its amount, if it is billed.
fn count_memo(tallies: &mut TallyTable, memo: &MemoFields) -> Result<(), NoRoom>
    ensures ok { OnOk result ((items : List ItemValue) (memos : List MemoValue) → AreAddedUp items memos (tally_rows tallies.old) → AreAddedUp items (memo.now ∷ memos) (tally_rows tallies.new)) }
    ensures before { tally_rows_before tallies.new ≡ tally_rows_before tallies.old }
    ensures kept { OnOk result (AreTalliesKept tallies.old → AreTalliesKept tallies.new) }
    ensures was_kept { WereTalliesKept tallies.old → WereTalliesKept tallies.new }
{
    match TallyKey::of_memo(memo) {
        None => Ok(()),
        Some(key) => {
            let tally = tally_at(tallies, &key).with_memo(memo);
            put_tally(tallies, &key, tally)
        }
    }
}

/// Counts a memo no more, and takes away its amount, if it is billed.
fn discount_memo(tallies: &mut TallyTable, memo: &MemoFields) -> Result<(), NoRoom>
    ensures ok { OnOk result ((items : List ItemValue) (memos : List MemoValue) → AreAddedUp items (memo.now ∷ memos) (tally_rows tallies.old) → AreAddedUp items memos (tally_rows tallies.new)) }
    ensures before { tally_rows_before tallies.new ≡ tally_rows_before tallies.old }
    ensures kept { OnOk result (AreTalliesKept tallies.old → AreTalliesKept tallies.new) }
    ensures was_kept { WereTalliesKept tallies.old → WereTalliesKept tallies.new }
{
    match TallyKey::of_memo(memo) {
        None => Ok(()),
        Some(key) => {
            let tally = tally_at(tallies, &key).without_memo(memo);
            put_tally(tallies, &key, tally)
        }
    }
}

/// Counts a memo in place of the one that was there.
pub(crate) fn recount_memo(
    tallies: &mut TallyTable,
    old: Option<Memo>,
    memo: &Memo,
) -> Result<(), NoRoom>
    ensures ok { OnOk result ((items : List ItemValue) (memos : List MemoValue) → AreAddedUp items (option_to_list old ++ memos) (tally_rows tallies.old) → AreAddedUp items (memo.now ∷ memos) (tally_rows tallies.new)) }
    ensures before { tally_rows_before tallies.new ≡ tally_rows_before tallies.old }
    ensures kept { OnOk result (AreTalliesKept tallies.old → AreTalliesKept tallies.new) }
    ensures was_kept { WereTalliesKept tallies.old → WereTalliesKept tallies.new }
{
    match old {
        None => count_memo(tallies, memo.fields()),
        Some(old) => {
            discount_memo(tallies, old.fields())?;
            count_memo(tallies, memo.fields())
        }
    }
}
