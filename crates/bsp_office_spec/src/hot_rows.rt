//! HOT files over sound rows.

ghost use Rattle.std.specs.Prelude.{IfSome};
ghost use Rattle.std.specs.List.{All};
ghost use Rattle.bsp_rows.specs.Stored.{InEach, IsStored, IsStoredAmounts, IsStoredDocument, IsStoredTax};
ghost use Rattle.bsp_office_spec.specs.HotRules.{HotFilesPass, IsTypedItem, IsTypedMemo, KeepRulesOfSound, SoundRowsKeepRules};

use bsp_rows::{Amounts, Item, Memo, MemoFields, ReportedDocument, Tax, Transaction};

/// What the types of six tax places say of each.
fn tax_places_fit(taxes: [Option<Tax>; 6])
    ensures { InEach IsStoredTax taxes }
{
    let [_first, _second, _third, _fourth, _fifth, _sixth] = taxes;
}

/// What the types of two places for documents say of each.
fn documents_fit(documents: [Option<ReportedDocument>; 2])
    ensures { InEach IsStoredDocument documents }
{
    let [_first, _second] = documents;
}

/// What the types of amounts say of them, where there are any.
fn amounts_fit(amounts: Option<Amounts>)
    ensures { IfSome amounts IsStoredAmounts }
{
    if let Some(amounts) = amounts {
        tax_places_fit(amounts.taxes);
    }
}

/// What the types of a transaction's values say of them.
fn transaction_fits(transaction: Transaction)
    ensures { IsStored transaction }
{
    documents_fit(transaction.related);
    amounts_fit(transaction.amounts);
}

/// What the types of an item's values say of them.
fn item_fits(item: Item)
    ensures { IsTypedItem item }
{
    transaction_fits(item.transaction);
}

/// What the types of a memo's fields say of them.
fn fields_fit(fields: MemoFields)
    ensures { IsTypedMemo fields }
{
    let _reason = fields.reason.as_str();
}

fn items_fit(items: &[Item])
    ensures { All IsTypedItem items.now }
{
    for item in items {
        item_fits(*item);
    }
}

fn memos_fit(memos: &[Memo])
    ensures { All IsTypedMemo memos.now }
{
    for memo in memos {
        fields_fit(*memo.fields());
    }
}

/// The rows of an airline and a period, where they are of sound rows, keep the rules of a HOT file: each was
/// accepted or issued, and no document is there twice. So what `write_hot` makes of them is passed by `check_hot`.
///
/// It changes nothing: it takes from the types of the rows what sound rows do not say of their values.
pub fn hot_rows_keep_rules(items: &[Item], memos: &[Memo])
    ensures law { SoundRowsKeepRules }
    ensures these { KeepRulesOfSound items.now memos.now }
{
    items_fit(items);
    memos_fit(memos);
}

/// What is sent of a HOT file, but for a refusal, is a text that `check_hot` passes.
pub fn hot_files_pass()
    ensures { HotFilesPass }
{}
