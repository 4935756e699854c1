//! Answers that are lists of objects, written object by object.

ghost use Rattle.std.specs.Prelude.{◌≡◌, ◌++◌, nat_lt, map, codes, IfOk, IsOkAnd, OnOk};
ghost use Rattle.serde_json.specs.Written.{comma_if, compact_text};
ghost use Rattle.bsp_messages.specs.Answers.{list_object, memo_object, range_object};

use crate::answer::RangeShown;
use crate::objects::{memo_text, range_text};
use bsp_memos::MemoFields;
use std::alloc::{AllocError, Global};

/// Appends a comma, but before the first item of a list.
pub(crate) fn push_comma(text: &mut Vec<u8>, index: usize) -> Result<(), AllocError>
    ensures { OnOk result (text.new.items ≡ text.old.items ++ comma_if (nat_lt 0 index)) }
{
    if index > 0 {
        text.push(b',')?;
    }
    Ok(())
}

/// Appends an item of a list, if it could be written: a comma, but before the first, and its text.
fn push_item(
    text: &mut Vec<u8>,
    index: usize,
    written: Result<Vec<u8>, AllocError>,
) -> Result<(), AllocError>
    ensures { OnOk result (IsOkAnd written (λ item. text.new.items ≡ (text.old.items ++ comma_if (nat_lt 0 index)) ++ item.items)) }
{
    let item = written?;
    push_comma(text, index)?;
    text.extend_from_slice(&item)?;
    Ok(())
}

/// The body `{"ranges":[..]}`.
pub(crate) fn ranges_text(alloc: Global, ranges: &[RangeShown]) -> Result<Vec<u8>, AllocError>
    ensures { IfOk result (λ text. text.items ≡ compact_text (list_object (codes "ranges") (map range_object ranges.now))) }
{
    let mut text = Vec::from_slice(alloc, b"{\"ranges\":[")?;
    for (index, range) in ranges.iter().enumerate() {
        push_item(&mut text, index, range_text(alloc, range))?;
    }
    text.extend_from_slice(b"]}")?;
    Ok(text)
}

/// The body `{"memos":[..]}`.
pub(crate) fn memos_text(alloc: Global, memos: &[MemoFields]) -> Result<Vec<u8>, AllocError>
    ensures { IfOk result (λ text. text.items ≡ compact_text (list_object (codes "memos") (map memo_object memos.now))) }
{
    let mut text = Vec::from_slice(alloc, b"{\"memos\":[")?;
    for (index, memo) in memos.iter().enumerate() {
        push_item(&mut text, index, memo_text(alloc, memo))?;
    }
    text.extend_from_slice(b"]}")?;
    Ok(text)
}
