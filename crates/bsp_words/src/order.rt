//! The order in which the options `--file` and `--closed` come among the words.

ghost use Rattle.std.specs.Prelude.{◌≡◌, ◌++◌, List, OnOk, drop, map};
ghost use Rattle.bsp_words.specs.Order.{as_list, in_order, is_option, mark_of, marks_in};

use crate::work::Earlier;
use bsp_fields::PeriodCode;
use std::alloc::AllocError;
use std::convert::AsStr;

/// Which of the two options a word is.
pub(crate) enum Mark {
    File,
    Closed,
}

/// Whether a word is this option, alone or with its value after `=`.
fn is_option(word: &[u8], alone: &[u8], valued: &[u8]) -> bool
    ensures { result ≡ is_option word.now alone.now valued.now }
{
    word == alone || word.starts_with(valued)
}

/// Which of the two options a word is, if it is one.
fn mark_of(word: &[u8]) -> Option<Mark>
    ensures { result ≡ mark_of word.now }
{
    if is_option(word, b"--file", b"--file=") {
        Some(Mark::File)
    } else if is_option(word, b"--closed", b"--closed=") {
        Some(Mark::Closed)
    } else {
        None
    }
}

/// Adds an item, if there is one.
fn push_some<T: Drop>(items: &mut Vec<T>, item: Option<T>) -> Result<(), AllocError>
    ensures { OnOk result (items.new.items ≡ items.old.items ++ as_list item) }
{
    let Some(item) = item else {
        return Ok(());
    };
    items.push(item)?;
    Ok(())
}

/// What comes next, and how many of the periods are then taken.
fn next_of(closed: &[PeriodCode], taken: usize, mark: Option<Mark>) -> (Option<Earlier>, usize)
    ensures { (marks : List Mark) → in_order (as_list mark ++ marks) (drop taken closed.now) ≡ as_list result.0 ++ in_order marks (drop result.1 closed.now) }
{
    match mark {
        Some(Mark::File) => (Some(Earlier::File), taken),
        Some(Mark::Closed) => match closed.get(taken) {
            Some(period) => (Some(Earlier::Closed(*period)), taken + 1),
            None => (None, taken),
        },
        None => (None, taken),
    }
}

/// Adds the files and the periods in the order of the words.
pub(crate) fn push_in_order<S: AsStr>(
    earlier: &mut Vec<Earlier>,
    words: &[S],
    closed: &[PeriodCode],
) -> Result<(), AllocError>
    ensures { OnOk result (earlier.new.items ≡ earlier.old.items ++ in_order (marks_in (map S.text words.now)) closed.now) }
{
    let mut taken = 0;
    for word in words {
        let (next, now_taken) = next_of(closed, taken, mark_of(word.as_str().as_bytes()));
        push_some(earlier, next)?;
        taken = now_taken;
    }
    Ok(())
}
