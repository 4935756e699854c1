//! The work of `plan`.

ghost use Rattle.std.specs.Prelude.{◌≡◌, IfOk, codes, option_map};
ghost use Rattle.clap.specs.Words.{first_of, found_of, rows_of};
ghost use Rattle.bsp_words.specs.CommandLine.{day_of, plan_of_work, plan_text_work, plan_work, read_if_any, texts_in, values_in, work_of};

use crate::values::{has_values, value_of, values_of};
use crate::work::{Misfit, Work};
use bsp_fields::Day;
use clap::ArgMatches;
use std::alloc::{AllocError, Global};

/// The day that a text is.
pub(crate) fn day_of(text: &str) -> Option<Day>
    ensures { result ≡ day_of text.now }
{
    Day::read_text(text.as_bytes()).ok()
}

/// The day of the text, if one is given; none where it is out of its form.
fn day_given(matches: &ArgMatches<'_>) -> Option<Option<Day>>
    ensures { result ≡ read_if_any day_of (first_of (codes "day") (rows_of (found_of matches.now))) }
{
    let Some(text) = value_of(matches, "day") else {
        return Some(None);
    };
    let Some(day) = day_of(text) else {
        return None;
    };
    Some(Some(day))
}

/// The work of a text over those published before.
fn text_work<'a>(
    alloc: Global,
    matches: &ArgMatches<'a>,
    file: &'a str,
) -> Result<Option<Work<'a>>, AllocError>
    ensures { IfOk result (λ work. option_map work_of work ≡ plan_text_work file.now (rows_of (found_of matches.now))) }
{
    let Some(day) = day_given(matches) else {
        return Ok(None);
    };
    let published = Vec::from_slice(alloc, values_of(matches, "after"))?;
    Ok(Some(Work::Plan {
        file,
        published,
        day,
    }))
}

/// The work on the plan of a book.
fn book_work<'a>(matches: &ArgMatches<'a>, book: &'a str) -> Option<Work<'a>>
    ensures { option_map work_of result ≡ plan_of_work book.now (rows_of (found_of matches.now)) }
{
    if book == "-" || has_values(matches, "after") || value_of(matches, "day").is_some() {
        return None;
    }
    Some(Work::PlanOf { book })
}

/// The work of `plan`, where exactly one of its FILE and `--of` is there, and each value is in its form.
pub(crate) fn plan_given<'a>(
    alloc: Global,
    matches: &ArgMatches<'a>,
) -> Result<Option<Work<'a>>, AllocError>
    ensures { IfOk result (λ work. option_map work_of work ≡ plan_work (rows_of (found_of matches.now))) }
{
    match (value_of(matches, "FILE"), value_of(matches, "of")) {
        (Some(file), None) => text_work(alloc, matches, file),
        (None, Some(book)) => Ok(book_work(matches, book)),
        _ => Ok(None),
    }
}

/// Which value of `plan` is out of its form.
pub(crate) fn plan_misfit(matches: &ArgMatches<'_>) -> Misfit {
    match (value_of(matches, "FILE"), value_of(matches, "of")) {
        (Some(_), None) => Misfit::Day,
        (None, Some("-")) => Misfit::Minus,
        (None, None) => Misfit::NoPlan,
        _ => Misfit::TwoPlans,
    }
}
