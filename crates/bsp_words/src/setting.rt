//! What a file is judged over.

ghost use Rattle.std.specs.Prelude.{◌≡◌, ◌++◌, IfOk, IfSome, codes, length, map, option_and_then, option_map};
ghost use Rattle.clap.specs.Words.{first_of, found_of, rows_of};
ghost use Rattle.bsp_words.specs.Filling.{if_whole};
ghost use Rattle.bsp_words.specs.CommandLine.{AskedLists, agent_of, all_read, day_of, earlier_in, first_number, is_range, judge_work, last_number, lists_in, lists_of, no_lists, period_of, range_of, read_if_any, setting_from, texts_in, with_lists, work_of};

use crate::order::push_in_order;
use crate::plan::day_of;
use crate::values::{value_of, values_of};
use crate::work::{Earlier, Misfit, Range, Setting, Work};
use bsp_fields::{AgentCode, Day, DocNumber, PeriodCode};
use clap::ArgMatches;
use std::alloc::{AllocError, Global};
use std::convert::AsStr;

/// The business day.
fn day_given(matches: &ArgMatches<'_>) -> Option<Day>
    ensures { result ≡ option_and_then day_of (first_of (codes "day") (rows_of (found_of matches.now))) }
{
    let Some(text) = value_of(matches, "day") else {
        return None;
    };
    day_of(text)
}

/// The agent.
fn agent_given(matches: &ArgMatches<'_>) -> Option<AgentCode>
    ensures { result ≡ option_and_then agent_of (first_of (codes "agent") (rows_of (found_of matches.now))) }
{
    let Some(text) = value_of(matches, "agent") else {
        return None;
    };
    AgentCode::read(text.as_bytes()).ok()
}

/// Whether a text has the width of a range, and a minus in its middle.
fn is_range(text: &[u8]) -> bool
    ensures range { result ≡ is_range text.now }
{
    text.len() == 21 && text[10] == b'-'
}

fn first_number(text: &[u8]) -> Option<DocNumber>
    requires { length text.now ≡ 21 }
    ensures { result ≡ first_number text.now }
{
    DocNumber::read_unchecked(&text[..10]).ok()
}

fn last_number(text: &[u8]) -> Option<DocNumber>
    requires { length text.now ≡ 21 }
    ensures { result ≡ last_number text.now }
{
    DocNumber::read_unchecked(&text[11..]).ok()
}

/// A value of the command line that is read from a text.
trait FromText: Copy + Drop {
    ghost use Rattle.std.specs.Prelude.{◌≡◌, Option};
    ghost use Rattle.clap.specs.Words.{Text};

    ghost reading: { Text → Option Self };

    fn from_text(text: &str) -> Option<Self>
        ensures { result ≡ reading text.now };
}

impl FromText for Range {
    ghost reading = { range_of };

    fn from_text(text: &str) -> Option<Range> {
        let text = text.as_bytes();
        if !is_range(text) {
            return None;
        }
        let Some(first) = first_number(text) else {
            return None;
        };
        let Some(last) = last_number(text) else {
            return None;
        };
        Some(Range { first, last })
    }
}

impl FromText for PeriodCode {
    ghost reading = { period_of };

    fn from_text(text: &str) -> Option<PeriodCode> {
        PeriodCode::read(text.as_bytes()).ok()
    }
}

/// Adds what each text is read as; false where one is out of its form.
fn push_read<T: FromText>(items: &mut Vec<T>, texts: &[&str]) -> Result<bool, AllocError>
    ensures { IfOk result (λ whole. if_whole whole items.new.items ≡ option_map (λ more. items.old.items ++ more) (all_read T.reading (texts_in texts.now))) }
{
    for text in texts {
        let Some(item) = T::from_text(text) else {
            return Ok(false);
        };
        items.push(item)?;
    }
    Ok(true)
}

/// The period of the statement, if one is asked for; none where it is out of its form.
fn statement_given(matches: &ArgMatches<'_>) -> Option<Option<PeriodCode>>
    ensures { result ≡ read_if_any period_of (first_of (codes "statement") (rows_of (found_of matches.now))) }
{
    let Some(text) = value_of(matches, "statement") else {
        return Some(None);
    };
    let Some(period) = PeriodCode::from_text(text) else {
        return None;
    };
    Some(Some(period))
}

/// A setting with its day, its agent, and the period of its statement if one is asked for; none where one is out of its form.
fn empty_setting<'a>(alloc: Global, matches: &ArgMatches<'_>) -> Option<Setting<'a>>
    ensures singles { (lists : AskedLists) → option_map (with_lists lists) result ≡ setting_from lists (rows_of (found_of matches.now)) }
    ensures empty { IfSome result (λ s. lists_of s ≡ no_lists) }
{
    let Some(day) = day_given(matches) else {
        return None;
    };
    let Some(agent) = agent_given(matches) else {
        return None;
    };
    let Some(statement) = statement_given(matches) else {
        return None;
    };
    Some(Setting {
        plans: Vec::new(alloc),
        day,
        agent,
        stock: Vec::new(alloc),
        files: Vec::new(alloc),
        earlier: Vec::new(alloc),
        statement,
    })
}

/// Adds the files and the closes in the order of the words; false where a period is out of its form.
fn push_earlier<S: AsStr>(
    alloc: Global,
    words: &[S],
    matches: &ArgMatches<'_>,
    earlier: &mut Vec<Earlier>,
) -> Result<bool, AllocError>
    ensures { IfOk result (λ whole. if_whole whole earlier.new.items ≡ option_map (λ more. earlier.old.items ++ more) (earlier_in (map S.text words.now) (rows_of (found_of matches.now)))) }
{
    let mut closed = Vec::new(alloc);
    if !push_read(&mut closed, values_of(matches, "closed"))? {
        return Ok(false);
    }
    push_in_order(earlier, words, &closed)?;
    Ok(true)
}

/// Adds the lists of a setting; false where a range or a period is out of its form.
fn fill_lists<'a, S: AsStr>(
    alloc: Global,
    words: &[S],
    matches: &ArgMatches<'a>,
    setting: &mut Setting<'a>,
) -> Result<bool, AllocError>
    requires { lists_of setting.old ≡ no_lists }
    ensures singles { (lists : AskedLists) → with_lists lists setting.new ≡ with_lists lists setting.old }
    ensures lists { IfOk result (λ whole. if_whole whole (lists_of setting.new) ≡ lists_in (map S.text words.now) (rows_of (found_of matches.now))) }
{
    setting.plans.extend_from_slice(values_of(matches, "plan"))?;
    setting.files.extend_from_slice(values_of(matches, "file"))?;
    if !push_read(&mut setting.stock, values_of(matches, "stock"))? {
        return Ok(false);
    }
    push_earlier(alloc, words, matches, &mut setting.earlier)
}

/// The work of `judge`.
pub(crate) fn judge_given<'a, S: AsStr>(
    alloc: Global,
    words: &[S],
    matches: &ArgMatches<'a>,
) -> Result<Option<Work<'a>>, AllocError>
    ensures { IfOk result (λ work. option_map work_of work ≡ judge_work (map S.text words.now) (rows_of (found_of matches.now))) }
{
    let Some(file) = value_of(matches, "FILE") else {
        return Ok(None);
    };
    let Some(mut setting) = empty_setting(alloc, matches) else {
        return Ok(None);
    };
    if !fill_lists(alloc, words, matches, &mut setting)? {
        return Ok(None);
    }
    Ok(Some(Work::Judge { setting, file }))
}

/// Whether a text that is to be a range is none.
fn has_other_range(matches: &ArgMatches<'_>) -> bool {
    values_of(matches, "stock")
        .iter()
        .any(|text| Range::from_text(text).is_none())
}

/// Which value of `judge` is out of its form.
pub(crate) fn setting_misfit(matches: &ArgMatches<'_>) -> Misfit {
    if day_given(matches).is_none() {
        Misfit::Day
    } else if agent_given(matches).is_none() {
        Misfit::Agent
    } else if has_other_range(matches) {
        Misfit::Stock
    } else {
        Misfit::Period
    }
}
