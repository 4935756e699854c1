//! A HOT file over rows.

ghost use Rattle.std.specs.List.{AllPairs};
ghost use Rattle.std.specs.List.Sorted.{IsPermutation};
ghost use Rattle.bsp_rules.specs.declared.rows.Item.{Item as ItemRow};
ghost use Rattle.bsp_memos.specs.declared.fields.MemoFields.{MemoFields as MemoRow};
ghost use Rattle.bsp_hot.specs.Part.{HaveOnePart};
ghost use Rattle.std.specs.Prelude.{◌≡◌, [], ℕ, List, All, Some, None, IfOk, MatchOption, map};
ghost use Rattle.bsp_calendar.specs.Published.{closed_period};
ghost use Rattle.bsp_hot_check.specs.Hot.{records_of};
ghost use Rattle.bsp_hot.specs.Sorting.{entry_of, IsRow};
ghost use Rattle.bsp_calendar.specs.declared.entries.Period.{Period as ClosedPeriod};
ghost use Rattle.bsp_calendar.specs.declared.entries.Terms.{Terms as PublishedTerms};
ghost use Rattle.bsp_hot.specs.Rows.{entries};
ghost use Rattle.bsp_hot.specs.Files.{file_of, form_of, IsWritten, AnswersOver};
ghost use Rattle.bsp_hot.specs.Sound.{AreApart, AreInBounds, KeepRules, IsHotFileOver};
ghost use Rattle.bsp_hot.specs.WrittenText.{IsTextOf, AreFactsOf};

use crate::fault::HotFault;
use crate::offices::{FileFacts, push_offices};
use crate::output::{LINE, Output};
use crate::rows::{Row, rows_in_order};
use bsp_calendar::{Currency, Period, Plan};
use bsp_fields::{AirlineCode, PeriodCode};
use bsp_hot_check::FileForm;
use bsp_memos::Memo;
use bsp_rules::Item;
use bsp_statement::Tally;
use std::alloc::Global;

impl FileFacts {
    /// Of an airline, a period and a currency.
    fn over(airline: AirlineCode, period: Period, currency: Currency) -> FileFacts
        ensures value { result ≡ record { airline = airline; period = period; currency = currency } }
        ensures bounds { AreInBounds airline period currency }
    {
        FileFacts {
            airline,
            period,
            currency: currency.letters(),
        }
    }

    /// Of the period of a code, where it is published and closed. Terms are then published too.
    fn of(airline: AirlineCode, period: PeriodCode, plan: &Plan) -> Option<FileFacts>
        ensures { MatchOption result (closed_period plan.now period ≡ None) (AreFactsOf plan.now airline period) }
    {
        let (period, terms) = plan.closed_with_terms(period)?;
        Some(FileFacts::over(airline, period, terms.currency))
    }
}

/// The form of the files of a period.
fn form_of(plan: &Plan, period: &Period) -> FileForm
    ensures { result ≡ form_of plan.now period.now }
{
    if plan.is_taxed(period) {
        FileForm::Two
    } else {
        FileForm::One
    }
}

/// The file over rows in order.
fn write_file(mut out: Output, file: &FileFacts, rows: &[Row]) -> Result<Vec<u8>, HotFault>
    requires rows { All IsRow rows.now }
    requires empty { out.text.items ≡ [] }
    requires none { out.records ≡ 0 }
    ensures { IsTextOf (λ text. text.items) out.form (records_of (file_of out.form file.now.airline file.now.period file.now.currency (map entry_of rows.now))) result }
{
    out.push_file_header(file.airline, &file.period, &file.currency)?;
    out.push_period_header(&file.period)?;
    let offices = push_offices(&mut out, file, rows)?;
    out.push_period_totals(file.period.code, offices.count, offices.sums)?;
    out.push_file_totals(file.airline, offices.sums)?;
    Ok(out.text)
}

/// The file of an airline and a period over rows, with that much room for its text at once.
fn write_over<'a>(
    alloc: Global,
    room: usize,
    airline: AirlineCode,
    period: PeriodCode,
    items: &'a [Item],
    memos: &'a [Memo],
    plan: &Plan,
) -> Result<Vec<u8>, HotFault>
    ensures written { AnswersOver (λ text. text.items) plan.now airline period (entries airline period items.now memos.now) result }
    ensures only { IfOk result (λ text. (q : ClosedPeriod) (terms : PublishedTerms) (other : List ℕ) → closed_period plan.now period ≡ Some q → plan.now.terms ≡ Some terms → IsWritten (form_of plan.now q) airline q terms.currency (entries airline period items.now memos.now) other → other ≡ text.items) }
    ensures order { (others : List ItemRow) (other_memos : List MemoRow) → IsPermutation items.now others → IsPermutation memos.now other_memos → AllPairs AreApart (entries airline period items.now memos.now) → AnswersOver (λ text. text.items) plan.now airline period (entries airline period others other_memos) result }
    ensures part { (others : List ItemRow) (other_memos : List MemoRow) → HaveOnePart airline items.now others memos.now other_memos → AnswersOver (λ text. text.items) plan.now airline period (entries airline period others other_memos) result }
    ensures stands { KeepRules airline period items.now memos.now → IfOk result (λ text. (q : ClosedPeriod) × (terms : PublishedTerms) × (closed_period plan.now period ≡ Some q) × (plan.now.terms ≡ Some terms) × IsHotFileOver (form_of plan.now q) airline q terms.currency (entries airline period items.now memos.now) text.items) }
{
    let file = FileFacts::of(airline, period, plan).ok_or(HotFault::NotClosed)?;
    let form = form_of(plan, &file.period);
    let rows = rows_in_order(alloc, airline, period, items, memos)?;
    write_file(Output::with_room(alloc, room, form), &file, &rows)
}

/// The HOT file of an airline for a closed period, over the airline's rows among those passed, in
/// any order. The rows are its living TKTT and RFND of the period, its CANX of the period, and its
/// memos billed in it.
///
/// Each record has 136 characters and ends by LF (DISH handbook, BSP data interchange). Its records and
/// their columns are those of docs/FORMATS.md, HOT. Amounts are in minor units.
///
/// # Errors
///
/// `NotClosed` where the period is unknown or not closed, and else `TooWide` where a count or a total does
/// not fit its place; `NoMemory` where an allocation was refused.
pub fn write_hot<'a>(
    alloc: Global,
    airline: AirlineCode,
    period: PeriodCode,
    items: &'a [Item],
    memos: &'a [Memo],
    plan: &Plan,
) -> Result<Vec<u8>, HotFault>
    // The text of the records of the definition.
    ensures written { AnswersOver (λ text. text.items) plan.now airline period (entries airline period items.now memos.now) result }
    ensures only { IfOk result (λ text. (q : ClosedPeriod) (terms : PublishedTerms) (other : List ℕ) → closed_period plan.now period ≡ Some q → plan.now.terms ≡ Some terms → IsWritten (form_of plan.now q) airline q terms.currency (entries airline period items.now memos.now) other → other ≡ text.items) }
    ensures order { (others : List ItemRow) (other_memos : List MemoRow) → IsPermutation items.now others → IsPermutation memos.now other_memos → AllPairs AreApart (entries airline period items.now memos.now) → AnswersOver (λ text. text.items) plan.now airline period (entries airline period others other_memos) result }
    ensures part { (others : List ItemRow) (other_memos : List MemoRow) → HaveOnePart airline items.now others memos.now other_memos → AnswersOver (λ text. text.items) plan.now airline period (entries airline period others other_memos) result }
    // For rows that keep the rules of the book it is a HOT file.
    ensures stands { KeepRules airline period items.now memos.now → IfOk result (λ text. (q : ClosedPeriod) × (terms : PublishedTerms) × (closed_period plan.now period ≡ Some q) × (plan.now.terms ≡ Some terms) × IsHotFileOver (form_of plan.now q) airline q terms.currency (entries airline period items.now memos.now) text.items) }
{
    write_over(alloc, 0, airline, period, items, memos, plan)
}

/// About as many bytes as the file of these tallies has: room for seven records of each TKTT and RFND,
/// which few exceed, two of each CANX, four of each memo, seven more of each agent, and four.
fn room_for(airline: AirlineCode, period: PeriodCode, tallies: &[Tally]) -> usize {
    let mut records = 4_usize;
    for tally in tallies {
        if tally.airline == airline && tally.period == period {
            let documents = 7 * tally.living as u64
                + 2 * tally.canx as u64
                + 4 * tally.memo_count as u64;
            records = records.saturating_add(7 + documents as usize);
        }
    }
    records.saturating_mul(LINE)
}

/// What [`write_hot`] gives. The tallies say how many documents there are, so that about the room that the
/// text needs is taken at once, and the text moves less as it grows. They change nothing else.
///
/// # Errors
///
/// As of [`write_hot`].
pub fn write_hot_of<'a>(
    alloc: Global,
    airline: AirlineCode,
    period: PeriodCode,
    items: &'a [Item],
    memos: &'a [Memo],
    tallies: &[Tally],
    plan: &Plan,
) -> Result<Vec<u8>, HotFault>
    ensures written { AnswersOver (λ text. text.items) plan.now airline period (entries airline period items.now memos.now) result }
    ensures only { IfOk result (λ text. (q : ClosedPeriod) (terms : PublishedTerms) (other : List ℕ) → closed_period plan.now period ≡ Some q → plan.now.terms ≡ Some terms → IsWritten (form_of plan.now q) airline q terms.currency (entries airline period items.now memos.now) other → other ≡ text.items) }
    ensures order { (others : List ItemRow) (other_memos : List MemoRow) → IsPermutation items.now others → IsPermutation memos.now other_memos → AllPairs AreApart (entries airline period items.now memos.now) → AnswersOver (λ text. text.items) plan.now airline period (entries airline period others other_memos) result }
    ensures part { (others : List ItemRow) (other_memos : List MemoRow) → HaveOnePart airline items.now others memos.now other_memos → AnswersOver (λ text. text.items) plan.now airline period (entries airline period others other_memos) result }
    ensures stands { KeepRules airline period items.now memos.now → IfOk result (λ text. (q : ClosedPeriod) × (terms : PublishedTerms) × (closed_period plan.now period ≡ Some q) × (plan.now.terms ≡ Some terms) × IsHotFileOver (form_of plan.now q) airline q terms.currency (entries airline period items.now memos.now) text.items) }
{
    let room = room_for(airline, period, tallies);
    write_over(alloc, room, airline, period, items, memos, plan)
}
