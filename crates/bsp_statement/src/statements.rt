//! The billing statement of an agent.

ghost use Rattle.std.specs.List.Sorted.{IsPermutation};
ghost use Rattle.std.specs.Prelude.{◌≡◌, ℕ, ◌^◌, ◌≤◌, ◌++◌, List, length, map, Some, IfOk, OnOk, string_bytes};
ghost use Rattle.std.specs.List.{flat_map};
ghost use Rattle.bsp_fields.specs.Decimal.{fixed_digits};
ghost use Rattle.bsp_calendar.specs.Published.{closed_period, is_taxed};
ghost use Rattle.bsp_calendar.specs.declared.entries.Period.{Period};
ghost use Rattle.bsp_calendar.specs.declared.entries.Terms.{Terms};
ghost use Rattle.bsp_rules.specs.declared.rows.Item.{Item as Row};
ghost use Rattle.bsp_memos.specs.declared.fields.MemoFields.{MemoFields};
ghost use Rattle.bsp_statement.specs.declared.tally.Tally.{Tally as TallyRow};
ghost use Rattle.bsp_statement.specs.Tallies.{AreTallies, tally_postings};
ghost use Rattle.bsp_statement.specs.Postings.{of_agent, postings};
ghost use Rattle.bsp_statement.specs.Nets.{agent_net, net_of_postings};
ghost use Rattle.bsp_statement.specs.Sums.{AreCodes};
ghost use Rattle.bsp_statement.specs.Texts.{figures_line, period_text, statement_lines};
ghost use Rattle.bsp_statement.specs.Reports.{Answers, IsStatement, of_period};

use crate::columns::{push_figures, push_heading};
use crate::fault::StatementFault;
use crate::figures::{Figures, by_airline, total};
use crate::period::push_period;
use crate::posting::Posting;
use crate::rows::postings_of;
use crate::tally::{Tally, tally_postings};
use bsp_calendar::{Currency, Period, Plan};
use bsp_fields::{AgentCode, AirlineCode, NoRoom, PeriodCode};
use bsp_memos::Memo;
use bsp_rules::Item;
use std::alloc::Global;
use std::collections::BTreeMap;

/// Appends a line for each airline.
fn push_airlines(
    alloc: Global,
    out: &mut String,
    sums: &BTreeMap<AirlineCode, Figures>,
    taxed: bool,
) -> Result<(), NoRoom>
    ensures { OnOk result (string_bytes out.new ≡ string_bytes out.old ++ flat_map (λ e. figures_line taxed (fixed_digits 3 e.0) e.1) sums.now.entries) }
{
    for (airline, figures) in sums {
        let name = format!(in alloc; "{airline}")?;
        push_figures(alloc, out, name.as_str(), figures, taxed)?;
    }
    Ok(())
}

/// Appends the heading, a line for each airline of the postings, and the line over all of them.
fn push_lines(
    alloc: Global,
    out: &mut String,
    postings: &[Posting],
    taxed: bool,
) -> Result<(), NoRoom>
    requires { length postings.now ≤ 2 ^ 60 }
    ensures { OnOk result ((airlines : List ℕ) × AreCodes airlines (map (λ p. p.airline) postings.now) × (string_bytes out.new ≡ string_bytes out.old ++ statement_lines taxed airlines postings.now)) }
{
    let sums = by_airline(alloc, postings)?;
    push_heading(out, taxed)?;
    push_airlines(alloc, out, &sums, taxed)?;
    push_figures(alloc, out, "TOT", &total(postings), taxed)
}

/// The statement over an agent's postings.
fn write_statement(
    alloc: Global,
    agent: AgentCode,
    period: &Period,
    currency: Currency,
    postings: &[Posting],
    taxed: bool,
) -> Result<String, NoRoom>
    ensures { IfOk result (λ text. IsStatement taxed agent (period_text period.now.code period.now.remittance currency) postings.now (string_bytes text)) }
{
    let mut text = format!(in alloc; "STATEMENT {agent} ")?;
    push_period(alloc, &mut text, period, currency)?;
    push_lines(alloc, &mut text, postings, taxed)?;
    Ok(text)
}

/// Leaves the postings of an agent.
fn keep_agent(postings: &mut Vec<Posting>, agent: AgentCode)
    ensures { postings.new.items ≡ of_agent agent postings.old.items }
{
    postings.retain(|posting| posting.agent == agent);
}

/// The statement of an agent for a closed period, over the agent's rows among those passed, in any
/// order.
///
/// The first line is `STATEMENT`, the agent, `PERIOD`, the period, `REMIT`, its remittance day and
/// the currency. Then come the heading, a line for each airline, rising by code, and the line `TOT`
/// over all of them. An airline has a line where it has a living TKTT or RFND of the period or a
/// memo billed in it. A line has a name in 3 places and the number of TKTT and RFND in 8. Then it
/// has CASH, CREDIT, COMMISSION, MEMOS (ADMA less ACMA) and NET (CASH less COMMISSION plus MEMOS)
/// in 16 places each. In a period of form 2 (`Plan::is_taxed`) COMMISSION TAX is between COMMISSION
/// and MEMOS, and NET is less by it. Lines end by LF.
///
/// # Errors
///
/// `NotClosed` where the period is unknown or not closed, and `NoMemory` where it is closed and an
/// allocation was refused.
pub fn statement(
    alloc: Global,
    agent: AgentCode,
    period: PeriodCode,
    items: &[Item],
    memos: &[Memo],
    plan: &Plan,
) -> Result<String, StatementFault>
    ensures text { Answers plan.now period (λ q terms text. IsStatement (is_taxed plan.now q) agent (of_period q terms) (of_agent agent (postings period items.now memos.now)) (string_bytes text)) result }
    ensures only { IfOk result (λ text. (q : Period) (terms : Terms) (other : List ℕ) → closed_period plan.now period ≡ Some q → plan.now.terms ≡ Some terms → IsStatement (is_taxed plan.now q) agent (of_period q terms) (of_agent agent (postings period items.now memos.now)) other → other ≡ string_bytes text) }
    ensures net { net_of_postings (of_agent agent (postings period items.now memos.now)) ≡ agent_net agent period items.now memos.now }
    ensures order { (others : List Row) (other_memos : List MemoFields) → IsPermutation items.now others → IsPermutation memos.now other_memos → Answers plan.now period (λ q terms text. IsStatement (is_taxed plan.now q) agent (of_period q terms) (of_agent agent (postings period others other_memos)) (string_bytes text)) result }
{
    let Some((closed, terms)) = plan.closed_with_terms(period) else {
        return Err(StatementFault::NotClosed);
    };
    let mut postings = postings_of(alloc, period, items, memos)?;
    keep_agent(&mut postings, agent);
    let taxed = plan.is_taxed(&closed);
    let text = write_statement(alloc, agent, &closed, terms.currency, &postings, taxed)?;
    Ok(text)
}

/// The statement of an agent for a closed period, over the agent's tallies among those passed, in
/// any order. Where the tallies are the sums of rows, it is the statement over these rows.
///
/// # Errors
///
/// `NotClosed` where the period is unknown or not closed, and `NoMemory` where it is closed and an
/// allocation was refused.
pub fn statement_of(
    alloc: Global,
    agent: AgentCode,
    period: PeriodCode,
    tallies: &[Tally],
    plan: &Plan,
) -> Result<String, StatementFault>
    ensures text { Answers plan.now period (λ q terms text. IsStatement (is_taxed plan.now q) agent (of_period q terms) (of_agent agent (tally_postings period tallies.now)) (string_bytes text)) result }
    ensures only { IfOk result (λ text. (q : Period) (terms : Terms) (other : List ℕ) → closed_period plan.now period ≡ Some q → plan.now.terms ≡ Some terms → IsStatement (is_taxed plan.now q) agent (of_period q terms) (of_agent agent (tally_postings period tallies.now)) other → other ≡ string_bytes text) }
    ensures net { (items : List Row) (memos : List MemoFields) → AreTallies items memos tallies.now → net_of_postings (of_agent agent (tally_postings period tallies.now)) ≡ agent_net agent period items memos }
    ensures order { (others : List TallyRow) → IsPermutation tallies.now others → Answers plan.now period (λ q terms text. IsStatement (is_taxed plan.now q) agent (of_period q terms) (of_agent agent (tally_postings period others)) (string_bytes text)) result }
    ensures rows { (items : List Row) (memos : List MemoFields) → AreTallies items memos tallies.now → Answers plan.now period (λ q terms text. IsStatement (is_taxed plan.now q) agent (of_period q terms) (of_agent agent (postings period items memos)) (string_bytes text)) result }
{
    let Some((closed, terms)) = plan.closed_with_terms(period) else {
        return Err(StatementFault::NotClosed);
    };
    let mut postings = tally_postings(alloc, period, tallies)?;
    keep_agent(&mut postings, agent);
    let taxed = plan.is_taxed(&closed);
    let text = write_statement(alloc, agent, &closed, terms.currency, &postings, taxed)?;
    Ok(text)
}
