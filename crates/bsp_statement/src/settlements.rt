//! The settlement of a period between its agents and its airlines.

ghost use Rattle.std.specs.List.Sorted.{IsPermutation};
ghost use Rattle.std.specs.Prelude.{◌≡◌, ◌++◌, List, Some, IfOk, OnOk, map, string_bytes};
ghost use Rattle.std.specs.List.{flat_map, All};
ghost use Rattle.bsp_calendar.specs.Published.{closed_period};
ghost use Rattle.bsp_calendar.specs.declared.entries.Period.{Period};
ghost use Rattle.bsp_calendar.specs.declared.entries.Terms.{Terms};
ghost use Rattle.bsp_statement.specs.declared.nets.Settlement.{Settlement};
ghost use Rattle.bsp_rules.specs.declared.rows.Item.{Item as Row};
ghost use Rattle.bsp_memos.specs.declared.fields.MemoFields.{MemoFields};
ghost use Rattle.bsp_statement.specs.declared.tally.Tally.{Tally as TallyRow};
ghost use Rattle.bsp_statement.specs.Tallies.{AreTallies, tally_postings};
ghost use Rattle.bsp_statement.specs.Postings.{postings};
ghost use Rattle.bsp_statement.specs.Nets.{agent_net, airline_net};
ghost use Rattle.bsp_statement.specs.Texts.{agent_line, airline_net_line, period_text, settlement_lines, settlement_text};
ghost use Rattle.bsp_statement.specs.Reports.{Answers, HasOneSum, IsSameSettlement, IsSettlement, agent_net_of, airline_net_of, of_period};

use crate::columns::push_net;
use crate::fault::StatementFault;
use crate::figures::{Figures, by_agent, by_airline, total};
use crate::nets::{AgentNet, AirlineNet, Settlement};
use crate::period::push_period;
use crate::posting::Posting;
use crate::rows::postings_of;
use crate::tally::{Tally, tally_postings};
use bsp_calendar::{Currency, Period, Plan};
use bsp_fields::{AgentCode, AirlineCode, NoRoom, PeriodCode};
use bsp_memos::Memo;
use bsp_rules::Item;
use std::alloc::{AllocError, Global};
use std::collections::BTreeMap;

/// The net of each agent.
fn agent_nets(
    alloc: Global,
    sums: &BTreeMap<AgentCode, Figures>,
) -> Result<Vec<AgentNet>, AllocError>
    ensures { IfOk result (λ nets. nets.items ≡ map agent_net_of sums.now.entries) }
{
    let mut nets = Vec::new(alloc);
    for (agent, figures) in sums {
        nets.push(AgentNet {
            agent: *agent,
            net: figures.net,
        })?;
    }
    Ok(nets)
}

/// The net of each airline.
fn airline_nets(
    alloc: Global,
    sums: &BTreeMap<AirlineCode, Figures>,
) -> Result<Vec<AirlineNet>, AllocError>
    ensures { IfOk result (λ nets. nets.items ≡ map airline_net_of sums.now.entries) }
{
    let mut nets = Vec::new(alloc);
    for (airline, figures) in sums {
        nets.push(AirlineNet {
            airline: *airline,
            net: figures.net,
        })?;
    }
    Ok(nets)
}

/// Appends a line for each agent.
fn push_agents(alloc: Global, out: &mut String, nets: &[AgentNet]) -> Result<(), NoRoom>
    ensures { OnOk result (string_bytes out.new ≡ string_bytes out.old ++ flat_map agent_line nets.now) }
{
    for net in nets {
        let agent = net.agent;
        let name = format!(in alloc; "{agent}")?;
        push_net(alloc, out, "AGENT", name.as_str(), net.net)?;
    }
    Ok(())
}

/// Appends a line for each airline.
fn push_airlines(alloc: Global, out: &mut String, nets: &[AirlineNet]) -> Result<(), NoRoom>
    ensures { OnOk result (string_bytes out.new ≡ string_bytes out.old ++ flat_map airline_net_line nets.now) }
{
    for net in nets {
        let airline = net.airline;
        let name = format!(in alloc; "{airline}")?;
        push_net(alloc, out, "AIRLINE", name.as_str(), net.net)?;
    }
    Ok(())
}

/// Appends the lines of both sides, each with its total.
fn push_sides(
    alloc: Global,
    out: &mut String,
    agents: &[AgentNet],
    airlines: &[AirlineNet],
    total: i128,
) -> Result<(), NoRoom>
    ensures { OnOk result (string_bytes out.new ≡ string_bytes out.old ++ settlement_lines agents.now airlines.now total) }
{
    push_agents(alloc, out, agents)?;
    push_net(alloc, out, "TOTAL", "AGENTS", total)?;
    push_airlines(alloc, out, airlines)?;
    push_net(alloc, out, "TOTAL", "AIRLINES", total)
}

/// The report over these nets.
fn settlement_text(
    alloc: Global,
    period: &Period,
    currency: Currency,
    agents: &[AgentNet],
    airlines: &[AirlineNet],
    total: i128,
) -> Result<String, NoRoom>
    ensures { IfOk result (λ text. string_bytes text ≡ settlement_text (period_text period.now.code period.now.remittance currency) agents.now airlines.now total) }
{
    let mut text = String::from_str(alloc, "SETTLEMENT ")?;
    push_period(alloc, &mut text, period, currency)?;
    push_sides(alloc, &mut text, agents, airlines, total)?;
    Ok(text)
}

/// The settlement over the postings of a period.
fn write_settlement(
    alloc: Global,
    period: &Period,
    currency: Currency,
    postings: &[Posting],
) -> Result<Settlement, NoRoom>
    ensures { IfOk result (λ settlement. IsSettlement (period_text period.now.code period.now.remittance currency) postings.now settlement) }
{
    let agents = agent_nets(alloc, &by_agent(alloc, postings)?)?;
    let airlines = airline_nets(alloc, &by_airline(alloc, postings)?)?;
    let total = total(postings).net;
    let text = settlement_text(alloc, period, currency, &agents, &airlines, total)?;
    Ok(Settlement {
        agents,
        airlines,
        total,
        text,
    })
}

/// The settlement of a closed period over the rows passed, in any order.
///
/// An agent or an airline is in it where it has a living TKTT or RFND of the period or a memo
/// billed in it. The first line of the report is `SETTLEMENT`, `PERIOD`, the period, `REMIT`, its
/// remittance day and the currency. Then come a line `AGENT` for each agent, `TOTAL AGENTS`, a line
/// `AIRLINE` for each airline and `TOTAL AIRLINES`. Such a line has a label and a name in 8 places
/// each, and the net in 16. Lines end by LF.
///
/// # Errors
///
/// `NotClosed` where the period is unknown or not closed, and `NoMemory` where it is closed and an
/// allocation was refused.
pub fn settlement(
    alloc: Global,
    period: PeriodCode,
    items: &[Item],
    memos: &[Memo],
    plan: &Plan,
) -> Result<Settlement, StatementFault>
    ensures settlement { Answers plan.now period (λ q terms settlement. IsSettlement (of_period q terms) (postings period items.now memos.now) settlement) result }
    ensures only { IfOk result (λ settlement. (q : Period) (terms : Terms) (other : Settlement) → closed_period plan.now period ≡ Some q → plan.now.terms ≡ Some terms → IsSettlement (of_period q terms) (postings period items.now memos.now) other → IsSameSettlement settlement other) }
    ensures one_sum { IfOk result HasOneSum }
    ensures agents { IfOk result (λ settlement. All (λ n. n.net ≡ agent_net n.agent period items.now memos.now) settlement.agents.items) }
    ensures airlines { IfOk result (λ settlement. All (λ n. n.net ≡ airline_net n.airline period items.now memos.now) settlement.airlines.items) }
    ensures order { (others : List Row) (other_memos : List MemoFields) → IsPermutation items.now others → IsPermutation memos.now other_memos → Answers plan.now period (λ q terms settlement. IsSettlement (of_period q terms) (postings period others other_memos) settlement) result }
{
    let Some((closed, terms)) = plan.closed_with_terms(period) else {
        return Err(StatementFault::NotClosed);
    };
    let postings = postings_of(alloc, period, items, memos)?;
    let settlement = write_settlement(alloc, &closed, terms.currency, &postings)?;
    Ok(settlement)
}

/// The settlement of a closed period over the tallies passed, in any order. Where the tallies are
/// the sums of rows, it is the settlement over these rows.
///
/// # Errors
///
/// `NotClosed` where the period is unknown or not closed, and `NoMemory` where it is closed and an
/// allocation was refused.
pub fn settlement_of(
    alloc: Global,
    period: PeriodCode,
    tallies: &[Tally],
    plan: &Plan,
) -> Result<Settlement, StatementFault>
    ensures settlement { Answers plan.now period (λ q terms settlement. IsSettlement (of_period q terms) (tally_postings period tallies.now) settlement) result }
    ensures only { IfOk result (λ settlement. (q : Period) (terms : Terms) (other : Settlement) → closed_period plan.now period ≡ Some q → plan.now.terms ≡ Some terms → IsSettlement (of_period q terms) (tally_postings period tallies.now) other → IsSameSettlement settlement other) }
    ensures one_sum { IfOk result HasOneSum }
    ensures agents { (items : List Row) (memos : List MemoFields) → AreTallies items memos tallies.now → IfOk result (λ settlement. All (λ n. n.net ≡ agent_net n.agent period items memos) settlement.agents.items) }
    ensures airlines { (items : List Row) (memos : List MemoFields) → AreTallies items memos tallies.now → IfOk result (λ settlement. All (λ n. n.net ≡ airline_net n.airline period items memos) settlement.airlines.items) }
    ensures order { (others : List TallyRow) → IsPermutation tallies.now others → Answers plan.now period (λ q terms settlement. IsSettlement (of_period q terms) (tally_postings period others) settlement) result }
    ensures rows { (items : List Row) (memos : List MemoFields) → AreTallies items memos tallies.now → Answers plan.now period (λ q terms settlement. IsSettlement (of_period q terms) (postings period items memos) settlement) result }
{
    let Some((closed, terms)) = plan.closed_with_terms(period) else {
        return Err(StatementFault::NotClosed);
    };
    let postings = tally_postings(alloc, period, tallies)?;
    let settlement = write_settlement(alloc, &closed, terms.currency, &postings)?;
    Ok(settlement)
}
