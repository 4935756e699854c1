//! The verdict on a transaction.

ghost use Rattle.std.specs.Prelude.{◌≡◌, ◌∷◌, [], take, drop};
ghost use Rattle.bsp_fields.specs.FirstFault.{first_fault_or};
ghost use Rattle.bsp_calendar.specs.Published.{target_or_zero};
ghost use Rattle.bsp_rules.specs.Verdicts.{rows, verdict_on};
ghost use Rattle.bsp_rules.specs.declared.verdict.Reporter.TheVariants.{Office};

use crate::amounts::has_wrong_amounts;
use crate::conditions::{
    has_ended, has_wrong_agent, has_wrong_check_digit, is_at_limit, is_not_yet_issued,
    is_number_used, is_out_of_stock, lacks_ticket,
};
use crate::facts::Facts;
use crate::tickets::disagrees_with_tickets;
use crate::verdict::{Refusal, Reporter, Verdict};
use bsp_calendar::Plan;
use bsp_fields::PeriodCode;
use bsp_ret_records::Transaction;

/// Refuses where a row applies.
fn refuse_if(applies: bool, refusal: Refusal) -> Result<(), Verdict>
    ensures { result ≡ first_fault_or ((applies, Verdict.Refused refusal) ∷ []) (tt {0}) }
{
    if applies {
        return Err(Verdict::Refused(refusal));
    }
    Ok(())
}

/// Tests the conditions of the first three rows: the agent, whether the transaction is accepted already, the airline.
fn check_parties(
    reporter: Reporter,
    transaction: &Transaction,
    facts: &Facts,
    plan: &Plan,
) -> Result<(), Verdict>
    ensures { result ≡ first_fault_or (take 3 (rows reporter transaction.now facts.now plan.now)) (tt {0}) }
{
    refuse_if(
        has_wrong_agent(reporter, transaction, facts),
        Refusal::WrongAgent,
    )?;
    if let Some(period) = facts.held {
        return Err(Verdict::Held(period));
    }
    let airline = transaction.document.airline;
    refuse_if(!plan.has_airline(airline), Refusal::UnknownAirline)
}

/// Tests the conditions of the next four: the check digits, the day of issue, the stock and the number.
fn check_number(transaction: &Transaction, facts: &Facts, plan: &Plan) -> Result<(), Verdict>
    ensures { result ≡ first_fault_or (take 4 (drop 3 (rows Office transaction.now facts.now plan.now))) (tt {0}) }
{
    refuse_if(has_wrong_check_digit(transaction), Refusal::WrongCheckDigit)?;
    refuse_if(is_not_yet_issued(transaction, plan), Refusal::NotYetIssued)?;
    refuse_if(is_out_of_stock(facts), Refusal::NotInStock)?;
    refuse_if(
        is_number_used(transaction.code, &facts.own),
        Refusal::NumberUsed,
    )
}

/// Tests the conditions of the next four: the amounts and the related tickets.
fn check_content(transaction: &Transaction, facts: &Facts, plan: &Plan) -> Result<(), Verdict>
    ensures { result ≡ first_fault_or (take 4 (drop 7 (rows Office transaction.now facts.now plan.now))) (tt {0}) }
{
    let rate = plan.rate(transaction.document.airline, transaction.issued);
    refuse_if(has_wrong_amounts(transaction, rate), Refusal::WrongAmounts)?;
    refuse_if(lacks_ticket(transaction, facts), Refusal::NoTicket)?;
    refuse_if(has_ended(transaction, facts), Refusal::TicketEnded)?;
    refuse_if(
        disagrees_with_tickets(transaction, &facts.related),
        Refusal::WrongAgainstTicket,
    )
}

/// The period in which a transaction is accepted, or the verdict of the first row that applies.
fn ruled(
    reporter: Reporter,
    transaction: &Transaction,
    facts: &Facts,
    plan: &Plan,
) -> Result<PeriodCode, Verdict>
    ensures { result ≡ first_fault_or (rows reporter transaction.now facts.now plan.now) (target_or_zero plan.now transaction.now.issued) }
{
    check_parties(reporter, transaction, facts, plan)?;
    check_number(transaction, facts, plan)?;
    check_content(transaction, facts, plan)?;
    let Some(target) = plan.target(transaction.issued) else {
        return Err(Verdict::Refused(Refusal::NoPeriod));
    };
    refuse_if(is_at_limit(facts, plan), Refusal::LimitReached)?;
    Ok(target)
}

/// The verdict on a transaction, by what of its agent's own rows bears on it ([`facts_of`]) and by
/// the plan. It is that of the first row of the table of verdicts that applies.
///
/// [`facts_of`]: crate::facts_of
#[tactic(auto, unfolding(crate::specs::Verdicts::verdict_on))]
pub fn judge(reporter: Reporter, transaction: &Transaction, facts: &Facts, plan: &Plan) -> Verdict
    ensures { result ≡ verdict_on reporter transaction.now facts.now plan.now }
{
    match ruled(reporter, transaction, facts, plan) {
        Ok(period) => Verdict::Accepted(period),
        Err(verdict) => verdict,
    }
}
