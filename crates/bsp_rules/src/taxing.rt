//! The tax on commission that is taken of a transaction as it is accepted.

ghost use Rattle.std.specs.Prelude.{◌≡◌, ◌≤◌};
ghost use Rattle.bsp_rules.specs.Amounts.{commission_amount};
ghost use Rattle.bsp_rules.specs.Commission.{IsCommission};
ghost use Rattle.bsp_rules.specs.Tax.{accepted_item, earlier_of, earliest, hundredths_for, issued_of, tax_on, ticket_issued};

use crate::facts::{Facts, RelatedDocument};
use crate::rounding::commission;
use crate::rows::Item;
use crate::sums::commission_amount;
use bsp_calendar::Plan;
use bsp_fields::{AgentCode, Amount, Day, PeriodCode};
use bsp_ret_records::{Transaction, TransactionCode};

fn issued_of(ticket: &Option<Item>) -> Option<Day>
    ensures { result ≡ issued_of ticket.now }
{
    match ticket {
        Some(item) => Some(item.transaction.issued),
        None => None,
    }
}

fn ticket_issued(related: &Option<RelatedDocument>) -> Option<Day>
    ensures { result ≡ ticket_issued related.now }
{
    match related {
        Some(related) => issued_of(&related.ticket),
        None => None,
    }
}

fn earlier_of(day: Day, other: Option<Day>) -> Day
    ensures { result ≡ earlier_of day other }
{
    let Some(other) = other else {
        return day;
    };
    if other.number() < day.number() {
        other
    } else {
        day
    }
}

/// The earliest of a date of issue and those of the related tickets.
fn earliest(issued: Day, related: &[Option<RelatedDocument>; 2]) -> Day
    ensures { result ≡ earliest issued related.now }
{
    let [first, second] = related;
    earlier_of(
        earlier_of(issued, ticket_issued(first)),
        ticket_issued(second),
    )
}

/// The tax on commission that is taken of a transaction, in hundredths of a percent of its commission:
/// the plan's on the date of issue of a TKTT, and on the earlier of its own date of issue and its
/// ticket's of an RFND. Of a CANX it is 0.
#[tactic(auto, unfolding(crate::specs::Tax::hundredths_for))]
pub fn hundredths_for(
    transaction: &Transaction,
    related: &[Option<RelatedDocument>; 2],
    plan: &Plan,
) -> u16
    ensures value { result ≡ hundredths_for transaction.now related.now plan.now }
    ensures bound { result ≤ 10_000 }
{
    match transaction.code {
        TransactionCode::Tktt => plan.commission_tax(transaction.issued),
        TransactionCode::Rfnd => plan.commission_tax(earliest(transaction.issued, related)),
        TransactionCode::Canx => 0,
    }
}

/// The tax of at most 10,000 hundredths of a percent of a transaction's commission. It is rounded as
/// the [`commission`](crate::commission) of that rate on the commission is, and 0 where there are no
/// amounts.
pub fn tax_of(transaction: &Transaction, hundredths: u16) -> Amount
    requires { hundredths ≤ 10_000 }
    ensures value { result ≡ tax_on hundredths transaction.now }
    ensures rounded { IsCommission hundredths (commission_amount transaction.now.amounts) result }
{
    let tax = commission(hundredths, commission_amount(&transaction.amounts));
    match Amount::new(tax) {
        Ok(amount) => amount,
        Err(_) => unreachable!(),
    }
}

impl Item {
    /// A transaction of an agent as it is accepted in a period. It lives, and its tax is that of the
    /// plan and of the related tickets that the facts have.
    pub fn accepted(
        agent: AgentCode,
        period: PeriodCode,
        transaction: &Transaction,
        facts: &Facts,
        plan: &Plan,
    ) -> Item
        ensures { result ≡ accepted_item agent period transaction.now facts.now.related plan.now }
    {
        let hundredths = hundredths_for(transaction, &facts.related, plan);
        Item {
            agent,
            period,
            transaction: *transaction,
            lives: true,
            tax: tax_of(transaction, hundredths),
            hundredths,
        }
    }
}
