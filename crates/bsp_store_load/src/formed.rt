//! What the program's types say of rows in memory. No function here has an effect: each contract says what every value of
//! the types that it takes is.

ghost use Rattle.std.specs.Prelude.{◌<◌, ◌^◌, IsTrue, length};
ghost use Rattle.std.specs.List.{AllByRecursion};
ghost use Rattle.bsp_store_base.specs.Entries.{InEach, is_day, IsStored, IsStoredTax};
ghost use Rattle.bsp_store_base.specs.Forms.{AreTerms, IsAgentEntry, IsRangeEntry, IsAirline, IsRate, IsPeriod, IsCommissionTax};
ghost use Rattle.bsp_store_load.specs.Formed.{IsFormedItem, IsFormedMemo, IsFormedPublished, IsRegisteredAirline};

use bsp_rows::{
    AgentCode, AirlineCode, CommissionTax, Day, DocNumber, Item, ItemKey, MemoFields, MemoKey,
    Period, PeriodCode, Plan, RangeKey, Rate, Tax, Terms, Token, Transaction,
};

// ---- entries

/// A registered agent and its token.
pub fn formed_agent(agent: AgentCode, token: Token)
    ensures { IsAgentEntry (agent, token) }
{
    let _text = token.as_bytes();
}

/// A registered airline and its token.
pub fn formed_airline(airline: AirlineCode, token: Token)
    ensures { IsRegisteredAirline (airline, token) }
{
    let _text = token.as_bytes();
}

/// A range by its key, and its last number.
pub fn formed_range(key: RangeKey, last: DocNumber)
    ensures { IsRangeEntry (key, last) }
{}

fn stored_taxes(taxes: [Option<Tax>; 6])
    ensures { InEach IsStoredTax taxes }
{
    let [_first, _second, _third, _fourth, _fifth, _sixth] = taxes;
}

fn stored(transaction: Transaction)
    ensures { IsStored transaction }
{
    let [_first, _second] = transaction.related;
    if let Some(amounts) = transaction.amounts {
        stored_taxes(amounts.taxes);
    }
}

/// An item under its key.
pub fn formed_item(key: ItemKey, item: Item)
    ensures { IsFormedItem (key, item) }
{
    stored(item.transaction);
}

/// A memo under its key.
pub fn formed_memo(key: MemoKey, memo: MemoFields)
    ensures { IsFormedMemo (key, memo) }
{
    let _text = memo.reason.as_str();
}

/// A day.
pub fn formed_day(day: Day)
    ensures { IsTrue (is_day day) }
{}

/// The code of a period.
pub fn formed_period(code: PeriodCode)
    ensures { code < 10 ^ 5 }
{}

// ---- a plan

fn formed_terms(terms: Terms)
    ensures { AreTerms terms }
{
    let _letters = terms.currency.letters();
}

/// A value of whose type something is known.
trait Formed {
    ghost is_formed: { Self → Type 0 };

    fn see(self)
        ensures { is_formed self };
}

impl Formed for AirlineCode {
    ghost is_formed = { IsAirline };

    fn see(self) {}
}

impl Formed for Rate {
    ghost is_formed = { IsRate };

    fn see(self) {}
}

impl Formed for Period {
    ghost is_formed = { IsPeriod };

    fn see(self) {}
}

impl Formed for CommissionTax {
    ghost is_formed = { IsCommissionTax };

    fn see(self) {}
}

fn all_formed<V: Copy + Drop + Formed>(values: &[V])
    ensures { AllByRecursion V.is_formed values.now }
{
    for at in 0..values.len() {
        values[at].see();
    }
}

/// How many periods of a plan are closed.
pub fn formed_closed(plan: &Plan)
    ensures { length plan.now.closed < 2 ^ 63 }
{
    plan.meets_rules();
    let periods = plan.periods();
    let _count = periods.len();
}

/// All entries of a plan, which it reads one by one.
pub fn formed_plan(plan: &Plan)
    ensures { IsFormedPublished plan.now }
{
    formed_closed(plan);
    formed_day(plan.day());
    if let Some(terms) = plan.terms() {
        formed_terms(terms);
    }
    all_formed(plan.airlines());
    all_formed(plan.rates());
    all_formed(plan.periods());
    all_formed(plan.commission_taxes());
}
