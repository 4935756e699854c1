//! What a plan text publishes, a line for each entry.

ghost use Rattle.std.specs.Prelude.{◌≡◌, ◌++◌, IfOk, OnOk, drop};
ghost use Rattle.std.specs.List.{flat_map};
ghost use Rattle.bsp_plan_trial.specs.PlanLines.{change_line, counts_of, lines_beyond, lines_of, terms_line, terms_lines};

use crate::lines::push_fields;
use bsp_calendar::{CommissionTax, Period, Plan, Rate, Terms};
use bsp_fields::{AirlineCode, Change};
use itoa::Buffer;
use std::alloc::{AllocError, Global};

/// How many entries of each kind a plan has.
#[derive(Clone, Copy)]
pub(crate) struct Counts {
    airlines: usize,
    rates: usize,
    periods: usize,
    commission_taxes: usize,
}

/// An entry of a plan, which has a line.
trait Lined {
    ghost use Rattle.std.specs.Prelude.{◌≡◌, ◌++◌, List, OnOk, ℕ};

    // Its line.
    ghost line: { Self → List ℕ };

    /// Appends its line.
    fn push_line(&self, text: &mut Vec<u8>) -> Result<(), AllocError>
        ensures { OnOk result (text.new.items ≡ text.old.items ++ line self.now) };
}

/// Whether the text changes the plan.
fn change_line(change: Change) -> &'static [u8]
    ensures { result.now ≡ change_line change }
{
    match change {
        Change::Done => b"done\n",
        Change::Held => b"held\n",
    }
}

#[tactic(auto, unfolding(crate::specs::PlanLines::terms_line))]
fn push_terms(text: &mut Vec<u8>, terms: &Terms) -> Result<(), AllocError>
    ensures { OnOk result (text.new.items ≡ text.old.items ++ terms_line terms.now) }
{
    let (mut days, mut limit) = (Buffer::new(), Buffer::new());
    let fields: [&[u8]; 7] = [
        b"currency ",
        &terms.currency.letters(),
        b" review_days ",
        days.format(terms.review_days).as_bytes(),
        b" documents_limit ",
        limit.format(terms.documents_limit).as_bytes(),
        b"\n",
    ];
    push_fields(text, &fields)
}

impl Lined for AirlineCode {
    ghost use Rattle.bsp_plan_trial.specs.PlanLines.{airline_line};

    ghost line = { airline_line };

    #[tactic(auto, unfolding(crate::specs::PlanLines::airline_line))]
    fn push_line(&self, text: &mut Vec<u8>) -> Result<(), AllocError> {
        let fields: [&[u8]; 3] = [b"airline ", &self.digits(), b"\n"];
        push_fields(text, &fields)
    }
}

impl Lined for Rate {
    ghost use Rattle.bsp_plan_trial.specs.PlanLines.{rate_line};

    ghost line = { rate_line };

    #[tactic(auto, unfolding(crate::specs::PlanLines::rate_line))]
    fn push_line(&self, text: &mut Vec<u8>) -> Result<(), AllocError> {
        let mut hundredths = Buffer::new();
        let fields: [&[u8]; 7] = [
            b"rate ",
            &self.airline.digits(),
            b" from ",
            &self.from.write_text(),
            b" hundredths ",
            hundredths.format(self.hundredths).as_bytes(),
            b"\n",
        ];
        push_fields(text, &fields)
    }
}

impl Lined for Period {
    ghost use Rattle.bsp_plan_trial.specs.PlanLines.{period_line};

    ghost line = { period_line };

    #[tactic(auto, unfolding(crate::specs::PlanLines::period_line))]
    fn push_line(&self, text: &mut Vec<u8>) -> Result<(), AllocError> {
        let fields: [&[u8]; 9] = [
            b"period ",
            &self.code.digits(),
            b" first ",
            &self.first.write_text(),
            b" last ",
            &self.last.write_text(),
            b" remit ",
            &self.remittance.write_text(),
            b"\n",
        ];
        push_fields(text, &fields)
    }
}

impl Lined for CommissionTax {
    ghost use Rattle.bsp_plan_trial.specs.PlanLines.{tax_line};

    ghost line = { tax_line };

    #[tactic(auto, unfolding(crate::specs::PlanLines::tax_line))]
    fn push_line(&self, text: &mut Vec<u8>) -> Result<(), AllocError> {
        let mut hundredths = Buffer::new();
        let fields: [&[u8]; 5] = [
            b"commission_tax from ",
            &self.from.write_text(),
            b" hundredths ",
            hundredths.format(self.hundredths).as_bytes(),
            b"\n",
        ];
        push_fields(text, &fields)
    }
}

/// The items of a list behind so many.
fn beyond<T>(items: &[T], known: usize) -> &[T]
    ensures { result.now ≡ drop known items.now }
{
    let from = known.min(items.len());
    &items[from..]
}

/// Appends the lines of the entries of a list behind so many.
fn push_beyond<E: Lined>(text: &mut Vec<u8>, entries: &[E], known: usize) -> Result<(), AllocError>
    ensures { OnOk result (text.new.items ≡ text.old.items ++ flat_map E.line (drop known entries.now)) }
{
    let behind = beyond(entries, known);
    for entry in behind {
        entry.push_line(text)?;
    }
    Ok(())
}

/// Appends the terms of a plan, where it has some.
fn push_known_terms(text: &mut Vec<u8>, plan: &Plan) -> Result<(), AllocError>
    ensures { OnOk result (text.new.items ≡ text.old.items ++ terms_lines plan.now.terms) }
{
    match plan.terms() {
        Some(terms) => push_terms(text, &terms),
        None => Ok(()),
    }
}

/// Appends the entries of a plan behind those known.
fn push_new(text: &mut Vec<u8>, known: Counts, plan: &Plan) -> Result<(), AllocError>
    ensures { OnOk result (text.new.items ≡ text.old.items ++ lines_beyond known plan.now) }
{
    push_beyond(text, plan.airlines(), known.airlines)?;
    push_beyond(text, plan.rates(), known.rates)?;
    push_beyond(text, plan.periods(), known.periods)?;
    push_beyond(text, plan.commission_taxes(), known.commission_taxes)
}

/// How many entries of each kind a plan has.
pub(crate) fn counts_of(plan: &Plan) -> Counts
    ensures { result ≡ counts_of plan.now }
{
    Counts {
        airlines: plan.airlines().len(),
        rates: plan.rates().len(),
        periods: plan.periods().len(),
        commission_taxes: plan.commission_taxes().len(),
    }
}

/// What was published since so many entries of a plan were known: whether it changed, its terms, and each new entry in
/// its order.
pub(crate) fn plan_lines(
    alloc: Global,
    change: Change,
    known: Counts,
    plan: &Plan,
) -> Result<Vec<u8>, AllocError>
    ensures { IfOk result (λ text. text.items ≡ lines_of change known plan.now) }
{
    let mut text = Vec::from_slice(alloc, change_line(change))?;
    push_known_terms(&mut text, plan)?;
    push_new(&mut text, known, plan)?;
    Ok(text)
}
