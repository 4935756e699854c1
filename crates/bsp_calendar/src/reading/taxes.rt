//! Taxes on commission of a plan text.

ghost use Rattle.std.specs.Prelude.{◌≡◌};
ghost use Rattle.toml.specs.View.{table_view};
ghost use Rattle.bsp_calendar.specs.PlanDocument.{tax_in, tax_of};

use crate::entries::CommissionTax;
use crate::reading::tables::{at, has_only, number_at};
use crate::reading::values::{DayForm, Form};
use toml::{Table, Value};

const TAX_KEYS: [&str; 2] = ["from", "hundredths"];

/// The tax on commission that a table states.
fn tax_in(table: &Table) -> Option<CommissionTax>
    ensures { result ≡ tax_in (table_view table.now) }
{
    if !has_only(table, &TAX_KEYS) {
        return None;
    }
    let from = at::<DayForm>(table, "from")?;
    let hundredths = number_at(table, "hundredths", 0, 10_000)? as u16;
    Some(CommissionTax { from, hundredths })
}

/// A tax on commission.
pub struct TaxForm;

impl Form for TaxForm {
    type Read = CommissionTax;

    ghost form = { tax_of };

    fn read(value: &Value) -> Option<CommissionTax> {
        tax_in(value.as_table()?)
    }
}
