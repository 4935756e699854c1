//! Reads one entry of a plan text.

ghost use Rattle.std.specs.Prelude.{◌≡◌};
ghost use Rattle.toml.specs.View.{table_view};
ghost use Rattle.bsp_calendar.specs.PlanDocument.{period_in, period_of, rate_in, rate_of};

use crate::entries::{Period, Rate};
use crate::reading::tables::{at, has_only, number_at};
use crate::reading::values::{AirlineForm, DayForm, Form, PeriodCodeForm};
use toml::{Table, Value};

const RATE_KEYS: [&str; 3] = ["airline", "from", "hundredths"];

const PERIOD_KEYS: [&str; 4] = ["code", "first", "last", "remit"];

/// The rate of commission that a table states.
fn rate_in(table: &Table) -> Option<Rate>
    ensures { result ≡ rate_in (table_view table.now) }
{
    if !has_only(table, &RATE_KEYS) {
        return None;
    }
    let airline = at::<AirlineForm>(table, "airline")?;
    let from = at::<DayForm>(table, "from")?;
    let hundredths = number_at(table, "hundredths", 0, 10_000)? as u16;
    Some(Rate {
        airline,
        from,
        hundredths,
    })
}

/// The billing period that a table states.
fn period_in(table: &Table) -> Option<Period>
    ensures { result ≡ period_in (table_view table.now) }
{
    if !has_only(table, &PERIOD_KEYS) {
        return None;
    }
    let code = at::<PeriodCodeForm>(table, "code")?;
    let first = at::<DayForm>(table, "first")?;
    let last = at::<DayForm>(table, "last")?;
    let remittance = at::<DayForm>(table, "remit")?;
    Some(Period {
        code,
        first,
        last,
        remittance,
    })
}

/// A rate of commission.
pub struct RateForm;

impl Form for RateForm {
    type Read = Rate;

    ghost form = { rate_of };

    fn read(value: &Value) -> Option<Rate> {
        rate_in(value.as_table()?)
    }
}

/// A billing period.
pub struct PeriodForm;

impl Form for PeriodForm {
    type Read = Period;

    ghost form = { period_of };

    fn read(value: &Value) -> Option<Period> {
        period_in(value.as_table()?)
    }
}
