//! The values of the entries of a plan text.

ghost use Rattle.std.specs.Prelude.{◌≡◌, IfOk, OnOk, pos};
ghost use Rattle.std.specs.Str.{IsUtf8};
ghost use Rattle.toml.specs.Data.{integer, string};
ghost use Rattle.toml.specs.View.{table_view, view};
ghost use Rattle.bsp_plan_trial.specs.Texts.{put};

use bsp_calendar::{CommissionTax, Period, Rate};
use bsp_fields::AirlineCode;
use std::alloc::{AllocError, Global};
use std::str;
use toml::{Table, Value};

/// A text as a value.
fn text_value(alloc: Global, text: &[u8]) -> Result<Value, AllocError>
    requires { IsUtf8 text.now }
    ensures { IfOk result (λ value. view value ≡ string text.now) }
{
    let Ok(text) = str::from_utf8(text) else {
        unreachable!()
    };
    Value::string(alloc, text)
}

/// Puts a value into a table.
pub(crate) fn put(
    alloc: Global,
    table: &mut Table,
    key: &str,
    value: Value,
) -> Result<(), AllocError>
    ensures { OnOk result (table_view table.new ≡ put key.now (view value) (table_view table.old)) }
{
    table.insert(String::from_str(alloc, key)?, value)?;
    Ok(())
}

/// Puts a text into a table.
pub(crate) fn put_text(
    alloc: Global,
    table: &mut Table,
    key: &str,
    text: &[u8],
) -> Result<(), AllocError>
    requires { IsUtf8 text.now }
    ensures { OnOk result (table_view table.new ≡ put key.now (string text.now) (table_view table.old)) }
{
    let value = text_value(alloc, text)?;
    put(alloc, table, key, value)
}

/// Puts a number into a table.
pub(crate) fn put_number(
    alloc: Global,
    table: &mut Table,
    key: &str,
    number: u32,
) -> Result<(), AllocError>
    ensures { OnOk result (table_view table.new ≡ put key.now (integer (pos number)) (table_view table.old)) }
{
    put(alloc, table, key, Value::Integer(i64::from(number)))
}

/// An entry of a list of a plan text.
pub(crate) trait Entry {
    ghost use Rattle.std.specs.Prelude.{◌≡◌, Bool, IfOk, Option, true};
    ghost use Rattle.toml.specs.Data.{Data};
    ghost use Rattle.toml.specs.View.{view};
    ghost use Rattle.bsp_plan_trial.specs.Texts.{IsValueOf};

    // what a value of a plan text is read as
    ghost form: { Data → Option Self };

    // its numbers are within their bounds
    ghost is_within: { Self → Bool };

    /// The entry as a value.
    fn value(&self, alloc: Global) -> Result<Value, AllocError>
        ensures { is_within self.now ≡ true → IfOk result (λ value. IsValueOf form 1 self.now (view value)) };
}

impl Entry for AirlineCode {
    ghost use Rattle.std.specs.Prelude.{true};
    ghost use Rattle.bsp_calendar.specs.PlanDocument.{airline_of};

    ghost form = { airline_of };

    ghost is_within = { λ airline. true };

    fn value(&self, alloc: Global) -> Result<Value, AllocError> {
        text_value(alloc, &self.digits())
    }
}

impl Entry for Rate {
    ghost use Rattle.std.specs.Prelude.{nat_le};
    ghost use Rattle.bsp_calendar.specs.PlanDocument.{rate_of};

    ghost form = { rate_of };

    ghost is_within = { λ rate. nat_le rate.hundredths 10_000 };

    fn value(&self, alloc: Global) -> Result<Value, AllocError> {
        let mut table = Table::new(alloc);
        put_text(alloc, &mut table, "airline", &self.airline.digits())?;
        put_text(alloc, &mut table, "from", &self.from.write_text())?;
        put_number(alloc, &mut table, "hundredths", self.hundredths as u32)?;
        Ok(Value::Table(table))
    }
}

impl Entry for Period {
    ghost use Rattle.std.specs.Prelude.{true};
    ghost use Rattle.bsp_calendar.specs.PlanDocument.{period_of};

    ghost form = { period_of };

    ghost is_within = { λ period. true };

    fn value(&self, alloc: Global) -> Result<Value, AllocError> {
        let mut table = Table::new(alloc);
        put_text(alloc, &mut table, "code", &self.code.digits())?;
        put_text(alloc, &mut table, "first", &self.first.write_text())?;
        put_text(alloc, &mut table, "last", &self.last.write_text())?;
        put_text(alloc, &mut table, "remit", &self.remittance.write_text())?;
        Ok(Value::Table(table))
    }
}

impl Entry for CommissionTax {
    ghost use Rattle.std.specs.Prelude.{nat_le};
    ghost use Rattle.bsp_calendar.specs.PlanDocument.{tax_of};

    ghost form = { tax_of };

    ghost is_within = { λ tax. nat_le tax.hundredths 10_000 };

    fn value(&self, alloc: Global) -> Result<Value, AllocError> {
        let mut table = Table::new(alloc);
        put_text(alloc, &mut table, "from", &self.from.write_text())?;
        put_number(alloc, &mut table, "hundredths", self.hundredths as u32)?;
        Ok(Value::Table(table))
    }
}
