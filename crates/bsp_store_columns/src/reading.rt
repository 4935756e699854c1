//! One column of a row, read. A row that another program made may have any values.

ghost use Rattle.std.specs.Prelude.{◌≡◌, IfSome};
ghost use Rattle.sqlite_value.specs.Order.{column};
ghost use Rattle.bsp_store_columns.specs.Values.{agent_text, airline_text, number_text, period_text};
ghost use Rattle.bsp_store_columns.specs.Reading.{IsDayIn, agent_in, amount_in, below, code_in, int_in, is_null};

use bsp_rows::{AgentCode, AirlineCode, Amount, Day, DocNumber, PeriodCode};
use sqlite::Row;
use sqlite_value::value::ValueRef;

/// Whether a column is NULL or missing.
pub fn is_null(row: &Row, at: usize) -> bool
    ensures { result ≡ is_null (column row.now at) }
{
    match row.get_ref(at) {
        Ok(ValueRef::Null) | Err(_) => true,
        Ok(_) => false,
    }
}

/// The integer in a column.
pub fn int_at(row: &Row, at: usize) -> Option<i64>
    ensures { result ≡ int_in (column row.now at) }
{
    match row.get_ref(at) {
        Ok(ValueRef::Int(number)) => Some(number),
        _ => None,
    }
}

/// The integer in a column, where it is neither negative nor as great as `most`.
pub fn below_at(row: &Row, at: usize, most: u64) -> Option<u64>
    ensures { result ≡ below most (column row.now at) }
{
    let number = int_at(row, at)?;
    if number < 0 || number as u64 >= most {
        return None;
    }
    Some(number as u64)
}

/// The agent whose digits are in a column.
pub fn agent_at(row: &Row, at: usize) -> Option<AgentCode>
    ensures value { result ≡ agent_in (column row.now at) }
    ensures spelled { IfSome result (λ n. column row.now at ≡ agent_text n) }
{
    match row.get_ref(at) {
        Ok(ValueRef::Text(text)) => AgentCode::read(text).ok(),
        _ => None,
    }
}

/// The airline whose digits are in a column.
pub fn airline_at(row: &Row, at: usize) -> Option<AirlineCode>
    ensures value { result ≡ code_in 3 (column row.now at) }
    ensures spelled { IfSome result (λ n. column row.now at ≡ airline_text n) }
{
    match row.get_ref(at) {
        Ok(ValueRef::Text(text)) => AirlineCode::read(text).ok(),
        _ => None,
    }
}

/// The period whose digits are in a column.
pub fn period_at(row: &Row, at: usize) -> Option<PeriodCode>
    ensures value { result ≡ code_in 5 (column row.now at) }
    ensures spelled { IfSome result (λ n. column row.now at ≡ period_text n) }
{
    match row.get_ref(at) {
        Ok(ValueRef::Text(text)) => PeriodCode::read(text).ok(),
        _ => None,
    }
}

/// The document number whose digits are in a column.
pub fn number_at(row: &Row, at: usize) -> Option<DocNumber>
    ensures value { result ≡ code_in 10 (column row.now at) }
    ensures spelled { IfSome result (λ n. column row.now at ≡ number_text n) }
{
    match row.get_ref(at) {
        Ok(ValueRef::Text(text)) => DocNumber::read_unchecked(text).ok(),
        _ => None,
    }
}

/// The day whose number is in a column.
pub fn day_at(row: &Row, at: usize) -> Option<Day>
    ensures { IsDayIn (column row.now at) result }
{
    match row.get_ref(at) {
        Ok(ValueRef::Int(number)) => Day::of_number(number).ok(),
        _ => None,
    }
}

/// The amount in a column, in minor units.
pub fn amount_at(row: &Row, at: usize) -> Option<Amount>
    ensures { result ≡ amount_in (column row.now at) }
{
    match row.get_ref(at) {
        Ok(ValueRef::Int(units)) => Amount::new(units).ok(),
        _ => None,
    }
}
