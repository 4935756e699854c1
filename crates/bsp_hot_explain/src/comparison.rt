//! What a record says beside what the records before it give.

ghost use Rattle.std.specs.Prelude.{◌≡◌};
ghost use Rattle.bsp_hot_explain.specs.Comparisons.{same_value, is_same, first_differing};

use bsp_explain::{Money, Name, Words};
use bsp_fields::{AirlineCode, PeriodCode};
use bsp_hot_records::{AgentDigits, DocumentCode};

/// A value of a record of a HOT file.
#[derive(Clone, Copy)]
pub enum Value {
    /// An airline.
    Airline(AirlineCode),
    /// A period.
    Period(PeriodCode),
    /// An agent.
    Agent(AgentDigits),
    /// A currency, three letters (ISO 4217).
    Currency([u8; 3]),
    /// The number of a transaction.
    Transaction(usize),
    /// The code of documents.
    Code(DocumentCode),
    /// How many documents, offices or records there are.
    Count(usize),
    /// An amount in minor units.
    Amount(i128),
}

/// What a record says in its columns from `first` to `last`, and what the records before it give for
/// them.
#[derive(Clone, Copy)]
pub struct Comparison {
    /// The first column, counted from 1.
    pub first: u8,
    /// The last column.
    pub last: u8,
    /// What the columns have.
    pub name: Name,
    /// What the record says.
    pub stated: Value,
    /// What the records before it give.
    pub given: Value,
    /// The code of the items that they come from, where it is one code alone: of a total of BOT93.
    pub items: Option<DocumentCode>,
}

/// Whether a value is an airline, and this one.
fn is_airline(value: Value, airline: AirlineCode) -> bool
    ensures { result ≡ same_value (Value.Airline airline) value }
{
    match value {
        Value::Airline(other) => airline == other,
        _ => false,
    }
}

/// Whether a value is a period, and this one.
fn is_period(value: Value, period: PeriodCode) -> bool
    ensures { result ≡ same_value (Value.Period period) value }
{
    match value {
        Value::Period(other) => period == other,
        _ => false,
    }
}

/// Whether a value is an agent, and this one.
fn is_agent(value: Value, agent: AgentDigits) -> bool
    ensures { result ≡ same_value (Value.Agent agent) value }
{
    match value {
        Value::Agent(other) => agent == other,
        _ => false,
    }
}

/// Whether a value is a currency, and this one.
fn is_currency(value: Value, currency: [u8; 3]) -> bool
    ensures { result ≡ same_value (Value.Currency currency) value }
{
    match value {
        Value::Currency(other) => currency.as_slice() == other.as_slice(),
        _ => false,
    }
}

/// Whether a value is a code, and this one.
fn is_code(value: Value, code: DocumentCode) -> bool
    ensures { result ≡ same_value (Value.Code code) value }
{
    match value {
        Value::Code(other) => other.rank() == code.rank(),
        _ => false,
    }
}

/// Whether a value is the number of a transaction, and this one.
fn is_transaction(value: Value, transaction: usize) -> bool
    ensures { result ≡ same_value (Value.Transaction transaction) value }
{
    match value {
        Value::Transaction(other) => transaction == other,
        _ => false,
    }
}

/// Whether a value is a count, and this one.
fn is_count(value: Value, count: usize) -> bool
    ensures { result ≡ same_value (Value.Count count) value }
{
    match value {
        Value::Count(other) => count == other,
        _ => false,
    }
}

/// Whether a value is an amount, and this one.
fn is_amount(value: Value, amount: i128) -> bool
    ensures { result ≡ same_value (Value.Amount amount) value }
{
    match value {
        Value::Amount(other) => amount == other,
        _ => false,
    }
}

/// Whether two values are the same.
fn same_value(stated: Value, given: Value) -> bool
    ensures { result ≡ same_value stated given }
{
    match stated {
        Value::Airline(airline) => is_airline(given, airline),
        Value::Period(period) => is_period(given, period),
        Value::Agent(agent) => is_agent(given, agent),
        Value::Currency(currency) => is_currency(given, currency),
        Value::Transaction(transaction) => is_transaction(given, transaction),
        Value::Code(code) => is_code(given, code),
        Value::Count(count) => is_count(given, count),
        Value::Amount(amount) => is_amount(given, amount),
    }
}

impl Comparison {
    /// Whether the two values are the same.
    fn is_same(self) -> bool
        ensures { result ≡ is_same self }
    {
        same_value(self.stated, self.given)
    }
}

/// The first of these comparisons whose two values differ.
pub(crate) fn first_differing(comparisons: &[Comparison]) -> Option<Comparison>
    ensures { result ≡ first_differing comparisons.now }
{
    for comparison in comparisons {
        if !comparison.is_same() {
            return Some(*comparison);
        }
    }
    None
}

/// Says characters of one byte each.
pub(crate) fn say_bytes(words: &mut Words, bytes: &[u8]) {
    for byte in bytes {
        words.show(*byte as char);
    }
}

/// Says the three letters of a currency.
fn say_currency(words: &mut Words, currency: [u8; 3]) {
    say_bytes(words, &currency);
}

impl Value {
    /// Says the value as the record has it, and money as people read it.
    pub(crate) fn say(&self, words: &mut Words) {
        match *self {
            Value::Airline(airline) => words.show(airline),
            Value::Period(period) => words.show(period),
            Value::Agent(agent) => words.show_padded(agent.number(), 8),
            Value::Currency(currency) => say_currency(words, currency),
            Value::Transaction(number) => words.show_padded(number, 8),
            Value::Code(code) => say_bytes(words, &code.text()),
            Value::Count(count) => words.show(count),
            Value::Amount(units) => Money { units }.say(words),
        }
    }
}
