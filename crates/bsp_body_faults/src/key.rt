//! The keys of JSON bodies.

/// A key of a JSON body.
#[derive(Clone, Copy)]
pub enum Key {
    /// An agent's code.
    Agent,
    /// An airline's code.
    Airline,
    /// An amount in minor units.
    Amount,
    /// A business day.
    Day,
    /// A memo's number.
    Document,
    /// The first number of a range.
    First,
    /// The kind of a memo.
    Kind,
    /// The last number of a range.
    Last,
    /// A period's code.
    Period,
    /// A memo's reason.
    Reason,
    /// A caller's token.
    Token,
}

impl Key {
    /// The name of the key.
    pub fn name(self) -> &'static str {
        match self {
            Key::Agent => "agent",
            Key::Airline => "airline",
            Key::Amount => "amount",
            Key::Day => "day",
            Key::Document => "document",
            Key::First => "first",
            Key::Kind => "kind",
            Key::Last => "last",
            Key::Period => "period",
            Key::Reason => "reason",
            Key::Token => "token",
        }
    }

    /// A value in the form of the key, as JSON has it.
    pub fn example(self) -> &'static str {
        match self {
            Key::Agent => "\"12345675\"",
            Key::Airline => "\"125\"",
            Key::Amount => "5000",
            Key::Day => "\"2024-01-05\"",
            Key::Document => "\"6000000001\"",
            Key::First => "\"1300000000\"",
            Key::Kind => "\"ADMA\"",
            Key::Last => "\"1300000099\"",
            Key::Period => "\"24011\"",
            Key::Reason => "\"fare\"",
            Key::Token => "\"16to64lettersanddigits\"",
        }
    }

    /// The form of a value of the key, as people read it.
    pub(crate) fn form(self) -> &'static str {
        match self {
            Key::Agent => "eight digits",
            Key::Airline => "three digits",
            Key::Amount => "a whole number in minor units, as 5000 for 50.00",
            Key::Day => "a day of the calendar from 2000 to 2099, as \"2024-01-05\"",
            Key::Document | Key::First | Key::Last => "ten digits",
            Key::Kind => "\"ADMA\" (debit) or \"ACMA\" (credit)",
            Key::Period => "five digits",
            Key::Reason => "1 to 40 characters from space to ~",
            Key::Token => "16 to 64 letters A to Z, a to z and digits",
        }
    }

    /// What comes before the form of a value of the key.
    pub(crate) fn before_form(self) -> &'static str {
        match self {
            Key::Amount | Key::Day | Key::Kind => "",
            _ => "a text of ",
        }
    }

    /// How many characters a text of the key has, as people read it.
    pub(crate) fn width(self) -> &'static str {
        match self {
            Key::Reason => "1 to 40",
            Key::Token => "16 to 64",
            _ => self.form(),
        }
    }
}
