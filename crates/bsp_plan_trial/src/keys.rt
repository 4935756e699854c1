//! The keys of a plan text, and the forms of their values.

use bsp_calendar::Currency;
use bsp_fields::{AirlineCode, Day, PeriodCode};
use toml::Value;

/// The form of a value.
#[derive(Clone, Copy)]
pub(crate) enum Form {
    Currency,
    Airline,
    Period,
    Day,
    /// A whole number from the first to the second.
    Number(i64, i64),
    /// A list, which may be absent, and is judged by itself.
    List,
}

/// A key that has to be there, and the form of its value.
#[derive(Clone, Copy)]
pub(crate) struct Key {
    pub(crate) name: &'static str,
    pub(crate) form: Form,
}

/// A whole number of hundredths of a percent.
const HUNDREDTHS: Form = Form::Number(0, 10_000);

/// The keys of the text itself.
pub(crate) const TEXT: [Key; 7] = [
    Key {
        name: "currency",
        form: Form::Currency,
    },
    Key {
        name: "review_days",
        form: Form::Number(1, 60),
    },
    Key {
        name: "documents_limit",
        form: Form::Number(1, 1_000_000),
    },
    Key {
        name: "airline",
        form: Form::List,
    },
    Key {
        name: "rate",
        form: Form::List,
    },
    Key {
        name: "period",
        form: Form::List,
    },
    Key {
        name: "commission_tax",
        form: Form::List,
    },
];

pub(crate) const RATE: [Key; 3] = [
    Key {
        name: "airline",
        form: Form::Airline,
    },
    Key {
        name: "from",
        form: Form::Day,
    },
    Key {
        name: "hundredths",
        form: HUNDREDTHS,
    },
];

pub(crate) const PERIOD: [Key; 4] = [
    Key {
        name: "code",
        form: Form::Period,
    },
    Key {
        name: "first",
        form: Form::Day,
    },
    Key {
        name: "last",
        form: Form::Day,
    },
    Key {
        name: "remit",
        form: Form::Day,
    },
];

pub(crate) const TAX: [Key; 2] = [
    Key {
        name: "from",
        form: Form::Day,
    },
    Key {
        name: "hundredths",
        form: HUNDREDTHS,
    },
];

impl Form {
    /// Whether a text is in the form.
    pub(crate) fn fits_text(self, text: &[u8]) -> bool {
        match self {
            Form::Currency => Currency::read(text).is_some(),
            Form::Airline => AirlineCode::read(text).is_ok(),
            Form::Period => PeriodCode::read(text).is_ok(),
            Form::Day => Day::read_text(text).is_ok(),
            Form::Number(_, _) | Form::List => false,
        }
    }

    /// Whether a value is in the form.
    pub(crate) fn fits(self, value: &Value) -> bool {
        match (self, value) {
            (Form::List, _) => true,
            (Form::Number(low, high), Value::Integer(number)) => low <= *number && *number <= high,
            (form, Value::String(text)) => form.fits_text(text.as_bytes()),
            _ => false,
        }
    }

    /// What a value in the form is.
    pub(crate) fn wanted(self) -> &'static str {
        match self {
            Form::Currency => "three capital letters in quotes, as \"EUR\"",
            Form::Airline => "three digits in quotes, as \"125\"",
            Form::Period => "five digits in quotes, as \"24011\"",
            Form::Day => "a day in quotes, as \"2024-01-05\"",
            Form::Number(1, 60) => "a whole number from 1 to 60",
            Form::Number(1, _) => "a whole number from 1 to 1,000,000",
            Form::Number(_, _) => "a whole number from 0 to 10,000",
            Form::List => "a list",
        }
    }
}

/// Whether a text has digits alone.
pub(crate) fn are_digits(text: &[u8]) -> bool {
    text.iter().all(|byte| byte.is_ascii_digit())
}

/// Whether a key is one of these.
pub(crate) fn is_among(keys: &[Key], name: &str) -> bool {
    for key in keys {
        if key.name == name {
            return true;
        }
    }
    false
}

/// The keys that a table of a list has, or the text itself.
pub(crate) fn keys_of(list: &str) -> &'static str {
    match list {
        "rate" => { "a rate has airline, from and hundredths, and holds until the next one begins" }
        "period" => "a period has code, first, last and remit",
        "commission_tax" => {
            "a commission_tax has from and hundredths, and holds until the next one begins"
        }
        _ => {
            "the keys are currency, review_days, documents_limit, airline, rate, period and commission_tax"
        }
    }
}
