//! Texts with values in them, said one after the other.

use bsp_fields::{AirlineCode, Day, PeriodCode, push_money};
use itoa::Buffer;
use std::alloc::{AllocError, Global};

/// A value in a text.
#[derive(Clone, Copy)]
pub enum Shown {
    /// Minor units, shown as money.
    Amount(i64),
    /// A number in decimal digits.
    Number(u64),
    /// A day, shown as 2024-01-05.
    Day(Day),
    /// An airline's code.
    Airline(AirlineCode),
    /// A period's code.
    Period(PeriodCode),
    /// The digits of an agent's code.
    Agent([u8; 8]),
    /// The digits of a document's number.
    Document([u8; 10]),
    /// The code of a tax.
    Tax([u8; 2]),
}

/// Words for people, as far as there was memory for them.
#[derive(Drop)]
pub struct Words {
    text: Vec<u8>,
    is_short: bool,
}

impl Words {
    /// No words.
    pub fn new(alloc: Global) -> Words {
        Words {
            text: Vec::new(alloc),
            is_short: false,
        }
    }

    /// Adds a text as it is.
    pub fn add(&mut self, text: &[u8]) {
        self.is_short |= self.text.extend_from_slice(text).is_err();
    }

    /// Adds a value as it is shown.
    fn add_value(&mut self, value: Shown) {
        match value {
            Shown::Amount(amount) => {
                self.is_short |= push_money(&mut self.text, amount).is_err();
            }
            Shown::Number(number) => {
                let mut digits = Buffer::new();
                self.add(digits.format(number).as_bytes());
            }
            Shown::Day(day) => self.add(&day.write_text()),
            Shown::Airline(airline) => self.add(&airline.digits()),
            Shown::Period(period) => self.add(&period.digits()),
            Shown::Agent(agent) => self.add(&agent),
            Shown::Document(number) => self.add(&number),
            Shown::Tax(code) => self.add(&code),
        }
    }

    /// Adds a text with these values in the places of its `{}`, in their order.
    pub fn say(&mut self, text: &str, values: &[Shown]) {
        let mut rest = text;
        for value in values {
            let Some((start, end)) = rest.split_once("{}") else {
                break;
            };
            self.add(start.as_bytes());
            self.add_value(*value);
            rest = end;
        }
        self.add(rest.as_bytes());
    }

    /// Adds a text with these texts in the places of its `{}`, in their order.
    pub fn quote(&mut self, text: &str, texts: &[&[u8]]) {
        let mut rest = text;
        for quoted in texts {
            let Some((start, end)) = rest.split_once("{}") else {
                break;
            };
            self.add(start.as_bytes());
            self.add(quoted);
            rest = end;
        }
        self.add(rest.as_bytes());
    }

    /// Adds all words of others.
    pub fn add_all(&mut self, others: &Words) {
        self.add(&others.text);
        self.is_short |= others.is_short;
    }

    /// Records that there was no memory for what would be added.
    pub fn run_short(&mut self) {
        self.is_short = true;
    }

    /// Whether nothing was said.
    pub fn is_empty(&self) -> bool {
        self.text.is_empty()
    }

    /// The text.
    ///
    /// # Errors
    ///
    /// There was no memory for all of it.
    pub fn finished(self) -> Result<Vec<u8>, AllocError> {
        if self.is_short {
            Err(AllocError)
        } else {
            Ok(self.text)
        }
    }
}
