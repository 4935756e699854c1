//! Words for people, said one after the other.

use std::fmt::{Display, InlineText, Write};

/// What is said of a fault. It has at most 1,000 bytes: no fault has more to say.
#[derive(Clone, Copy)]
pub struct Words {
    text: InlineText<1000>,
}

impl Words {
    /// No words.
    pub fn new() -> Words {
        Words {
            text: InlineText::new(),
        }
    }

    /// Adds a text.
    pub fn add(&mut self, text: &str) {
        let _written = self.text.write_str(text);
    }

    /// Adds texts in their order.
    pub fn add_all(&mut self, texts: &[&'static str]) {
        for text in texts {
            self.add(text);
        }
    }

    /// Adds a value as it is displayed.
    pub fn show<D: Display + Drop>(&mut self, value: D) {
        let shown: InlineText<40> = InlineText::of(value);
        self.add(shown.as_str());
    }

    /// Adds a number with zeros in front, so that it has this many digits at least.
    pub fn show_padded<D: Display + Drop>(&mut self, number: D, width: usize) {
        let digits: InlineText<40> = InlineText::of(number);
        let digits = digits.as_str();
        for _ in digits.len()..width {
            self.add("0");
        }
        self.add(digits);
    }

    /// Adds a byte as `0x20` has it.
    pub fn show_byte(&mut self, byte: u8) {
        let _written = write!(self.text, "{byte:#04x}");
    }

    /// The words.
    pub fn text(&self) -> &str {
        self.text.as_str()
    }
}
