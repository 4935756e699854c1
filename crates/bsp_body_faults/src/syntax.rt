//! Where bytes are no JSON text, and what is there.

use std::fmt;

/// A place in a text. It is displayed as `line 1, column 8`.
#[derive(Clone, Copy)]
pub struct Place {
    /// The number of the line, counted from 1.
    pub line: usize,
    /// The number of the byte in the line, counted from 1.
    pub column: usize,
}

/// What is found where bytes are no JSON text. No letter and no digit is named: it may be of a token.
#[derive(Clone, Copy)]
pub enum Found {
    /// The text ends.
    End,
    /// A letter outside of quotes.
    Letter,
    /// A digit.
    Digit,
    /// A quote, with which a text begins.
    Quote,
    /// A character from 0x21 to 0x7E, none of the above.
    Mark(u8),
    /// A space or a control character.
    Control(u8),
    /// A character of two bytes or more.
    Wide,
}

impl Found {
    /// What a byte is.
    fn of(byte: u8) -> Found {
        match byte {
            b'"' => Found::Quote,
            b'0'..=b'9' => Found::Digit,
            b'A'..=b'Z' | b'a'..=b'z' => Found::Letter,
            b'!'..=b'~' => Found::Mark(byte),
            0..=b' ' | 0x7F => Found::Control(byte),
            _ => Found::Wide,
        }
    }

    /// What is displayed where no byte is named.
    fn text(&self) -> &'static str {
        match self {
            Found::End => "no character",
            Found::Letter => "a letter",
            Found::Digit => "a digit",
            Found::Quote =>
                "a text that is not allowed there, or a line break, a tab or a wrong \\ in it",
            _ => "a character that is not ASCII",
        }
    }
}

/// How many bytes of a text are before a place. At most all.
pub(crate) fn bytes_before(text: &str, place: Place) -> usize {
    let mut before = 0usize;
    for line in text.split('\n').take(place.line.saturating_sub(1)) {
        before = before.saturating_add(line.len()).saturating_add(1);
    }
    before
        .saturating_add(place.column.saturating_sub(1))
        .min(text.len())
}

/// What is found after so many bytes of a text, where it is no JSON.
pub(crate) fn found_after(text: &[u8], before: usize) -> Found {
    match text.get(before) {
        Some(byte) => Found::of(*byte),
        None => Found::End,
    }
}

impl fmt::Display for Place {
    fn fmt<W: fmt::Write>(&self, f: &mut fmt::Formatter<W>) -> fmt::Result {
        write!(f, "line {}, column {}", self.line, self.column)
    }
}

impl fmt::Display for Found {
    fn fmt<W: fmt::Write>(&self, f: &mut fmt::Formatter<W>) -> fmt::Result {
        match self {
            Found::Mark(mark) => f.write_char(*mark as char),
            Found::Control(byte) => write!(f, "the character {byte:#04x}"),
            _ => f.write_str(self.text()),
        }
    }
}
