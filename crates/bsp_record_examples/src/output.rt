//! What is printed.

use crate::fault::Answered;
use bsp_fields::FieldFault;
use std::alloc::{AllocError, Global};
use std::fmt::Display;
use std::str;

/// The bytes that take no further memory.
const ROOM: usize = 65_536;

/// What is printed.
#[derive(Drop)]
pub struct Output {
    /// The text.
    pub text: String,
    /// Whether memory was short for some of it.
    pub is_short: bool,
}

impl Output {
    /// Nothing so far.
    pub fn new(alloc: Global) -> Result<Output, AllocError> {
        let text = String::with_capacity(alloc, ROOM)?;
        Ok(Output {
            text,
            is_short: false,
        })
    }

    /// Appends a text.
    pub fn push(&mut self, text: &str) {
        let pushed = self.text.push_str(text);
        self.is_short |= pushed.is_err();
    }

    /// Appends characters.
    pub fn characters(&mut self, characters: &[u8]) {
        self.push(str::from_utf8(characters).unwrap_or("no text"));
    }

    /// Appends what a value displays.
    pub fn say<D: Display + Drop>(&mut self, value: D) {
        let said = write!(self.text, "{value}");
        self.is_short |= said.is_err();
    }

    /// Appends the value that a call gave, or the name of its fault.
    pub fn found<D: Display + Drop>(&mut self, found: Result<D, FieldFault>) -> Answered {
        match found {
            Ok(value) => self.say(value),
            Err(fault) => self.fault(fault),
        }
        Ok(())
    }

    /// Appends the name of a fault, and how it is displayed.
    pub fn fault(&mut self, fault: FieldFault) {
        self.say(format_args!("{fault:?}, {fault}"));
    }
}

/// Appends a format.
macro_rules! say {
    ($out:expr, $($format:tt)*) => {
        $out.say(format_args!($($format)*))
    };
}

pub(crate) use say;
