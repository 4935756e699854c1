//! Words for people, said one after the other.

use bsp_fields::NoRoom;
use std::alloc::Global;
use std::fmt::{Display, InlineText};

/// Words, as far as there was memory for them.
#[derive(Drop)]
pub(crate) struct Words {
    text: String,
    is_short: bool,
}

impl Words {
    /// No words.
    pub(crate) fn new(alloc: Global) -> Words {
        Words {
            text: String::new(alloc),
            is_short: false,
        }
    }

    /// Adds a text.
    pub(crate) fn add(&mut self, text: &str) {
        self.is_short |= self.text.push_str(text).is_err();
    }

    /// Adds texts in their order.
    pub(crate) fn add_all(&mut self, texts: &[&'static str]) {
        for text in texts {
            self.add(text);
        }
    }

    /// Adds a value as it is displayed, in at most 80 bytes.
    pub(crate) fn show<D: Display + Drop>(&mut self, value: D) {
        let shown: InlineText<80> = InlineText::of(value);
        self.add(shown.as_str());
    }

    /// The text.
    ///
    /// # Errors
    ///
    /// `NoRoom` where there was no memory for all of it.
    pub(crate) fn finished(self) -> Result<String, NoRoom> {
        if self.is_short {
            Err(NoRoom)
        } else {
            Ok(self.text)
        }
    }
}
