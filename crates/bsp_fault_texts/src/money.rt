//! Money as people read it.

use crate::words::Words;

/// A sum in minor units, hundredths of the currency. It is said as units, a point and two
/// digits, with a minus in front below zero.
#[derive(Clone, Copy)]
pub struct Money {
    /// The minor units.
    pub units: i128,
}

impl Money {
    /// Says the sum.
    pub fn say(self, words: &mut Words) {
        let size = self.units.unsigned_abs();
        words.add(if self.units < 0 { "-" } else { "" });
        words.show(size / 100);
        words.add(".");
        words.show_padded(size % 100, 2);
    }
}
