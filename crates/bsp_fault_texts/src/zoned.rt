//! Totals as a record has them.

use crate::words::Words;

/// The last characters of sums from zero on, by their last digit.
const POSITIVE: [char; 10] = ['{', 'A', 'B', 'C', 'D', 'E', 'F', 'G', 'H', 'I'];

/// The last characters of sums below zero.
const NEGATIVE: [char; 10] = ['}', 'J', 'K', 'L', 'M', 'N', 'O', 'P', 'Q', 'R'];

/// A sum in minor units. It is said as a total, a signed zoned decimal of 15 characters.
#[derive(Clone, Copy)]
pub struct ZonedTotal {
    /// The minor units.
    pub units: i128,
}

impl ZonedTotal {
    /// Says the total.
    pub fn say(self, words: &mut Words) {
        let units = self.units;
        let signs = if units < 0 { &NEGATIVE } else { &POSITIVE };
        let size = units.unsigned_abs();
        let sign = signs[(size % 10) as usize];
        words.show_padded(size / 10, 14);
        words.show(sign);
    }
}
