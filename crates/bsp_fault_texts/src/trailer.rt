//! What people read of a trailer that differs, or is missing.

use crate::money::Money;
use crate::order::ending_text;
use crate::words::Words;
use crate::zoned::ZonedTotal;
use bsp_ret::Standing;

/// Says that the number of these is not what a trailer states.
pub fn say_count(words: &mut Words, what: &'static str, stated: u64, counted: usize) {
    words.add_all(&["the number of ", what, " is "]);
    words.show(counted);
    words.add(" and not ");
    words.show(stated);
    words.add(": write `");
    words.show_padded(counted, 7);
    words.add("`");
}

/// Says that the sum is not what a trailer states.
pub fn say_sum(words: &mut Words, stated: Money, summed: Money) {
    let total = ZonedTotal {
        units: summed.units,
    };
    words.add("the sum of all records 8, EX included and refunds below zero, is ");
    summed.say(words);
    words.add(" and not ");
    stated.say(words);
    words.add(": write `");
    total.say(words);
    words.add("`");
}

/// Says what a file lacks that ends after the records of this state: a record of its last transaction, or else
/// the trailer, which states this number of records, and the transactions and the sum.
pub fn say_end(words: &mut Words, records: usize, at: &Standing) {
    if let Some(text) = ending_text(at) {
        words.add_all(&["the file ends here: ", text]);
        return;
    }
    words.add("the file ends without a trailer: write `Z");
    words.show_padded(records, 7);
    words.show_padded(at.transactions, 7);
    ZonedTotal { units: at.sum }.say(words);
    words.add("`, and 106 spaces up to 136 characters");
}
