//! What is wrong with a record.

ghost use Rattle.std.specs.Prelude.{◌≡◌};
ghost use Rattle.bsp_explain.specs.Reasons.{columns_of};

use crate::field::Field;
use bsp_fault_texts::{
    Cause, Money, Words, say_count, say_end, say_payment, say_place, say_sum, say_width,
};
use bsp_ret::Standing;
use bsp_ret_records::FormOfPayment;

/// What is wrong with a record. It is said without its columns.
#[derive(Clone, Copy)]
pub enum Reason {
    Width {
        /// How many it has.
        width: usize,
        /// Why, where it is known.
        cause: Cause,
    },
    /// A character is outside 0x20 to 0x7E.
    Character {
        /// Its column, counted from 1.
        column: u8,
        /// The character.
        character: u8,
        /// Why, where it is known.
        cause: Cause,
    },
    /// A field is not in its form.
    Unfit(Field),
    /// No record after a header has this identifier.
    Identifier(char),
    /// The transaction number is not this one, which comes next.
    TransactionNumber(usize),
    /// The record may not follow those before it.
    Place {
        /// Its identifier.
        identifier: char,
        /// The state of the records before it.
        at: Standing,
    },
    /// The second of two records 3 does not come after the first, by its airline and its document.
    RelatedOrder,
    /// The record 8, or its form of payment, may not follow those before it.
    Payment {
        /// Its form of payment.
        form: Option<FormOfPayment>,
        /// The state of the records before it.
        at: Standing,
    },
    /// A trailer states another number of records, header and trailer included.
    RecordCount {
        /// What the trailer states.
        stated: u64,
        /// How many there are.
        counted: usize,
    },
    /// A trailer states another number of transactions.
    TransactionCount {
        /// What the trailer states.
        stated: u64,
        /// How many there are.
        counted: usize,
    },
    /// A trailer states another sum of all forms of payment.
    Sum {
        /// What the trailer states.
        stated: Money,
        /// What the amounts add up to.
        summed: Money,
    },
    NoTrailer {
        /// How many records there are with the trailer.
        records: usize,
        /// The state of the records before it, whose transactions and sum it has to state.
        at: Standing,
    },
    AfterTrailer {
        /// How many characters it has.
        width: usize,
    },
    NotFound,
}

impl Reason {
    /// The first and the last column at fault, counted from 1, where it is not the whole record.
    pub fn columns(self) -> Option<(u8, u8)>
        ensures { result ≡ columns_of self }
    {
        match self {
            Reason::Character { column, .. } => Some((column, column)),
            Reason::Unfit(field) => Some((field.first, field.last)),
            Reason::Identifier(_) | Reason::Place { .. } => Some((1, 1)),
            Reason::TransactionNumber(_) => Some((2, 7)),
            Reason::RelatedOrder => Some((8, 20)),
            Reason::Payment { .. } => Some((1, 9)),
            Reason::RecordCount { .. } => Some((2, 8)),
            Reason::TransactionCount { .. } => Some((9, 15)),
            Reason::Sum { .. } => Some((16, 30)),
            _ => None,
        }
    }

    /// What is said of a reason that shows no value.
    fn text(self) -> &'static str {
        match self {
            Reason::RelatedOrder => "the related document does not come after the one before it",
            Reason::AfterTrailer { .. } =>
                "a line follows the trailer: remove it; if it begins with `1`, a second file begins here: send that as a file of its own",
            // (`NotFound`: `say` says all others)
            _ => "the record has no such fault",
        }
    }

    /// Says what is wrong, where a count or the sum of a trailer is, or its place.
    fn say_of_trailer(self, words: &mut Words) {
        match self {
            Reason::NoTrailer { records, at } => say_end(words, records, &at),
            Reason::AfterTrailer { width: 0 } => {
                words.add("an empty line follows the trailer: remove it");
            }
            Reason::RecordCount { stated, counted } => {
                let what = "records, header and trailer included,";
                say_count(words, what, stated, counted);
            }
            Reason::TransactionCount { stated, counted } => {
                say_count(words, "transactions", stated, counted);
            }
            Reason::Sum { stated, summed } => say_sum(words, stated, summed),
            _ => words.add(self.text()),
        }
    }

    /// Says what is wrong.
    pub fn say(self, words: &mut Words) {
        match self {
            Reason::Width { width, cause } => say_width(words, width, cause),
            Reason::Character {
                character,
                cause,
                ..
            } => {
                words.add("the character ");
                words.show_byte(character);
                words.add_all(&[" is outside 0x20 to 0x7e", cause.text()]);
            }
            Reason::Unfit(field) => field.say(words),
            Reason::Identifier(first) => say_identifier(words, first),
            Reason::TransactionNumber(next) => {
                words.add("the transaction number is not ");
                words.show_padded(next, 6);
            }
            Reason::Place { identifier, at } => say_place(words, identifier, &at),
            Reason::Payment { form, at } => say_payment(words, form, &at),
            _ => self.say_of_trailer(words),
        }
    }
}

/// Says that no record has this identifier after the header.
fn say_identifier(words: &mut Words, first: char) {
    if first == '1' {
        words.add("a second header: a file has one header and one trailer");
        return;
    }
    words.add("no record after the header begins with `");
    words.show(first);
    words.add("`: they begin with `2`, `3`, `5`, `8` or `Z`");
}
