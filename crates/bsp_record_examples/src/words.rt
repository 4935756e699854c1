//! Words and numbers of a case.

use crate::fault::Fault;
use std::num::ParseIntError;
use std::str::FromStr;

/// The first word of a text, and what follows it.
pub fn first_word(text: &str) -> (&str, &str) {
    match text.split_once(" ") {
        Some((word, rest)) => (word, rest),
        None => (text, ""),
    }
}

/// The number that a word is.
pub fn number<N: FromStr<Err = ParseIntError>>(word: &str) -> Result<N, Fault> {
    word.parse::<N>().map_err(|_| Fault::Case)
}
