//! The texts that calls take.

use crate::fault::{Answered, Fault};
use crate::page::Page;
use crate::words::{first_word, number};
use std::alloc::{AllocError, Global};
use std::mem;

/// Appends characters with CR before each LF.
fn push_crlf(characters: &[u8], text: &mut Vec<u8>) -> Result<(), AllocError> {
    for character in characters {
        if *character == b'\n' {
            text.extend_from_slice(b"\r")?;
        }
        text.extend_from_slice(&[*character])?;
    }
    Ok(())
}

/// Puts CR before each LF.
fn end_by_crlf(alloc: Global, text: &mut Vec<u8>) -> Result<(), AllocError> {
    let before = mem::replace(text, Vec::new(alloc));
    push_crlf(&before, text)
}

/// Does to a text what is behind its names: `crlf`, or `cut` with a number of bytes.
fn change(alloc: Global, words: &str, text: &mut Vec<u8>) -> Answered {
    match first_word(words) {
        ("", _) => {}
        ("crlf", _) => end_by_crlf(alloc, text)?,
        ("cut", count) => text.truncate(number(count)?),
        _ => return Err(Fault::Case),
    }
    Ok(())
}

/// Appends the records of these names.
fn push_all(page: &Page<'_>, names: &str, text: &mut Vec<u8>) -> Answered {
    for name in names.split_whitespace() {
        page.push_named(name, text)?;
    }
    Ok(())
}

/// The text of the records of names; a comma and a space are before what is done to it.
pub fn text_of(page: &Page<'_>, words: &str) -> Result<Vec<u8>, Fault> {
    let (names, rest) = words.split_once(", ").unwrap_or((words, ""));
    let mut text = Vec::new(page.alloc);
    push_all(page, names, &mut text)?;
    change(page.alloc, rest, &mut text)?;
    Ok(text)
}
