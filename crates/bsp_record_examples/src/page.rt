//! The cases of a page, and its records by their names.

use crate::fault::{Answered, Fault};
use std::alloc::{AllocError, Global};

/// A page.
#[derive(Clone, Copy)]
pub struct Page<'a> {
    /// What memory is taken from.
    pub alloc: Global,
    /// The text of the page.
    pub text: &'a str,
}

/// The name of a record and its fields, where a line has them behind two spaces.
fn record_in(line: &str) -> Option<(&str, &str)> {
    let Some(record) = line.strip_prefix("  ") else {
        return None;
    };
    record.split_once(" ")
}

/// Whether a line is a case: it is not empty, and no remark or record.
pub fn is_case(line: &str) -> bool {
    !line.is_empty() && !line.starts_with("#") && !line.starts_with(" ")
}

/// Appends a record: its fields, spaces up to 136 characters, and LF.
fn push_record(record: &str, text: &mut Vec<u8>) -> Result<(), AllocError> {
    let end = text.len().saturating_add(136);
    for field in record.split("|") {
        text.extend_from_slice(field.as_bytes())?;
    }
    let end = end.max(text.len());
    text.resize(end, b' ')?;
    text.extend_from_slice(b"\n")
}

impl Page<'_> {
    /// Appends the records of that name.
    pub fn push_named(&self, name: &str, text: &mut Vec<u8>) -> Answered {
        let before = text.len();
        for line in self.text.lines() {
            match record_in(line) {
                Some((own, record)) if own == name => push_record(record, text)?,
                _ => {}
            }
        }
        if text.len() == before {
            return Err(Fault::Case);
        }
        Ok(())
    }
}
