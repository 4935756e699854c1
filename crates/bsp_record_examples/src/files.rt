//! The calls of RET files, and of an office.

use crate::fault::{Answered, Fault};
use crate::office;
use crate::output::Output;
use crate::page::Page;
use crate::reader::calls;
use crate::ret::{pieces, write};

/// Appends the answer to a case of RET files or of an office: its word is before the rest of it.
pub fn answer(page: &Page<'_>, word: &str, rest: &str, out: &mut Output) -> Answered {
    match word {
        "write" => write(page, rest, out),
        "pieces" => pieces(page, rest, out),
        "reader" => calls(page, rest, out),
        "run" => office::answer(page, rest, out),
        _ => Err(Fault::Case),
    }
}
