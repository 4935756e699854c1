//! The page with its answers.

use crate::fault::{Answered, Fault};
use crate::fields;
use crate::output::Output;
use crate::page::{Page, is_case};

/// Writes a line, with its answer where it is a case.
fn write_line(page: &Page<'_>, line: &str, out: &mut Output) -> Answered {
    out.push(line);
    if is_case(line) {
        out.push(" = ");
        fields::answer(page, line, out)?;
    }
    out.push("\n");
    Ok(())
}

/// Writes the page with its answers, up to the first line that is no case, or for which memory was short.
pub fn answer_page(page: &Page<'_>, out: &mut Output) -> Answered {
    for line in page.text.lines() {
        write_line(page, line, out)?;
        if out.is_short {
            return Err(Fault::Memory);
        }
    }
    Ok(())
}
