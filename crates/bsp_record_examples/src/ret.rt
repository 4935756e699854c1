//! RET files that are read and written.

use crate::fault::{Answered, Fault};
use crate::output::{Output, say};
use crate::page::Page;
use crate::texts::text_of;
use bsp_ret::{RetFault, RetFile, RetReader, read_ret};
use bsp_ret_writer::write_ret;
use std::alloc::Global;

/// The text that is written of the file that a call gave.
fn written(alloc: Global, file: Result<RetFile<'_>, RetFault>) -> Result<Vec<u8>, Fault> {
    match file {
        Ok(file) => write_ret(alloc, &file).map_err(|_| Fault::Memory),
        Err(fault) => Err(Fault::from(fault)),
    }
}

/// Feeds two pieces, and ends the text.
fn feed_both(reader: &mut RetReader, front: &[u8], back: &[u8]) -> Result<(), RetFault> {
    reader.feed(front)?;
    reader.feed(back)?;
    reader.finish()
}

/// The text that is written of the RET file that a reader gives of two pieces.
fn written_of_pieces(alloc: Global, front: &[u8], back: &[u8]) -> Result<Vec<u8>, Fault> {
    let mut reader = RetReader::new(alloc);
    match feed_both(&mut reader, front, back) {
        Ok(()) => written(alloc, reader.file()),
        Err(fault) => Err(Fault::from(fault)),
    }
}

/// Of how many places of a text the file of the two pieces is written as `whole`.
fn count_same(alloc: Global, text: &[u8], whole: &[u8]) -> Result<usize, Fault> {
    let mut same = 0_usize;
    for place in 0..=text.len() {
        let (front, back) = text.split_at(place.min(text.len()));
        if written_of_pieces(alloc, front, back)?.as_slice() == whole {
            same = same.saturating_add(1);
        }
    }
    Ok(same)
}

/// Cuts a RET file into two pieces at each of its places, and appends of how many the file of the reader is that of
/// the whole text.
fn show_pieces(alloc: Global, text: &[u8], out: &mut Output) -> Answered {
    let whole = written(alloc, read_ret(alloc, text))?;
    let same = count_same(alloc, text, &whole)?;
    let count = text.len().saturating_add(1);
    say!(out, "{count} texts, {same} of the same file");
    Ok(())
}

/// Cuts the text of names.
pub fn pieces(page: &Page<'_>, names: &str, out: &mut Output) -> Answered {
    let text = text_of(page, names)?;
    show_pieces(page.alloc, &text, out)
}

/// Reads a text and writes it, and appends whether this is the text that it has to be.
fn show_written(alloc: Global, text: &[u8], expected: &[u8], out: &mut Output) -> Answered {
    let written = written(alloc, read_ret(alloc, text))?;
    let what = if written.as_slice() == expected {
        "the same"
    } else {
        "another text"
    };
    say!(out, "{what}, {} bytes", written.len());
    Ok(())
}

/// Reads a text and writes it; `; ` is before the text that this has to be.
pub fn write(page: &Page<'_>, texts: &str, out: &mut Output) -> Answered {
    let Some((own, expected)) = texts.split_once("; ") else {
        return Err(Fault::Case);
    };
    let own = text_of(page, own)?;
    let expected = text_of(page, expected)?;
    show_written(page.alloc, &own, &expected, out)
}
