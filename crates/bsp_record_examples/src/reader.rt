//! The calls of a reader of a RET file that comes in pieces, one after another.

use crate::fault::{Answered, Fault};
use crate::output::{Output, say};
use crate::page::Page;
use crate::texts::text_of;
use crate::words::first_word;
use bsp_ret::{FaultCode, RetFault, RetFile, RetReader};

/// Feeds a piece; where memory was short, feeds it again.
fn feed(reader: &mut RetReader, piece: &[u8]) -> Result<(), RetFault> {
    match reader.feed(piece) {
        Err(fault) if fault.code == FaultCode::F10 => reader.feed(piece),
        fed => fed,
    }
}

/// Feeds a text byte by byte.
fn feed_bytes(reader: &mut RetReader, text: &[u8]) -> Result<(), RetFault> {
    for byte in text {
        feed(reader, &[*byte])?;
    }
    Ok(())
}

/// Appends what a call gave that gives no value.
fn show_done(done: Result<(), RetFault>, out: &mut Output) {
    match done {
        Ok(()) => out.push("done"),
        Err(fault) => out.say(fault),
    }
}

/// Appends the numbers of records and transactions of a file, and its sum in minor units.
fn show_file(file: Result<RetFile<'_>, RetFault>, out: &mut Output) {
    match file {
        Ok(file) => {
            let (records, transactions) = (file.record_count(), file.transactions());
            let sum = file.sum().get();
            say!(
                out,
                "records {records}, transactions {transactions}, sum {sum}"
            );
        }
        Err(fault) => out.say(fault),
    }
}

/// Makes the call of a word, and appends what it gave.
fn make(reader: &mut RetReader, word: &str, text: &[u8], out: &mut Output) -> Answered {
    match word {
        "feed" => show_done(feed(reader, text), out),
        "bytes" => show_done(feed_bytes(reader, text), out),
        "finish" => show_done(reader.finish(), out),
        "file" => show_file(reader.file(), out),
        _ => return Err(Fault::Case),
    }
    Ok(())
}

/// Makes the call that a text says: `feed V1`, `bytes V1`, `finish` or `file`.
fn take(page: &Page<'_>, step: &str, reader: &mut RetReader, out: &mut Output) -> Answered {
    let (word, names) = first_word(step);
    let text = text_of(page, names)?;
    make(reader, word, &text, out)
}

/// Makes the calls of a reader; `; ` is between them.
fn take_all(page: &Page<'_>, steps: &str, reader: &mut RetReader, out: &mut Output) -> Answered {
    for (at, step) in steps.split("; ").enumerate() {
        out.push(if at > 0 { "; " } else { "" });
        take(page, step, reader, out)?;
    }
    Ok(())
}

/// Makes the calls of a new reader.
pub fn calls(page: &Page<'_>, steps: &str, out: &mut Output) -> Answered {
    let mut reader = RetReader::new(page.alloc);
    take_all(page, steps, &mut reader, out)
}
