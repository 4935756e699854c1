//! The file of a book: made for its owner alone, and why it is not opened.

use crate::remarks::say;
use bsp_store::{OpenFault, damage_at};
use sqlite::{Error, ErrorCode, Wary};
use std::fs::{self, OpenOptions};
use std::io;
use std::os::unix::fs::{MetadataExt, OpenOptionsExt};

/// Whether SQLite takes the name for memory or for a URI, and not for a file.
fn names_no_file(file: &str) -> bool {
    file == ":memory:" || file.starts_with("file:")
}

/// Makes an empty file where there is none, with the mode 0600: a book has the tokens of all callers. Where it cannot be
/// made, the opening says why. Names that SQLite takes for no file are left to the opening.
pub(crate) fn make_private(rt: &HostRuntime, file: &str) {
    if names_no_file(file) {
        return;
    }
    let mut options = OpenOptions::new();
    options.write(true).create_new(true).mode(0o600);
    let _ = options.open(rt, file);
}

/// Whether SQLite's journal is beside the file.
fn has_journal(rt: &HostRuntime, file: &str) -> io::Result<bool> {
    let journal = format!(in rt.alloc(); "{file}-journal")?;
    fs::exists(rt, journal.as_str())
}

/// Why the system does not let the file be opened as a database, as far as it says; else nothing.
fn refusal(rt: &HostRuntime, file: &str) -> io::Result<&'static str> {
    if names_no_file(file) {
        return Ok(": it names no file");
    }
    let found = fs::metadata(rt, file)?;
    if found.is_dir() {
        return Ok(": it is a directory");
    }
    if found.nlink() > 1 {
        return Ok(": it has a second name");
    }
    if has_journal(rt, file)? {
        return Ok(": another program left a journal beside it");
    }
    let _ = OpenOptions::new().read(true).write(true).open(rt, file)?;
    Ok("")
}

/// Says on standard error what damages the book, as far as it is found: a table, an index or a view, or the key of a row.
fn say_damage(rt: &HostRuntime, file: &str, fault: &OpenFault) {
    match damage_at(rt, file, Wary) {
        Ok(damage) => {
            let _ = eprintln!(rt; "bsp_office: {file}: {fault}: {damage}");
        }
        Err(_) => say(rt, file, fault),
    }
}

/// Says on standard error why a file cannot be opened as a database.
fn say_refusal(rt: &HostRuntime, file: &str, fault: &OpenFault) {
    let _ = match refusal(rt, file) {
        Ok(cause) => eprintln!(rt; "bsp_office: {file}: {fault}{cause}"),
        Err(error) => eprintln!(rt; "bsp_office: {file}: {fault}: {error}"),
    };
}

/// Says on standard error why a file is not opened as a book. B02 and B04 are a line of their own in front.
pub(crate) fn say_unopened(rt: &HostRuntime, file: &str, fault: &OpenFault) {
    match fault {
        OpenFault::Damaged => {
            let _ = rt.eprintln("B02");
            say_damage(rt, file, fault);
        }
        OpenFault::OtherVersion => {
            let _ = eprintln!(rt; "B04\nbsp_office: {file}: {fault}");
        }
        OpenFault::Failed(Error::SqliteFailure(ErrorCode::CannotOpen)) => {
            say_refusal(rt, file, fault);
        }
        OpenFault::NoRoom | OpenFault::Failed(_) => say(rt, file, fault),
    }
}
