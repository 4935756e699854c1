//! The command `audit`: what the book in a file has, or what is wrong with it. Nothing in the file is changed.

use crate::book_file::say_unopened;
use crate::remarks::say_unwritten;
use bsp_check::{DONE, FAILED, REFUSED};
use bsp_store::{AuditFault, audit_at};
use sqlite::Wary;
use std::{fs, io};

/// Whether the file is there, and is empty.
fn is_empty(rt: &HostRuntime, file: &str) -> bool {
    match fs::metadata(rt, file) {
        Ok(found) => found.is_file() && found.len() == 0,
        Err(_) => false,
    }
}

/// The exit status behind a report, which was printed or not. Where it was not, standard error has a line.
fn printed(rt: &HostRuntime, written: io::Result<()>, status: u8) -> u8 {
    match written {
        Ok(()) => status,
        Err(_) => {
            say_unwritten(rt);
            FAILED
        }
    }
}

/// Reports a file that is there and is empty, and answers the exit status. An opening would make it a database, so it is not
/// opened.
pub(crate) fn report_empty(rt: &HostRuntime, file: &str) -> Option<u8> {
    if !is_empty(rt, file) {
        return None;
    }
    Some(printed(rt, println!(rt; "B02\nthe file is empty"), REFUSED))
}

/// Reports why an audit passes no book, and answers the exit status.
pub(crate) fn report_unsound(rt: &HostRuntime, file: &str, fault: &AuditFault) -> u8 {
    let written = match fault {
        AuditFault::Damaged(Some(damage)) => println!(rt; "B02\n{damage}"),
        AuditFault::Damaged(None) => println!(rt; "B02\nno book, or a damaged one"),
        AuditFault::OtherVersion(Some(version)) => println!(rt; "B04 version {version}"),
        AuditFault::OtherVersion(None) => println!(rt; "B04"),
        AuditFault::Failed(fault) => {
            say_unopened(rt, file, fault);
            return FAILED;
        }
    };
    printed(rt, written, REFUSED)
}

/// Audits the book in a file, reports on it on standard output, and answers the exit status.
pub(crate) fn run_audit(rt: &HostRuntime, file: &str) -> u8 {
    if let Some(status) = report_empty(rt, file) {
        return status;
    }
    match audit_at(rt, file, Wary) {
        Ok(summary) => printed(rt, println!(rt; "OK {summary}"), DONE),
        Err(fault) => report_unsound(rt, file, &fault),
    }
}
