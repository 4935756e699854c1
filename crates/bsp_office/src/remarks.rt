//! What standard error says about the FILE of a command: one line, where something is wrong.

use bsp_check::{Fault, Heading, Verdict};
use bsp_explain::Words;
use std::fmt::Display;
use std::io;

/// How a line names a FILE.
fn named(file: &str) -> &str {
    if file == "-" { "standard input" } else { file }
}

/// What a line says of a fault. The limit is that of `check` and `hotcheck`.
fn cause(fault: Fault) -> &'static str {
    match fault {
        Fault::Read => "a read failed",
        Fault::TooLong => "longer than 1,073,741,824 bytes",
        Fault::Write => "a write failed",
        Fault::Memory => "out of memory",
    }
}

/// Says what is wrong at a place.
pub(crate) fn say<D: Display>(rt: &HostRuntime, place: &str, what: &D) {
    let _ = eprintln!(rt; "bsp_office: {place}: {what}");
}

/// Says why a FILE cannot be opened.
pub(crate) fn say_unopened(rt: &HostRuntime, file: &str, error: &io::Error) {
    say(rt, named(file), error);
}

/// Says that a report was not written, or not all of it.
pub(crate) fn say_unwritten(rt: &HostRuntime) {
    say(rt, "standard output", &cause(Fault::Write));
}

/// Says why a FILE is not read whole.
pub(crate) fn say_fault(rt: &HostRuntime, file: &str, fault: Fault) {
    say(rt, named(file), &cause(fault));
}

/// Says that memory is short.
pub(crate) fn say_no_memory(rt: &HostRuntime) {
    let _ = rt.eprintln("bsp_office: out of memory");
}

/// Says what is wrong with a FILE, or with an option.
pub(crate) fn say_reason(rt: &HostRuntime, place: &str, reason: &str) {
    say(rt, named(place), &reason);
}

/// Says what is wrong with a FILE, if anything is known of it.
pub(crate) fn say_known(rt: &HostRuntime, file: &str, reason: &[u8]) {
    if let Ok(text) = str::from_utf8(reason) {
        if !text.is_empty() {
            say_reason(rt, file, text);
        }
    }
}

/// Says some lines.
pub(crate) fn say_lines(rt: &HostRuntime, lines: &[u8]) {
    if let Ok(text) = str::from_utf8(lines) {
        let _ = eprint!(rt; "{text}");
    }
}

/// Says some lines of a FILE.
pub(crate) fn say_lines_of(rt: &HostRuntime, file: &str, lines: &[u8]) {
    if let Ok(text) = str::from_utf8(lines) {
        for line in text.lines() {
            let file = named(file);
            let _ = eprintln!(rt; "{file}: {line}");
        }
    }
}

/// Says of which airline and period a HOT file is.
fn say_heading(rt: &HostRuntime, file: &str, heading: &Heading) {
    let mut words = Words::new();
    words.add("airline ");
    words.show(heading.airline);
    words.add(", period ");
    words.show(heading.period);
    say(rt, named(file), &words.text());
}

/// Says which fault a FILE has, of which airline and period it is, or why no whole report on it was written.
pub(crate) fn say_answer(rt: &HostRuntime, file: &str, answer: &Result<Verdict, Fault>) {
    match answer {
        Ok(Verdict::Passed(Some(heading))) => say_heading(rt, file, heading),
        Ok(Verdict::Passed(None)) => {}
        Ok(Verdict::Refused(explanation)) => say(rt, named(file), explanation),
        Err(Fault::Write) => say_unwritten(rt),
        Err(fault) => say_fault(rt, file, *fault),
    }
}
