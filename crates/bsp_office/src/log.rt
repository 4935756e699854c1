//! What standard error says of an office that serves: its book, its replies and its connections.

use crate::kept::Failing;
use crate::lines::Lines;
use bsp_body_faults::cause_text;
use bsp_desk::{Asking, Book, Desk};
use bsp_http::{Journal, Message, Reply, ServeFault, Status};
use sqlite::Error;
use std::alloc::{AllocError, Global};
use std::cell::Cell;
use std::fmt;
use std::fmt::Display;
use std::time::Instant;

/// The most bytes of a malformed body whose cause is sought: no body that is read needs as many.
const MOST_SOUGHT: usize = 65_536;

/// What standard error says.
#[derive(Drop)]
pub struct Log<'a> {
    rt: &'a HostRuntime,
    lines: Lines<'a>,
    // Whether each reply has a line, or a 503 alone.
    whole: bool,
    // Why the body of the request is malformed whose reply is noted next.
    cause: Cell<Option<String>>,
    // When the desk was asked whose reply is noted next.
    asked: Cell<Option<Instant>>,
}

/// Why a body is malformed, as a text. None where it is not, or where there is no memory for the cause.
fn malformed(alloc: Global, asking: Asking<&[u8]>, body: &[u8]) -> Option<String> {
    match asking {
        Asking::Call(call) => cause_text(alloc, call, body).ok()?,
        _ => None,
    }
}

/// Appends bytes; those outside 0x21 to 0x7E as `\x0a`.
fn push_escaped(line: &mut String, bytes: &[u8]) -> Result<(), AllocError> {
    for byte in bytes {
        if byte.is_ascii_graphic() {
            line.push(char::from(*byte))?;
        } else {
            write!(line, "\\x{byte:02x}")?;
        }
    }
    Ok(())
}

/// The code that a refusal's body begins with, as in `{"code":"N02"}`; else `-`.
pub(crate) fn code_in(body: &[u8]) -> &str {
    match body.strip_prefix(b"{\"code\":\"") {
        Some(rest) if rest.len() >= 3 => str::from_utf8(&rest[..3]).unwrap_or("-"),
        _ => "-",
    }
}

/// The target without its query, which may have what is nobody else's (RFC 3986, 3.4).
fn path_of(target: &[u8]) -> &[u8] {
    target.split(|byte| *byte == b'?').next().unwrap_or(target)
}

/// Appends what is said of a reply: `POST /office/day 403 N01 14`. Where no head was read it begins with `- -`.
fn push_reply(
    line: &mut String,
    message: Option<&Message<'_>>,
    reply: &Reply,
) -> Result<(), AllocError> {
    match message {
        Some(message) => {
            push_escaped(line, message.method)?;
            line.push(' ')?;
            push_escaped(line, path_of(message.target))?;
        }
        None => line.push_str("- -")?,
    }
    let status = reply.status.code();
    let body = reply.body.as_slice();
    let (code, count) = (code_in(body), body.len());
    write!(line, " {status} {code} {count}")?;
    Ok(())
}

/// Appends a cause.
fn push_cause<C: Display>(line: &mut String, cause: &C) -> Result<(), AllocError> {
    write!(line, ": {cause}")?;
    Ok(())
}

/// A time, as `30 seconds`.
#[derive(Clone, Copy)]
struct Seconds(u32);

impl Display for Seconds {
    fn fmt<W: fmt::Write>(&self, f: &mut fmt::Formatter<W>) -> fmt::Result {
        let end = if self.0 == 1 { "" } else { "s" };
        write!(f, "{} second{end}", self.0)
    }
}

impl<'a> Log<'a> {
    /// A line for each reply, or for each 503 alone.
    pub(crate) fn new(rt: &'a HostRuntime, whole: bool) -> Log<'a> {
        Log {
            rt,
            lines: Lines::new(rt),
            whole,
            cause: Cell::new(None),
            asked: Cell::new(None),
        }
    }

    /// One line where a read or a write of a connection failed, or there was no memory for it.
    pub(crate) fn failed(&self, connection: u64, fault: ServeFault) {
        let number = connection.saturating_add(1);
        if let Ok(line) = format!(in self.rt.alloc(); "connection {number}: {fault}") {
            self.lines.say(&line);
        }
    }

    /// One line where a message was not whole, or a response not read, after so many seconds.
    pub(crate) fn late(&self, connection: u64, seconds: u32) {
        let number = connection.saturating_add(1);
        let time = Seconds(seconds);
        if let Ok(line) = format!(in self.rt.alloc();
            "connection {number}: a message was not whole, or a response not read, after {time}"
        ) {
            self.lines.say(&line);
        }
    }

    /// One line at the end, after so many connections.
    pub(crate) fn all_served(&self, connections: u32) {
        let end = if connections == 1 { "" } else { "s" };
        if let Ok(line) = format!(in self.rt.alloc(); "{connections} connection{end} served") {
            self.lines.say(&line);
        }
    }
}

impl<B: Book + Failing> Journal<B> for Log<'_> {
    /// Seeks the cause of a malformed body, for the line of its reply.
    fn note_body(&self, asking: Asking<&[u8]>, body: &[u8], reply: &Reply) {
        if self.whole && body.len() <= MOST_SOUGHT && code_in(reply.body.as_slice()) == "N04" {
            self.cause.set(malformed(self.rt.alloc(), asking, body));
        }
    }

    /// Notes the time.
    fn note_asking(&self) {
        if self.whole {
            self.asked.set(Instant::now(self.rt).ok());
        }
    }

    /// One line. That of a 503 says with which error of the store the book failed, that of an N04 why the body is malformed.
    /// Where each reply has a line, it has the number of the connection too, counted from 1, and the microseconds from when
    /// the desk was asked.
    fn note(&self, desk: &Desk<B>, connection: u64, message: Option<&Message<'_>>, reply: &Reply) {
        let refused = reply.status == Status::ServiceUnavailable;
        if !self.whole && !refused {
            return;
        }
        let error = if refused {
            desk.book().store_error()
        } else {
            None
        };
        let _ = self.say_reply(connection, message, reply, error.as_ref());
    }
}

impl Log<'_> {
    /// The microseconds since the desk was asked; 0 where it was not.
    fn took(&self) -> u128 {
        let Some(asked) = self.asked.take() else {
            return 0;
        };
        match Instant::now(self.rt) {
            Ok(now) => now.duration_since(asked).as_micros(),
            Err(_) => 0,
        }
    }

    /// Appends what is said of a reply; where each reply has a line, with the number of the connection and the time.
    fn push_line(
        &self,
        line: &mut String,
        connection: u64,
        message: Option<&Message<'_>>,
        reply: &Reply,
    ) -> Result<(), AllocError> {
        if !self.whole {
            return push_reply(line, message, reply);
        }
        let number = connection.saturating_add(1);
        write!(line, "{number} ")?;
        push_reply(line, message, reply)?;
        write!(line, " {}", self.took())?;
        Ok(())
    }

    /// Appends why a body is malformed, where that was noted; else the error of the store, if there is one.
    fn push_why(&self, line: &mut String, error: Option<&Error>) -> Result<(), AllocError> {
        if let Some(cause) = self.cause.take() {
            return push_cause(line, &cause);
        }
        match error {
            Some(error) => push_cause(line, error),
            None => Ok(()),
        }
    }

    /// Writes the line of a reply, with the error of the store, or why a body is malformed.
    fn say_reply(
        &self,
        connection: u64,
        message: Option<&Message<'_>>,
        reply: &Reply,
        error: Option<&Error>,
    ) -> Result<(), AllocError> {
        let mut line = String::new(self.rt.alloc());
        self.push_line(&mut line, connection, message, reply)?;
        self.push_why(&mut line, error)?;
        self.lines.say(&line);
        Ok(())
    }
}
