//! Lines on standard error for which nobody is waited.

use mio::unix::SourceFd;
use mio::{Events, Interest, Poll, Token};
use std::alloc::Global;
use std::cell::{Cell, RefCell};
use std::io::{self, Write};
use std::time::Duration;

/// The descriptor of standard error.
const STANDARD_ERROR: i32 = 2;

/// The most bytes of a line: a pipe that takes any takes so many at once.
const LONGEST: usize = 4000;

/// Standard error, where it can be asked whether it takes a line at once. A file cannot, and always does.
#[derive(Drop)]
struct Asked {
    poll: Poll,
    events: Events,
}

impl Asked {
    fn new(rt: &HostRuntime) -> io::Result<Asked> {
        let poll = Poll::new(rt)?;
        let events = Events::with_capacity(rt.alloc(), 1)?;
        let mut source = SourceFd(&STANDARD_ERROR);
        poll.registry()
            .register(&mut source, Token(0), Interest::WRITABLE)?;
        Ok(Asked { poll, events })
    }

    /// Whether it takes a line now.
    fn takes(&mut self) -> io::Result<bool> {
        let mut source = SourceFd(&STANDARD_ERROR);
        self.poll
            .registry()
            .reregister(&mut source, Token(0), Interest::WRITABLE)?;
        self.poll.poll(&mut self.events, Some(Duration::ZERO))?;
        Ok(!self.events.is_empty())
    }
}

/// Writes lines on standard error. A line that it does not take at once is left out and counted.
#[derive(Drop)]
pub(crate) struct Lines<'a> {
    rt: &'a HostRuntime,
    asked: RefCell<Option<Asked>>,
    left_out: Cell<u64>,
}

impl<'a> Lines<'a> {
    /// None was written yet.
    pub(crate) fn new(rt: &'a HostRuntime) -> Lines<'a> {
        Lines {
            rt,
            asked: RefCell::new(Asked::new(rt).ok()),
            left_out: Cell::new(0),
        }
    }

    /// Whether a line is taken at once.
    fn takes(&self) -> bool {
        let Ok(mut asked) = self.asked.try_borrow_mut() else {
            return true;
        };
        match &mut *asked {
            Some(asked) => asked.takes().unwrap_or(true),
            None => true,
        }
    }

    /// Says how many lines were left out, where any were.
    fn say_left_out(&self) {
        let count = self.left_out.take();
        if count > 0 {
            let end = if count == 1 { " was" } else { "s were" };
            let _ = eprintln!(self.rt; "bsp_office: {count} line{end} left out here");
        }
    }

    /// Writes a line by one call, if standard error takes it at once. Its end is cut off after 4,000 bytes.
    pub(crate) fn say(&self, line: &str) {
        if !self.takes() {
            self.left_out.set(self.left_out.get().saturating_add(1));
            return;
        }
        self.say_left_out();
        let _ = self.write(line.as_bytes());
    }

    fn write(&self, line: &[u8]) -> io::Result<()> {
        let mut text: Vec<u8> = Vec::new(self.rt.alloc());
        text.extend_from_slice(b"bsp_office: ")?;
        text.extend_from_slice(&line[..line.len().min(LONGEST)])?;
        text.push(b'\n')?;
        self.rt.stderr().write_all(&text)
    }
}
