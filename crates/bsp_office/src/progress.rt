//! How much of a long input was read, in one line on a terminal.

use crate::input::Input;
use bsp_streams::Noted;
use std::io::{self, IsTerminal, Read};
use std::time::{Duration, Instant};

/// The seconds in which nothing is shown, and in which a line is not changed.
const STEP: u64 = 1;

/// The bytes of a megabyte.
const MEGABYTE: u64 = 1_000_000;

/// What is shown of an input.
#[derive(Clone, Copy)]
struct Line {
    begun: Instant,
    // when a line is shown next, from the beginning on
    next: Duration,
    is_shown: bool,
}

/// An input of which it is shown on standard error, after a second and each second again, how much of it was read.
#[derive(Drop)]
pub(crate) struct Shown<'a> {
    rt: &'a HostRuntime,
    input: Input,
    size: Option<u64>,
    read: u64,
    line: Option<Line>,
}

/// How many seconds more the rest of an input takes, of which so much was read in that time.
fn seconds_left(read: u64, size: u64, passed: Duration) -> u64 {
    let left = size.saturating_sub(read) as u128;
    match passed
        .as_millis()
        .saturating_mul(left)
        .checked_div(read as u128 * 1000)
    {
        Some(seconds) => u64::try_from(seconds).unwrap_or(u64::MAX),
        None => 0,
    }
}

impl<'a> Shown<'a> {
    /// The input. Nothing of it is shown where standard error is no terminal, or where it is to be quiet.
    pub(crate) fn new(rt: &'a HostRuntime, input: Input, quiet: bool) -> Shown<'a> {
        let line = if quiet || !rt.stderr().is_terminal() {
            None
        } else {
            match Instant::now(rt) {
                Ok(begun) => Some(Line {
                    begun,
                    next: Duration::from_secs(STEP),
                    is_shown: false,
                }),
                Err(_) => None,
            }
        };
        let size = input.size();
        Shown {
            rt,
            input,
            size,
            read: 0,
            line,
        }
    }

    /// Writes the line.
    fn show(&self, passed: Duration) {
        let read = self.read / MEGABYTE;
        match self.size {
            Some(size) if size >= self.read => {
                let left = seconds_left(self.read, size, passed);
                let of = size / MEGABYTE;
                let _ = eprint!(self.rt; "\rread {read} of {of} MB, {left} s left   ");
            }
            _ => {
                let _ = eprint!(self.rt; "\rread {read} MB   ");
            }
        }
    }

    /// Counts the bytes of a read, and shows them where it is time to. At the end of the input it takes the line away.
    fn count(&mut self, bytes: usize) {
        if bytes == 0 {
            self.clear();
            return;
        }
        self.read = self.read.saturating_add(bytes as u64);
        let Some(line) = self.line else {
            return;
        };
        let Ok(passed) = line.begun.elapsed(self.rt) else {
            return;
        };
        if passed < line.next {
            return;
        }
        self.show(passed);
        self.line = Some(Line {
            next: passed.saturating_add(Duration::from_secs(STEP)),
            is_shown: true,
            ..line
        });
    }

    /// Takes the line away, and shows no more.
    fn clear(&mut self) {
        if let Some(Line { is_shown: true, .. }) = self.line {
            let _ = eprint!(self.rt; "\r                                        \r");
        }
        self.line = None;
    }
}

impl<'a> Read for Shown<'a> {
    fn read(&mut self, buf: &mut [u8]) -> io::Result<usize> {
        let count = self.input.read(buf)?;
        self.count(count);
        Ok(count)
    }
}

/// Takes the line of an input away that was read, where that did not reach its end.
pub(crate) fn clear(input: Noted<Shown<'_>>) {
    let mut shown = input.into_inner();
    shown.clear();
}
