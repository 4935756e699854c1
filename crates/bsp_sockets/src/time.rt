//! The time, as it was read last.

use std::io;
use std::time::{Clock, Instant};

/// A clock, and the time that was read last.
#[derive(Drop)]
pub(crate) struct Time<'c, C> {
    clock: &'c C,
    pub(crate) last: Instant,
}

impl<'c, C: Clock> Time<'c, C> {
    /// The time of this clock.
    ///
    /// # Errors
    ///
    /// Of the system.
    pub(crate) fn new(clock: &'c C) -> io::Result<Time<'c, C>> {
        Ok(Time {
            clock,
            last: Instant::now(clock)?,
        })
    }

    /// Reads the time.
    ///
    /// # Errors
    ///
    /// Of the system.
    pub(crate) fn read(&mut self) -> io::Result<Instant> {
        self.last = Instant::now(self.clock)?;
        Ok(self.last)
    }

    /// The time, or where the clock fails the time that was read last.
    pub(crate) fn now(&mut self) -> Instant {
        self.read().unwrap_or(self.last)
    }
}
