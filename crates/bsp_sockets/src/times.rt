//! Which connections have done longest what they do.

use crate::limits::{Limits, earlier, end_of, is_over};
use crate::phase::Phase;
use std::alloc::Global;
use std::collections::BTreeSet;
use std::time::{Duration, Instant};

/// How long a connection must have been between messages before its place is given to another, in seconds.
const REST: u64 = 1;

/// The connections by what they do, those first that have done it longest.
#[derive(Drop)]
pub(crate) struct Times {
    resting: BTreeSet<(Instant, u64)>,
    busy: BTreeSet<(Instant, u64)>,
    unread: BTreeSet<(Instant, u64)>,
    leaving: BTreeSet<(Instant, u64)>,
}

/// The first of these connections, if its time is over.
fn first_over(
    times: &BTreeSet<(Instant, u64)>,
    limit: Option<Duration>,
    now: Instant,
) -> Option<u64> {
    let (since, number) = *times.first()?;
    if is_over(since, limit, now) {
        Some(number)
    } else {
        None
    }
}

/// When the time of the first of these connections is over.
fn first_end(times: &BTreeSet<(Instant, u64)>, limit: Option<Duration>) -> Option<Instant> {
    let (since, _) = *times.first()?;
    end_of(since, limit)
}

impl Times {
    /// No connection.
    pub(crate) fn new(alloc: Global) -> Times {
        Times {
            resting: BTreeSet::new(alloc),
            busy: BTreeSet::new(alloc),
            unread: BTreeSet::new(alloc),
            leaving: BTreeSet::new(alloc),
        }
    }

    /// The connections that do this.
    fn of(&mut self, phase: Phase) -> &mut BTreeSet<(Instant, u64)> {
        match phase {
            Phase::Resting(_) => &mut self.resting,
            Phase::Busy { .. } => &mut self.busy,
            Phase::Leaving(_) => &mut self.leaving,
        }
    }

    /// Adds a connection that does this. Answers whether there was memory.
    pub(crate) fn add(&mut self, number: u64, phase: Phase) -> bool {
        let is_added = match phase.since() {
            Some(since) => self.of(phase).insert((since, number)).is_ok(),
            None => true,
        };
        match phase.unread_since() {
            Some(since) => is_added && self.unread.insert((since, number)).is_ok(),
            None => is_added,
        }
    }

    /// Removes a connection that does this.
    pub(crate) fn remove(&mut self, number: u64, phase: Phase) {
        if let Some(since) = phase.since() {
            self.of(phase).remove(&(since, number));
        }
        if let Some(since) = phase.unread_since() {
            self.unread.remove(&(since, number));
        }
    }

    /// Forgets those that are not closed.
    pub(crate) fn keep_leaving(&mut self) {
        self.resting.clear();
        self.busy.clear();
        self.unread.clear();
    }

    /// A connection whose time is over.
    pub(crate) fn over(&self, limits: Limits, now: Instant) -> Option<u64> {
        if let Some(number) = first_over(&self.leaving, limits.leaving, now) {
            return Some(number);
        }
        if let Some(number) = first_over(&self.busy, limits.busy, now) {
            return Some(number);
        }
        if let Some(number) = first_over(&self.unread, limits.unread, now) {
            return Some(number);
        }
        first_over(&self.resting, limits.resting, now)
    }

    /// When the first time is over.
    pub(crate) fn end(&self, limits: Limits) -> Option<Instant> {
        let leaving = first_end(&self.leaving, limits.leaving);
        let busy = first_end(&self.busy, limits.busy);
        let unread = first_end(&self.unread, limits.unread);
        let resting = first_end(&self.resting, limits.resting);
        earlier(earlier(leaving, busy), earlier(unread, resting))
    }

    /// The connection that is closed first.
    pub(crate) fn first_leaving(&self) -> Option<u64> {
        match self.leaving.first() {
            Some((_, number)) => Some(*number),
            None => None,
        }
    }

    /// The connection that has been between messages longest, if that is a second at least.
    pub(crate) fn first_resting(&self, now: Instant) -> Option<u64> {
        first_over(&self.resting, Some(Duration::from_secs(REST)), now)
    }

    /// When the first connection has been between messages for a second.
    pub(crate) fn rest_end(&self) -> Option<Instant> {
        first_end(&self.resting, Some(Duration::from_secs(REST)))
    }
}
