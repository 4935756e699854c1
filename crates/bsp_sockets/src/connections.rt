//! The connections of a server.

ghost use Rattle.std.specs.Prelude.{◌<◌, ◌^◌};

use crate::limits::Limits;
use crate::phase::Phase;
use crate::time::Time;
use crate::times::Times;
use crate::turns::Turns;
use crate::watched::{Dropped, Watched};
use bsp_streams::{Awaited, Happened};
use mio::Registry;
use mio::event::Event;
use mio::net::TcpStream;
use std::alloc::Global;
use std::collections::BTreeMap;
use std::time::{Clock, Instant};

/// The connections by their numbers, whose turn comes, and since when each does what it does.
#[derive(Drop)]
pub(crate) struct Connections {
    pub(crate) streams: BTreeMap<u64, Watched>,
    pub(crate) turns: Turns,
    pub(crate) times: Times,
    // Whether one was dropped since that was asked.
    has_dropped: bool,
    // Whether the last that was late was between messages.
    pub(crate) was_resting: bool,
}

/// Notes what a connection does. Where there is no memory for its time it is shut down.
fn enter(times: &mut Times, watched: &mut Watched, number: u64, phase: Phase) {
    let before = watched.phase;
    watched.phase = phase;
    if before.has_times_of(phase) {
        return;
    }
    times.remove(number, before);
    if !times.add(number, phase) {
        watched.shut_down();
    }
}

/// Notes what a connection does after a turn. The clock is read only where the peer is waited for.
fn end_turn<C: Clock>(
    times: &mut Times,
    watched: &mut Watched,
    number: u64,
    awaited: Awaited,
    time: &mut Time<'_, C>,
) {
    let is_waited_for = awaited.reads || awaited.writes;
    let now = if is_waited_for { time.now() } else { time.last };
    let phase = watched.end_turn(awaited, now);
    enter(times, watched, number, phase);
}

/// Puts a connection after all others whose turn comes. Where there is no memory for that, the system reports it again.
fn queue(turns: &mut Turns, watched: &mut Watched, registry: &Registry, number: u64) {
    if watched.is_queued {
        return;
    }
    watched.is_queued = turns.push(number);
    if !watched.is_queued {
        watched.report_again(registry, number);
    }
}

impl Connections {
    /// No connection.
    pub(crate) fn new(alloc: Global) -> Connections {
        Connections {
            streams: BTreeMap::new(alloc),
            turns: Turns::new(alloc),
            times: Times::new(alloc),
            has_dropped: false,
            was_resting: false,
        }
    }

    /// How many there are.
    pub(crate) fn count(&self) -> usize
        ensures { result < 2 ^ 63 }
    {
        self.streams.len()
    }

    /// Whether one was dropped since this was asked.
    pub(crate) fn take_dropped(&mut self) -> bool {
        let has_dropped = self.has_dropped;
        self.has_dropped = false;
        has_dropped
    }

    /// Adds a connection, which the system reports. Answers whether it does, and there was memory.
    pub(crate) fn add(
        &mut self,
        registry: &Registry,
        number: u64,
        stream: TcpStream,
        now: Instant,
    ) -> bool {
        let mut watched = Watched::new(stream, now);
        let phase = watched.phase;
        if !watched.register(registry, number) {
            return false;
        }
        if !self.turns.reserve(self.streams.len() + 1) || !self.times.add(number, phase) {
            return false;
        }
        if self.streams.insert(number, watched).is_ok() {
            return true;
        }
        self.times.remove(number, phase);
        false
    }

    /// Drops a connection.
    pub(crate) fn remove(&mut self, number: u64) {
        if let Some(watched) = self.streams.remove(&number) {
            self.times.remove(number, watched.phase);
            self.has_dropped = true;
        }
    }

    /// Drops those that are not closed.
    pub(crate) fn keep_leaving(&mut self) {
        self.streams.retain(|_, watched| watched.is_leaving());
        self.times.keep_leaving();
    }

    /// Notes what the system reported of a connection, whose turn comes.
    pub(crate) fn note(&mut self, registry: &Registry, number: u64, event: Event) {
        if let Some(watched) = self.streams.get_mut(&number) {
            watched.note(event);
            queue(&mut self.turns, watched, registry, number);
        }
    }

    /// What is done in the turn of a connection. One that is closed drops what came.
    pub(crate) fn turn(&mut self, registry: &Registry, number: u64) -> Happened {
        let Some(watched) = self.streams.get_mut(&number) else {
            return Happened::Nothing;
        };
        watched.is_queued = false;
        if !watched.is_leaving() {
            return Happened::Ready(number);
        }
        match watched.drop_pieces() {
            Dropped::More => queue(&mut self.turns, watched, registry, number),
            Dropped::All => {}
            Dropped::Ended => self.remove(number),
        }
        Happened::Nothing
    }

    /// Notes what a connection does after its turn, and for what of it is waited.
    pub(crate) fn watch<C: Clock>(
        &mut self,
        registry: &Registry,
        number: u64,
        awaited: Awaited,
        time: &mut Time<'_, C>,
    ) {
        let Some(watched) = self.streams.get_mut(&number) else {
            return;
        };
        if !watched.stays(awaited) {
            end_turn(&mut self.times, watched, number, awaited, time);
        }
        if awaited.again || !watched.watch(registry, number, awaited.reads, awaited.writes) {
            queue(&mut self.turns, watched, registry, number);
        }
    }

    /// Sends the peer the end, and drops what it sends from now on. Answers whether that is to be done.
    pub(crate) fn leave(&mut self, registry: &Registry, number: u64, now: Instant) -> bool {
        let Some(watched) = self.streams.get_mut(&number) else {
            return false;
        };
        if !watched.send_end() {
            return false;
        }
        enter(&mut self.times, watched, number, Phase::Leaving(now));
        if !watched.watch(registry, number, true, false) {
            queue(&mut self.turns, watched, registry, number);
        }
        true
    }

    /// What is done with a connection whose time is over. It is dropped where it is closed, has one more turn where its
    /// output waits, and otherwise is late.
    pub(crate) fn end(&mut self, number: u64, limits: Limits, now: Instant) -> Happened {
        let Some(watched) = self.streams.get_mut(&number) else {
            return Happened::Nothing;
        };
        if watched.is_leaving() {
            let _ = watched.drop_pieces();
            self.remove(number);
            return Happened::Nothing;
        }
        if let Some(phase) = watched.phase.once_more(limits.busy, now) {
            enter(&mut self.times, watched, number, phase);
            return Happened::Ready(number);
        }
        self.was_resting = watched.is_resting();
        enter(&mut self.times, watched, number, Phase::OVER);
        Happened::Late(number)
    }
}
