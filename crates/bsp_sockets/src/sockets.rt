//! The sockets of a server.

use crate::connections::Connections;
use crate::door::{Door, LISTENER};
use crate::limits::{Limits, earlier};
use crate::time::Time;
use bsp_streams::{Awaited, Ending, Happened, Moved, Peers};
use mio::net::TcpListener;
use mio::{Events, Poll};
use std::alloc::Global;
use std::io;
use std::net::{Net, SocketAddr};
use std::time::{Clock, Duration, Instant};

/// The most connections at once.
const MOST: usize = 10_000;

/// The spans of [`Settings::timeout`] while output waits.
const IN_TIMEOUT: u32 = 4;

/// The seconds in which what a peer sends is dropped after the end, where messages have no time.
const LINGERING: u64 = 5;

/// How many connections there are at once, and how long they are waited for.
#[derive(Clone, Copy)]
pub struct Settings {
    /// The most connections at once, 1 to 10,000: 0 counts as 1, and more as 10,000.
    pub at_once: usize,
    /// How long a message may take from its first byte to its last, and a peer for each 65,536 bytes that it is sent, as
    /// [`Sockets`] says; none: without end.
    pub timeout: Option<Duration>,
    /// How long a connection may be between messages; none: without end.
    pub idle: Option<Duration>,
}

/// A listener and its connections, in one thread.
///
/// Turns: the connections that are ready are in a queue, first in first out, and one whose turn comes again is put at
/// its end. Between two rounds the system is asked which others are ready. A round has a turn for each that is ready at its
/// beginning, and 32 turns at least while any is ready.
///
/// Reports: the system reports a connection each time that bytes come, or room for output that waits. Where a read left
/// room, or a write left bytes, that is waited for. Otherwise, and where the peer ended, the connection has another turn.
///
/// Times: a connection is late where a message is begun and not whole after [`Settings::timeout`], or nothing comes for
/// [`Settings::idle`] between messages. A peer that is sent something is late where, within twice the timeout, it takes
/// fewer than 32,768 bytes and not all.
///
/// What a peer takes is seen by writes. The system reports room only where that is a third of its send buffer, which may
/// have megabytes, and so one write is tried at the end of each quarter of the timeout. The first of these fills the
/// buffer and does not count. The peer's system makes room in steps, each smaller than its receive buffer. So a peer whose
/// buffer has 131,072 bytes, as Linux gives at first, is not late where it reads 65,536 bytes in each timeout. One with a
/// larger buffer may be, unless it reads as much as that in two timeouts: until then nothing shows that it reads.
///
/// Places: while there are [`Settings::at_once`] connections, no other is accepted. Where peers wait then, one that is
/// closed and whose peer did not end gives its place, or else the connection that has been between messages longest,
/// for a second at least and where there is more than one place.
///
/// The end: a connection that is closed as whole is shut down for writing, and what its peer sends is dropped until the
/// peer ends, but for [`Settings::timeout`] at most, or 5 seconds. Otherwise a connection that is closed with bytes
/// unread is reset, and the last response may be lost (RFC 9112, 9.6).
#[derive(Drop)]
pub struct Sockets<'c, C> {
    time: Time<'c, C>,
    at_once: usize,
    limits: Limits,
    poll: Poll,
    events: Events,
    door: Door,
    connections: Connections,
    // When the last wait ended: what came before then has had its turn.
    waited: Instant,
}

/// How long connections may do what they do by these settings.
fn limits_of(settings: Settings) -> Limits {
    let span = match settings.timeout {
        Some(timeout) => timeout.checked_div(IN_TIMEOUT),
        None => None,
    };
    let lingering = settings.timeout.unwrap_or(Duration::from_secs(LINGERING));
    Limits {
        resting: settings.idle,
        busy: settings.timeout,
        unread: span,
        leaving: Some(lingering),
    }
}

impl<'c, C: Clock + Net> Sockets<'c, C> {
    /// The connections of a listener whose `accept` does not wait.
    fn of(
        alloc: Global,
        host: &'c C,
        listener: TcpListener,
        settings: Settings,
    ) -> Result<Sockets<'c, C>, io::Error> {
        let at_once = settings.at_once.clamp(1, MOST);
        let time = Time::new(host)?;
        let waited = time.last;
        // room for each connection and the listener, so that no time is over of one that is ready and not reported
        let events = Events::with_capacity(alloc, at_once + 1)?;
        let poll = Poll::new(host)?;
        let door = Door::new(listener, poll.registry())?;
        Ok(Sockets {
            time,
            at_once,
            limits: limits_of(settings),
            poll,
            events,
            door,
            connections: Connections::new(alloc),
            waited,
        })
    }

    /// The connections of this listener. Its `accept` no longer waits, whoever calls it.
    ///
    /// # Errors
    ///
    /// Of the system, and where an allocation was refused.
    pub fn new(
        alloc: Global,
        host: &'c C,
        listener: std::net::TcpListener,
        settings: Settings,
    ) -> Result<Sockets<'c, C>, io::Error> {
        listener.set_nonblocking(true)?;
        Sockets::of(alloc, host, TcpListener::from_std(listener), settings)
    }

    /// The connections of a listener at this address; port 0 is one that the system chooses.
    ///
    /// # Errors
    ///
    /// Of the system, as where the port is taken, and where an allocation was refused.
    pub fn listen(
        alloc: Global,
        host: &'c C,
        address: SocketAddr,
        settings: Settings,
    ) -> Result<Sockets<'c, C>, io::Error> {
        let listener = TcpListener::bind(host, address)?;
        Sockets::of(alloc, host, listener, settings)
    }
}

impl<C: Clock> Sockets<'_, C> {
    /// Where the listener listens.
    ///
    /// # Errors
    ///
    /// Of the system.
    pub fn address(&self) -> Result<SocketAddr, io::Error> {
        self.door.address()
    }

    /// Whether the connection that was late last was between messages.
    pub fn was_resting(&self) -> bool {
        self.connections.was_resting
    }

    /// Drops all connections but those that are closed, and waits until the peers of these end, or their time is over.
    pub fn finish(&mut self) {
        self.connections.keep_leaving();
        for _ in 0..u64::MAX {
            if self.connections.count() == 0 {
                return;
            }
            if let Happened::Stop = self.next() {
                return;
            }
        }
    }

    /// Whether one more connection has a place.
    fn has_place(&self) -> bool {
        self.connections.count() < self.at_once
    }

    /// The connection that gives its place to a peer that waits.
    fn gives_place(&self) -> Option<u64> {
        if self.has_place() || !self.door.is_waited_at() {
            return None;
        }
        let times = &self.connections.times;
        match times.first_leaving() {
            Some(number) => Some(number),
            None if self.at_once > 1 => times.first_resting(self.waited),
            None => None,
        }
    }

    /// The connection whose time is over, or that gives its place.
    fn over(&self) -> Option<u64> {
        match self.connections.times.over(self.limits, self.waited) {
            Some(number) => Some(number),
            None => self.gives_place(),
        }
    }

    /// When a peer that waits may be accepted.
    fn next_arrival(&self) -> Option<Instant> {
        if self.has_place() {
            return self.door.opens();
        }
        if self.at_once > 1 && self.door.is_waited_at() {
            return self.connections.times.rest_end();
        }
        None
    }

    /// How long nothing is to be done if nothing comes; none: without end. The time is that of the last turn after which a
    /// peer is waited for.
    fn patience(&self) -> Option<Duration> {
        let is_due = self.has_place() && self.door.is_open(self.waited);
        if is_due || !self.connections.turns.is_empty() {
            return Some(Duration::ZERO);
        }
        let end = earlier(self.connections.times.end(self.limits), self.next_arrival())?;
        Some(end.duration_since(self.time.last))
    }

    /// Notes what the system reported.
    fn note(&mut self) {
        for event in self.events.iter() {
            let token = event.token().0;
            if token == LISTENER {
                self.door.note();
            } else {
                self.connections
                    .note(self.poll.registry(), token as u64, *event);
            }
        }
    }

    /// Waits, and begins a round.
    fn wait(&mut self) -> io::Result<()> {
        if self.connections.take_dropped() {
            self.door.reopen();
        }
        let patience = self.patience();
        self.poll.poll(&mut self.events, patience)?;
        self.waited = self.time.read()?;
        self.note();
        self.connections.turns.begin_round();
        self.door.begin_round();
        Ok(())
    }
}

impl<C: Clock> Peers for Sockets<'_, C> {
    ghost did = { λ _ _ _. Unit {0} };

    fn next(&mut self) -> Happened {
        if let Some(number) = self.connections.turns.take() {
            return self.connections.turn(self.poll.registry(), number);
        }
        if self.has_place() && self.door.take(self.waited) {
            return Happened::Arrival;
        }
        if let Some(number) = self.over() {
            return self.connections.end(number, self.limits, self.waited);
        }
        match self.wait() {
            Ok(()) => Happened::Nothing,
            Err(_) => Happened::Stop,
        }
    }

    fn accept(&mut self, number: u64) -> bool {
        let now = self.time.now();
        let registry = self.poll.registry();
        let has_places = self.connections.count() + 1 < self.at_once;
        let Some(stream) = self.door.accept(registry, has_places, now) else {
            return false;
        };
        let _ = stream.set_nodelay(true);
        self.connections.add(registry, number, stream, now)
    }

    fn read(&mut self, number: u64, room: &mut [u8]) -> Moved {
        match self.connections.streams.get_mut(&number) {
            Some(watched) => watched.read(room),
            None => Moved::Failed,
        }
    }

    fn write(&mut self, number: u64, bytes: &[u8]) -> Moved {
        match self.connections.streams.get_mut(&number) {
            Some(watched) => watched.write(bytes),
            None => Moved::Failed,
        }
    }

    fn watch(&mut self, number: u64, awaited: Awaited) {
        self.connections
            .watch(self.poll.registry(), number, awaited, &mut self.time);
    }

    fn close(&mut self, number: u64, ending: Ending) {
        let now = self.time.now();
        let is_left = match ending {
            Ending::Whole => self.connections.leave(self.poll.registry(), number, now),
            Ending::Late | Ending::Failed | Ending::NoRoom => false,
        };
        if !is_left {
            self.connections.remove(number);
        }
    }
}
