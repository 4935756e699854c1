//! The listener, and whether peers wait to be accepted.

ghost use Rattle.std.specs.Prelude.{◌≡◌, ◌≢◌, ◌+◌, ◌<◌, true, false};

use crate::limits::{end_of, is_over};
use mio::net::{TcpListener, TcpStream};
use mio::{Interest, Registry, Token};
use std::io::{self, ErrorKind};
use std::net::SocketAddr;
use std::time::{Duration, Instant};

/// The token of the listener.
pub(crate) const LISTENER: usize = usize::MAX;

/// The peers that are accepted in one round.
const IN_ROUND: usize = 64;

/// The seconds before a peer is accepted again after that failed.
const PAUSE: u64 = 1;

/// Whether peers wait to be accepted.
#[derive(Clone, Copy)]
enum Waiting {
    /// None does, as far as the system reported.
    None,
    /// Some do.
    Some,
    /// Some do, and one could not be accepted at this time, as where there are no more descriptors.
    Refused(Instant),
}

/// A listener, and whether peers wait to be accepted.
#[derive(Drop)]
pub(crate) struct Door {
    listener: TcpListener,
    waiting: Waiting,
    // How many are still accepted in this round.
    left: usize,
}

/// Whether peers wait after an accept that failed so.
fn waiting_after(kind: ErrorKind, now: Instant) -> Waiting
    ensures none { kind ≡ ErrorKind.WouldBlock → result ≡ Waiting.None }
    ensures refused { kind ≢ ErrorKind.WouldBlock → kind ≢ ErrorKind.Interrupted → kind ≢ ErrorKind.ConnectionAborted → result ≡ Waiting.Refused now }
{
    match kind {
        ErrorKind::WouldBlock => Waiting::None,
        ErrorKind::Interrupted | ErrorKind::ConnectionAborted => Waiting::Some,
        _ => Waiting::Refused(now),
    }
}

impl Door {
    /// The door of a listener that the system reports.
    pub(crate) fn new(mut listener: TcpListener, registry: &Registry) -> io::Result<Door> {
        registry.register(&mut listener, Token(LISTENER), Interest::READABLE)?;
        Ok(Door {
            listener,
            waiting: Waiting::None,
            left: IN_ROUND,
        })
    }

    /// Where the listener listens.
    pub(crate) fn address(&self) -> io::Result<SocketAddr> {
        self.listener.local_addr()
    }

    /// Begins a round.
    pub(crate) fn begin_round(&mut self) {
        self.left = IN_ROUND;
    }

    /// Notes that peers wait. Where one could not be accepted, the next is not tried sooner for that.
    pub(crate) fn note(&mut self) {
        if let Waiting::None = self.waiting {
            self.waiting = Waiting::Some;
        }
    }

    /// Whether peers wait and may be accepted.
    pub(crate) fn is_open(&self, now: Instant) -> bool {
        match self.waiting {
            Waiting::None => false,
            Waiting::Some => true,
            Waiting::Refused(since) => is_over(since, Some(Duration::from_secs(PAUSE)), now),
        }
    }

    /// Whether peers wait for a place.
    pub(crate) fn is_waited_at(&self) -> bool {
        match self.waiting {
            Waiting::Some => true,
            Waiting::None => false,
            Waiting::Refused(_) => false,
        }
    }

    /// Whether a peer is to be accepted now. What more there are, the accept or the system reports.
    pub(crate) fn take(&mut self, now: Instant) -> bool
        ensures taken { result ≡ true → (0 < self.old.left) × (self.new.left + 1 ≡ self.old.left) × (self.new.waiting ≡ Waiting.None) }
        ensures same { result ≡ false → self.new ≡ self.old }
    {
        if self.left == 0 || !self.is_open(now) {
            return false;
        }
        self.left -= 1;
        self.waiting = Waiting::None;
        true
    }

    /// Has the system report whether more peers wait.
    fn ask(&mut self, registry: &Registry, now: Instant) {
        let asked = registry.reregister(&mut self.listener, Token(LISTENER), Interest::READABLE);
        self.waiting = match asked {
            Ok(()) => Waiting::None,
            Err(_) => Waiting::Refused(now),
        };
    }

    /// Accepts a peer. Whether more wait, the next accept finds where there are places for them, and else the system
    /// reports.
    pub(crate) fn accept(
        &mut self,
        registry: &Registry,
        has_places: bool,
        now: Instant,
    ) -> Option<TcpStream> {
        match self.listener.accept() {
            Ok((stream, _)) => {
                if has_places {
                    self.waiting = Waiting::Some;
                } else {
                    self.ask(registry, now);
                }
                Some(stream)
            }
            Err(error) => {
                self.waiting = waiting_after(error.kind(), now);
                None
            }
        }
    }

    /// Notes that a connection is gone, so that a peer which could not be accepted may be now.
    pub(crate) fn reopen(&mut self) {
        if let Waiting::Refused(_) = self.waiting {
            self.waiting = Waiting::Some;
        }
    }

    /// When a peer that could not be accepted may be.
    pub(crate) fn opens(&self) -> Option<Instant> {
        match self.waiting {
            Waiting::Refused(since) => end_of(since, Some(Duration::from_secs(PAUSE))),
            Waiting::None => None,
            Waiting::Some => None,
        }
    }
}
