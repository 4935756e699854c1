//! One connection that is watched.

ghost use Rattle.std.specs.Prelude.{◌≡◌, ◌≢◌, ◌↔◌, ◌<◌, ℕ, List, length, true, false, IsTrue};
ghost use Rattle.bsp_streams.specs.declared.peers.Moved.TheVariants.{Bytes};
ghost use Rattle.bsp_streams.specs.Bounds.{MovesAtMost};

use crate::phase::{Phase, Traffic};
use bsp_streams::{Awaited, Moved};
use mio::event::Event;
use mio::net::TcpStream;
use mio::{Interest, Registry, Token};
use std::io::{ErrorKind, Read, Write};
use std::net::Shutdown;
use std::time::Instant;

/// The bytes that are read at once of a peer whose connection is closed.
const PIECE: usize = 8192;

/// The reads of such a peer in one turn.
const READS: u32 = 8;

/// A connection, what it does, and what came and went on it in this turn.
#[derive(Drop)]
pub(crate) struct Watched {
    stream: TcpStream,
    traffic: Traffic,
    pub(crate) phase: Phase,
    /// Whether its turn comes.
    pub(crate) is_queued: bool,
    // What of it the system reports, each time that it comes to be so.
    interest: Interest,
    // Whether a read took all that was there, and a write all the room that there was, since the last report. The system
    // reports what comes after that.
    is_drained: bool,
    is_full: bool,
    // Whether a read that has room left may have left something: the peer ended, the connection failed, or it was sent
    // urgent data, at which a read stops.
    is_ending: bool,
}

/// What dropping what a peer sends came to.
#[derive(Clone, Copy)]
pub(crate) enum Dropped {
    /// More may be there.
    More,
    /// No more is there now.
    All,
    /// The peer sends no more.
    Ended,
}

impl Watched {
    /// A connection of which no byte came.
    pub(crate) fn new(stream: TcpStream, now: Instant) -> Watched {
        Watched {
            stream,
            traffic: Traffic {
                came: false,
                sent: 0,
            },
            phase: Phase::Resting(now),
            is_queued: false,
            interest: reading(),
            is_drained: true,
            is_full: false,
            is_ending: false,
        }
    }

    /// Whether it is closed, and what its peer sends is dropped.
    pub(crate) fn is_leaving(&self) -> bool {
        match self.phase {
            Phase::Leaving(_) => true,
            Phase::Resting(_) => false,
            Phase::Busy { .. } => false,
        }
    }

    /// Whether it is between messages.
    pub(crate) fn is_resting(&self) -> bool {
        match self.phase {
            Phase::Resting(_) => true,
            Phase::Leaving(_) => false,
            Phase::Busy { .. } => false,
        }
    }

    /// Has the system report when it can be read, the first time.
    pub(crate) fn register(&mut self, registry: &Registry, number: u64) -> bool {
        registry
            .register(&mut self.stream, Token(number as usize), self.interest)
            .is_ok()
    }

    /// Notes what the system reported of it.
    pub(crate) fn note(&mut self, event: Event)
        ensures read { self.new.is_drained ≡ false }
        ensures written { self.new.is_full ≡ false }
    {
        self.is_drained = false;
        self.is_full = false;
        if event.is_read_closed() || event.is_error() || event.is_priority() {
            self.is_ending = true;
        }
    }

    /// Reads what came.
    pub(crate) fn read(&mut self, room: &mut [u8]) -> Moved
        ensures bound { MovesAtMost result room.new }
        ensures drained { (count : ℕ) → result ≡ Bytes count → self.new.is_drained ≡ true → (count < length room.new) × (self.old.is_ending ≡ false) }
    {
        match self.stream.read(room) {
            Ok(0) => Moved::Ended,
            Ok(count) => {
                self.traffic.came = true;
                self.is_drained = count < room.len() && !self.is_ending;
                Moved::Bytes(count)
            }
            Err(error) => {
                self.is_drained = is_blocked(error.kind());
                moved_by(error.kind())
            }
        }
    }

    /// Writes.
    pub(crate) fn write(&mut self, bytes: &[u8]) -> Moved
        ensures bound { MovesAtMost result bytes.now }
        ensures full { (count : ℕ) → result ≡ Bytes count → self.new.is_full ≡ true → count < length bytes.now }
    {
        match self.stream.write(bytes) {
            Ok(0) => Moved::Failed,
            Ok(count) => {
                self.traffic.sent = self.traffic.sent.saturating_add(count);
                self.is_full = count < bytes.len();
                Moved::Bytes(count)
            }
            Err(error) => {
                self.is_full = is_blocked(error.kind());
                moved_by(error.kind())
            }
        }
    }

    /// Whether it does after this turn what it did before, whatever the time.
    pub(crate) fn stays(&self, awaited: Awaited) -> bool {
        self.phase.stays(awaited, self.traffic)
    }

    /// What it does after this turn.
    pub(crate) fn end_turn(&mut self, awaited: Awaited, now: Instant) -> Phase {
        let traffic = self.traffic;
        self.traffic = Traffic {
            came: false,
            sent: 0,
        };
        self.phase.after(awaited, traffic, now)
    }

    /// Has the system report when the peer can be read or written. Where neither is waited for, it reports what it was
    /// asked to before. Answers whether it will; otherwise the peer may be ready now, without a report.
    pub(crate) fn watch(
        &mut self,
        registry: &Registry,
        number: u64,
        reads: bool,
        writes: bool,
    ) -> bool {
        let interest = match (reads, writes) {
            (true, true) => reading() | Interest::WRITABLE,
            (true, false) => reading(),
            (false, true) => Interest::WRITABLE,
            (false, false) => return true,
        };
        if interest == self.interest {
            return (!reads || self.is_drained) && (!writes || self.is_full);
        }
        self.change(registry, number, interest)
    }

    /// Has the system report this from now on, and at once where it is so already. Answers whether it will.
    fn change(&mut self, registry: &Registry, number: u64, interest: Interest) -> bool {
        let token = Token(number as usize);
        let is_changed = registry
            .reregister(&mut self.stream, token, interest)
            .is_ok();
        if is_changed {
            self.interest = interest;
        }
        is_changed
    }

    /// Has the system report it again, whatever it is ready for.
    pub(crate) fn report_again(&mut self, registry: &Registry, number: u64) {
        let _ = self.change(registry, number, reading() | Interest::WRITABLE);
    }

    /// Sends the peer the end.
    pub(crate) fn send_end(&mut self) -> bool {
        self.stream.shutdown(Shutdown::Write).is_ok()
    }

    /// Ends the connection, which the next read finds.
    pub(crate) fn shut_down(&mut self) {
        let _ = self.stream.shutdown(Shutdown::Both);
    }

    /// Drops what came.
    pub(crate) fn drop_pieces(&mut self) -> Dropped {
        let mut room = [0; PIECE];
        for _ in 0..READS {
            match self.read(&mut room) {
                Moved::Bytes(_) if self.is_drained => return Dropped::All,
                Moved::Bytes(_) => {}
                Moved::NotNow => return Dropped::All,
                Moved::Ended => return Dropped::Ended,
                Moved::Failed => return Dropped::Ended,
            }
        }
        Dropped::More
    }
}

/// What is waited for where the peer is read: bytes, its end, and urgent data.
fn reading() -> Interest {
    Interest::READABLE | Interest::PRIORITY
}

/// Whether a call that failed so found the socket not ready, so that the system reports when it is.
fn is_blocked(kind: ErrorKind) -> bool
    ensures { IsTrue result ↔ (kind ≡ ErrorKind.WouldBlock) }
{
    kind == ErrorKind::WouldBlock
}

/// What a call did that failed so.
fn moved_by(kind: ErrorKind) -> Moved
    ensures bound { (bytes : List ℕ) → MovesAtMost result bytes }
    ensures none { (count : ℕ) → result ≢ Bytes count }
{
    match kind {
        ErrorKind::WouldBlock | ErrorKind::Interrupted => Moved::NotNow,
        _ => Moved::Failed,
    }
}
