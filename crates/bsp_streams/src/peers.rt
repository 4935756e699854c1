//! The peers of a server, whatever carries their bytes.

ghost use Rattle.bsp_streams.specs.Bounds.{MovesAtMost};
ghost use Rattle.bsp_streams.specs.Events.{Event, read_event, write_event};
ghost use Rattle.bsp_streams.specs.Events.Event.{happened, quiet, closed};

/// What happened.
#[derive(Clone, Copy)]
pub enum Happened {
    /// Nothing that asks for anything.
    Nothing,
    /// A peer wants to connect.
    Arrival,
    /// The connection of this number can be read or written, or its turn has come again.
    Ready(u64),
    /// The time of the connection of this number is over, or its place is needed.
    Late(u64),
    /// The peers can be waited for no more.
    Stop,
}

/// What a read or a write did.
#[derive(Clone, Copy)]
pub enum Moved {
    /// So many bytes came, or were taken.
    Bytes(usize),
    /// None came or was taken, and a wait says when one may be.
    NotNow,
    /// The peer sends no more, or takes no more.
    Ended,
    /// It failed.
    Failed,
}

/// For what of a connection is waited.
#[derive(Clone, Copy)]
pub struct Awaited {
    /// Bytes of the peer.
    pub reads: bool,
    /// That the peer takes bytes.
    pub writes: bool,
    /// Nothing: its turn comes again after that of the others which are ready.
    pub again: bool,
    /// The message that is begun and not whole, by how many came before it; none between messages.
    pub message: Option<usize>,
}

/// How a connection ends.
#[derive(Clone, Copy)]
pub enum Ending {
    /// All that was to be sent was sent, and nothing more is answered.
    Whole,
    /// Its time is over, or its place was needed.
    Late,
    /// A read or a write failed, or the peer takes no more.
    Failed,
    /// Out of memory for what the peer sent.
    NoRoom,
}

/// Peers, whose connections have numbers that the server gives them: 0, 1, 2 and so on, each once.
pub trait Peers {
    // What one call did.
    ghost did: { Self → Event → Self → Type 0 };

    /// Waits until something happens.
    fn next(&mut self) -> Happened
        ensures { Self.did self.old (happened result) self.new };

    /// Accepts a connection under this number, if one waits: bytes of its peer are waited for from then on. Answers whether
    /// it did.
    fn accept(&mut self, number: u64) -> bool
        ensures { Self.did self.old quiet self.new };

    /// Reads what came on a connection, at most as much as there is room for.
    fn read(&mut self, number: u64, room: &mut [u8]) -> Moved
        ensures bound { MovesAtMost result room.new }
        ensures did { Self.did self.old (read_event number result room.new) self.new };

    /// Writes a first part of the bytes to a connection: as much as it takes now.
    fn write(&mut self, number: u64, bytes: &[u8]) -> Moved
        ensures bound { MovesAtMost result bytes.now }
        ensures did { Self.did self.old (write_event number result bytes.now) self.new };

    /// Says for what of a connection is waited.
    fn watch(&mut self, number: u64, awaited: Awaited)
        ensures { Self.did self.old quiet self.new };

    /// Closes a connection, whose number is not used again.
    fn close(&mut self, number: u64, ending: Ending)
        ensures { Self.did self.old (closed number ending) self.new };
}
