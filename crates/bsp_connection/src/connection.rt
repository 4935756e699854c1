//! One connection.

ghost use Rattle.std.specs.Prelude.{not, ◌&&◌, ◌≡◌, ◌⊎◌, ◌≤◌, ◌<◌, ◌+◌, [], length, take, true, false, IfOk, OnOk, OnErr};
ghost use Rattle.bsp_connection.specs.Begun.{BegunAt};
ghost use Rattle.bsp_connection.specs.Outputs.{HasOutput};
ghost use Rattle.bsp_connection.specs.Steps.{EndsAt};
ghost use Rattle.bsp_connection.specs.Talks.{HasTaken, IsFresh, IsSame, IsSent};

use crate::output::Output;
use crate::received::Received;
use crate::serving::End;
use bsp_fields::NoRoom;
use bsp_routes::{HeadParts, Scan};
use std::alloc::{AllocError, Global};

/// The most bytes that wait to be used, and those of one piece.
const ROOM: usize = 32_768;

/// A message whose head came, and whose body is to come.
#[derive(Copy)]
pub struct Begun<F> {
    /// How many bytes its head has.
    pub head: usize,
    /// What its head states.
    pub parts: HeadParts,
    /// What its method and its target ask for.
    pub found: F,
    /// How many bytes of its body are to come.
    pub left: usize,
}

impl<F: Copy> Clone for Begun<F> {
    fn clone(&self) -> Result<Self, AllocError> {
        Ok(*self)
    }
}

/// One connection: what came of the peer and is in no message yet, and what is to be sent.
#[derive(Drop)]
pub struct Connection<F: Copy, B> {
    pub(crate) alloc: Global,
    // For what is noted of its replies.
    pub(crate) number: u64,
    // What was received, a head that is read at its front; of a body that is begun what was passed on is dropped.
    pub(crate) received: Received,
    // The search for the end of a head, and how many bytes it has seen.
    pub(crate) scan: Scan,
    pub(crate) seen: usize,
    pub(crate) begun: Option<Begun<F>>,
    // What takes its body, where that is used.
    pub(crate) body: Option<B>,
    pub(crate) out: Output,
    // How many messages were answered.
    pub(crate) count: usize,
    // Whether the last answer closed the connection.
    pub(crate) closed: bool,
    // Whether what was received may have a message that is not answered.
    pub(crate) has_more: bool,
}

impl<F: Copy, B: Drop> Connection<F, B> {
    /// The connection of this number, of which nothing came. It takes no memory.
    pub fn new(alloc: Global, number: u64) -> Connection<F, B>
        ensures fresh { IsFresh result }
        ensures number { result.number ≡ number }
    {
        Connection {
            alloc,
            number,
            received: Received::new(alloc),
            scan: Scan::start(),
            seen: 0,
            begun: None,
            body: None,
            out: Output::new(alloc),
            count: 0,
            closed: false,
            has_more: false,
        }
    }

    /// The connection of this number, of which nothing came, with room for what may wait to be used and one piece of
    /// 16,384 bytes. `AllocError`: the room was refused.
    pub(crate) fn with_room(alloc: Global, number: u64) -> Result<Connection<F, B>, AllocError>
        ensures fresh { IfOk result IsFresh }
        ensures number { IfOk result (λ c. c.number ≡ number) }
        ensures room { IfOk result (λ c. 32768 ≤ c.received.room) }
    {
        let received = Received::with_room(alloc, ROOM)?;
        let mut connection = Connection::new(alloc, number);
        connection.received = received;
        Ok(connection)
    }

    /// Takes the next bytes of the peer. After an answer that closes the connection they are dropped.
    ///
    /// # Errors
    ///
    /// `NoRoom` where an allocation was refused. None of the bytes is taken then.
    pub fn feed(&mut self, piece: &[u8]) -> Result<(), NoRoom>
        ensures taken { OnOk result (HasTaken self.old piece.now self.new) }
        ensures refused { OnErr result (IsSame self.old self.new) }
        ensures full { OnErr result (self.old.received.room < length self.old.received.items + length piece.now) }
        ensures room { self.old.received.room ≤ self.new.received.room }
    {
        if self.closed {
            return Ok(());
        }
        self.received.take(piece)?;
        self.has_more = true;
        Ok(())
    }

    /// Gives the memory of what was received back, where all of it is used.
    pub(crate) fn give_back(&mut self)
        ensures { IsSame self.old self.new }
    {
        if self.received.is_empty() {
            self.received = Received::new(self.alloc);
        }
    }

    /// What is sent next: none if and only if all is sent.
    pub fn output(&self) -> &[u8]
        ensures { result.now ≡ self.now.out.front }
    {
        self.out.front()
    }

    /// Drops the first bytes of [`Connection::output`], which were sent.
    pub fn sent(&mut self, count: usize)
        requires { count ≤ length self.old.out.front }
        ensures { IsSent self.old (take count self.old.out.front) self.new }
    {
        self.out.sent(count);
    }

    /// Whether [`go_on`](crate::go_on) can go on with what came: more may be answered, and may be put out.
    pub fn can_go_on(&self) -> bool
        ensures { result ≡ (self.now.has_more && not self.now.out.apart) }
    {
        self.has_more && self.out.is_free()
    }

    /// Whether nothing more of the peer is taken.
    pub fn is_closed(&self) -> bool
        ensures { result ≡ self.now.closed }
    {
        self.closed
    }

    /// How the input ends, where it ends here.
    pub(crate) fn end_of_input(&self) -> End
        ensures { EndsAt self.now result }
    {
        if self.begun.is_none() && self.received.is_empty() {
            End::Clean
        } else {
            End::Cut
        }
    }

    /// Whether all that was put out is sent, and nothing that came can be answered.
    pub fn is_done(&self) -> bool
        ensures sent { result ≡ true → self.now.out.bytes ≡ [] }
        ensures waits { result ≡ true → self.now.closed ≡ false → self.now.has_more ≡ false }
        ensures not_done { result ≡ false → HasOutput self.now.out ⊎ ((self.now.closed ≡ false) × (self.now.has_more ≡ true)) }
    {
        self.out.is_empty() && (self.closed || !self.has_more)
    }

    /// The message that is begun and not whole, by how many were answered before it; none between messages.
    pub fn begun(&self) -> Option<usize>
        ensures { BegunAt self.now result }
    {
        if self.begun.is_none() && self.received.is_empty() {
            return None;
        }
        Some(self.count)
    }
}
