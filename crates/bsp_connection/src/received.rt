//! What was received and is in no message yet.

ghost use Rattle.std.specs.Prelude.{◌≡◌, ◌≤◌, ◌<◌, ◌+◌, ◌==◌, [], ◌++◌, length, take, drop, IfOk, OnOk, OnErr, vec_capacity};

use std::alloc::{AllocError, Global};
use std::marker::Model;

/// Bytes that come at the end, and go at the front. A contract sees them, and how many there is room for.
///
/// What goes at the front keeps its place until more comes. So the messages that came in one piece are not moved, each
/// time one is answered.
#[derive(Drop)]
pub(crate) struct Received {
    bytes: Vec<u8>,
    // How many bytes at the front are gone.
    gone: usize,
}

impl Model for Received {
    ghost use Rattle.std.specs.Prelude.{length, ◌≤◌, drop, vec_capacity};
    ghost use Rattle.bsp_connection.specs.Waiting.{Waiting};

    ghost Value = { Waiting };

    ghost view = { λ r. record { items = drop r.gone r.bytes.items; room = vec_capacity r.bytes } };

    ghost invariant = { λ r. r.gone ≤ length r.bytes.items };
}

/// The bytes from here on.
pub(crate) fn from(bytes: &[u8], at: usize) -> &[u8]
    requires { at ≤ length bytes.now }
    ensures { result.now ≡ drop at bytes.now }
{
    &bytes[at..]
}

/// The first bytes.
pub(crate) fn up_to(bytes: &[u8], count: usize) -> &[u8]
    requires { count ≤ length bytes.now }
    ensures value { result.now ≡ take count bytes.now }
    ensures len { length result.now ≡ count }
{
    &bytes[..count]
}

/// Drops the first bytes.
fn to_front(bytes: &mut Vec<u8>, count: usize)
    requires { count ≤ length bytes.old.items }
    ensures items { bytes.new.items ≡ drop count bytes.old.items }
    ensures room { vec_capacity bytes.new ≡ vec_capacity bytes.old }
{
    bytes.drain(..count);
}

/// Drops so many bytes from a place on.
fn drop_within(bytes: &mut Vec<u8>, at: usize, count: usize)
    requires { at + count ≤ length bytes.old.items }
    ensures items { bytes.new.items ≡ take at bytes.old.items ++ drop (at + count) bytes.old.items }
    ensures room { vec_capacity bytes.new ≡ vec_capacity bytes.old }
{
    bytes.drain(at..at + count);
}

impl Received {
    /// No bytes. It takes no memory.
    pub(crate) fn new(alloc: Global) -> Received
        ensures { result.items ≡ [] }
    {
        Received {
            bytes: Vec::new(alloc),
            gone: 0,
        }
    }

    /// No bytes, with room for so many. `AllocError`: the room was refused.
    pub(crate) fn with_room(alloc: Global, room: usize) -> Result<Received, AllocError>
        ensures none { IfOk result (λ r. r.items ≡ []) }
        ensures room { IfOk result (λ r. room ≤ r.room) }
    {
        let mut bytes = Vec::new(alloc);
        bytes.reserve(room)?;
        Ok(Received { bytes, gone: 0 })
    }

    /// The bytes.
    pub(crate) fn bytes(&self) -> &[u8]
        ensures { result.now ≡ self.now.items }
    {
        from(&self.bytes, self.gone)
    }

    /// How many bytes there are.
    pub(crate) fn len(&self) -> usize
        ensures { result ≡ length self.now.items }
    {
        self.bytes.len() - self.gone
    }

    /// Whether there are none.
    pub(crate) fn is_empty(&self) -> bool
        ensures { result ≡ (length self.now.items == 0) }
    {
        self.len() == 0
    }

    /// Takes the next bytes. `AllocError`: an allocation was refused, and none of them is taken.
    pub(crate) fn take(&mut self, piece: &[u8]) -> Result<(), AllocError>
        ensures taken { OnOk result (self.new.items ≡ self.old.items ++ piece.now) }
        ensures refused { OnErr result (self.new.items ≡ self.old.items) }
        ensures full { OnErr result (self.old.room < length self.old.items + length piece.now) }
        ensures room { self.old.room ≤ self.new.room }
    {
        to_front(&mut self.bytes, self.gone);
        self.gone = 0;
        self.bytes.extend_from_slice(piece)
    }

    /// Drops the first bytes.
    pub(crate) fn drop_front(&mut self, count: usize)
        requires { count ≤ length self.old.items }
        ensures items { self.new.items ≡ drop count self.old.items }
        ensures room { self.new.room ≡ self.old.room }
    {
        self.gone += count;
    }

    /// Drops so many bytes from a place on.
    pub(crate) fn cut_out(&mut self, at: usize, count: usize)
        requires { at + count ≤ length self.old.items }
        ensures items { self.new.items ≡ take at self.old.items ++ drop (at + count) self.old.items }
        ensures room { self.new.room ≡ self.old.room }
    {
        if count == 0 {
            return;
        }
        to_front(&mut self.bytes, self.gone);
        self.gone = 0;
        drop_within(&mut self.bytes, at, count);
    }
}
