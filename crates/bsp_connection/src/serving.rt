//! Serving one connection.

ghost use Rattle.std.specs.Prelude.{◌≡◌, ◌≢◌, ◌⊎◌, ◌<◌, ◌≤◌, ◌+◌, ◌==◌, ℕ, true, false, List, [], ◌++◌, length, None, Some, Ok, Err, IfOk, OnOk, OnErr};
ghost use Rattle.std.specs.Io.KnownBytes.{Appends, Consumes, IsAtEnd};
ghost use Rattle.bsp_connection.specs.Begun.{HasUnread};
ghost use Rattle.bsp_connection.specs.Ends.{IsInputEnd};
ghost use Rattle.bsp_connection.specs.Reads.{failed_by_reads, most_empty, most_empty_of_turn};
ghost use Rattle.bsp_connection.specs.Serving.{Serves};
ghost use Rattle.bsp_connection.specs.Steps.{WasRead, WasStep};
ghost use Rattle.bsp_connection.specs.Talks.{IsFresh, IsSame, IsSent};
ghost use Rattle.bsp_streams.specs.Written.{IsWritten};

use crate::answering::go_on;
use crate::connection::Connection;
use crate::received::up_to;
use crate::service::Service;
use bsp_streams::{Noted, WriteFault, send_all, send_on};
use std::alloc::Global;
use std::io::{Read, Write};
use thiserror::Error;

/// How a connection ended.
#[derive(Clone, Copy, PartialEq, Eq)]
pub enum End {
    /// The input ended behind a message, or before the first.
    Clean,
    /// The input ended within a message.
    Cut,
    /// The last response closed the connection.
    Closed,
}

/// Why a connection was not served to its end.
#[derive(Clone, Copy, Debug, PartialEq, Eq, Error)]
pub enum ServeFault {
    /// A read failed.
    #[error("the peer's bytes could not be read")]
    Read,
    /// A write failed, or took no byte.
    #[error("a response could not be written")]
    Write,
    /// There was no memory for the connection. Nothing was read or written.
    #[error("no memory for the connection")]
    Memory,
}

/// What was served of a connection.
#[derive(Clone, Copy, PartialEq, Eq)]
pub struct Served {
    /// How many messages were answered, refusals among them; interim responses are not counted.
    pub messages: usize,
    /// How the connection ended.
    pub end: End,
}

/// The number of a connection that is served alone.
const ALONE: u64 = 0;

/// The bytes that are read at once.
const PIECE: usize = 16_384;

/// Whether the texts have no byte.
fn are_empty(texts: (&[u8], &[u8], &[u8])) -> bool
    ensures { result ≡ (length (texts.entry.0.now ++ (texts.entry.1.now ++ texts.entry.2.now)) == 0) }
{
    texts.0.is_empty() && texts.1.is_empty() && texts.2.is_empty()
}

/// Writes all that is put out. Where nothing is, the writer is not called.
fn send_out<W: Write, F: Copy, B: Drop>(
    c: &mut Connection<F, B>,
    writer: &mut Noted<W>,
) -> Result<(), WriteFault>
    ensures written { IsWritten (W.contents writer.old.inner) (W.contents writer.new.inner) c.old.out.bytes result }
    ensures sent { OnOk result (IsSent c.old c.old.out.bytes c.new) }
    ensures free { OnOk result ((c.new.out.bytes ≡ []) × (c.new.out.apart ≡ false)) }
    ensures kept { OnErr result (IsSame c.old c.new) }
    ensures some { OnErr result (c.old.out.bytes ≢ []) }
    ensures cause { OnErr result (writer.new.failed ≡ true) }
    ensures noted { writer.old.failed ≡ true → writer.new.failed ≡ true }
    ensures room { c.new.received.room ≡ c.old.received.room }
{
    let texts = c.out.parts();
    if !are_empty(texts) {
        send_all(writer, texts)?;
    }
    c.out.clear();
    Ok(())
}

/// Reads once, and has the connection take what came. The peer was sent what the writer held back.
fn receive<R: Read, W: Write, F: Copy, B: Drop>(
    c: &mut Connection<F, B>,
    room: &mut [u8],
    reader: &mut Noted<R>,
    _writer: &Noted<W>,
) -> Result<Option<End>, ServeFault>
    requires sent { _writer.now.pending ≡ false }
    requires short { length c.old.received.items ≤ 16384 }
    requires unclosed { c.old.closed ≡ false }
    requires capacity { 32768 ≤ c.old.received.room }
    requires piece { length room.old ≡ 16384 }
    ensures read { (got : List ℕ) × Consumes (R.remaining reader.old.inner) (R.remaining reader.new.inner) got × WasRead got c.old c.new result }
    ensures end { IfOk result (λ end. end ≢ None → IsAtEnd (R.remaining reader.new.inner)) }
    ensures failed { reader.new.failed ≡ failed_by_reads reader.old.failed result }
    ensures empty { reader.new.empty ≤ reader.old.empty + most_empty_of_turn result }
    ensures room { c.old.received.room ≤ c.new.received.room }
    ensures piece { length room.new ≡ 16384 }
{
    let count = match reader.read(room) {
        Ok(0) => return Ok(Some(c.end_of_input())),
        Ok(count) => count,
        Err(_) => return Err(ServeFault::Read),
    };
    let Ok(()) = c.feed(up_to(room, count)) else {
        unreachable!()
    };
    Ok(None)
}

/// Goes on with what came, writes what is put out for it, and where nothing more can be answered reads once. None: the
/// connection goes on.
fn step<R: Read, W: Write, D, S: Service<D>>(
    c: &mut Connection<S::Found, S::Body>,
    room: &mut [u8],
    reader: &mut Noted<R>,
    writer: &mut Noted<W>,
    service: &S,
    desk: &mut D,
) -> Result<Option<End>, ServeFault>
    requires has { (unread : List ℕ) × HasUnread S.reads S.means.uses c.old unread }
    requires none { c.old.out.bytes ≡ [] }
    requires free { c.old.out.apart ≡ false }
    requires unclosed { c.old.closed ≡ false }
    requires capacity { 32768 ≤ c.old.received.room }
    requires piece { length room.old ≡ 16384 }
    ensures step { (got : List ℕ) × (text : List ℕ) × Consumes (R.remaining reader.old.inner) (R.remaining reader.new.inner) got
        × Appends (W.contents writer.old.inner) (W.contents writer.new.inner) text × WasStep S.means S.reads got text c.old c.new desk.old desk.new result }
    ensures end { IfOk result (λ end. (end ≡ Some End.Clean) ⊎ (end ≡ Some End.Cut) → IsAtEnd (R.remaining reader.new.inner)) }
    ensures failed { reader.new.failed ≡ failed_by_reads reader.old.failed result }
    ensures empty { reader.new.empty ≤ reader.old.empty + most_empty_of_turn result }
    ensures cause { result ≡ Err ServeFault.Write → writer.new.failed ≡ true }
    ensures noted { writer.old.failed ≡ true → writer.new.failed ≡ true }
    ensures room { c.old.received.room ≤ c.new.received.room }
    ensures piece { length room.new ≡ 16384 }
{
    go_on(c, service, desk);
    let Ok(()) = send_out(c, writer) else {
        return Err(ServeFault::Write);
    };
    if c.is_closed() {
        return Ok(Some(End::Closed));
    }
    if c.has_more {
        return Ok(None);
    }
    send_on(writer);
    receive(c, room, reader, writer)
}

/// Serves the connection to its end, with a room for what is read at once.
fn serve_with<R: Read, W: Write, D, S: Service<D>>(
    c: &mut Connection<S::Found, S::Body>,
    room: &mut [u8],
    reader: &mut Noted<R>,
    writer: &mut Noted<W>,
    service: &S,
    desk: &mut D,
) -> Result<Served, ServeFault>
    requires fresh { IsFresh c.old }
    requires capacity { 32768 ≤ c.old.received.room }
    requires piece { length room.old ≡ 16384 }
    ensures conversation { (got : List ℕ) × Consumes (R.remaining reader.old.inner) (R.remaining reader.new.inner) got
        × Serves S.means got desk.old desk.new (W.contents writer.old.inner) (W.contents writer.new.inner) result }
    ensures end { IfOk result (λ served. IsInputEnd served.end → IsAtEnd (R.remaining reader.new.inner)) }
    ensures read_cause { reader.new.failed ≡ failed_by_reads reader.old.failed result }
    ensures write_cause { result ≡ Err ServeFault.Write → writer.new.failed ≡ true }
    ensures noted { writer.old.failed ≡ true → writer.new.failed ≡ true }
    ensures reads { reader.new.empty ≤ reader.old.empty + most_empty result }
{
    'steps: loop {
        match step(c, room, reader, writer, service, desk) {
            Ok(None) => {}
            Ok(Some(end)) => {
                return Ok(Served {
                    messages: c.count,
                    end,
                });
            }
            Err(fault) => return Err(fault),
        }
    }
}

/// Serves one connection to its end: reads its messages, one after the other, has each answered at the desk, and writes
/// the responses.
///
/// A writer that holds bytes back, as a `BufWriter` does, is flushed before the peer is waited for; who passes one
/// flushes it in the end.
///
/// It takes memory for the connection, of a fixed size, for bodies, and for small responses that are written together.
///
/// # Errors
///
/// `Memory` before anything was read or written. `Read` where a read failed: exactly the messages that were
/// complete were answered. `Write` where a write failed, or took no byte: a first part of the responses was
/// written, and what the desk was asked before stays. No more is written once a call of the writer has failed.
pub fn serve<R: Read, W: Write, D, S: Service<D>>(
    alloc: Global,
    reader: &mut Noted<R>,
    writer: &mut Noted<W>,
    service: &S,
    desk: &mut D,
) -> Result<Served, ServeFault>
    ensures conversation { (got : List ℕ) × Consumes (R.remaining reader.old.inner) (R.remaining reader.new.inner) got
        × Serves S.means got desk.old desk.new (W.contents writer.old.inner) (W.contents writer.new.inner) result }
    ensures end { IfOk result (λ served. IsInputEnd served.end → IsAtEnd (R.remaining reader.new.inner)) }
    ensures read_cause { reader.new.failed ≡ failed_by_reads reader.old.failed result }
    ensures write_cause { result ≡ Err ServeFault.Write → writer.new.failed ≡ true }
    ensures noted { writer.old.failed ≡ true → writer.new.failed ≡ true }
    ensures reads { reader.new.empty ≤ reader.old.empty + most_empty result }
{
    let Ok(mut c) = Connection::with_room(alloc, ALONE) else {
        return Err(ServeFault::Memory);
    };
    let mut room = [0; PIECE];
    serve_with(&mut c, &mut room, reader, writer, service, desk)
}
