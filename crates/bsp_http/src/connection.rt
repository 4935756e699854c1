//! Serving connections at the office's desk: one, or all of a listener.

ghost use Rattle.std.specs.Prelude.{◌≡◌, ℕ, ◌+◌, ◌≤◌, true, List, Err, IfOk};
ghost use Rattle.std.specs.Io.KnownBytes.{Consumes, IsAtEnd};
ghost use Rattle.bsp_connection.specs.Ends.{IsInputEnd};
ghost use Rattle.bsp_connection.specs.Reads.{failed_by_reads, most_empty};
ghost use Rattle.bsp_connection.specs.Serving.{Serves};
ghost use Rattle.bsp_connection.specs.Conversations.{IsRun};
ghost use Rattle.bsp_connection.specs.Exchanges.{Exchange};
ghost use Rattle.bsp_http.specs.Messages.{at_desk};
ghost use Rattle.bsp_http.specs.Serving.{IsServedAll};

use crate::journal::Journal;
use crate::office::Office;
use bsp_connection::{Http, ServeFault, Served};
use bsp_desk::{Book, Desk};
use bsp_routes::Routes;
use bsp_streams::{Limits, Noted, Peers};
use std::alloc::Global;
use std::io::{Read, Write};

/// Serves one connection to its end: answers its messages at the desk, one behind the other, and writes the
/// responses. The journal takes note of each reply before it is written.
///
/// A writer that holds bytes back, as a `BufWriter` does, is flushed before the peer is waited for; who passes one
/// flushes it in the end.
///
/// It takes memory for the connection, of a fixed size, for bodies, and for what the desk answers.
///
/// # Errors
///
/// `Memory` before anything was read or written. `Read` where a read failed: exactly the messages that were
/// complete were answered. `Write` where a write failed, or took no byte: a first part of the responses was
/// written, and the changes that were committed stay. No more is written once a call of the writer has failed.
pub fn serve<R: Read, W: Write, B: Book, J: Journal<B>>(
    alloc: Global,
    routes: &Routes,
    journal: &J,
    reader: &mut Noted<R>,
    writer: &mut Noted<W>,
    desk: &mut Desk<B>,
) -> Result<Served, ServeFault>
    ensures conversation { (got : List ℕ) × Consumes (R.remaining reader.old.inner) (R.remaining reader.new.inner) got
        × Serves (at_desk B.means) got desk.old desk.new (W.contents writer.old.inner) (W.contents writer.new.inner) result }
    ensures end { IfOk result (λ served. IsInputEnd served.end → IsAtEnd (R.remaining reader.new.inner)) }
    ensures read_cause { reader.new.failed ≡ failed_by_reads reader.old.failed result }
    ensures write_cause { result ≡ Err ServeFault.Write → writer.new.failed ≡ true }
    ensures noted { writer.old.failed ≡ true → writer.new.failed ≡ true }
    ensures reads { reader.new.empty ≤ reader.old.empty + most_empty result }
{
    let office = Office {
        alloc,
        routes,
        journal,
    };
    bsp_connection::serve(alloc, reader, writer, &office, desk)
}

/// Serves the connections of all peers in one thread, until as many as `limits` has in all came and are gone, or the peers
/// can be waited for no more. Answers how many came. The journal takes note of each reply before it is put out.
///
/// What the desk is asked is one list over all connections. The bytes of each connection are the responses to its own
/// messages, in order.
///
/// It takes memory for each connection by what came of it and is not used, for bodies, for what the desk answers, and for
/// small responses that are sent together.
pub fn serve_all<P: Peers, B: Book, J: Journal<B>>(
    alloc: Global,
    routes: &Routes,
    journal: &J,
    peers: &mut P,
    limits: Limits,
    desk: &mut Desk<B>,
) -> u64
    ensures served { IsServedAll P.did (at_desk B.means) peers.old peers.new desk.old desk.new limits.in_all result }
    ensures run { (exchanges : List Exchange) × IsRun (at_desk B.means) desk.old exchanges desk.new }
{
    let office = Office {
        alloc,
        routes,
        journal,
    };
    let protocol = Http {
        alloc,
        service: &office,
    };
    bsp_streams::serve_all(alloc, peers, limits, &protocol, desk)
}
