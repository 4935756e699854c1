//! A turn of one connection: at most one read, one answer and one write.

ghost use Rattle.std.specs.Prelude.{◌≡◌, ◌≤◌, ◌<◌, length, take, List, [], true, false, ◌||◌, not, ◌==◌};
ghost use Rattle.bsp_streams.specs.Events.{Event};
ghost use Rattle.bsp_streams.specs.Moves.{Reads, Settles, Writes};
ghost use Rattle.bsp_streams.specs.Serving.{IsUnderWay, Turns};
ghost use Rattle.bsp_streams.specs.Talks.{HasAsked, IsTalk};

use crate::held::Held;
use crate::peers::{Awaited, Ending, Moved, Peers};
use crate::protocol::{Protocol, State};

/// From so many bytes on the output is written, though more can be answered.
const WRITE_FROM: usize = 16_384;

/// While so many bytes wait for a peer, nothing is answered.
const OUTPUT_LIMIT: usize = 65_536;

/// Whether the next bytes of the peer are wanted.
fn wants_bytes<D, R: Protocol<D>>(held: &Held<R::Connection>, protocol: &R) -> bool
    ensures empty { result ≡ true → R.front held.now.connection ≡ [] }
    ensures open { result ≡ true → held.now.ended ≡ false }
{
    let state = protocol.state(&held.connection);
    !held.ended
        && !state.is_closed
        && !state.has_more
        && protocol.output(&held.connection).is_empty()
}

/// Reads once. Answers how the connection ends, if it does.
fn read<P: Peers, D, R: Protocol<D>>(
    number: u64,
    held: &mut Held<R::Connection>,
    room: &mut [u8],
    peers: &mut P,
    protocol: &R,
) -> Option<Ending>
    requires { IsTalk R.talks held.old.connection }
    ensures { (event : Event) × P.did peers.old event peers.new × Reads R.talks number event held.old.connection held.new.connection result }
{
    match peers.read(number, room) {
        Moved::Bytes(count) => match protocol.feed(&mut held.connection, &room[..count]) {
            Ok(()) => None,
            Err(_) => Some(Ending::NoRoom),
        },
        Moved::NotNow => None,
        Moved::Ended => {
            held.ended = true;
            None
        }
        Moved::Failed => Some(Ending::Failed),
    }
}

/// Reads once, where the next bytes are wanted. Answers how the connection ends, if it does.
fn receive<P: Peers, D, R: Protocol<D>>(
    number: u64,
    held: &mut Held<R::Connection>,
    room: &mut [u8],
    peers: &mut P,
    protocol: &R,
) -> Option<Ending>
    requires { IsTalk R.talks held.old.connection }
    ensures { (d : D) → Turns P.did R.steps R.talks R.rests number held.old.connection held.new.connection result peers.old peers.new d d }
{
    if !wants_bytes(held, protocol) {
        return None;
    }
    read(number, held, room, peers, protocol)
}

/// Answers a message at most, and none while much output waits.
fn answer<D, R: Protocol<D>>(held: &mut Held<R::Connection>, protocol: &R, desk: &mut D)
    requires { IsTalk R.talks held.old.connection }
    ensures asked { HasAsked R.talks R.steps desk.old desk.new held.old.connection held.new.connection }
    ensures waits { OUTPUT_LIMIT ≤ length (R.front held.old.connection) → (held.new ≡ held.old) × (desk.new ≡ desk.old) }
{
    if protocol.output(&held.connection).len() < OUTPUT_LIMIT {
        protocol.go_on(&mut held.connection, desk);
    }
}

/// Whether output is written: once nothing more can be answered, or much waits.
fn is_due<D, R: Protocol<D>>(connection: &R::Connection, protocol: &R) -> bool
    ensures { result ≡ true → 0 < length (R.front connection.now) }
{
    let waiting = protocol.output(connection).len();
    waiting > 0 && (waiting >= WRITE_FROM || !protocol.state(connection).has_more)
}

/// Writes once. Answers how the connection ends, if it does.
fn write<P: Peers, D, R: Protocol<D>>(
    number: u64,
    connection: &mut R::Connection,
    peers: &mut P,
    protocol: &R,
) -> Option<Ending>
    ensures { (event : Event) × P.did peers.old event peers.new × Writes R.talks number event connection.old connection.new result }
{
    match peers.write(number, protocol.output(connection)) {
        Moved::Bytes(count) => {
            protocol.sent(connection, count);
            None
        }
        Moved::NotNow => None,
        Moved::Ended => Some(Ending::Failed),
        Moved::Failed => Some(Ending::Failed),
    }
}

/// Writes once, where output is due. Answers how the connection ends, if it does.
fn send<P: Peers, D, R: Protocol<D>>(
    number: u64,
    held: &mut Held<R::Connection>,
    peers: &mut P,
    protocol: &R,
) -> Option<Ending>
    ensures { (d : D) → Turns P.did R.steps R.talks R.rests number held.old.connection held.new.connection result peers.old peers.new d d }
{
    if !is_due(&held.connection, protocol) {
        return None;
    }
    write(number, &mut held.connection, peers, protocol)
}

/// What is waited for, where so many bytes of output wait, by whether the peer sends no more. It is something if and only if
/// the connection can go on, output waits, or more of the peer is taken.
fn awaited(state: State, waiting: usize, ended: bool) -> Awaited
    ensures { (result.reads || (result.writes || result.again)) ≡ (state.has_more || (not (waiting == 0) || not (ended || state.is_closed))) }
{
    Awaited {
        reads: waiting == 0 && !state.has_more && !state.is_closed && !ended,
        writes: waiting > 0,
        again: state.has_more && waiting < OUTPUT_LIMIT,
        message: state.message,
    }
}

/// Says what is waited for, unless all was sent and nothing more is answered. Answers how the connection ends, if it does.
fn settle<P: Peers, D, R: Protocol<D>>(
    number: u64,
    held: &Held<R::Connection>,
    peers: &mut P,
    protocol: &R,
) -> Option<Ending>
    ensures { Settles P.did R.rests peers.old peers.new held.now.connection result }
{
    let state = protocol.state(&held.connection);
    if state.is_done && (state.is_closed || held.ended) {
        return Some(Ending::Whole);
    }
    let waiting = protocol.output(&held.connection).len();
    peers.watch(number, awaited(state, waiting, held.ended));
    None
}

/// Goes on with a connection that is ready. Answers how it ends, if it does.
pub(crate) fn turn<P: Peers, D, R: Protocol<D>>(
    number: u64,
    held: &mut Held<R::Connection>,
    room: &mut [u8],
    peers: &mut P,
    protocol: &R,
    desk: &mut D,
) -> Option<Ending>
    requires { IsUnderWay P.did R.steps R.talks R.rests number held.old.connection peers.old desk.old }
    ensures { Turns P.did R.steps R.talks R.rests number held.old.connection held.new.connection result peers.old peers.new desk.old desk.new }
{
    if let Some(ending) = receive(number, held, room, peers, protocol) {
        return Some(ending);
    }
    answer(held, protocol, desk);
    if let Some(ending) = send(number, held, peers, protocol) {
        return Some(ending);
    }
    settle(number, held, peers, protocol)
}
