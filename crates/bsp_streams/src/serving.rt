//! Serving all connections.

ghost use Rattle.std.specs.Prelude.{◌≡◌, ◌≤◌, ◌<◌, ◌+◌, ◌⊎◌, None};
ghost use Rattle.std.specs.BTreeMap.{UpdatesBy, btree_map_len};
ghost use Rattle.std.specs.Ordering.{nat_cmp};
ghost use Rattle.bsp_streams.specs.Serving.{Goes, IsServing, Served, Steps};

use crate::held::{Held, Table};
use crate::peers::{Ending, Happened, Peers};
use crate::protocol::Protocol;
use crate::turn::turn;
use std::alloc::Global;
use std::collections::BTreeMap;

/// The most bytes that are read at once.
const PIECE: usize = 16_384;

/// How many connections are served.
#[derive(Clone, Copy)]
pub struct Limits {
    /// The most connections at once.
    pub at_once: usize,
    /// The connections in all.
    pub in_all: u64,
}

/// Accepts a connection, if one waits and there is a place for it.
fn admit<P: Peers, D, R: Protocol<D>>(
    limits: Limits,
    peers: &mut P,
    table: &mut Table<R::Connection>,
    protocol: &R,
)
    ensures goes { (d : D) → Goes P.did R.steps R.talks R.rests peers.old peers.new d d table.old table.new }
    ensures given { (table.new.next ≡ table.old.next) ⊎ ((table.new.next ≡ table.old.next + 1) × (table.old.next < limits.in_all) × (btree_map_len table.old.held < limits.at_once)) }
{
    let number = table.next;
    if table.held.len() >= limits.at_once || number >= limits.in_all {
        return;
    }
    if !peers.accept(number) {
        return;
    }
    table.next = number + 1;
    let held = Held {
        connection: protocol.open(number),
        ended: false,
    };
    match table.held.insert(number, held) {
        Ok(_) => {}
        Err(_) => peers.close(number, Ending::NoRoom),
    }
}

/// Ends a connection whose time is over, or whose place is needed.
fn drop_late<P: Peers, D, R: Protocol<D>>(
    number: u64,
    peers: &mut P,
    table: &mut Table<R::Connection>,
)
    ensures goes { (d : D) → Goes P.did R.steps R.talks R.rests peers.old peers.new d d table.old table.new }
    ensures given { table.new.next ≡ table.old.next }
{
    let Some(_) = table.held.remove(&number) else {
        return;
    };
    peers.close(number, Ending::Late);
}

/// Drops a connection.
fn drop_held<C: Drop>(number: u64, table: &mut BTreeMap<u64, Held<C>>)
    ensures { UpdatesBy nat_cmp (nat_cmp number) table.old table.new None }
{
    table.remove(&number);
}

/// Goes on with a connection that can be read or written.
fn attend<P: Peers, D, R: Protocol<D>>(
    number: u64,
    room: &mut [u8],
    peers: &mut P,
    table: &mut Table<R::Connection>,
    protocol: &R,
    desk: &mut D,
)
    requires { IsServing P.did R.steps R.talks R.rests peers.old desk.old table.old }
    ensures goes { Goes P.did R.steps R.talks R.rests peers.old peers.new desk.old desk.new table.old table.new }
    ensures given { table.new.next ≡ table.old.next }
{
    let Some(held) = table.held.get_mut(&number) else {
        return;
    };
    if let Some(ending) = turn(number, held, room, peers, protocol, desk) {
        drop_held(number, &mut table.held);
        peers.close(number, ending);
    }
}

/// Waits until something happens, and does what it asks for. Answers whether the peers can be waited for again.
fn step<P: Peers, D, R: Protocol<D>>(
    limits: Limits,
    room: &mut [u8],
    peers: &mut P,
    table: &mut Table<R::Connection>,
    protocol: &R,
    desk: &mut D,
) -> bool
    requires { IsServing P.did R.steps R.talks R.rests peers.old desk.old table.old }
    ensures steps { Steps P.did R.steps R.talks R.rests peers.old peers.new desk.old desk.new table.old table.new result }
    ensures given { table.old.next ≤ limits.in_all → table.new.next ≤ limits.in_all }
{
    match peers.next() {
        Happened::Nothing => true,
        Happened::Arrival => {
            admit(limits, peers, table, protocol);
            true
        }
        Happened::Ready(number) => {
            attend(number, room, peers, table, protocol, desk);
            true
        }
        Happened::Late(number) => {
            drop_late::<P, D, R>(number, peers, table);
            true
        }
        Happened::Stop => false,
    }
}

/// Serves connections until as many as `limits` has in all came and are gone, or the peers can be waited for no more, or
/// they were waited for 2^64 - 1 times. Answers how many came: they have the numbers below that. Those that are held at
/// the end are dropped.
///
/// Each connection that is ready has one turn, whatever the others do: at most one read, one answer and one write. It is
/// read once no output waits and nothing that came can be answered, and answered while less than 65,536 bytes wait.
/// A connection for which there is no memory is closed.
pub fn serve_all<P: Peers, D, R: Protocol<D>>(
    alloc: Global,
    peers: &mut P,
    limits: Limits,
    protocol: &R,
    desk: &mut D,
) -> u64
    ensures served { Served P.did R.steps R.talks R.rests peers.old peers.new desk.old desk.new limits.in_all result }
    ensures within { result ≤ limits.in_all }
{
    let mut table = Table {
        held: BTreeMap::new(alloc),
        next: 0,
    };
    let mut room = [0; PIECE];
    'turns: for _ in 0..u64::MAX {
        if table.next >= limits.in_all && table.held.is_empty() {
            break;
        }
        if !step(limits, &mut room, peers, &mut table, protocol, desk) {
            break;
        }
    }
    table.next
}
