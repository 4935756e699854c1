//! Serving the connections of a listener.

ghost use Rattle.std.specs.Prelude.{◌≡◌, List};
ghost use Rattle.bsp_connection.specs.Conversations.{IsRun};
ghost use Rattle.bsp_connection.specs.Exchanges.{Exchange};
ghost use Rattle.bsp_http.specs.Messages.{at_desk};

use crate::kept::Failing;
use crate::log::Log;
use bsp_desk::{Book, Desk};
use bsp_http::{Awaited, Ending, Happened, Limits, Moved, Peers, Routes, ServeFault, serve_all};
use bsp_sockets::{Settings, Sockets};
use bsp_words::Limits as PortLimits;
use std::io::ErrorKind;
use std::net::TcpListener;
use std::time::Duration;
use thiserror::Error;

/// A port of 127.0.0.1, and how it is served.
#[derive(Clone, Copy)]
pub struct Port {
    /// From 1 to 65,535.
    pub port: u16,
    /// How many connections are served, and how long they are waited for.
    pub limits: PortLimits,
    /// Whether standard error has a line for each reply.
    pub log: bool,
}

/// Why the office stopped before its last connection.
#[derive(Clone, Copy, Debug, PartialEq, Eq, Error)]
pub enum ListenFault {
    /// The listener could not be watched.
    #[error("the port could not be watched: {0}")]
    Watch(ErrorKind),
    /// The peers could be waited for no more.
    #[error("the peers could be waited for no more")]
    Wait,
}

/// The sockets of a port, of which what goes wrong is logged.
#[derive(Drop)]
struct Logged<'l> {
    sockets: Sockets<'l, HostRuntime>,
    log: &'l Log<'l>,
    timeout: u32,
}

impl Peers for Logged<'_> {
    ghost did = { λ _ _ _. Unit {0} };

    fn next(&mut self) -> Happened {
        self.sockets.next()
    }

    fn accept(&mut self, number: u64) -> bool {
        self.sockets.accept(number)
    }

    fn read(&mut self, number: u64, room: &mut [u8]) -> Moved {
        let moved = self.sockets.read(number, room);
        if let Moved::Failed = moved {
            self.log.failed(number, ServeFault::Read);
        }
        moved
    }

    fn write(&mut self, number: u64, bytes: &[u8]) -> Moved {
        let moved = self.sockets.write(number, bytes);
        if let Moved::Failed = moved {
            self.log.failed(number, ServeFault::Write);
        }
        moved
    }

    fn watch(&mut self, number: u64, awaited: Awaited) {
        self.sockets.watch(number, awaited);
    }

    fn close(&mut self, number: u64, ending: Ending) {
        match ending {
            Ending::Late if !self.sockets.was_resting() => {
                self.log.late(number, self.timeout);
            }
            Ending::NoRoom => self.log.failed(number, ServeFault::Memory),
            Ending::Whole | Ending::Late | Ending::Failed => {}
        }
        self.sockets.close(number, ending);
    }
}

/// A time of so many seconds; with 0 without end.
fn patience(seconds: u32) -> Option<Duration> {
    match seconds {
        0 => None,
        seconds => Some(Duration::from_secs(u64::from(seconds))),
    }
}

/// The sockets of the listener.
fn sockets_of<'l>(
    rt: &'l HostRuntime,
    listener: TcpListener,
    limits: PortLimits,
) -> Result<Sockets<'l, HostRuntime>, ListenFault> {
    let settings = Settings {
        at_once: limits.peers as usize,
        timeout: patience(limits.timeout),
        idle: patience(limits.idle),
    };
    match Sockets::new(rt.alloc(), rt, listener, settings) {
        Ok(sockets) => Ok(sockets),
        Err(error) => Err(ListenFault::Watch(error.kind())),
    }
}

/// Serves the connections of a listener, so many at once, until as many as are wanted came and are gone.
///
/// It takes memory as [`serve_all`] does.
///
/// # Errors
///
/// `Watch` before a connection was accepted, `Wait` where the system reports no more. What the desk was asked before stays.
pub fn serve_on<B: Book + Failing>(
    rt: &HostRuntime,
    listener: TcpListener,
    wanted: PortLimits,
    log: &Log<'_>,
    routes: &Routes,
    desk: &mut Desk<B>,
) -> Result<(), ListenFault>
    ensures { (exchanges : List Exchange) × IsRun (at_desk B.means) desk.old exchanges desk.new }
{
    let sockets = sockets_of(rt, listener, wanted)?;
    let mut peers = Logged {
        sockets,
        log,
        timeout: wanted.timeout,
    };
    let limits = Limits {
        at_once: wanted.peers as usize,
        in_all: u64::from(wanted.connections),
    };
    let count = serve_all(rt.alloc(), routes, log, &mut peers, limits, desk);
    if count < limits.in_all {
        return Err(ListenFault::Wait);
    }
    peers.sockets.finish();
    Ok(())
}
