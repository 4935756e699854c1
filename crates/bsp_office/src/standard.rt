//! The standard descriptors.

use std::fs::{self, File, OpenOptions};
use std::io;

/// The files that take the places of standard descriptors which were closed.
#[derive(Drop)]
pub(crate) struct Held {
    _input: Option<io::Result<File>>,
    _output: Option<io::Result<File>>,
    _error: Option<io::Result<File>>,
}

/// Whether the system has this descriptor of the process open. It is the name of a file of Linux, see proc(5).
fn is_open(rt: &HostRuntime, descriptor: &str) -> bool {
    fs::metadata(rt, descriptor).is_ok()
}

/// Opens /dev/null for writing alone, or for reading alone.
fn null(rt: &HostRuntime, writes: bool) -> io::Result<File> {
    OpenOptions::new()
        .read(!writes)
        .write(writes)
        .open(rt, "/dev/null")
}

/// Opens /dev/null where this descriptor is closed.
fn in_place(rt: &HostRuntime, descriptor: &str, writes: bool) -> Option<io::Result<File>> {
    if is_open(rt, descriptor) {
        return None;
    }
    Some(null(rt, writes))
}

/// Opens /dev/null in place of each of the descriptors 0, 1 and 2 that is closed, in their order: the system gives a new
/// file the lowest descriptor that is free. Otherwise the first files and sockets that are opened get them, and a line of
/// the log is written into a book or to a peer.
///
/// A read of such an input fails, and so does a write to such an output, as before.
pub(crate) fn hold(rt: &HostRuntime) -> Held {
    Held {
        _input: in_place(rt, "/proc/self/fd/0", true),
        _output: in_place(rt, "/proc/self/fd/1", false),
        _error: in_place(rt, "/proc/self/fd/2", false),
    }
}
