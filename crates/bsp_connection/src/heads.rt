//! Seeking the end of a head in what was received.

ghost use Rattle.std.specs.Prelude.{◌≡◌, ◌≤◌, ◌<◌, length, take, None, Some};
ghost use Rattle.bsp_routes.specs.Scan.{HasScanned, head_len};
ghost use Rattle.bsp_connection.specs.Seeking.{IsAnswer};

use bsp_routes::{HEAD_LIMIT, Scan};

/// What is found where a head is sought.
#[derive(Clone, Copy)]
pub(crate) enum Sought {
    /// A head of so many bytes, at most 16,384.
    Head(usize),
    /// No head ends in the first 16,384 bytes.
    TooLong,
    /// No head ends, and fewer bytes came.
    Nothing,
}

/// Goes on with the search for the end of a head, in the bytes after those that it has seen.
fn search_on(scan: &mut Scan, received: &[u8], seen: usize) -> Option<usize>
    requires within { seen ≤ length received.now }
    requires seen { HasScanned (take seen received.now) scan.old }
    ensures found { result ≡ head_len received.now }
    ensures scanned { result ≡ None → HasScanned received.now scan.new }
{
    let Some(more) = scan.go_on(&received[seen..]) else {
        return None;
    };
    Some(seen + more)
}

/// Seeks the end of the head at the front.
pub(crate) fn seek(scan: &mut Scan, received: &[u8], seen: usize) -> Sought
    requires within { seen ≤ length received.now }
    requires seen { HasScanned (take seen received.now) scan.old }
    ensures { IsAnswer received.now result scan.new }
{
    match search_on(scan, received, seen) {
        Some(len) if len <= HEAD_LIMIT => Sought::Head(len),
        Some(_) => Sought::TooLong,
        None if received.len() >= HEAD_LIMIT => Sought::TooLong,
        None => Sought::Nothing,
    }
}
