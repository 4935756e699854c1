//! Reading the whole of an input that has a limit.
ghost use Rattle.std.specs.Prelude.{◌≡◌, ◌≢◌, ◌≤◌, ◌<◌, ◌+◌, ◌++◌, ◌⊎◌, ℕ, List, length, true, false, IfOk, OnErr, Ok, Err};
ghost use Rattle.std.specs.Io.KnownBytes.{Consumes, IsAtEnd};

use crate::fault::Fault;
use bsp_streams::Noted;
use std::alloc::{AllocError, Global};
use std::io::Read;

const ROOM: usize = 65_536;

fn new_room(alloc: Global, len: usize) -> Result<Vec<u8>, AllocError>
    ensures { IfOk result (λ room. length room.items ≡ len) }
{
    Vec::from_elem(alloc, 0u8, len)
}

/// Reads once and keeps the bytes. It answers whether there may be more.
pub fn read_piece<R: Read>(
    reader: &mut Noted<R>,
    room: &mut [u8],
    all: &mut Vec<u8>,
) -> Result<bool, Fault>
    ensures piece { IfOk result (λ more. (got : List ℕ) × Consumes (R.remaining reader.old.inner) (R.remaining reader.new.inner) got
        × (all.new.items ≡ all.old.items ++ got) × (length got ≤ length room.old)) }
    ensures end { result ≡ Ok false → 0 < length room.old → IsAtEnd (R.remaining reader.new.inner) }
    ensures more { result ≡ Ok true → length all.old.items < length all.new.items }
    ensures same { result ≡ Ok false → all.new.items ≡ all.old.items }
    ensures stopped { OnErr result ((got : List ℕ) × Consumes (R.remaining reader.old.inner) (R.remaining reader.new.inner) got × (length got ≤ length room.old)) }
    ensures fault { OnErr result ((result ≡ Err Fault.Read) ⊎ (result ≡ Err Fault.Memory)) }
    ensures cause { result ≡ Err Fault.Read → reader.new.failed ≡ true }
{
    match reader.read(room) {
        Ok(0) => Ok(false),
        Ok(n) => match all.extend_from_slice(&room[..n]) {
            Ok(()) => Ok(true),
            Err(_) => Err(Fault::Memory),
        },
        Err(_) => Err(Fault::Read),
    }
}

#[tactic(auto, using(crate::proofs::Pieces::taken_none, crate::proofs::Pieces::taken_more, crate::proofs::Pieces::piece_stops, crate::proofs::Pieces::stops_here, crate::proofs::Pieces::within_more))]
/// Reads to the end of an input of at most `limit` bytes. Of a longer one it takes one byte more.
pub fn read_whole<R: Read>(
    alloc: Global,
    reader: &mut Noted<R>,
    limit: usize,
) -> Result<Vec<u8>, Fault>
    requires { limit < usize.MAX }
    ensures whole { IfOk result (λ all. Consumes (R.remaining reader.old.inner) (R.remaining reader.new.inner) all.items × IsAtEnd (R.remaining reader.new.inner)) }
    ensures limit { IfOk result (λ all. length all.items ≤ limit) }
    ensures stopped { OnErr result ((got : List ℕ) × Consumes (R.remaining reader.old.inner) (R.remaining reader.new.inner) got × (length got ≤ limit + 1)) }
    ensures fault { result ≢ Err Fault.Write }
    ensures long { result ≡ Err Fault.TooLong → (got : List ℕ) × Consumes (R.remaining reader.old.inner) (R.remaining reader.new.inner) got × (length got ≡ limit + 1) }
    ensures cause { result ≡ Err Fault.Read → reader.new.failed ≡ true }
{
    let mut all = Vec::new(alloc);
    let Ok(mut room) = new_room(alloc, ROOM) else {
        return Err(Fault::Memory);
    };
    while all.len() <= limit {
        let want = (limit + 1 - all.len()).min(ROOM);
        match read_piece(reader, &mut room[..want], &mut all) {
            Ok(true) => {}
            Ok(false) => return Ok(all),
            Err(fault) => return Err(fault),
        }
    }
    Err(Fault::TooLong)
}
