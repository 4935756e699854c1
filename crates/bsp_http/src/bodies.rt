//! What takes the bodies of requests.

ghost use Rattle.std.specs.Prelude.{◌≡◌, ◌<◌, ◌++◌, ℕ, List, [], length, None, is_some, IfSome, OnOk, OnErr};
ghost use Rattle.bsp_http.specs.Bodies.{HasBody, HasRet};
ghost use Rattle.bsp_desk.specs.Callers.{has_body};
ghost use Rattle.bsp_desk.specs.RoutesCalls.{asking_text};
ghost use Rattle.bsp_http.specs.Uses.{kind_of};

use bsp_desk::{Asking, BodyKind, Route};
use bsp_fields::NoRoom;
use bsp_ret::RetReader;
use std::alloc::Global;

/// What a method and a target ask for.
#[derive(Clone, Copy)]
pub(crate) struct Found {
    /// The route.
    pub(crate) route: Route,
    /// The kind of its body.
    pub(crate) kind: BodyKind,
}

/// The kind of the body of what is asked for; what asks for no call has none.
pub(crate) fn kind_of(asking: Asking<&[u8]>) -> BodyKind
    ensures { result ≡ kind_of (asking_text asking.entry) }
{
    match asking {
        Asking::Call(call) => call.body_kind(),
        Asking::OtherMethod(_) | Asking::NoRoute => BodyKind::NoBody,
    }
}

/// A body as it comes.
#[derive(Drop)]
pub(crate) enum RequestBody {
    /// Kept whole, in a buffer that grows.
    Kept(Vec<u8>),
    /// Read as a RET file, of which the reader has the only copy. After a fault the rest is dropped.
    File(RetReader),
}

impl RequestBody {
    /// What takes the body of a request for which this was found; none where it is not used. It takes no memory.
    pub(crate) fn new(alloc: Global, found: Found) -> Option<RequestBody>
        ensures used { is_some result ≡ has_body found.kind }
        ensures fresh { IfSome result (λ body. HasBody found body []) }
    {
        match found.kind {
            BodyKind::NoBody => None,
            BodyKind::Ret => Some(RequestBody::File(RetReader::new(alloc))),
            BodyKind::PlanText | BodyKind::Json => Some(RequestBody::Kept(Vec::new(alloc))),
        }
    }

    /// Takes the next piece.
    ///
    /// # Errors
    ///
    /// `NoRoom` where memory for the piece, of one byte or more, was refused. It then has what it had.
    pub(crate) fn take(&mut self, piece: &[u8]) -> Result<(), NoRoom>
        ensures taken { OnOk result ((found : Found) (bytes : List ℕ) → HasBody found self.old bytes → HasBody found self.new (bytes ++ piece.now)) }
        ensures refused { OnErr result ((0 < length piece.now) × ((found : Found) (bytes : List ℕ) → HasBody found self.old bytes → HasBody found self.new bytes)) }
    {
        match self {
            RequestBody::Kept(bytes) => Ok(bytes.extend_from_slice(piece)?),
            RequestBody::File(reader) => read_on(reader, piece),
        }
    }
}

/// Feeds the next piece to a reader of a RET file.
///
/// # Errors
///
/// `NoRoom` where memory for the piece, of one byte or more, was refused. The reader then has what it had.
fn read_on(reader: &mut RetReader, piece: &[u8]) -> Result<(), NoRoom>
    ensures taken { OnOk result ((bytes : List ℕ) → HasRet reader.old bytes → HasRet reader.new (bytes ++ piece.now)) }
    ensures refused { OnErr result ((0 < length piece.now) × ((bytes : List ℕ) → HasRet reader.old bytes → HasRet reader.new bytes)) }
{
    if piece.is_empty() {
        return Ok(());
    }
    match reader.feed(piece) {
        // F10 alone is the fault of no record.
        Err(fault) if fault.at == 0 => Err(NoRoom),
        _ => Ok(()),
    }
}
