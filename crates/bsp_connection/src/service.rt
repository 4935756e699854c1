//! What answers the messages of a connection.

ghost use Rattle.std.specs.Prelude.{◌≡◌, ◌<◌, ◌++◌, ℕ, List, [], length, take, true, is_some, IfSome, IfOk, OnOk, OnErr};
ghost use Rattle.bsp_routes.specs.Replies.{reply_text};
ghost use Rattle.bsp_connection.specs.Begun.{IsRead, request_in};
ghost use Rattle.bsp_connection.specs.Exchanges.{Meaning, Reading, request_of};

use crate::received::up_to;
use bsp_fields::NoRoom;
use bsp_routes::{HeadParts, Reply};

/// A request whose head was read.
#[derive(Clone, Copy)]
pub struct Message<'m> {
    /// The method (RFC 9110, section 9).
    pub method: &'m [u8],
    /// The target, as it was sent (RFC 9112, 3.2).
    pub target: &'m [u8],
    /// The value of the one `Bsp-Token` field; none where no field or several have that name.
    pub token: Option<&'m [u8]>,
}

/// The message whose head is at the front, as its parts have it.
pub(crate) fn message_of<'m>(received: &'m [u8], head: usize, parts: &HeadParts) -> Message<'m>
    requires { IsRead received.now head parts.now }
    ensures { (body : List ℕ) → request_of result body ≡ request_in (take head received.now) parts.now body }
{
    let text = up_to(received, head);
    let token = match parts.token {
        Some(token) => Some(token.of(text)),
        None => None,
    };
    Message {
        method: parts.method.of(text),
        target: parts.target.of(text),
        token,
    }
}

/// Answers messages at a desk of type `D`.
pub trait Service<D> {
    /// What a method and a target ask for, as it is found once for a message.
    type Found: Copy;

    /// What takes the body of a request, piece by piece.
    type Body: Drop;

    // What is answered, and what the desk is then.
    ghost means: { Meaning D };

    // That a method and a target ask for what was found, and what a body has of the bytes that it took.
    ghost reads: { Reading Self.Found Self.Body };

    /// What a method and a target ask for.
    fn find(&self, method: &[u8], target: &[u8]) -> Self::Found
        ensures { Self.reads.finds method.now target.now result };

    /// Whether the body of a request is wanted, which its sender asks before it sends it (RFC 9110, 10.1.1). Where it is not,
    /// the request is answered without it.
    fn wants(&self, desk: &mut D, message: &Message<'_>, found: Self::Found) -> bool
        requires { Self.reads.finds message.now.method.now message.now.target.now found }
        ensures { Self.means.admits desk.old (request_of message.now []) result desk.new };

    /// What takes the body of a request, by what was found for it; none where its body is not used. It takes no memory.
    fn body(&self, message: &Message<'_>, found: Self::Found) -> Option<Self::Body>
        requires { Self.reads.finds message.now.method.now message.now.target.now found }
        ensures used { Self.means.uses message.now.method.now message.now.target.now (is_some result) }
        ensures fresh { IfSome result (λ body. Self.reads.has found body []) };

    /// Takes the next piece of a body.
    ///
    /// # Errors
    ///
    /// `NoRoom` where memory for the piece, of one byte or more, was refused. The body then has what it had.
    fn take(&self, found: Self::Found, body: &mut Self::Body, piece: &[u8]) -> Result<(), NoRoom>
        ensures taken { OnOk result ((bytes : List ℕ) → Self.reads.has found body.old bytes → Self.reads.has found body.new (bytes ++ piece.now)) }
        ensures refused { OnErr result ((0 < length piece.now) × ((bytes : List ℕ) → Self.reads.has found body.old bytes → Self.reads.has found body.new bytes)) };

    /// Takes note of a reply before it is written, with the number of its connection: of the message too, where its head
    /// was read.
    fn note(&self, desk: &D, connection: u64, message: Option<&Message<'_>>, reply: &Reply);

    /// What is answered to a request for whose body there was no memory. Takes no memory.
    fn no_room(&self) -> Reply
        ensures { reply_text result ≡ Self.means.no_room };

    /// Answers a request whose body is not used, or not wanted.
    fn answer(&self, desk: &mut D, message: &Message<'_>, found: Self::Found) -> Reply
        requires { Self.reads.finds message.now.method.now message.now.target.now found }
        ensures { Self.means.steps desk.old (request_of message.now []) (reply_text result) desk.new };

    /// Answers a request with its body.
    ///
    /// # Errors
    ///
    /// `NoRoom` where memory for what the body is, of one byte or more, was refused. The desk is then as it was.
    fn answer_with(
        &self,
        desk: &mut D,
        message: &Message<'_>,
        found: Self::Found,
        body: Self::Body,
    ) -> Result<Reply, NoRoom>
        requires found { Self.reads.finds message.now.method.now message.now.target.now found }
        requires some { (bytes : List ℕ) × Self.reads.has found body bytes }
        ensures answered { IfOk result (λ reply. (bytes : List ℕ) → Self.reads.has found body bytes → Self.means.steps desk.old (request_of message.now bytes) (reply_text reply) desk.new) }
        ensures refused { OnErr result ((desk.new ≡ desk.old) × ((bytes : List ℕ) → Self.reads.has found body bytes → 0 < length bytes)) };
}
