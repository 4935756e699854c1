//! Answering a message with what its body is.

ghost use Rattle.std.specs.Prelude.{◌≡◌, ◌<◌, ℕ, List, length, None, Some, IfOk, OnErr, MatchResult};
ghost use Rattle.bsp_connection.specs.Exchanges.{request_of};
ghost use Rattle.bsp_routes.specs.Replies.{reply_text};
ghost use Rattle.bsp_desk.specs.Routed.{IsRouteOf};
ghost use Rattle.bsp_ret.specs.Lines.{lines};
ghost use Rattle.bsp_ret.specs.Table.{first_fault};
ghost use Rattle.bsp_http.specs.Bodies.{HasRet, IsFileRead, IsFound, ended};
ghost use Rattle.bsp_http.specs.Messages.{at_desk, content_of};

use crate::bodies::Found;
use crate::journal::Journal;
use bsp_connection::Message;
use bsp_desk::{BodyKind, Book, Content, Desk, Request, Route};
use bsp_fields::NoRoom;
use bsp_ret::{RetFault, RetFile, RetReader};
use bsp_routes::Reply;

/// The content that a body is, read as a RET file.
fn content_of<'f>(file: Result<&'f RetFile<'f>, RetFault>) -> Content<'f>
    ensures { result ≡ content_of file.entry }
{
    match file {
        Ok(file) => Content::File(file),
        Err(fault) => Content::Fault(fault),
    }
}

/// Answers a request with the bytes of its body: none of one that is not used.
pub(crate) fn answer_bytes<B: Book, J: Journal<B>>(
    journal: &J,
    desk: &mut Desk<B>,
    message: &Message<'_>,
    route: Route,
    body: &[u8],
) -> Reply
    requires { IsRouteOf message.now.method.now message.now.target.now route }
    ensures { (at_desk B.means).steps desk.old (request_of message.now body.now) (reply_text result) desk.new }
{
    let call = route.asking(message.method, message.target);
    let request = Request {
        token: message.token,
        call,
        content: Content::Bytes(body),
    };
    journal.note_asking();
    let reply = desk.answer(&request);
    journal.note_body(call, body, &reply);
    reply
}

/// Answers a request whose body was read as a RET file: with the file, or its first fault.
fn answer_file<B: Book, J: Journal<B>>(
    journal: &J,
    desk: &mut Desk<B>,
    message: &Message<'_>,
    found: Found,
    file: Result<&RetFile<'_>, RetFault>,
) -> Reply
    requires found { IsFound message.now.method.now message.now.target.now found }
    requires kind { found.kind ≡ BodyKind.Ret }
    ensures { (bytes : List ℕ) → IsFileRead bytes file.entry → (at_desk B.means).steps desk.old (request_of message.now bytes) (reply_text result) desk.new }
{
    let call = found.route.asking(message.method, message.target);
    let request = Request {
        token: message.token,
        call,
        content: content_of(file),
    };
    journal.note_asking();
    desk.answer(&request)
}

/// Ends a RET file: judges a last line without an end, and whether the file is whole.
fn end(reader: &mut RetReader) -> Result<(), RetFault>
    ensures { (bytes : List ℕ) → HasRet reader.old bytes → MatchResult result
        (λ _. (first_fault (lines bytes) ≡ None) × (reader.new ≡ ended bytes))
        (λ fault. first_fault (lines bytes) ≡ Some fault) }
{
    reader.finish()
}

/// Answers a request with the RET file that its body is, or the first fault of it.
///
/// # Errors
///
/// `NoRoom` where there was no memory for the file. The desk is then as it was.
pub(crate) fn answer_read<B: Book, J: Journal<B>>(
    journal: &J,
    desk: &mut Desk<B>,
    message: &Message<'_>,
    found: Found,
    reader: &mut RetReader,
) -> Result<Reply, NoRoom>
    requires found { IsFound message.now.method.now message.now.target.now found }
    requires kind { found.kind ≡ BodyKind.Ret }
    ensures answered { IfOk result (λ reply. (bytes : List ℕ) → HasRet reader.old bytes → (at_desk B.means).steps desk.old (request_of message.now bytes) (reply_text reply) desk.new) }
    ensures refused { OnErr result ((desk.new ≡ desk.old) × ((bytes : List ℕ) → HasRet reader.old bytes → 0 < length bytes)) }
{
    if let Err(fault) = end(reader) {
        return Ok(answer_file(journal, desk, message, found, Err(fault)));
    }
    match reader.file() {
        Ok(file) => Ok(answer_file(journal, desk, message, found, Ok(&file))),
        Err(_) => Err(NoRoom),
    }
}
