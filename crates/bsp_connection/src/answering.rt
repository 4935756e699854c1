//! Answering the messages of a connection.

ghost use Rattle.std.specs.Prelude.{◌≡◌, ◌≤◌, ◌<◌, ◌+◌, ◌||◌, ◌==◌, ℕ, List, ◌++◌, length, take, true, false, None, Some, IfOk, OnOk, OnErr, is_some};
ghost use Rattle.bsp_connection.specs.Exchanges.{inquiry, used};
ghost use Rattle.bsp_connection.specs.Conversations.{HasRefusal, IsRun};
ghost use Rattle.bsp_routes.specs.Replies.{ReplyText, reply_text};
ghost use Rattle.bsp_routes.specs.Responses.{response};
ghost use Rattle.bsp_routes.specs.Scan.{head_len};
ghost use Rattle.bsp_connection.specs.Begun.{HasBody, HasUnread, IsHeaded, IsRead, head_in, request_in};
ghost use Rattle.bsp_connection.specs.Progress.{IsOn};
ghost use Rattle.bsp_connection.specs.Talks.{HasPassed, IsAnswered, IsRefused, Moves};
ghost use Rattle.bsp_connection.specs.Turns.{HasEnded, IsReady, WentOn};

use crate::connection::{Begun, Connection};
use crate::heads::{Sought, seek};
use crate::received::{from, up_to};
use crate::service::{Service, message_of};
use bsp_fields::NoRoom;
use bsp_routes::{HeadFault, HeadParts, Refused, Reply, Scan, interim, read_head, refusal};

/// The messages that were answered before the last that a connection may have.
const LAST: usize = 65_535;

/// The refusal of a head that does not end within the limit.
const TOO_LARGE: Refused = Refused {
    fault: HeadFault::HeadTooLarge,
    bare: false,
};

/// A connection whose messages a service answers.
type Talk<D, S> = Connection<<S as Service<D>>::Found, <S as Service<D>>::Body>;

/// Passes a piece of a body on to what takes it. `NoRoom`: the body is used and stays, and the piece has a byte.
fn pass<D, S: Service<D>>(
    service: &S,
    found: S::Found,
    body: &mut Option<S::Body>,
    piece: &[u8],
) -> Result<(), NoRoom>
    ensures taken { OnOk result ((bytes : List ℕ) → HasBody S.reads found body.old bytes → HasBody S.reads found body.new (bytes ++ piece.now)) }
    ensures kept { is_some body.new ≡ is_some body.old }
    ensures refused { OnErr result ((is_some body.old ≡ true) × (0 < length piece.now) × ((bytes : List ℕ) → HasBody S.reads found body.old bytes → HasBody S.reads found body.new bytes)) }
{
    match body {
        Some(body) => service.take(found, body, piece),
        None => Ok(()),
    }
}

/// Asks the service for its reply to a message, with the body that came, if there is one. `NoRoom`: there was no memory
/// for what the body is, and the desk is as it was.
fn ask<D, S: Service<D>>(
    received: &[u8],
    begun: &Begun<S::Found>,
    body: Option<S::Body>,
    service: &S,
    desk: &mut D,
) -> Result<Reply, NoRoom>
    requires headed { IsHeaded S.reads received.now begun.now }
    requires some { (bytes : List ℕ) × HasBody S.reads begun.now.found body bytes }
    ensures answered { IfOk result (λ reply. (bytes : List ℕ) → HasBody S.reads begun.now.found body bytes → S.means.steps desk.old (request_in (take begun.now.head received.now) begun.now.parts (used (is_some body) bytes)) (reply_text reply) desk.new) }
    ensures refused { OnErr result ((desk.new ≡ desk.old) × (is_some body ≡ true) × ((bytes : List ℕ) → HasBody S.reads begun.now.found body bytes → 0 < length bytes)) }
{
    let message = message_of(received, begun.head, &begun.parts);
    match body {
        Some(body) => service.answer_with(desk, &message, begun.found, body),
        None => Ok(service.answer(desk, &message, begun.found)),
    }
}

/// Puts out the response to the message whose head has so many bytes, and goes on after it.
fn end_message<F: Copy, B: Drop>(
    c: &mut Connection<F, B>,
    head: usize,
    reply: Reply,
    bare: bool,
    closes: bool,
)
    requires within { head ≤ length c.old.received.items }
    requires free { c.old.out.apart ≡ false }
    requires few { c.old.count < 65536 }
    ensures { IsAnswered head (response bare closes (reply_text reply)) closes c.old c.new }
{
    c.out.respond(reply, bare, closes);
    c.received.drop_front(head);
    c.begun = None;
    c.scan = Scan::start();
    c.seen = 0;
    c.count += 1;
    c.closed = closes;
    c.has_more = !closes && !c.received.is_empty();
}

/// Refuses the head at the front, and closes the connection.
fn refuse<D, S: Service<D>>(c: &mut Talk<D, S>, refused: Refused, service: &S, desk: &D)
    requires why { HasRefusal c.old.received.items refused }
    requires none { c.old.begun ≡ None }
    requires ready { IsReady S.means S.reads c.old }
    ensures { WentOn S.means S.reads c.old c.new desk.now desk.now }
{
    let reply = refusal(refused.fault);
    service.note(desk, c.number, None, &reply);
    let all = c.received.len();
    end_message(c, all, reply, refused.bare, true);
}

/// Takes note of the reply to a message, puts it out, and goes on after so many bytes.
fn respond<D, S: Service<D>>(
    c: &mut Talk<D, S>,
    begun: &Begun<S::Found>,
    reply: Reply,
    len: usize,
    closes: bool,
    service: &S,
    desk: &D,
)
    requires read { IsRead c.old.received.items begun.now.head begun.now.parts }
    requires within { len ≤ length c.old.received.items }
    requires free { c.old.out.apart ≡ false }
    requires few { c.old.count < 65536 }
    ensures { IsAnswered len (response begun.now.parts.wanted.bare closes (reply_text reply)) closes c.old c.new }
{
    let message = message_of(c.received.bytes(), begun.head, &begun.parts);
    service.note(desk, c.number, Some(&message), &reply);
    end_message(c, len, reply, begun.parts.wanted.bare, closes);
}

/// The message whose head was read, as it is begun.
fn headed<D, S: Service<D>>(
    received: &[u8],
    head: usize,
    parts: HeadParts,
    service: &S,
) -> Begun<S::Found>
    requires { IsRead received.now head parts }
    ensures headed { IsHeaded S.reads received.now result }
    ensures left { result.left ≡ result.parts.wanted.body }
{
    let message = message_of(received, head, &parts);
    let found = service.find(message.method, message.target);
    Begun {
        head,
        parts,
        found,
        left: parts.wanted.body,
    }
}

/// Whether a message is begun: its body is wanted, or its sender does not wait for that.
fn is_admitted<D, S: Service<D>>(
    received: &[u8],
    begun: &Begun<S::Found>,
    service: &S,
    desk: &mut D,
) -> bool
    requires { IsHeaded S.reads received.now begun.now }
    ensures begun { result ≡ true → IsRun S.means desk.old (inquiry begun.now.parts.wanted.expects (head_in (take begun.now.head received.now) begun.now.parts)) desk.new }
    ensures unwanted { result ≡ false → (begun.now.parts.wanted.expects ≡ true) × S.means.admits desk.old (head_in (take begun.now.head received.now) begun.now.parts) false desk.new }
{
    if !begun.parts.wanted.expects {
        return true;
    }
    let message = message_of(received, begun.head, &begun.parts);
    service.wants(desk, &message, begun.found)
}

/// Answers a message by its head alone, and closes the connection.
fn turn_away<D, S: Service<D>>(
    c: &mut Talk<D, S>,
    begun: &Begun<S::Found>,
    service: &S,
    desk: &mut D,
)
    requires headed { IsHeaded S.reads c.old.received.items begun.now }
    requires free { c.old.out.apart ≡ false }
    requires few { c.old.count < 65536 }
    ensures { (reply : ReplyText) × S.means.steps desk.old (head_in (take begun.now.head c.old.received.items) begun.now.parts) reply desk.new
        × IsAnswered (length c.old.received.items) (response begun.now.parts.wanted.bare true reply) true c.old c.new }
{
    let Ok(reply) = ask(c.received.bytes(), begun, None, service, desk) else {
        unreachable!()
    };
    let all = c.received.len();
    respond(c, begun, reply, all, true, service, desk);
}

/// Begins a message.
fn begin<D, S: Service<D>>(c: &mut Talk<D, S>, begun: Begun<S::Found>, service: &S)
    requires headed { IsHeaded S.reads c.old.received.items begun }
    requires left { begun.left ≡ begun.parts.wanted.body }
    requires none { c.old.begun ≡ None }
    requires ready { IsReady S.means S.reads c.old }
    ensures { (d e : D) → IsRun S.means d (inquiry begun.parts.wanted.expects (head_in (take begun.head c.old.received.items) begun.parts)) e → WentOn S.means S.reads c.old c.new d e }
{
    let message = message_of(c.received.bytes(), begun.head, &begun.parts);
    c.body = service.body(&message, begun.found);
    c.out.put(interim(begun.parts.wanted.expects));
    c.begun = Some(begun);
    c.has_more = true;
}

/// Reads the head at the front: begins its message, answers it by its head alone, or refuses it.
fn take_found<D, S: Service<D>>(c: &mut Talk<D, S>, head: usize, service: &S, desk: &mut D)
    requires found { head_len c.old.received.items ≡ Some head }
    requires short { head ≤ 16384 }
    requires none { c.old.begun ≡ None }
    requires ready { IsReady S.means S.reads c.old }
    ensures { WentOn S.means S.reads c.old c.new desk.old desk.new }
{
    let parts = match read_head(up_to(c.received.bytes(), head)) {
        Ok(parts) => parts,
        Err(refused) => return refuse(c, refused, service, desk),
    };
    let begun = headed::<D, S>(c.received.bytes(), head, parts, service);
    if is_admitted(c.received.bytes(), &begun, service, desk) {
        begin::<D, S>(c, begun, service);
    } else {
        turn_away(c, &begun, service, desk);
    }
}

/// Seeks the head of the next message.
fn take_head<D, S: Service<D>>(c: &mut Talk<D, S>, service: &S, desk: &mut D)
    requires none { c.old.begun ≡ None }
    requires ready { IsReady S.means S.reads c.old }
    ensures { WentOn S.means S.reads c.old c.new desk.old desk.new }
{
    let mut scan = c.scan;
    match seek(&mut scan, c.received.bytes(), c.seen) {
        Sought::Head(head) => take_found(c, head, service, desk),
        Sought::TooLong => refuse(c, TOO_LARGE, service, desk),
        Sought::Nothing => {
            c.seen = c.received.len();
            c.scan = scan;
            c.has_more = false;
        }
    }
}

/// Whether the connection closes after the response to a message that came after so many.
fn closes_after(wants_close: bool, count: usize) -> bool
    ensures { result ≡ (wants_close || count + 1 == 65536) }
{
    wants_close || count == LAST
}

/// Passes on what came of the body of the message that is begun, and answers what it is then. `NoRoom`: there was no
/// memory for it.
fn pass_on<D, S: Service<D>>(
    c: &mut Talk<D, S>,
    begun: &Begun<S::Found>,
    service: &S,
) -> Result<Begun<S::Found>, NoRoom>
    requires begun { c.old.begun ≡ Some begun.now }
    requires within { begun.now.head ≤ length c.old.received.items }
    ensures passed { IfOk result (HasPassed S.reads begun.now c.old c.new) }
    ensures refused { OnErr result (IsRefused begun.now c.old c.new) }
{
    let count = begun.left.min(c.received.len() - begun.head);
    let piece = up_to(from(c.received.bytes(), begun.head), count);
    pass(service, begun.found, &mut c.body, piece)?;
    c.received.cut_out(begun.head, count);
    let now = Begun {
        left: begun.left - count,
        ..*begun
    };
    c.begun = Some(now);
    c.has_more = now.left == 0;
    Ok(now)
}

/// Answers that there was no memory for the body of a message, and closes the connection.
fn unroomed<D, S: Service<D>>(c: &mut Talk<D, S>, begun: &Begun<S::Found>, service: &S, desk: &D)
    requires read { IsRead c.old.received.items begun.now.head begun.now.parts }
    requires free { c.old.out.apart ≡ false }
    requires few { c.old.count < 65536 }
    ensures { IsAnswered (length c.old.received.items) (response begun.now.parts.wanted.bare true S.means.no_room) true c.old c.new }
{
    c.body = None;
    let all = c.received.len();
    respond(c, begun, service.no_room(), all, true, service, desk);
}

/// Has the message answered that is begun and whose body is whole.
fn finish<D, S: Service<D>>(c: &mut Talk<D, S>, begun: &Begun<S::Found>, service: &S, desk: &mut D)
    requires begun { c.old.begun ≡ Some begun.now }
    requires whole { begun.now.left ≡ 0 }
    requires ready { IsReady S.means S.reads c.old }
    ensures { HasEnded S.means S.reads c.old c.new desk.old desk.new }
{
    let closes = closes_after(begun.parts.wanted.closes, c.count);
    let body = c.body.take();
    let Ok(reply) = ask(c.received.bytes(), begun, body, service, desk) else {
        return unroomed(c, begun, service, desk);
    };
    respond(c, begun, reply, begun.head, closes, service, desk);
}

/// Goes on with the body of the message that is begun.
fn take_body<D, S: Service<D>>(
    c: &mut Talk<D, S>,
    begun: &Begun<S::Found>,
    service: &S,
    desk: &mut D,
)
    requires begun { c.old.begun ≡ Some begun.now }
    requires ready { IsReady S.means S.reads c.old }
    ensures { WentOn S.means S.reads c.old c.new desk.old desk.new }
{
    let Ok(now) = pass_on(c, begun, service) else {
        return unroomed(c, begun, service, desk);
    };
    if now.left == 0 {
        finish(c, &now, service, desk);
    }
}

/// Takes the next message as far as it came: its head, and its body.
fn take_message<D, S: Service<D>>(c: &mut Talk<D, S>, service: &S, desk: &mut D)
    requires none { c.old.begun ≡ None }
    requires ready { IsReady S.means S.reads c.old }
    ensures { WentOn S.means S.reads c.old c.new desk.old desk.new }
{
    take_head(c, service, desk);
    if !c.out.is_free() {
        return;
    }
    if let Some(begun) = c.begun {
        take_body(c, &begun, service, desk);
    }
}

/// Goes on with what came, and has one message of it answered at the most. While the last response is not sent whose
/// parts were not copied, nothing is done.
///
/// Where there is no memory for a body the answer says so, and the connection closes.
pub fn go_on<D, S: Service<D>>(c: &mut Talk<D, S>, service: &S, desk: &mut D)
    requires { (unread : List ℕ) × HasUnread S.reads S.means.uses c.old unread }
    ensures moves { Moves S.means S.reads c.old c.new desk.old desk.new }
    ensures goes_on { c.old.closed ≡ false → c.old.out.apart ≡ false → IsOn c.old c.new }
    ensures shut { c.old.closed ≡ false → c.new.closed ≡ true → c.new.begun ≡ None }
    ensures number { c.new.number ≡ c.old.number }
    ensures room { c.new.received.room ≡ c.old.received.room }
{
    if c.closed || !c.out.is_free() {
        return;
    }
    match c.begun {
        Some(begun) => take_body(c, &begun, service, desk),
        None => take_message(c, service, desk),
    }
}
