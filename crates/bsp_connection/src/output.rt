//! What is put out on a connection and not yet sent.

ghost use Rattle.std.specs.Prelude.{◌≡◌, ◌≤◌, ◌-◌, ◌+◌, List, ℕ, [], ◌++◌, length, take, drop, not, Bool, true, false, if◌then◌else◌};
ghost use Rattle.std.specs.Cow.{cow_slice_items};
ghost use Rattle.bsp_routes.specs.ResponseHeads.{head_text};
ghost use Rattle.bsp_routes.specs.Replies.{reply_text};
ghost use Rattle.bsp_routes.specs.Responses.{reply_head, response};
ghost use Rattle.bsp_connection.specs.Outputs.{HasOutput, head_bytes};

use crate::received::from;
use bsp_routes::{HEAD_ROOM, HeadText, Reply, ResponseHead};
use std::alloc::Global;
use std::borrow::CowSlice;
use std::marker::Model;

/// The most bytes of a body that is copied to its head, so that both are sent by one write.
const COPIED: usize = 2048;

/// The bytes for which room is made with the first response, so that a few that are sent together find room.
const FIRST: usize = 1024;

/// The parts of a response, and how much of each was sent. A contract sees the bytes that are not yet sent, and those
/// that are sent next.
#[derive(Drop)]
pub(crate) struct Apart {
    // None where there is one text alone.
    head: Option<HeadText>,
    body: CowSlice<'static, u8, Global>,
    head_sent: usize,
    body_sent: usize,
}

impl Model for Apart {
    ghost use Rattle.std.specs.Prelude.{length, ◌≤◌};
    ghost use Rattle.std.specs.Cow.{cow_slice_items};
    ghost use Rattle.bsp_connection.specs.Outputs.{Rest, head_bytes, rest_of};

    ghost Value = { Rest };

    ghost view = { λ a. rest_of (head_bytes a.head) a.head_sent (cow_slice_items a.body) a.body_sent };

    ghost invariant = { λ a. (a.head_sent ≤ length (head_bytes a.head)) × (a.body_sent ≤ length (cow_slice_items a.body)) };
}

/// The bytes of a head that may be there.
fn head_of(head: &Option<HeadText>) -> &[u8]
    ensures { result.now ≡ head_bytes head.now }
{
    match head {
        Some(head) => head.as_bytes(),
        None => b"",
    }
}

impl Apart {
    /// A response, or a text with no head.
    pub(crate) fn new(head: Option<HeadText>, body: CowSlice<'static, u8, Global>) -> Apart
        ensures { result.bytes ≡ head_bytes head ++ cow_slice_items body.entry }
    {
        Apart {
            head,
            body,
            head_sent: 0,
            body_sent: 0,
        }
    }

    /// Whether all is sent.
    pub(crate) fn is_empty(&self) -> bool
        ensures { result ≡ true → self.now.bytes ≡ [] }
    {
        self.head_sent == head_of(&self.head).len() && self.body_sent == self.body.as_slice().len()
    }

    /// What is sent next.
    pub(crate) fn front(&self) -> &[u8]
        ensures { result.now ≡ self.now.front }
    {
        let head = head_of(&self.head);
        if self.head_sent < head.len() {
            return from(head, self.head_sent);
        }
        from(self.body.as_slice(), self.body_sent)
    }

    /// The rest of the head, and that of the body.
    pub(crate) fn parts(&self) -> (&[u8], &[u8])
        ensures { result.0.now ++ result.1.now ≡ self.now.bytes }
    {
        (
            from(head_of(&self.head), self.head_sent),
            from(self.body.as_slice(), self.body_sent),
        )
    }

    /// Drops the first bytes of what is sent next.
    pub(crate) fn sent(&mut self, count: usize)
        requires { count ≤ length self.old.front }
        ensures { self.old.bytes ≡ take count self.old.front ++ self.new.bytes }
    {
        let head = head_of(&self.head);
        if self.head_sent < head.len() {
            self.head_sent = after(head, self.head_sent, count);
        } else {
            self.body_sent = after(self.body.as_slice(), self.body_sent, count);
        }
    }
}

/// The place after so many bytes from a place on.
fn after(bytes: &[u8], at: usize, count: usize) -> usize
    requires within { at ≤ length bytes.now }
    requires count { count ≤ length (drop at bytes.now) }
    ensures within { result ≤ length bytes.now }
    ensures rest { drop at bytes.now ≡ take count (drop at bytes.now) ++ drop result bytes.now }
{
    at + count
}

/// What is to be sent: texts that were put together, and after them at most one response whose parts are kept apart. A
/// contract sees the bytes that are not yet sent, those that are sent next, and whether there is such a response.
#[derive(Drop)]
pub struct Output {
    alloc: Global,
    texts: Vec<u8>,
    // How much of the texts was sent.
    sent: usize,
    apart: Option<Apart>,
}

impl Model for Output {
    ghost use Rattle.std.specs.Prelude.{length, ◌≤◌};
    ghost use Rattle.bsp_connection.specs.Outputs.{Put, put_of};

    ghost Value = { Put };

    ghost view = { λ o. put_of o.texts.items o.sent o.apart };

    ghost invariant = { λ o. o.sent ≤ length o.texts.items };
}

/// Appends a response with a small body, or nothing where there is no room.
fn append_response(texts: &mut Vec<u8>, head: &ResponseHead, body: &[u8]) -> bool
    ensures { texts.new.items ≡ (if result then texts.old.items ++ (head_text head.now ++ body.now) else texts.old.items) }
{
    if body.len() > COPIED {
        return false;
    }
    let room = HEAD_ROOM.saturating_add(body.len());
    let wanted = if texts.is_empty() {
        room.max(FIRST)
    } else {
        room
    };
    if texts.reserve(wanted).is_err() {
        return false;
    }
    head.append_to(texts);
    let _ = texts.extend_from_slice(body);
    true
}

/// The body of the response with this reply, which may be left out.
fn body_for(reply: Reply, bare: bool) -> CowSlice<'static, u8, Global>
    ensures { cow_slice_items result ≡ (if bare then [] else (reply_text reply).body) }
{
    if bare {
        return CowSlice::Borrowed(b"");
    }
    reply.body
}

/// The head of the response with this reply.
fn head_for(reply: &Reply, closes: bool) -> ResponseHead
    ensures { result ≡ reply_head closes (reply_text reply.now) }
{
    ResponseHead {
        status: reply.status,
        media: reply.media,
        length: reply.body.as_slice().len(),
        allow: reply.allow,
        closes,
    }
}

impl Output {
    /// Nothing that is to be sent. It takes no memory.
    pub fn new(alloc: Global) -> Output
        ensures none { result.bytes ≡ [] }
        ensures free { result.apart ≡ false }
    {
        Output {
            alloc,
            texts: Vec::new(alloc),
            sent: 0,
            apart: None,
        }
    }

    /// Whether something more may be put out.
    pub fn is_free(&self) -> bool
        ensures { result ≡ not self.now.apart }
    {
        self.apart.is_none()
    }

    /// All that is to be sent, in three parts.
    pub(crate) fn parts(&self) -> (&[u8], &[u8], &[u8])
        ensures { result.0.now ++ (result.1.now ++ result.2.now) ≡ self.now.bytes }
    {
        let (head, body): (&[u8], &[u8]) = match &self.apart {
            Some(apart) => apart.parts(),
            None => (b"", b""),
        };
        (from(&self.texts, self.sent), head, body)
    }

    /// Drops all of it, which was sent. The memory of the texts is used again.
    pub(crate) fn clear(&mut self)
        ensures none { self.new.bytes ≡ [] }
        ensures free { self.new.apart ≡ false }
    {
        self.texts.clear();
        self.sent = 0;
        self.apart = None;
    }

    /// Whether all is sent.
    pub fn is_empty(&self) -> bool
        ensures sent { result ≡ true → self.now.bytes ≡ [] }
        ensures waits { result ≡ false → HasOutput self.now }
    {
        self.sent == self.texts.len() && self.apart.is_none()
    }

    /// What is sent next: none if and only if all is sent.
    pub fn front(&self) -> &[u8]
        ensures { result.now ≡ self.now.front }
    {
        if self.sent < self.texts.len() {
            return from(&self.texts, self.sent);
        }
        match &self.apart {
            Some(apart) => apart.front(),
            None => b"",
        }
    }

    /// Drops the first bytes of [`Output::front`], which were sent.
    pub fn sent(&mut self, count: usize)
        requires { count ≤ length self.old.front }
        ensures { self.old.bytes ≡ take count self.old.front ++ self.new.bytes }
    {
        if self.sent < self.texts.len() {
            self.sent = after(&self.texts, self.sent, count);
            self.drop_texts();
            return;
        }
        if let Some(apart) = &mut self.apart {
            apart.sent(count);
        }
        self.drop_apart();
    }

    /// Gives the memory of the texts back, where all of them were sent.
    fn drop_texts(&mut self)
        ensures { self.new.bytes ≡ self.old.bytes }
    {
        if self.sent == self.texts.len() {
            self.texts = Vec::new(self.alloc);
            self.sent = 0;
        }
    }

    /// Drops the response that is apart, where all of it was sent.
    fn drop_apart(&mut self)
        ensures { self.new.bytes ≡ self.old.bytes }
    {
        let is_sent = match &self.apart {
            Some(apart) => apart.is_empty(),
            None => false,
        };
        if is_sent {
            self.apart = None;
        }
    }

    /// Puts out a text.
    pub fn put(&mut self, text: &'static [u8])
        requires { self.old.apart ≡ false }
        ensures { self.new.bytes ≡ self.old.bytes ++ text.now }
    {
        if text.is_empty() {
            return;
        }
        if self.texts.extend_from_slice(text).is_err() {
            self.put_apart(None, CowSlice::Borrowed(text));
        }
    }

    /// Puts out the response with this reply. `bare`: its body is left out (RFC 9110, 9.3.2). `closes`: the connection
    /// closes after it. It always succeeds: where there is no memory for a copy, its parts are kept apart.
    pub fn respond(&mut self, reply: Reply, bare: bool, closes: bool)
        requires { self.old.apart ≡ false }
        ensures { self.new.bytes ≡ self.old.bytes ++ response bare closes (reply_text reply) }
    {
        let head = head_for(&reply, closes);
        let body = body_for(reply, bare);
        let bytes = body.as_slice();
        if append_response(&mut self.texts, &head, bytes) {
            return;
        }
        self.put_apart(Some(head.text()), body);
    }

    /// Puts out texts that are kept apart.
    fn put_apart(&mut self, head: Option<HeadText>, body: CowSlice<'static, u8, Global>)
        requires { self.old.apart ≡ false }
        ensures { self.new.bytes ≡ self.old.bytes ++ (head_bytes head ++ cow_slice_items body.entry) }
    {
        self.apart = Some(Apart::new(head, body));
    }
}
