//! What the head of a message states.

use httparse::spans::Span;

/// What a head asks for.
#[derive(Clone, Copy)]
pub struct Wanted {
    /// The bytes of the request's body; 0 where it has none (RFC 9112, 6.3).
    pub body: usize,
    /// Whether the connection closes after the answer (RFC 9112, 9.3 and 9.6): HTTP/1.0, or a `Connection`
    /// field with the element `close`.
    pub closes: bool,
    /// Whether `100 Continue` goes out before the body is read (RFC 9110, 10.1.1): HTTP/1.1, a body, and an
    /// `Expect` field whose value is `100-continue`.
    pub expects: bool,
    /// Whether the answer leaves its body out: the method is HEAD (RFC 9110, 9.3.2).
    pub bare: bool,
}

/// A head that was read: where its parts are in its text, and what it asks for.
#[derive(Clone, Copy)]
pub struct HeadParts {
    /// The method (RFC 9110, section 9).
    pub method: Span,
    /// The target, as it was sent (RFC 9112, 3.2).
    pub target: Span,
    /// The value of the one `Bsp-Token` field; none where no field or several have that name.
    pub token: Option<Span>,
    /// What the head asks for.
    pub wanted: Wanted,
}
