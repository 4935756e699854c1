//! Why the head of a message is refused.

/// Why a head is refused. After each of them the connection closes.
///
/// The first that applies is answered. The order is: too large, malformed (no head, or a fault of
/// `Host`), a transfer coding, and a length that is malformed, missing or too large.
#[derive(Clone, Copy)]
pub enum HeadFault {
    /// The text is no head of a request. Or it has several `Host` fields, one whose value is no host,
    /// or none on HTTP/1.1 (RFC 9112, 3.2). Or its `Content-Length` comes twice or is not made of
    /// digits (RFC 9110, 8.6). Status 400, T01.
    Malformed,
    /// A POST has no `Content-Length` (RFC 9110, 15.5.12). Status 411, T02.
    LengthRequired,
    /// The body is longer than [`BODY_LIMIT`](crate::BODY_LIMIT) (RFC 9110, 15.5.14). Status 413, T03.
    BodyTooLarge,
    /// The head has more than [`HEAD_LIMIT`](crate::HEAD_LIMIT) bytes or [`FIELD_LIMIT`](crate::FIELD_LIMIT)
    /// fields (RFC 6585, section 5). Status 431, T04.
    HeadTooLarge,
    /// The head has a `Transfer-Encoding`, of which none is taken (RFC 9112, 6.1). Status 501, T05.
    TransferCoding,
}

/// A refusal of a head, and the form of its answer.
#[derive(Clone, Copy)]
pub struct Refused {
    /// The first fault that applies.
    pub fault: HeadFault,
    /// Whether the answer leaves its body out: the text was read as a head, and its method is HEAD
    /// (RFC 9110, 9.3.2).
    pub bare: bool,
}
