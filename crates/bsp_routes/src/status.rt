//! Statuses and media types.

ghost use Rattle.std.specs.Prelude.{◌≡◌};
ghost use Rattle.bsp_routes.specs.Replies.{code};

/// The status of a response (RFC 9110, section 15).
#[derive(Clone, Copy, PartialEq, Eq)]
pub enum Status {
    /// 200: the request is answered.
    Ok,
    /// 400: the head or the body is malformed.
    BadRequest,
    /// 403: the caller is not let in.
    Forbidden,
    /// 404: there is no such path, document or memo.
    NotFound,
    /// 405: the path has other methods.
    MethodNotAllowed,
    /// 409: the content refuses the request.
    Conflict,
    /// 411: a body without its length.
    LengthRequired,
    /// 413: the body is too long.
    PayloadTooLarge,
    /// 422: the RET file has a fault.
    UnprocessableEntity,
    /// 431: the head is too long (RFC 6585, section 5).
    RequestHeaderFieldsTooLarge,
    /// 501: the body has a transfer coding.
    NotImplemented,
    /// 503: there is no room, or the store failed.
    ServiceUnavailable,
}

impl Status {
    /// The status code of three digits.
    pub fn code(self) -> u16
        ensures { result ≡ code self }
    {
        match self {
            Status::Ok => 200,
            Status::BadRequest => 400,
            Status::Forbidden => 403,
            Status::NotFound => 404,
            Status::MethodNotAllowed => 405,
            Status::Conflict => 409,
            Status::LengthRequired => 411,
            Status::PayloadTooLarge => 413,
            Status::UnprocessableEntity => 422,
            Status::RequestHeaderFieldsTooLarge => 431,
            Status::NotImplemented => 501,
            Status::ServiceUnavailable => 503,
        }
    }
}

/// The media type of a body (RFC 9110, 8.3).
#[derive(Clone, Copy)]
pub enum Media {
    /// `application/json` (RFC 8259).
    Json,
    /// `text/plain`: a statement, a settlement or a HOT file.
    Text,
}
