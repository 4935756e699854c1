//! What an HTTP request asks for: its head, and which call of the office its method and its target are. What is answered
//! to it: a [`Reply`], from the desk to the bytes that are sent, and the head of the response.
//!
//! [`Scan`] finds the end of a request's head in bytes that come in pieces, and looks at each byte once. [`read_head`]
//! reads a whole head (RFC 9112) with `httparse`: what it asks for, or its first fault, which [`refusal`] answers. Nothing
//! is copied.
//!
//! [`Routes::ask`] answers with the [`Call`] whose path the target is, with another method than those of the
//! target's resource, or with no route. What a path value says is read elsewhere. The routes are in `docs/API.md`.
//!
//! [`ResponseHead`] is the head of a response: in a room of its own, or appended to bytes that have room. [`interim`] is
//! what is sent before a body is read. Of the public calls only [`Routes::new`] takes memory.
#![tactic(auto)]

mod append;
mod asking;
mod body;
mod call;
mod elements;
mod fault;
mod fields;
mod found;
mod host;
mod judge;
mod length;
mod lines;
mod methods;
mod named;
mod parts;
mod patterns;
mod read;
mod refused;
mod reply;
mod resource;
mod response_head;
mod route;
mod routes;
mod scan;
mod status;
mod target;
mod text;
mod values;

pub use asking::Asking;
pub use body::BodyKind;
pub use call::{AgentCall, AirlineCall, Call, OfficeCall};
pub use fault::{HeadFault, Refused};
pub use length::BODY_LIMIT;
pub use methods::Methods;
pub use parts::{HeadParts, Wanted};
pub use read::{FIELD_LIMIT, HEAD_LIMIT, read_head};
pub use refused::refusal;
pub use reply::Reply;
pub use response_head::{HEAD_ROOM, ResponseHead, interim};
pub use route::{Located, Route};
pub use routes::Routes;
pub use scan::Scan;
pub use status::{Media, Status};
pub use text::HeadText;
