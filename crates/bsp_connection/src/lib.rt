//! Connections of HTTP/1.1 (RFC 9112), over any service that answers their messages.
//!
//! A [`Connection`] has no input and output: [`Connection::feed`] takes the bytes of the peer as they come, in any pieces,
//! [`go_on`] has at most one message answered, and [`Connection::output`] is what is to be sent next. What others ask of the
//! desk in the meantime makes no difference to what the bytes are cut into, as `docs/API.md` has it. [`Http`] is all this
//! for the loop over many connections, `bsp_streams`. [`serve`] reads and writes one connection to its end.
#![tactic(auto)]

mod answering;
mod connection;
mod heads;
mod output;
mod protocol;
mod received;
mod service;
mod serving;

pub use answering::go_on;
pub use connection::{Begun, Connection};
pub use output::Output;
pub use protocol::Http;
pub use service::{Message, Service};
pub use serving::{End, ServeFault, Served, serve};
