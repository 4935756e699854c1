//! Reading and writing, of one stream and of many connections at once, whatever is said and whatever carries the bytes.
//!
//! [`Noted`] is a reader or a writer with notes of how its calls ended. They are made again where a signal interrupts them.
//! [`send`] and [`send_all`] write texts whole, or a first part of them where a write fails.
//!
//! [`Peers`] accept connections, read and write; a [`Protocol`] says what is answered to what came. [`serve_all`] waits
//! for the peers in one thread, and gives each connection that is ready one turn: a read, an answer, a write.
#![tactic(auto)]

mod held;
mod noted;
mod peers;
mod protocol;
mod sending;
mod serving;
mod turn;

pub use noted::Noted;
pub use peers::{Awaited, Ending, Happened, Moved, Peers};
pub use protocol::{Protocol, State};
pub use sending::{WriteFault, send, send_all, send_on};
pub use serving::{Limits, serve_all};
