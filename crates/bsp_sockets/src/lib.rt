//! Peers over TCP that are waited for by readiness: each has its turn, and its time.
//!
//! Each call is safe, returns, and counts within its buffer. When the time of a message or a response starts is proved,
//! and that turns come first in first out. What a socket holds no clause can say, so that turns come and times are kept
//! is only tested.
#![tactic(auto)]

mod connections;
mod door;
mod limits;
mod phase;
mod sockets;
mod time;
mod times;
mod turns;
mod watched;

pub use sockets::{Settings, Sockets};
