//! The office over HTTP: a connection is served at its desk, by its routes.
//!
//! [`serve`] cuts messages from what a peer sends, has the desk answer them, and writes the responses, as
//! `docs/API.md` has it. [`serve_all`] does so for many connections at once, in one thread. [`messages_are_run`] is the
//! law that what connections ask of a desk is a run of requests, so that all that holds of a run holds of them.
#![tactic(auto)]

mod answers;
mod bodies;
mod connection;
mod journal;
mod laws;
mod office;

pub use bsp_connection::{End, Message, ServeFault, Served};
pub use bsp_routes::{Reply, Routes, Status};
pub use bsp_streams::{Awaited, Ending, Happened, Limits, Moved, Noted, Peers};
pub use connection::{serve, serve_all};
pub use journal::{Journal, NoJournal};
pub use laws::{messages_are_read, messages_are_run};
