//! The desk: it answers the requests of any callers, one after the other, over any [`Book`](bsp_book::Book).
//!
//! The rules are those of `docs/API.md`, and `bsp_office_spec` defines them. Each request is one transaction of the
//! book: its reply is made before the commit, so a refusal and a 503 B01 leave the rows as they were.
//!
//! `bsp_desk_writes` serves the requests that change the book. Those that show what is in it are served here, each in the
//! open transaction of the book, and change nothing: the settlement of a period, an agent's statement, its sums in a
//! period, its documents and its stock, and an airline's HOT file.
#![tactic(auto)]

mod agent;
mod airline;
mod caller;
mod desk;
mod documents;
mod hot_files;
mod instructed;
mod instruction;
mod laws;
mod office;
mod periods;
mod request;
mod serve;
mod settlements;
mod statements;
mod stocks;
mod token;
mod transaction;
mod wanted;

pub use bsp_book::{Book, BookFault};
pub use bsp_desk_writes::Content;
pub use bsp_messages::RequestRefusal;
pub use bsp_routes::{Asking, BodyKind, Reply, Route};
pub use bsp_rows::Token;
pub use desk::Desk;
pub use instruction::Instruction;
pub use laws::{books_reply_alike, hot_replies_pass, replies_are_alike, requests_are_read};
pub use request::Request;
