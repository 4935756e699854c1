//! What an office answers to the messages of a connection.

ghost use Rattle.std.specs.Prelude.{◌≡◌};
ghost use Rattle.bsp_http.specs.Bodies.{at_routes};
ghost use Rattle.bsp_http.specs.Messages.{at_desk};

use crate::answers::{answer_bytes, answer_read};
use crate::bodies::{Found, RequestBody, kind_of};
use crate::journal::Journal;
use bsp_connection::{Message, Service};
use bsp_desk::{Book, Desk, RequestRefusal};
use bsp_fields::NoRoom;
use bsp_routes::{Reply, Routes};
use std::alloc::Global;

/// Answers messages at the office's desk, by the office's routes.
#[derive(Drop)]
pub(crate) struct Office<'r, J> {
    /// Where bodies take memory.
    pub(crate) alloc: Global,
    /// The routes.
    pub(crate) routes: &'r Routes,
    /// What takes note of the replies.
    pub(crate) journal: &'r J,
}

impl<'r, B: Book, J: Journal<B>> Service<Desk<B>> for Office<'r, J> {
    type Found = Found;

    type Body = RequestBody;

    ghost means = { at_desk B.means };

    ghost reads = { at_routes };

    fn find(&self, method: &[u8], target: &[u8]) -> Found {
        let route = self.routes.find(method, target);
        Found {
            route,
            kind: kind_of(route.asking(method, target)),
        }
    }

    fn wants(&self, desk: &mut Desk<B>, message: &Message<'_>, found: Found) -> bool {
        let asking = found.route.asking(message.method, message.target);
        match desk.wants_body(message.token, asking) {
            Ok(wanted) => wanted,
            Err(_) => true,
        }
    }

    fn body(&self, _message: &Message<'_>, found: Found) -> Option<RequestBody> {
        RequestBody::new(self.alloc, found)
    }

    fn take(&self, _found: Found, body: &mut RequestBody, piece: &[u8]) -> Result<(), NoRoom> {
        body.take(piece)
    }

    fn note(&self, desk: &Desk<B>, connection: u64, message: Option<&Message<'_>>, reply: &Reply) {
        self.journal.note(desk, connection, message, reply);
    }

    fn no_room(&self) -> Reply {
        RequestRefusal::NoRoom.reply()
    }

    fn answer(&self, desk: &mut Desk<B>, message: &Message<'_>, found: Found) -> Reply {
        answer_bytes(self.journal, desk, message, found.route, b"")
    }

    fn answer_with(
        &self,
        desk: &mut Desk<B>,
        message: &Message<'_>,
        found: Found,
        body: RequestBody,
    ) -> Result<Reply, NoRoom> {
        match body {
            RequestBody::Kept(bytes) => Ok(answer_bytes(
                self.journal,
                desk,
                message,
                found.route,
                &bytes,
            )),
            RequestBody::File(mut reader) => {
                answer_read(self.journal, desk, message, found, &mut reader)
            }
        }
    }
}
