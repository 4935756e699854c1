//! What takes note of an office's replies.

use bsp_connection::Message;
use bsp_desk::{Asking, Book, Desk};
use bsp_routes::Reply;

/// Takes note of the replies of an office over a book of type `B`.
pub trait Journal<B: Book> {
    /// Takes note of the body of a request that was answered, before the reply is noted: of one that is read as a RET
    /// file while it comes there is none.
    fn note_body(&self, asking: Asking<&[u8]>, body: &[u8], reply: &Reply);

    /// Takes note that the desk is asked next.
    fn note_asking(&self);

    /// Takes note of a reply before it is written, with the number of its connection: of the message too, where its head
    /// was read.
    fn note(&self, desk: &Desk<B>, connection: u64, message: Option<&Message<'_>>, reply: &Reply);
}

/// Takes note of nothing.
#[derive(Clone, Copy, PartialEq, Eq)]
pub struct NoJournal;

impl<B: Book> Journal<B> for NoJournal {
    fn note_body(&self, _asking: Asking<&[u8]>, _body: &[u8], _reply: &Reply) {}

    fn note_asking(&self) {}

    fn note(
        &self,
        _desk: &Desk<B>,
        _connection: u64,
        _message: Option<&Message<'_>>,
        _reply: &Reply,
    ) {}
}
