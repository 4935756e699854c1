//! Laws of what connections ask of a desk.

ghost use Rattle.bsp_http.specs.Laws.{EachMessageIsRead, MessagesRun};

use bsp_desk::Book;

/// Each message that asks for something is read as some request of `bsp_office_spec`.
pub fn messages_are_read()
    ensures { EachMessageIsRead }
{}

/// What a connection asks of a desk is a run of requests, one after the other, and its messages have
/// readings. However they are read, what their replies send is a run of `bsp_office_spec` from sound rows. So an agent's replies
/// depend on its own items alone, and an airline's on those bearing its code, a 503 apart.
pub fn messages_are_run<B: Book>()
    ensures { MessagesRun B.means }
{}
